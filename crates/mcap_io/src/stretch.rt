//! Whole stretches: reading up to a length, and writing all of a piece.
ghost use Rattle.std.specs.Prelude.{◌≡◌, ◌≤◌, ◌<◌, ◌+◌, ◌-◌, length, take, drop, vec_len, [], IfOk, IfErr, OnErr, IsErrOf};
ghost use Rattle.mcap_io.specs.OutsideCalls.{HasCause, ReadCause, StretchTaken, WritesAll};
ghost use Rattle.mcap_io.specs.Stretch.{Fills, FillsFront, FillsBehind};

use crate::outside::{Failed, OutsideRefused, Short, Sink, Source};

/// How much room a stretch takes first, where its buffer has none.
const FIRST_ROOM: usize = 65_536;

// Reads until `out` is full or the input ends, and says how many bytes it read.
#[inline(always)]
fn fill<S: Source>(source: &mut S, out: &mut [u8]) -> Result<usize, Failed>
    ensures bound { IfOk result (λ n. n ≤ length out.new) }
    ensures fills { Fills (S.state source.old).left (S.state source.new).left out.new result }
    ensures cause { HasCause (S.state source.old).faults (S.state source.new).faults result }
    ensures stays { S.stays source.old source.new }
{
    let mut filled = 0;
    'fill: while filled < out.len() {
        match source.read(&mut out[filled..]) {
            Ok(0) => return Ok(filled),
            Ok(n) => filled += n,
            Err(Failed) => return Err(Failed),
        }
    }
    Ok(filled)
}

/// Reads until the first `len` bytes of `out` are filled or the input ends, and says how many bytes it read.
#[inline(always)]
pub(crate) fn fill_front<S: Source>(
    source: &mut S,
    out: &mut [u8],
    len: usize,
) -> Result<usize, Failed>
    requires { len ≤ length out.old }
    ensures bound { IfOk result (λ n. n ≤ len) }
    ensures fills { FillsFront (S.state source.old).left (S.state source.new).left out.new len result }
    ensures cause { HasCause (S.state source.old).faults (S.state source.new).faults result }
    ensures stays { S.stays source.old source.new }
{
    fill(source, &mut out[..len])
}

// Reads on behind the first `filled` bytes, until the buffer holds `room` or the input ends, and says how many bytes it
// read. Only room that is new is filled with zeros.
fn read_on<S: Source>(
    source: &mut S,
    buffer: &mut Vec<u8>,
    filled: usize,
    room: usize,
) -> Result<usize, OutsideRefused>
    requires within { filled ≤ vec_len buffer.old }
    requires some { filled < room }
    ensures bound { IfOk result (λ n. filled + n ≤ room) }
    ensures room { IfOk result (λ n. vec_len buffer.new ≡ room) }
    ensures front { IfOk result (λ n. take filled buffer.new.items ≡ take filled buffer.old.items) }
    ensures fills { FillsBehind (S.state source.old).left (S.state source.new).left (drop filled buffer.new.items)
        (room - filled) result }
    ensures cause { ReadCause (S.state source.old).faults (S.state source.new).faults result }
    ensures unread { IsErrOf result OutsideRefused.Memory → source.new ≡ source.old }
    ensures stays { S.stays source.old source.new }
{
    let more = room.saturating_sub(buffer.len());
    if buffer.reserve_exact(more).is_err() || buffer.resize(room, 0).is_err() {
        return Err(OutsideRefused::Memory);
    }
    match fill(source, &mut buffer[filled..]) {
        Ok(n) => return Ok(n),
        Err(Failed) => return Err(OutsideRefused::Failed),
    }
}

// Reads until the buffer holds `len` bytes or the input ends, where it is that long already.
#[inline(always)]
fn read_over<S: Source>(
    source: &mut S,
    buffer: &mut Vec<u8>,
    len: usize,
) -> Result<(), OutsideRefused>
    requires { len ≤ vec_len buffer.old }
    ensures bound { vec_len buffer.new ≤ len }
    ensures taken { StretchTaken (S.state source.old).left (S.state source.new).left len buffer.new.items result }
    ensures cause { ReadCause (S.state source.old).faults (S.state source.new).faults result }
    ensures refused { OnErr result (buffer.new.items ≡ []) }
    ensures failed { IfErr result (λ why. why ≡ OutsideRefused.Failed) }
    ensures stays { S.stays source.old source.new }
{
    buffer.truncate(len);
    match fill(source, buffer.as_mut_slice()) {
        Ok(n) => {
            buffer.truncate(n);
            return Ok(());
        }
        Err(Failed) => {
            buffer.clear();
            return Err(OutsideRefused::Failed);
        }
    }
}

// Reads until the buffer holds `len` bytes or the input ends, and makes room for them in steps.
#[inline(never)]
fn read_in_steps<S: Source>(
    source: &mut S,
    buffer: &mut Vec<u8>,
    len: usize,
) -> Result<(), OutsideRefused>
    ensures bound { vec_len buffer.new ≤ len }
    ensures taken { StretchTaken (S.state source.old).left (S.state source.new).left len buffer.new.items result }
    ensures cause { ReadCause (S.state source.old).faults (S.state source.new).faults result }
    ensures refused { OnErr result (buffer.new.items ≡ []) }
    ensures unread { IsErrOf result OutsideRefused.Memory → len ≤ 65536 → S.state source.new ≡ S.state source.old }
    ensures stays { S.stays source.old source.new }
{
    let mut filled = 0;
    let mut room = buffer.capacity().max(FIRST_ROOM).min(len);
    'steps: while filled < len {
        match read_on(source, buffer, filled, room) {
            Ok(n) => filled += n,
            Err(why) => {
                buffer.clear();
                return Err(why);
            }
        }
        if filled < room {
            buffer.truncate(filled);
            return Ok(());
        }
        room = room.saturating_mul(2).min(len);
    }
    buffer.truncate(filled);
    Ok(())
}

/// Reads until the buffer holds `len` bytes or the input ends, in place of what the buffer held. It holds fewer
/// than `len` only where the input ended. After a refusal it is empty. Where the buffer lacks room it grows in steps, so
/// that an input which ends early costs little more than it has; its capacity never falls. Where memory lacks for up to
/// 65,536 bytes, none is read.
#[inline(always)]
pub fn read_up_to<S: Source>(
    source: &mut S,
    buffer: &mut Vec<u8>,
    len: u64,
) -> Result<(), OutsideRefused>
    ensures bound { vec_len buffer.new ≤ len }
    ensures taken { StretchTaken (S.state source.old).left (S.state source.new).left len buffer.new.items result }
    ensures cause { ReadCause (S.state source.old).faults (S.state source.new).faults result }
    ensures refused { OnErr result (buffer.new.items ≡ []) }
    ensures unread { IsErrOf result OutsideRefused.Memory → len ≤ 65536 → S.state source.new ≡ S.state source.old }
    ensures stays { S.stays source.old source.new }
{
    let len = len as usize;
    if len <= buffer.len() {
        return read_over(source, buffer, len);
    }
    read_in_steps(source, buffer, len)
}

/// Writes all of the piece, in as many calls as the sink wants.
pub fn write_all_of<K: Sink>(sink: &mut K, bytes: &[u8]) -> Result<(), Short>
    ensures { WritesAll (K.state sink.old) (K.state sink.new) bytes.now result }
{
    let mut taken = 0;
    'pieces: while taken < bytes.len() {
        match sink.write(&bytes[taken..]) {
            Ok(n) => taken += n,
            Err(Failed) => return Err(Short { taken }),
        }
    }
    Ok(())
}
