//! A room that stretches are read into, one after the other.
ghost use Rattle.std.specs.Prelude.{◌≡◌, ◌≤◌, vec_len};

use crate::outside::{Failed, OutsideRefused, Source};
use crate::stretch::{fill_front, read_up_to};
use std::alloc::Global;

/// Holds the stretch that was read last, at the front of its bytes. It doesn't shrink, so that a long stretch behind short
/// ones finds its bytes there and needs no zeros in their place.
#[derive(Drop)]
pub struct Room {
    bytes: Vec<u8>,
    held: usize,
    ghost within: { held ≤ vec_len bytes },
}

impl Room {
    ghost use Rattle.std.specs.Prelude.{[], length, IfErr, OnErr, IsErrOf};
    ghost use Rattle.mcap_io.specs.OutsideCalls.{ReadCause, StretchTaken};
    ghost use Rattle.mcap_io.specs.Rooms.{held_in};

    /// A room that holds nothing, and takes no memory yet.
    pub fn new(alloc: Global) -> Room
        ensures { held_in result ≡ [] }
    {
        Room {
            bytes: Vec::new(alloc),
            held: 0,
        }
    }

    /// What it holds.
    #[inline(always)]
    pub fn as_slice(&self) -> &[u8]
        ensures { result.now ≡ held_in self.now }
    {
        &self.bytes[..self.held]
    }

    /// How many bytes it holds.
    #[inline(always)]
    pub fn len(&self) -> u64
        ensures { result ≡ length (held_in self.now) }
    {
        self.held as u64
    }

    // Reads until it holds `len` bytes or the input ends, where it has so many already.
    #[inline(always)]
    fn read_over<S: Source>(&mut self, source: &mut S, len: usize) -> Result<(), OutsideRefused>
        requires { len ≤ vec_len self.old.bytes }
        ensures bound { length (held_in self.new) ≤ len }
        ensures taken { StretchTaken (S.state source.old).left (S.state source.new).left len (held_in self.new) result }
        ensures cause { ReadCause (S.state source.old).faults (S.state source.new).faults result }
        ensures refused { OnErr result (held_in self.new ≡ []) }
        ensures failed { IfErr result (λ why. why ≡ OutsideRefused.Failed) }
        ensures stays { S.stays source.old source.new }
    {
        match fill_front(source, self.bytes.as_mut_slice(), len) {
            Ok(n) => {
                self.held = n;
                return Ok(());
            }
            Err(Failed) => {
                self.held = 0;
                return Err(OutsideRefused::Failed);
            }
        }
    }

    // Reads until it holds `len` bytes or the input ends, and makes room for them in steps.
    #[inline(never)]
    fn read_on<S: Source>(&mut self, source: &mut S, len: u64) -> Result<(), OutsideRefused>
        ensures bound { length (held_in self.new) ≤ len }
        ensures taken { StretchTaken (S.state source.old).left (S.state source.new).left len (held_in self.new) result }
        ensures cause { ReadCause (S.state source.old).faults (S.state source.new).faults result }
        ensures refused { OnErr result (held_in self.new ≡ []) }
        ensures unread { IsErrOf result OutsideRefused.Memory → len ≤ 65536 → S.state source.new ≡ S.state source.old }
        ensures stays { S.stays source.old source.new }
    {
        self.held = 0;
        let answer = read_up_to(source, &mut self.bytes, len);
        self.held = self.bytes.len();
        answer
    }

    /// Reads as the function `read_up_to` does, and holds what that leaves in its buffer.
    #[inline(always)]
    pub fn read_up_to<S: Source>(&mut self, source: &mut S, len: u64) -> Result<(), OutsideRefused>
        ensures bound { length (held_in self.new) ≤ len }
        ensures taken { StretchTaken (S.state source.old).left (S.state source.new).left len (held_in self.new) result }
        ensures cause { ReadCause (S.state source.old).faults (S.state source.new).faults result }
        ensures refused { OnErr result (held_in self.new ≡ []) }
        ensures unread { IsErrOf result OutsideRefused.Memory → len ≤ 65536 → S.state source.new ≡ S.state source.old }
        ensures stays { S.stays source.old source.new }
    {
        if len as usize <= self.bytes.len() {
            return self.read_over(source, len as usize);
        }
        self.read_on(source, len)
    }
}
