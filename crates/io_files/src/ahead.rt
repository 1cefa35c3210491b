//! Reading ahead of a file into a buffer.
ghost use Rattle.std.specs.Prelude.{◌≡◌, ◌≤◌, ◌<◌, ◌+◌, ◌-◌, ℕ, List, min, length, take, drop, Some, IfOk, OnOk, vec_len, []};
ghost use Rattle.io_files.specs.Ahead.{ahead, AheadReads};

use mcap_io::Failed;
use std::alloc::{AllocError, Global};
use std::io::{ErrorKind, Read};

/// How many bytes are read ahead at most, and how many gathered before they are written.
pub(crate) const ROOM: usize = 262_144;

/// How many bytes are read ahead at least.
const LEAST: usize = 16_384;

// The bytes from `from` to `to` of the buffer were read and not yet given. Behind a read that went past the buffer little
// is read ahead, since another such read may be near, whose bytes would be copied out of the buffer; and then twice as
// much each time.
#[derive(Drop)]
pub(crate) struct ReadAhead<F> {
    file: F,
    buffer: Vec<u8>,
    from: usize,
    to: usize,
    next: usize,
    ghost within: { (from ≤ to) × (to ≤ vec_len buffer) },
    ghost some: { 0 < vec_len buffer },
}

impl<F: Read + Drop> ReadAhead<F> {
    pub(crate) fn new(alloc: Global, file: F) -> Result<Self, AllocError>
        ensures { IfOk result (λ r. ahead r.buffer.items r.from r.to (F.remaining r.file) ≡ F.remaining file) }
    {
        let buffer = vec![in alloc; 0; ROOM]?;
        Ok(ReadAhead {
            file,
            buffer,
            from: 0,
            to: 0,
            next: ROOM,
        })
    }

    // Gives what was read ahead. A read for more than the buffer holds goes past it.
    #[inline(always)]
    pub(crate) fn read(&mut self, out: &mut [u8]) -> Result<usize, Failed>
        ensures bound { IfOk result (λ n. n ≤ length out.new) }
        ensures gives { AheadReads (ahead self.old.buffer.items self.old.from self.old.to (F.remaining self.old.file))
            (ahead self.new.buffer.items self.new.from self.new.to (F.remaining self.new.file)) out.new result }
    {
        if self.from < self.to {
            return Ok(self.give(out));
        }
        if self.buffer.len() <= out.len() {
            self.next = LEAST;
            return read_some(&mut self.file, out);
        }
        match self.refill() {
            Ok(()) => return Ok(self.give(out)),
            Err(Failed) => return Err(Failed),
        }
    }

    // Reads ahead, where all that was read is given.
    #[inline(never)]
    fn refill(&mut self) -> Result<(), Failed>
        requires { self.old.to ≤ self.old.from }
        ensures rest { (rest : List ℕ) → F.remaining self.old.file ≡ Some rest
            → ahead self.new.buffer.items self.new.from self.new.to (F.remaining self.new.file) ≡ Some rest }
        ensures end { OnOk result ((rest : List ℕ) → F.remaining self.old.file ≡ Some rest
            → self.new.to ≤ self.new.from → 0 < vec_len self.old.buffer → rest ≡ []) }
    {
        self.from = 0;
        self.to = 0;
        let len = self.next.max(LEAST).min(self.buffer.len());
        self.next = len.saturating_mul(2);
        self.to = read_front(&mut self.file, self.buffer.as_mut_slice(), len)?;
        Ok(())
    }

    // Copies what was read ahead, as much as there is room for.
    #[inline(always)]
    fn give(&mut self, out: &mut [u8]) -> usize
        ensures bound { result ≡ min (self.old.to - self.old.from) (length out.new) }
        ensures out { take result out.new ≡ take result (drop self.old.from self.old.buffer.items) }
        ensures from { self.new.from ≡ self.old.from + result }
        ensures to { self.new.to ≡ self.old.to }
        ensures buffer { self.new.buffer ≡ self.old.buffer }
        ensures file { self.new.file ≡ self.old.file }
    {
        let n = (self.to - self.from).min(out.len());
        out[..n].copy_from_slice(&self.buffer[self.from..self.from + n]);
        self.from += n;
        n
    }
}

// One read into the first `len` bytes.
#[inline(always)]
fn read_front<F: Read>(file: &mut F, out: &mut [u8], len: usize) -> Result<usize, Failed>
    requires some { 0 < len }
    requires within { len ≤ length out.old }
    ensures bound { IfOk result (λ n. n ≤ length out.new) }
    ensures gives { AheadReads (F.remaining file.old) (F.remaining file.new) out.new result }
{
    read_some(file, &mut out[..len])
}

// One read. One that was interrupted is tried again.
fn read_some<F: Read>(file: &mut F, out: &mut [u8]) -> Result<usize, Failed>
    ensures bound { IfOk result (λ n. n ≤ length out.new) }
    ensures gives { AheadReads (F.remaining file.old) (F.remaining file.new) out.new result }
{
    'tries: for _ in 0..u64::MAX {
        match file.read(out) {
            Ok(n) => return Ok(n),
            Err(e) => {
                if e.kind() != ErrorKind::Interrupted {
                    return Err(Failed);
                }
            }
        }
    }
    Err(Failed)
}
