//! A source that waits.
ghost use Rattle.std.specs.Prelude.{◌≡◌, ◌≤◌, length};

use crate::looking::is_raised;
use mcap_io::{Failed, Source};
use std::sync::atomic::AtomicBool;
use std::sync::atomic::Ordering::SeqCst;

/// A source that waits before the byte `held_at` until `until` is raised, and fails there where that isn't. It raises `asked` when
/// it is first asked for a byte, and `given` with its last one.
#[derive(Drop)]
pub(crate) struct HeldSource<'f> {
    pub bytes: Vec<u8>,
    pub next: usize,
    pub held_at: usize,
    pub until: &'f AtomicBool,
    pub asked: &'f AtomicBool,
    pub given: &'f AtomicBool,
    pub faults: u64,
}

impl HeldSource<'_> {
    // Copies what stands before `end`, as far as there is room.
    fn copy(&mut self, end: usize, out: &mut [u8]) -> usize
        ensures within { result ≤ length out.new }
        ensures faults { self.new.faults ≡ self.old.faults }
    {
        let Some(rest) = self.bytes.get(self.next..end) else {
            return 0;
        };
        let n = rest.len().min(out.len());
        out[..n].copy_from_slice(&rest[..n]);
        self.next = self.next.saturating_add(n);
        n
    }
}

impl Source for HeldSource<'_> {
    ghost use Rattle.std.specs.Prelude.{None};

    ghost state = { λ s. record { left = None; faults = s.faults } };

    ghost stays = { λ s t. Unit {0} };

    ghost stays_so = { λ s. tt };

    ghost stays_on = { λ s t u first second. tt };

    fn read(&mut self, out: &mut [u8]) -> Result<usize, Failed> {
        if out.is_empty() {
            return Ok(0);
        }
        self.asked.store(true, SeqCst);
        if self.next == self.held_at && !is_raised(self.until) {
            self.faults = self.faults.saturating_add(1);
            return Err(Failed);
        }
        let end = if self.next < self.held_at {
            self.held_at
        } else {
            self.bytes.len()
        };
        let n = self.copy(end, out);
        if self.next == self.bytes.len() {
            self.given.store(true, SeqCst);
        }
        Ok(n)
    }

    fn faults(&self) -> u64 {
        self.faults
    }
}
