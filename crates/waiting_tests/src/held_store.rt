//! A live store that waits.
use crate::looking::is_raised;
use io_memory::{MemoryView, Piece, QuietLive};
use mcap_io::{AppendRefused, Failed, LiveStore};
use std::sync::atomic::AtomicBool;
use std::sync::atomic::Ordering::SeqCst;

/// A live store whose second append, the first block, waits until `until` is raised, and fails where that isn't. It raises `taken`
/// behind that append.
#[derive(Drop)]
pub(crate) struct HeldStore<'f> {
    pub store: QuietLive,
    pub appends: u64,
    pub until: &'f AtomicBool,
    pub taken: &'f AtomicBool,
    pub faults: u64,
}

impl LiveStore for HeldStore<'_> {
    ghost use Rattle.std.specs.Prelude.{None};

    type Extent = Piece;

    type View = MemoryView;

    ghost state = { λ s. record { held = None; faults = s.faults; waiting = 0 } };

    fn append(&mut self, bytes: &[u8]) -> Result<Piece, AppendRefused> {
        self.appends = self.appends.saturating_add(1);
        let is_held = self.appends == 2;
        if is_held && !is_raised(self.until) {
            self.faults = self.faults.saturating_add(1);
            return Err(AppendRefused::Failed { taken: 0 });
        }
        match self.store.append(bytes) {
            Ok(piece) => {
                if is_held {
                    self.taken.store(true, SeqCst);
                }
                return Ok(piece);
            }
            Err(_) => return Err(AppendRefused::Memory),
        }
    }

    fn append_through(&mut self, bytes: &[u8]) -> Result<Piece, AppendRefused> {
        match self.append(bytes) {
            Ok(piece) => return Ok(piece),
            Err(why) => return Err(why),
        }
    }

    fn view(&mut self) -> Result<MemoryView, Failed> {
        match self.store.view() {
            Ok(view) => return Ok(view),
            Err(Failed) => {
                self.faults = self.faults.saturating_add(1);
                return Err(Failed);
            }
        }
    }

    fn faults(&self) -> u64 {
        self.faults
    }
}
