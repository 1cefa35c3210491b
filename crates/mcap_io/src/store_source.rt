//! A source over the front of a store that is lent to it.
ghost use Rattle.std.proofs.Common.{◌∙◌};
ghost use Rattle.std.proofs.Math.Nat.{le_refl, le_trans};
ghost use Rattle.std.specs.Prelude.{refl, ◌≡◌, ◌≤◌};
ghost use Rattle.mcap_io.specs.StoreSources.{front_left, StaysStore};

use crate::outside::{Failed, Source};
use crate::store::Store;

/// A source of the first bytes of a store, which it reads as it is asked. Its count is that of the store.
#[derive(Drop)]
pub struct StoreSource<'a, T: Store> {
    store: &'a mut T,
    next: u64,
    len: u64,
    ghost within: { (next ≤ len) × (len ≤ (T.state store.now).known) },
}

impl<'a, T: Store> StoreSource<'a, T> {
    /// Reads the first `len` bytes of the lent store, and none past them.
    pub fn new(store: &'a mut T, len: u64) -> StoreSource<'a, T>
        requires { len ≤ (T.state store.old).known }
        ensures same_reference { result.store.ghost_name ≡ store.entry.ghost_name }
        ensures now { result.store.now ≡ store.old }
        ensures state { ⟦<StoreSource<'a, T> as Source>⟧.state result
            ≡ record { left = front_left (T.state store.old).bytes 0 len; faults = (T.state store.old).faults } }
    {
        StoreSource {
            store,
            next: 0,
            len,
        }
    }
}

impl<'a, T: Store> Source for StoreSource<'a, T> {
    ghost state = { λ s. record
        { left = front_left (T.state s.store.now).bytes s.next s.len; faults = (T.state s.store.now).faults } };

    /// It is lent the same store, whose bytes are the same, and gives as many of them.
    ghost stays = { λ s t. (t.store.ghost_name ≡ s.store.ghost_name) × (t.len ≡ s.len)
        × StaysStore (T.state s.store.now) (T.state t.store.now) };

    ghost stays_so = { λ s. (
      refl,
      refl,
      record {
        bytes = refl;
        known = refl;
        faults = le_refl (T.state s.store.now).faults;
      },
    ) };

    ghost stays_on = { λ s t u first second. (
      second.0 ∙ first.0,
      second.1 ∙ first.1,
      record {
        bytes = second.2.bytes ∙ first.2.bytes;
        known = second.2.known ∙ first.2.known;
        faults = le_trans first.2.faults second.2.faults;
      },
    ) };

    fn read(&mut self, out: &mut [u8]) -> Result<usize, Failed> {
        let left = self.len - self.next;
        let n = (out.len() as u64).min(left) as usize;
        if n == 0 {
            return Ok(0);
        }
        match self.store.read_at(self.next, &mut out[..n]) {
            Ok(()) => {
                self.next += n as u64;
                return Ok(n);
            }
            Err(Failed) => return Err(Failed),
        }
    }

    fn faults(&self) -> u64 {
        self.store.faults()
    }
}
