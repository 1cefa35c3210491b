//! A source over the front of a store that is lent to it, which asks for no byte twice.
ghost use Rattle.std.proofs.Common.{◌∙◌};
ghost use Rattle.std.specs.Prelude.{refl, ◌≡◌, ◌<◌, ◌≤◌, ◌+◌};
ghost use Rattle.mcap_io.specs.Outside.{one_more};
ghost use Rattle.mcap_io.specs.StoreSources.{front_left};

use crate::{Failed, Source, Store};

/// A source of the first bytes of a store, which it reads as it is asked. Once the store has failed it fails without asking
/// for more, and it counts its own failures.
#[derive(Drop)]
pub struct StoreFront<'a, T: Store> {
    store: &'a mut T,
    next: u64,
    len: u64,
    failures: u64,
    // The counts of the store when it was lent.
    faults_before: u64,
    asked_before: u128,
    ghost within: { (next ≤ len) × (len ≤ (T.state store.now).known) },
    ghost whole: { failures ≡ 0
        → ((T.state store.now).faults ≡ faults_before) × ((T.state store.now).asked ≤ asked_before + next) },
    ghost broken: { 0 < failures
        → (faults_before ≤ (T.state store.now).faults) × ((T.state store.now).faults ≡ one_more faults_before)
        × ((T.state store.now).asked ≤ asked_before + len) },
}

impl<'a, T: Store> StoreFront<'a, T> {
    /// Reads the first `len` bytes of the lent store, and none past them.
    pub fn new(store: &'a mut T, len: u64) -> StoreFront<'a, T>
        requires { len ≤ (T.state store.old).known }
        ensures same_reference { result.store.ghost_name ≡ store.entry.ghost_name }
        ensures now { result.store.now ≡ store.old }
        ensures len { result.len ≡ len }
        ensures state { ⟦<StoreFront<'a, T> as Source>⟧.state result
            ≡ record { left = front_left (T.state store.old).bytes 0 len; faults = 0 } }
        ensures faults { result.faults_before ≡ (T.state store.old).faults }
        ensures asked { result.asked_before ≡ (T.state store.old).asked }
    {
        let faults_before = store.faults();
        let asked_before = store.asked();
        StoreFront {
            store,
            next: 0,
            len,
            failures: 0,
            faults_before,
            asked_before,
        }
    }
}

impl<'a, T: Store> Source for StoreFront<'a, T> {
    ghost state = { λ s. record { left = front_left (T.state s.store.now).bytes s.next s.len; faults = s.failures } };

    /// It is lent the same store, whose bytes are the same, and gives as many of them.
    ghost stays = { λ s t. (t.store.ghost_name ≡ s.store.ghost_name) × (t.len ≡ s.len)
        × (t.faults_before ≡ s.faults_before) × (t.asked_before ≡ s.asked_before)
        × ((T.state t.store.now).bytes ≡ (T.state s.store.now).bytes)
        × ((T.state t.store.now).known ≡ (T.state s.store.now).known) };

    ghost stays_so = { λ s. (refl, refl, refl, refl, refl, refl) };

    ghost stays_on = { λ s t u first second. (second.0 ∙ first.0, second.1 ∙ first.1, second.2 ∙ first.2, second.3 ∙ first.3, second.4 ∙ first.4, second.5 ∙ first.5) };

    fn read(&mut self, out: &mut [u8]) -> Result<usize, Failed> {
        let left = self.len - self.next;
        let n = (out.len() as u64).min(left) as usize;
        if n == 0 {
            return Ok(0);
        }
        if self.failures > 0 {
            self.failures = self.failures.saturating_add(1);
            return Err(Failed);
        }
        match self.store.read_at(self.next, &mut out[..n]) {
            Ok(()) => {
                self.next += n as u64;
                return Ok(n);
            }
            Err(Failed) => {
                self.failures = 1;
                return Err(Failed);
            }
        }
    }

    fn faults(&self) -> u64 {
        self.failures
    }
}
