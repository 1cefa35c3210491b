//! Stores in memory. They tell all of their bytes.
ghost use Rattle.std.specs.Prelude.{◌≡◌, ◌+◌, ◌≤◌, ◌↔◌, Contains, IsTrue, IsErr, Some, length};
ghost use Rattle.std.proofs.Common.{subst};
ghost use Rattle.mcap_io.specs.Outside.{one_more};
ghost use Rattle.mcap_io.specs.StoreAnswers.{Measures, ReadsPart};

use mcap_io::{Failed, Store};

/// A store of these bytes that never fails.
#[derive(Drop)]
pub struct QuietStore {
    bytes: Vec<u8>,
    known: u64,
    asked: u128,
    ghost within: { known ≤ length bytes.items },
}

impl QuietStore {
    /// A store of these bytes, none of which was asked for.
    pub fn new(bytes: Vec<u8>) -> Self
        ensures { ⟦<QuietStore as Store>⟧.state result
            ≡ record { bytes = Some bytes.items; known = 0; faults = 0; asked = 0 } }
    {
        QuietStore {
            bytes,
            known: 0,
            asked: 0,
        }
    }

    /// All of its bytes.
    pub fn bytes(&self) -> &[u8]
        ensures { (⟦<QuietStore as Store>⟧.state self.now).bytes ≡ Some result.now }
    {
        &self.bytes
    }
}

impl Store for QuietStore {
    ghost state = { λ s. record { bytes = Some s.bytes.items; known = s.known; faults = 0; asked = s.asked } };

    fn len(&mut self) -> Result<u64, Failed> {
        let len = self.bytes.len() as u64;
        self.known = self.known.max(len);
        Ok(len)
    }

    fn read_at(&mut self, at: u64, out: &mut [u8]) -> Result<(), Failed> {
        let from = at as usize;
        out.copy_from_slice(&self.bytes[from..from + out.len()]);
        self.asked = self.asked.saturating_add(out.len() as u128);
        Ok(())
    }

    fn asked(&self) -> u128 {
        self.asked
    }

    fn faults(&self) -> u64 {
        0
    }

    ghost within = { λ s bytes told. let same : s.bytes.items ≡ bytes = Prim.cc in subst (λ l. s.known ≤ length l) same s.within };
}

// Which calls are to fail, by their numbers, and how many calls there were.
#[derive(Drop)]
struct StoreCalls {
    failing: Vec<u64>,
    made: u64,
}

impl StoreCalls {
    // Counts a call, and says whether it is one of those that fail.
    fn next_fails(&mut self) -> bool
        ensures planned { IsTrue result ↔ Contains self.old.failing.items self.old.made }
        ensures counted { self.new.made ≡ one_more self.old.made }
        ensures plan { self.new.failing ≡ self.old.failing }
    {
        let call = self.made;
        self.made = call.saturating_add(1);
        self.failing.contains(&call)
    }
}

/// A store of these bytes that fails where it is told to.
#[derive(Drop)]
pub struct MemoryStore {
    store: QuietStore,
    calls: StoreCalls,
    faults: u64,
}

impl MemoryStore {
    /// The questions for the length and the reads are numbered together, from 0. Those in the list fail.
    pub fn new(bytes: Vec<u8>, failing: Vec<u64>) -> Self
        ensures state { ⟦<MemoryStore as Store>⟧.state result
            ≡ record { bytes = Some bytes.items; known = 0; faults = 0; asked = 0 } }
        ensures plan { result.calls.failing ≡ failing }
        ensures made { result.calls.made ≡ 0 }
    {
        MemoryStore {
            store: QuietStore::new(bytes),
            calls: StoreCalls { failing, made: 0 },
            faults: 0,
        }
    }

    /// All of its bytes.
    pub fn bytes(&self) -> &[u8]
        ensures { (⟦<MemoryStore as Store>⟧.state self.now).bytes ≡ Some result.now }
    {
        self.store.bytes()
    }
}

impl Store for MemoryStore {
    ghost state = { λ s. record
        { bytes = Some s.store.bytes.items; known = s.store.known; faults = s.faults; asked = s.store.asked } };

    fn len(&mut self) -> Result<u64, Failed>
        ensures measures { Measures
            (record {
              bytes = Some self.old.store.bytes.items;
              known = self.old.store.known;
              faults = self.old.faults;
              asked = self.old.store.asked;
            })
            (record {
              bytes = Some self.new.store.bytes.items;
              known = self.new.store.known;
              faults = self.new.faults;
              asked = self.new.store.asked;
            }) result }
        ensures planned { IsErr result ↔ Contains self.old.calls.failing.items self.old.calls.made }
        ensures counted { self.new.calls.made ≡ one_more self.old.calls.made }
        ensures plan { self.new.calls.failing ≡ self.old.calls.failing }
    {
        if self.calls.next_fails() {
            self.faults = self.faults.saturating_add(1);
            return Err(Failed);
        }
        self.store.len()
    }

    fn read_at(&mut self, at: u64, out: &mut [u8]) -> Result<(), Failed>
        requires { at + length out.old ≤ self.old.store.known }
        ensures reads { ReadsPart
            (record {
              bytes = Some self.old.store.bytes.items;
              known = self.old.store.known;
              faults = self.old.faults;
              asked = self.old.store.asked;
            })
            (record {
              bytes = Some self.new.store.bytes.items;
              known = self.new.store.known;
              faults = self.new.faults;
              asked = self.new.store.asked;
            }) at out.new result }
        ensures planned { IsErr result ↔ Contains self.old.calls.failing.items self.old.calls.made }
        ensures counted { self.new.calls.made ≡ one_more self.old.calls.made }
        ensures plan { self.new.calls.failing ≡ self.old.calls.failing }
    {
        if self.calls.next_fails() {
            self.faults = self.faults.saturating_add(1);
            self.store.asked = self.store.asked.saturating_add(out.len() as u128);
            return Err(Failed);
        }
        self.store.read_at(at, out)
    }

    fn asked(&self) -> u128 {
        self.store.asked
    }

    fn faults(&self) -> u64 {
        self.faults
    }

    ghost within = { λ s bytes told. let same : s.store.bytes.items ≡ bytes = Prim.cc in subst (λ l. s.store.known ≤ length l) same s.store.within };
}
