//! Ids that were come to.
ghost use Rattle.std.specs.Prelude.{◌≡◌, ◌↔◌, ◌<◌, ◌∷◌, ◌++◌, [], ℕ, true, length, vec_len, IsTrue, OnOk, OnErr};
ghost use Rattle.mcap_model.specs.Places.{At, Has};
ghost use Rattle.index_check.specs.Ids.{AddsOnce};

use mcap_wire::Memory;
use std::alloc::Global;
use std::marker::Model;

/// Some ids, in the order in which they were added. Whether an id is among them is found in one step.
#[derive(Drop)]
pub struct Ids {
    // For each id whether it is there; none behind the end is.
    marks: Vec<bool>,
    ids: Vec<u16>,
}

impl Model for Ids {
    ghost use Rattle.std.specs.Prelude.{List, ℕ};

    ghost Value = { List ℕ };

    ghost use Rattle.index_check.specs.Ids.{AreMarked};

    ghost view = { λ s. s.ids.items };

    ghost invariant = { λ s. AreMarked s.marks.items s.ids.items };
}

// Makes room for the mark of an id.
fn make_mark(marks: &mut Vec<bool>, id: u16) -> Result<(), Memory>
    ensures room { OnOk result (id < vec_len marks.new) }
    ensures marked { (k : ℕ) → At marks.old.items k true ↔ At marks.new.items k true }
{
    let place = id as usize;
    if place < marks.len() {
        return Ok(());
    }
    match marks.resize(place + 1, false) {
        Ok(()) => return Ok(()),
        Err(_) => return Err(Memory),
    }
}

impl Ids {
    pub fn new(alloc: Global) -> Ids
        ensures { result ≡ [] }
    {
        Ids {
            marks: Vec::new(alloc),
            ids: Vec::new(alloc),
        }
    }

    /// Whether an id is there.
    pub fn has(&self, id: u16) -> bool
        ensures { IsTrue result ↔ Has self.now id }
    {
        let place = id as usize;
        if place >= self.marks.len() {
            return false;
        }
        return self.marks[place];
    }

    pub fn len(&self) -> usize
        ensures { result ≡ length self.now }
    {
        self.ids.len()
    }

    pub fn is_empty(&self) -> bool
        ensures { IsTrue result ↔ (self.now ≡ []) }
    {
        self.ids.is_empty()
    }

    /// Adds an id behind the others.
    pub fn add(&mut self, id: u16) -> Result<(), Memory>
        ensures ok { OnOk result (self.new ≡ self.old ++ id ∷ []) }
        ensures err { OnErr result (self.new ≡ self.old) }
    {
        match make_mark(&mut self.marks, id) {
            Ok(()) => {}
            Err(memory) => return Err(memory),
        }
        match self.ids.push(id) {
            Ok(()) => {}
            Err(_) => return Err(Memory),
        }
        self.marks[id as usize] = true;
        Ok(())
    }

    /// Adds an id behind the others, where it isn't there.
    pub fn add_once(&mut self, id: u16) -> Result<(), Memory>
        ensures { OnOk result (AddsOnce self.old id self.new) }
    {
        if self.has(id) {
            return Ok(());
        }
        return self.add(id);
    }
}
