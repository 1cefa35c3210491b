//! Declarations by their ids.
ghost use Rattle.std.specs.Prelude.{◌≡◌, ◌∷◌, ◌++◌, ◌<◌, [], ℕ, suc, length, vec_len, OnOk, OnErr};
ghost use Rattle.mcap_model.specs.Places.{At};
ghost use Rattle.mcap_model.specs.declared.table.Declared.{Declared};
ghost use Rattle.mcap_model.specs.Declarations.{FindsFirst};

use mcap_wire::{Bytes, Memory};
use std::alloc::Global;
use std::marker::Model;

/// The content of the first record that declared an id.
#[derive(Drop)]
pub struct Declared {
    pub id: u16,
    pub content: Bytes,
}

/// The first declarations, which are found by their ids in one step.
#[derive(Drop)]
pub struct Table {
    // For each id one more than the place of its declaration, or 0 where it has none.
    places: Vec<usize>,
    first: Vec<Declared>,
}

// Makes room for the place of an id, with 0 where there was none.
fn make_place(places: &mut Vec<usize>, id: u16) -> Result<(), Memory>
    ensures room { OnOk result (id < vec_len places.new) }
    ensures kept { (k m : ℕ) → At places.old.items k (suc m) → At places.new.items k (suc m) }
    ensures none { (k m : ℕ) → At places.new.items k (suc m) → At places.old.items k (suc m) }
{
    let place = id as usize;
    if place < places.len() {
        return Ok(());
    }
    match places.resize(place + 1, 0) {
        Ok(()) => return Ok(()),
        Err(_) => return Err(Memory),
    }
}

impl Model for Table {
    ghost use Rattle.std.specs.Prelude.{List};
    ghost use Rattle.mcap_model.specs.declared.table.Declared.{Declared};

    ghost Value = { List Declared };

    ghost use Rattle.mcap_model.specs.Indexed.{ArePlacesOf};

    ghost view = { λ t. t.first.items };

    ghost invariant = { λ t. ArePlacesOf t.places.items t.first.items };
}

impl Table {
    pub fn new(alloc: Global) -> Table
        ensures { result ≡ [] }
    {
        Table {
            places: Vec::new(alloc),
            first: Vec::new(alloc),
        }
    }

    /// How many ids were declared, each once.
    pub fn len(&self) -> usize
        ensures count { result ≡ length self.now }
        ensures apart { (j k : ℕ) (d e : Declared) → At self.now j d → At self.now k e → d.id ≡ e.id → j ≡ k }
    {
        self.first.len()
    }

    /// The content that declared that id.
    pub fn find(&self, id: u16) -> Option<&[u8]>
        ensures { FindsFirst self.now id result }
    {
        let id = id as usize;
        if id >= self.places.len() {
            return None;
        }
        let place = self.places[id];
        if place == 0 {
            return None;
        }
        Some(self.first[place - 1].content.as_slice())
    }

    /// Adds the first declaration of an id.
    pub fn add(&mut self, alloc: Global, id: u16, content: &[u8]) -> Result<(), Memory>
        requires { FindsFirst self.old id None }
        ensures ok { OnOk result (self.new ≡ self.old ++ (record { id = id; content = content.now }) ∷ []) }
        ensures err { OnErr result (self.new ≡ self.old) }
    {
        let place = id as usize;
        match make_place(&mut self.places, id) {
            Ok(()) => {}
            Err(memory) => return Err(memory),
        }
        let content = match Bytes::copied(alloc, content) {
            Ok(content) => content,
            Err(memory) => return Err(memory),
        };
        match self.first.push(Declared { id, content }) {
            Ok(()) => {}
            Err(_) => return Err(Memory),
        }
        self.places[place] = self.first.len();
        Ok(())
    }
}
