//! Where records of one kind stand, and which of them an index named.
ghost use Rattle.std.specs.Prelude.{◌≡◌, ◌↔◌, ◌<◌, ◌∷◌, ◌++◌, [], true, false, length, IsTrue, OnOk, OnErr};
ghost use Rattle.mcap_model.specs.Places.{Each};
ghost use Rattle.index_check.specs.Spots.{Ascends, FindsSpot, NamesSpot};

use mcap_wire::Memory;
use std::alloc::Global;
use std::marker::Model;

/// Where a record stands, in bytes from the file's front, and whether an index named it.
#[derive(Clone, Copy)]
pub struct Spot {
    pub offset: u64,
    pub named: bool,
}

/// What a name for an offset comes to.
#[derive(Clone, Copy)]
pub enum Naming {
    /// No record stands there.
    Absent,
    /// The record there was named before.
    Again,
    /// The record there has its first name; its place among the records of its kind.
    First { place: usize },
}

/// The records of one kind, in the order of the file.
#[derive(Drop)]
pub struct Spots {
    spots: Vec<Spot>,
}

impl Model for Spots {
    ghost use Rattle.std.specs.Prelude.{List};
    ghost use Rattle.index_check.specs.declared.spots.Spot.{Spot};

    ghost Value = { List Spot };

    ghost use Rattle.index_check.specs.Spots.{Ascends};

    ghost view = { λ s. s.spots.items };

    ghost invariant = { λ s. Ascends s.spots.items };
}

// The place of the record at that offset.
fn find(spots: &[Spot], offset: u64) -> Option<usize>
    requires { Ascends spots.now }
    ensures { FindsSpot spots.now offset result }
{
    let mut low = 0;
    let mut high = spots.len();
    'halves: while low < high {
        let middle = low + (high - low) / 2;
        let there = spots[middle].offset;
        if there == offset {
            return Some(middle);
        }
        if there < offset {
            low = middle + 1;
        } else {
            high = middle;
        }
    }
    return None;
}

// Whether a record was named.
fn is_named(spot: &Spot) -> bool
    ensures { IsTrue result ↔ (spot.now.named ≡ true) }
{
    spot.named
}

// Whether each of these was.
fn all_named(spots: &[Spot]) -> bool
    ensures { IsTrue result ↔ Each (λ s. s.named ≡ true) spots.now }
{
    'spots: for i in 0..spots.len() {
        if !is_named(&spots[i]) {
            return false;
        }
    }
    return true;
}

impl Spots {
    pub fn new(alloc: Global) -> Spots
        ensures { result ≡ [] }
    {
        Spots {
            spots: Vec::new(alloc),
        }
    }

    /// Adds a record behind the others.
    pub fn add(&mut self, offset: u64) -> Result<(), Memory>
        requires { Each (λ s. s.offset < offset) self.old }
        ensures ok { OnOk result (self.new ≡ self.old ++ (record { offset = offset; named = false }) ∷ []) }
        ensures err { OnErr result (self.new ≡ self.old) }
    {
        match self.spots.push(Spot {
            offset,
            named: false,
        }) {
            Ok(()) => return Ok(()),
            Err(_) => return Err(Memory),
        }
    }

    /// Names the record at that offset, if one stands there that has no name.
    pub fn name(&mut self, offset: u64) -> Naming
        ensures { NamesSpot self.old self.new offset result }
    {
        let place = match find(&self.spots, offset) {
            Some(place) => place,
            None => return Naming::Absent,
        };
        if self.spots[place].named {
            return Naming::Again;
        }
        self.spots[place] = Spot {
            offset,
            named: true,
        };
        return Naming::First { place };
    }

    /// The place of the record at that offset.
    pub fn place_of(&self, offset: u64) -> Option<usize>
        ensures { FindsSpot self.now offset result }
    {
        find(&self.spots, offset)
    }

    /// Whether each record was named.
    pub fn are_named(&self) -> bool
        ensures { IsTrue result ↔ Each (λ s. s.named ≡ true) self.now }
    {
        all_named(&self.spots)
    }
}
