//! The extras that wait for the end of their file.
use mcap_wire::{Bytes, Memory};
use std::alloc::Global;
use std::marker::Model;

/// Attachments, Metadata and records of applications, each framed.
#[derive(Drop)]
pub(crate) struct Extras {
    framed: Vec<Bytes>,
}

impl Model for Extras {
    ghost use Rattle.std.specs.Prelude.{List, ℕ};

    ghost Value = { List (List ℕ) };

    ghost use Rattle.chunk_writer.specs.Waiting.{framed_in, AreExtras};

    ghost view = { framed_in };

    ghost invariant = { AreExtras };
}

impl Extras {
    ghost use Rattle.std.specs.Prelude.{◌≡◌, ◌<◌, ◌++◌, ◌∷◌, [], length, get_or, OnOk, OnErr};
    ghost use Rattle.chunk_writer.specs.Waiting.{AreExtra};

    /// None yet.
    pub(crate) fn new(alloc: Global) -> Extras
        ensures { result ≡ [] }
    {
        Extras {
            framed: Vec::new(alloc),
        }
    }

    /// Adds one. Where memory lacks nothing changes.
    pub(crate) fn push(&mut self, framed: Bytes) -> Result<(), Memory>
        requires { AreExtra framed }
        ensures ok { OnOk result (self.new ≡ self.old ++ framed ∷ []) }
        ensures err { OnErr result (self.new ≡ self.old) }
    {
        match self.framed.push(framed) {
            Ok(()) => return Ok(()),
            Err(_) => return Err(Memory),
        }
    }

    pub(crate) fn len(&self) -> usize
        ensures { result ≡ length self.now }
    {
        self.framed.len()
    }

    /// The bytes of the one at that place.
    pub(crate) fn get(&self, place: usize) -> &[u8]
        requires { place < length self.now }
        ensures value { result.now ≡ get_or self.now place [] }
        ensures extra { AreExtra result.now }
    {
        self.framed[place].as_slice()
    }
}
