//! What is published, of which there are two copies.
ghost use Rattle.std.specs.Prelude.{◌≡◌, ◌-◌, [], ◌∷◌, ◌++◌, length, drop, IfOk, MatchResult};
ghost use Rattle.live_directory.specs.Histories.{added_batch};

use crate::front::{Added, Batch};
use crate::naming::Naming;
use crate::note::Note;
use left_right::Absorb;
use live_entry::{Entry, copy_all};
use mcap_io::Extent;
use mcap_wire::Memory;
use std::alloc::{AllocError, Global};
use std::collections::LinkedList;
use std::marker::Model;

/// A batch with the history that ends in it. Contracts see it as the batch.
#[derive(Drop)]
pub struct Shelved<X: Extent, J: Naming> {
    alloc: Global,
    batch: Batch<X>,
    known: Note<X, J>,
}

impl<X: Extent, J: Naming> Model for Shelved<X, J> {
    ghost use Rattle.std.specs.Prelude.{◌≡◌, ◌-◌, [], ◌∷◌, length, drop};
    ghost use Rattle.live_directory.specs.declared.front.Added.{Added};
    ghost use Rattle.live_directory.specs.Histories.{added_batch};

    ghost Value = { Added X };

    ghost view = { λ s. added_batch s.batch.entries.items s.batch.end };

    ghost invariant = { λ s. drop (length s.known - 1) s.known ≡ added_batch s.batch.entries.items s.batch.end ∷ [] };
}

impl<X: Extent, J: Naming> Shelved<X, J> {
    pub(crate) fn new(alloc: Global, batch: Batch<X>, known: Note<X, J>) -> Shelved<X, J>
        requires { drop (length known - 1) known ≡ added_batch batch.entries.items batch.end ∷ [] }
        ensures { result ≡ added_batch batch.entries.items batch.end }
    {
        Shelved {
            alloc,
            batch,
            known,
        }
    }

    pub(crate) fn entries(&self) -> &[Entry<X>]
        ensures { result.now ≡ self.now.entries }
    {
        self.batch.entries.as_slice()
    }

    pub(crate) fn known(&self) -> &Note<X, J>
        ensures { drop (length result.now - 1) result.now ≡ self.now ∷ [] }
    {
        &self.known
    }

    pub(crate) fn same(&self) -> Result<Shelved<X, J>, Memory>
        ensures { IfOk result (λ s. s ≡ self.now) }
    {
        let mut entries = Vec::new(self.alloc);
        let Ok(()) = copy_all(&mut entries, self.batch.entries.as_slice()) else {
            return Err(Memory);
        };
        Ok(Shelved {
            alloc: self.alloc,
            batch: Batch {
                entries,
                end: self.batch.end,
            },
            known: self.known.same(),
        })
    }
}

/// The batches so far, with the history that they are. Contracts see it as that history.
#[derive(Drop)]
pub struct Shelf<X: Extent, J: Naming> {
    batches: Vec<Shelved<X, J>>,
    known: Note<X, J>,
}

impl<X: Extent, J: Naming> Model for Shelf<X, J> {
    ghost use Rattle.std.specs.Prelude.{◌≡◌, List};
    ghost use Rattle.live_directory.specs.declared.front.Added.{Added};

    ghost Value = { List (Added X) };

    ghost view = { λ s. s.batches.items };

    ghost invariant = { λ s. s.known ≡ s.batches.items };
}

impl<X: Extent, J: Naming> Shelf<X, J> {
    pub(crate) fn empty(alloc: Global, known: &Note<X, J>) -> Shelf<X, J>
        requires { known.now ≡ [] }
        ensures { result ≡ [] }
    {
        Shelf {
            batches: Vec::new(alloc),
            known: known.same(),
        }
    }

    pub(crate) fn known(&self) -> &Note<X, J>
        ensures { result.now ≡ self.now }
    {
        &self.known
    }

    pub(crate) fn batches(&self) -> &[Shelved<X, J>]
        ensures { result.now ≡ self.now }
    {
        self.batches.as_slice()
    }

    // Adds a copy of the batch that comes next in the history. It is the next one, since a writer hands them in in order.
    fn add(&mut self, batch: &Shelved<X, J>) -> Result<(), Memory>
        ensures { MatchResult result (λ _. self.new ≡ self.old ++ batch.now ∷ []) (λ _. self.new ≡ self.old) }
    {
        let theirs = batch.known();
        let count = theirs.count();
        if count == 0 || count - 1 != self.known.count() || !self.known.begins(theirs) {
            return Err(Memory);
        }
        let Ok(copy) = batch.same() else {
            return Err(Memory);
        };
        match self.batches.push(copy) {
            Ok(()) => {
                self.known = theirs.same();
                return Ok(());
            }
            Err(_) => return Err(Memory),
        }
    }
}

impl<X: Extent, J: Naming> Absorb<Shelved<X, J>> for Shelf<X, J> {
    type State = LinkedList<Added<X>>;

    ghost state = { λ shelf. shelf };

    ghost applied = { λ history batch. history ++ batch ∷ [] };

    fn absorb_first(
        &mut self,
        operation: &Shelved<X, J>,
        _other: &Shelf<X, J>,
    ) -> Result<(), AllocError> {
        match self.add(operation) {
            Ok(()) => return Ok(()),
            Err(Memory) => return Err(AllocError),
        }
    }
}
