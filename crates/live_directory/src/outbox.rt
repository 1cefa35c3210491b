//! The batches of a writer on their way: into the history, into the log of the two copies, and to the readers.
ghost use Rattle.std.specs.Prelude.{◌≡◌, ◌≤◌, ◌↔◌, ◌++◌, ◌∷◌, [], drop, None, IfOk, IsTrue, MatchResult};
ghost use Rattle.live_entry.specs.Entries.{EntriesFollow};
ghost use Rattle.live_directory.specs.Published.{entries_of, end_of};
ghost use Rattle.live_directory.specs.Histories.{added_batch, IsHistory};
ghost use Rattle.live_directory.specs.Writing.{OutboxState, outbox_history, Waits, EndAdded, EndWaits};

use crate::front::{Added, Batch};
use crate::naming::Naming;
use crate::note::{Note, Pages};
use crate::raw::{ShelfWriter, show};
use crate::shelf::{Shelf, Shelved};
use crate::visit::{Visiting, Visits};
use crossbeam_utils::rule::Protocol;
use left_right::Absorb;
use mcap_io::Extent;
use mcap_model::End;
use mcap_wire::Memory;
use std::alloc::Global;
use std::collections::LinkedList;
use std::marker::Model;
use std::sync::Wait;

pub struct Outbox<X: Extent, J: Naming>
where
    Shelf<X, J>: Absorb<Shelved<X, J>, State = LinkedList<Added<X>>>,
    Visiting: Protocol<Shelf<X, J>, Visits<X>>,
{
    alloc: Global,
    writer: ShelfWriter<X, J>,
    pages: Pages<X, J>,
    known: Note<X, J>,
    listed: Option<Shelved<X, J>>,
    unlisted: Option<Batch<X>>,
}

impl<X: Extent, J: Naming> Model for Outbox<X, J>
where
    Shelf<X, J>: Absorb<Shelved<X, J>, State = LinkedList<Added<X>>>,
    Visiting: Protocol<Shelf<X, J>, Visits<X>>,
{
    ghost use Rattle.std.specs.Prelude.{◌≡◌, ◌++◌, drop};
    ghost use Rattle.live_directory.specs.Writing.{OutboxState, at_most_batch};
    ghost use Rattle.live_directory.specs.Published.{at_most_one};

    ghost Value = { OutboxState X };

    ghost view = { λ o. record {
      shown = o.writer.desk.shown.value;
      behind = drop o.writer.behind o.writer.log.items;
      listed = at_most_one o.listed;
      unlisted = at_most_batch o.unlisted;
    } };

    ghost invariant = { λ o. o.known
        ≡ o.writer.desk.shown.value ++ (drop o.writer.behind o.writer.log.items ++ at_most_one o.listed) };
}

impl<X: Extent, J: Naming> Outbox<X, J> {
    pub(crate) fn new(
        alloc: Global,
        writer: ShelfWriter<X, J>,
        pages: Pages<X, J>,
        known: Note<X, J>,
    ) -> Outbox<X, J>
        requires shown { writer.desk.shown.value ≡ [] }
        requires behind { drop writer.behind writer.log.items ≡ [] }
        requires known { known ≡ [] }
        ensures { result ≡ record { shown = []; behind = []; listed = []; unlisted = [] } }
    {
        Outbox {
            alloc,
            writer,
            pages,
            known,
            listed: None,
            unlisted: None,
        }
    }

    /// All that the history has.
    pub(crate) fn note(&self) -> Note<X, J>
        ensures note { result ≡ outbox_history self.now }
    {
        self.known.same()
    }

    /// Its end.
    pub(crate) fn end(&self) -> Option<End>
        ensures end { result ≡ end_of (outbox_history self.now) }
        ensures history { IsHistory X.tells (outbox_history self.now) }
    {
        self.known.front().end
    }

    /// Whether the history has all batches.
    pub(crate) fn is_listed(&self) -> bool
        ensures { IsTrue result ↔ (self.now.unlisted ≡ []) }
    {
        self.unlisted.is_none()
    }

    /// Hands a batch to the history and to the log; where memory lacks it waits.
    pub(crate) fn hand_in(&mut self, batch: Batch<X>) -> Result<(), Memory>
        requires none_waits { (self.old.listed ≡ []) × (self.old.unlisted ≡ []) }
        requires unsealed { end_of (outbox_history self.old) ≡ None }
        requires follow { EntriesFollow X.tells (entries_of (outbox_history self.old) ++ batch.entries.items) }
        ensures { MatchResult result
            (λ _. self.new
            ≡ record
            { shown = self.old.shown; behind = self.old.behind ++ added_batch batch.entries.items batch.end ∷ []; listed = []; unlisted = [] })
            (λ _. Waits self.old self.new (added_batch batch.entries.items batch.end)) }
    {
        if !self.known.add(&self.pages, &batch) {
            self.unlisted = Some(batch);
            return Err(Memory);
        }
        let shelved = Shelved::new(self.alloc, batch, self.known.same());
        match self.writer.append(shelved) {
            Ok(()) => return Ok(()),
            Err(shelved) => {
                self.listed = Some(shelved);
                return Err(Memory);
            }
        }
    }

    /// Hands the batch that waits to the log.
    pub(crate) fn settle(&mut self) -> Result<(), Memory>
        ensures { MatchResult result
            (λ _. self.new
            ≡ record
            { shown = self.old.shown; behind = self.old.behind ++ self.old.listed; listed = []; unlisted = self.old.unlisted })
            (λ _. self.new ≡ self.old) }
    {
        let Some(shelved) = self.listed.take() else {
            return Ok(());
        };
        match self.writer.append(shelved) {
            Ok(()) => return Ok(()),
            Err(shelved) => {
                self.listed = Some(shelved);
                return Err(Memory);
            }
        }
    }

    /// Puts the end behind all, once. One that stands there already stays.
    pub(crate) fn add_end(&mut self, end: End) -> Result<(), Memory>
        requires none_waits { (self.old.listed ≡ []) × (self.old.unlisted ≡ []) }
        ensures { MatchResult result (λ _. EndAdded self.old self.new end) (λ _. EndWaits self.old self.new) }
    {
        match self.end() {
            None => {
                return self.hand_in(Batch {
                    entries: Vec::new(self.alloc),
                    end: Some(end),
                });
            }
            Some(standing) => {
                if standing == end {
                    return Ok(());
                }
                return Err(Memory);
            }
        }
    }

    /// Shows readers all that the log has, at once.
    pub(crate) fn show<R: Wait>(&mut self, rt: &R) -> Result<(), Memory>
        ensures { MatchResult result
            (λ _. self.new
            ≡ record
            { shown = self.old.shown ++ self.old.behind; behind = []; listed = self.old.listed; unlisted = self.old.unlisted })
            (λ _. self.new ≡ self.old) }
    {
        match show::<X, J, R>(&mut self.writer, rt) {
            Ok(()) => return Ok(()),
            Err(_) => return Err(Memory),
        }
    }

    /// Waits for the readers that are inside. From then on none is let in.
    pub(crate) fn close<R: Wait>(self, rt: &R) {
        let Outbox {
            alloc: _,
            writer,
            pages: _pages,
            known: _known,
            listed: _listed,
            unlisted: _unlisted,
        } = self;
        drop(writer.take(rt));
    }
}
