//! The writer of a directory.
ghost use Rattle.std.specs.Prelude.{◌≡◌, ◌≤◌, ◌++◌, [], None, false, IfOk, MatchResult};
ghost use Rattle.live_entry.specs.Entries.{EntriesFollow};
ghost use Rattle.live_directory.specs.Published.{entries_of, end_of};
ghost use Rattle.live_directory.specs.Writing.{Publishes, Defers, Seals, StaysUnsealed, empty_directory};
ghost use Rattle.live_directory.specs.ReaderSteps.{AreUnread};

use crate::front::{Added, Batch};
use crate::naming::{Naming, Opened};
use crate::note::Note;
use crate::outbox::Outbox;
use crate::raw::{ShelfWriter, empty_shelf, new_place};
use crate::reader::{Reader, new_reader};
use crate::shelf::{Shelf, Shelved};
use crate::visit::{Visiting, Visits};
use crossbeam_utils::rule::Protocol;
use left_right::Absorb;
use live_entry::Entry;
use mcap_io::Extent;
use mcap_model::End;
use mcap_wire::Memory;
use std::alloc::Global;
use std::collections::LinkedList;
use std::marker::Model;
use std::sync::Wait;

/// What one thread publishes. Contracts see what readers find, what is pending, and whether memory lacked. It isn't `Drop`: end
/// it by `close`.
pub struct Directory<X: Extent, J: Naming>
where
    Shelf<X, J>: Absorb<Shelved<X, J>, State = LinkedList<Added<X>>>,
    Visiting: Protocol<Shelf<X, J>, Visits<X>>,
{
    outbox: Outbox<X, J>,
    // What readers find.
    shown: Note<X, J>,
    short: bool,
}

impl<X: Extent, J: Naming> Model for Directory<X, J>
where
    Shelf<X, J>: Absorb<Shelved<X, J>, State = LinkedList<Added<X>>>,
    Visiting: Protocol<Shelf<X, J>, Visits<X>>,
{
    ghost use Rattle.std.specs.Prelude.{◌≡◌, [], false};
    ghost use Rattle.live_directory.specs.Writing.{DirectoryState, seen_of, unseen};

    ghost Value = { DirectoryState X };

    ghost view = { λ d. seen_of d.outbox d.short };

    ghost invariant = { λ d. (d.shown ≡ d.outbox.shown) × (d.short ≡ false → unseen d.outbox ≡ []) };
}

// So many readers of the shelf.
fn make_readers<X: Extent, J: Naming>(
    alloc: Global,
    writer: &ShelfWriter<X, J>,
    none: &Note<X, J>,
    readers: u32,
) -> Result<Vec<Reader<X, J>>, Memory>
    requires { none.now ≡ [] }
    ensures { IfOk result (λ all. AreUnread all.items readers) }
{
    let mut all = Vec::new(alloc);
    for _ in 0..readers {
        let Ok(place) = new_place(writer) else {
            return Err(Memory);
        };
        let Ok(()) = all.push(new_reader(alloc, place, none.same())) else {
            return Err(Memory);
        };
    }
    return Ok(all);
}

/// A directory without blocks, and so many readers of it. The name is that of the history.
pub fn open_directory<X: Extent, J: Naming, R: Wait>(
    alloc: Global,
    rt: &R,
    opened: Opened<X>,
    readers: u32,
) -> Result<(Directory<X, J>, Vec<Reader<X, J>>), Memory>
    requires few { readers ≤ 16 }
    requires book { opened.seen.book ≡ J.book }
    ensures { IfOk result (λ d. (d.0 ≡ empty_directory) × AreUnread d.1.items readers) }
{
    let (pages, none) = opened.named::<J>();
    let Ok(writer) = empty_shelf::<X, J>(alloc, &none, readers.max(1) as usize) else {
        return Err(Memory);
    };
    match make_readers(alloc, &writer, &none, readers) {
        Ok(all) => {
            let directory = Directory {
                shown: none.same(),
                outbox: Outbox::new(alloc, writer, pages, none),
                short: false,
            };
            return Ok((directory, all));
        }
        Err(Memory) => {
            drop(writer.take(rt));
            return Err(Memory);
        }
    }
}

impl<X: Extent, J: Naming> Directory<X, J> {
    /// Publishes these entries at once, behind all others. The note knows them. Where memory lacks they stay pending, and then
    /// only `seal` is called.
    pub fn publish<R: Wait>(&mut self, rt: &R, entries: Vec<Entry<X>>) -> Result<Note<X, J>, Memory>
        requires unsealed { end_of self.old.shown ≡ None }
        requires first_want { self.old.short ≡ false }
        requires follow { EntriesFollow X.tells (entries_of self.old.shown ++ entries.items) }
        ensures { MatchResult result
            (λ note. Publishes self.old self.new entries.items note)
            (λ _. Defers self.old self.new entries.items) }
    {
        match self.outbox.hand_in(Batch { entries, end: None }) {
            Ok(()) => {}
            Err(Memory) => {
                self.short = true;
                return Err(Memory);
            }
        }
        match self.outbox.show(rt) {
            Ok(()) => {
                let note = self.outbox.note();
                self.shown = note.same();
                return Ok(note);
            }
            Err(Memory) => {
                self.short = true;
                return Err(Memory);
            }
        }
    }

    /// Publishes what is pending together with the end. The note knows it. Where memory lacks the directory stays unsealed; it
    /// may be tried again with the same end.
    pub fn seal<R: Wait>(&mut self, rt: &R, end: End) -> Result<Note<X, J>, Memory>
        requires unsealed { end_of self.old.shown ≡ None }
        ensures { MatchResult result
            (λ note. Seals self.old self.new end note)
            (λ _. StaysUnsealed self.old self.new) }
    {
        self.short = true;
        if !self.outbox.is_listed() {
            return Err(Memory);
        }
        match self.outbox.settle() {
            Ok(()) => {}
            Err(Memory) => return Err(Memory),
        }
        match self.outbox.add_end(end) {
            Ok(()) => {}
            Err(Memory) => return Err(Memory),
        }
        match self.outbox.show(rt) {
            Ok(()) => {
                let note = self.outbox.note();
                self.shown = note.same();
                return Ok(note);
            }
            Err(Memory) => return Err(Memory),
        }
    }

    /// What readers find. It takes no memory.
    pub fn shown(&self) -> Note<X, J>
        ensures { result ≡ self.now.shown }
    {
        self.shown.same()
    }

    /// Waits for the readers that are inside. From then on none is let in, so a `refresh` would try for ever: it is closed once
    /// no reader refreshes any more. Fronts and entries may still be asked for.
    pub fn close<R: Wait>(self, rt: &R) {
        let Directory {
            outbox,
            shown: _shown,
            short: _,
        } = self;
        outbox.close(rt);
    }
}
