//! A reader of a directory.
ghost use Rattle.std.specs.Prelude.{◌≡◌, ◌≤◌, ◌++◌, [], suc, length, take, true, OnOk, OnErr, MatchResult, ℕ};
ghost use mathlib.Core.List.{IsPrefix};
ghost use Rattle.left_right.specs.Sides.{view};
ghost use Rattle.live_entry.specs.Entries.{EntriesFollow};
ghost use Rattle.live_directory.specs.Published.{entries_of};
ghost use Rattle.live_directory.specs.Histories.{published_front, AtLeast, IsHistory};
ghost use Rattle.live_directory.specs.Visits.{no_visits, one_visit};
ghost use Rattle.live_directory.specs.Reading.{ReaderState, unread};
ghost use Rattle.live_directory.specs.ReaderSteps.{Learns, Refreshes, Visited, Tries};

use crate::front::Front;
use crate::naming::Naming;
use crate::note::Note;
use crate::raw::{ShelfReader, enter};
use crate::shelf::{Shelf, Shelved};
use crate::visit::{Visiting, Visits};
use crossbeam_utils::rule::Protocol;
use live_entry::{Entry, copy_all};
use mcap_io::Extent;
use mcap_wire::Memory;
use std::alloc::Global;
use std::marker::Model;
use std::sync::Wait;

/// What one thread reads. Contracts see what it knows of the history, the entries that it holds, how often it entered, and what
/// it found the last time.
#[derive(Drop)]
pub struct Reader<X: Extent, J: Naming>
where
    Visiting: Protocol<Shelf<X, J>, Visits<X>>,
{
    // It is away while it reads.
    place: Option<ShelfReader<X, J>>,
    known: Note<X, J>,
    entries: Vec<Entry<X>>,
    // The entries are those of so many batches.
    taken: usize,
}

impl<X: Extent, J: Naming> Model for Reader<X, J>
where
    Visiting: Protocol<Shelf<X, J>, Visits<X>>,
{
    ghost use Rattle.std.specs.Prelude.{◌≡◌, ◌≤◌, length, take, IsSome};
    ghost use Rattle.left_right.specs.Sides as Sides;
    ghost use Rattle.live_directory.specs.Published.{entries_of};
    ghost use Rattle.live_directory.specs.Reading.{ReaderState};
    ghost use Rattle.live_directory.specs.ReaderSteps.{visits_in};

    ghost Value = { ReaderState X };

    ghost view = { λ r. record {
      known = r.known;
      entries = r.entries.items;
      entered = (visits_in (λ p. Sides.view p.place) r.place).entered;
      found = (visits_in (λ p. Sides.view p.place) r.place).found;
    } };

    ghost invariant = { λ r. IsSome r.place × (r.taken ≤ length r.known)
        × (r.entries.items ≡ entries_of (take r.taken r.known)) };
}

/// A reader that knows nothing yet.
pub(crate) fn new_reader<X: Extent, J: Naming>(
    alloc: Global,
    place: ShelfReader<X, J>,
    known: Note<X, J>,
) -> Reader<X, J>
    requires unused { view place.place ≡ no_visits }
    requires none { known ≡ [] }
    ensures { result ≡ unread }
{
    Reader {
        place: Some(place),
        known,
        entries: Vec::new(alloc),
        taken: 0,
    }
}

// Adds copies of the entries of the batches from `taken` on, or none.
fn take_batches<X: Extent, J: Naming>(
    entries: &mut Vec<Entry<X>>,
    taken: usize,
    batches: &[Shelved<X, J>],
) -> Result<(), Memory>
    requires within { taken ≤ length batches.now }
    requires first { entries.old.items ≡ entries_of (take taken batches.now) }
    ensures all { OnOk result (entries.new.items ≡ entries_of batches.now) }
    ensures kept { OnErr result (entries.new.items ≡ entries.old.items) }
{
    let held = entries.len();
    let mut next = taken;
    'batches: while next < batches.len() {
        match copy_all(entries, batches[next].entries()) {
            Ok(()) => next += 1,
            Err(Memory) => {
                entries.truncate(held);
                return Err(Memory);
            }
        }
    }
    return Ok(());
}

// Takes in all of a shelf that goes on from what is known.
fn take_shelf<X: Extent, J: Naming>(
    shelf: &Shelf<X, J>,
    known: &Note<X, J>,
    entries: &mut Vec<Entry<X>>,
    taken: usize,
) -> Result<Note<X, J>, Memory>
    requires within { taken ≤ length known.now }
    requires first { entries.old.items ≡ entries_of (take taken known.now) }
    ensures { MatchResult result
        (λ found. (found ≡ shelf.now) × IsPrefix known.now found × (entries.new.items ≡ entries_of found))
        (λ _. entries.new.items ≡ entries.old.items) }
{
    let theirs = shelf.known();
    if !known.begins(theirs) {
        return Err(Memory);
    }
    match take_batches(entries, taken, shelf.batches()) {
        Ok(()) => return Ok(theirs.same()),
        Err(Memory) => return Err(Memory),
    }
}

// Tries once to enter, and takes in what it finds.
fn visit<X: Extent, J: Naming>(
    place: ShelfReader<X, J>,
    known: &Note<X, J>,
    entries: &mut Vec<Entry<X>>,
    taken: usize,
) -> (ShelfReader<X, J>, Option<Result<Note<X, J>, Memory>>)
    requires within { taken ≤ length known.now }
    requires first { entries.old.items ≡ entries_of (take taken known.now) }
    ensures { Visited (view place.place) (view result.0.place) known.now entries.old.items entries.new.items result.1 }
{
    match enter(place) {
        Ok(reading) => {
            let found = take_shelf(reading.get(), known, entries, taken);
            return (reading.leave(), Some(found));
        }
        Err(place) => return (place, None),
    }
}

// Tries once to enter, and says what is known then.
fn look<X: Extent, J: Naming>(
    place: ShelfReader<X, J>,
    known: &Note<X, J>,
) -> (ShelfReader<X, J>, Note<X, J>)
    ensures grows { IsPrefix known.now result.1 }
    ensures history { IsHistory X.tells result.1 }
{
    match enter(place) {
        Ok(reading) => {
            let longer = known.longer(reading.get().known());
            return (reading.leave(), longer);
        }
        Err(place) => return (place, known.longer(known)),
    }
}

impl<X: Extent, J: Naming> Reader<X, J> {
    /// What is published: at least what this reader knew, and what it finds where it is let in at once.
    pub fn front(&mut self) -> Front
        ensures learns { Learns self.old self.new }
        ensures front { result ≡ published_front self.new.known }
        ensures rises { AtLeast (published_front self.old.known) result }
    {
        let Some(place) = self.place.take() else {
            return self.known.front();
        };
        let (place, known) = look(place, &self.known);
        self.place = Some(place);
        self.known = known;
        return self.known.front();
    }

    /// Takes in what the note tells. From then on each front is at least the note's.
    pub fn learn(&mut self, note: &Note<X, J>)
        ensures learns { Learns self.old self.new }
        ensures learnt { IsPrefix note.now self.new.known }
        ensures rises { AtLeast (published_front note.now) (published_front self.new.known) }
    {
        self.known = self.known.longer(note);
    }

    /// Whether the note has all that this reader knows, as that of what is published has once nothing more is.
    pub fn is_within(&self, note: &Note<X, J>) -> bool
        ensures { result ≡ true → IsPrefix self.now.known note.now }
    {
        self.known.begins(note)
    }

    // Tries once to enter, and copies the entries that are new.
    fn try_refresh(&mut self) -> Option<Result<(), Memory>>
        ensures { Tries self.old self.new result }
    {
        let Some(place) = self.place.take() else {
            return None;
        };
        let (place, visited) = visit(place, &self.known, &mut self.entries, self.taken);
        self.place = Some(place);
        match visited {
            None => return None,
            Some(Err(Memory)) => return Some(Err(Memory)),
            Some(Ok(known)) => {
                self.taken = known.count() as usize;
                self.known = known;
                return Some(Ok(()));
            }
        }
    }

    /// Enters, copies the entries that are new, and answers the front that it found. Where memory lacks for them it holds what
    /// it held. It tries until it is let in, so it isn't called once the directory may be closed.
    pub fn refresh<R: Wait>(&mut self, rt: &R) -> Result<Front, Memory>
        ensures { MatchResult result
            (λ front. Refreshes self.old self.new front)
            (λ _. (self.new.entered ≡ suc self.old.entered) × Learns self.old self.new) }
    {
        for _ in rt.forever() {
            match self.try_refresh() {
                None => {}
                Some(Err(Memory)) => return Err(Memory),
                Some(Ok(())) => return Ok(self.known.front()),
            }
        }
        unreachable!()
    }

    /// The entries of the last front that `refresh` answered: the first ones of the directory.
    pub fn entries(&self) -> &[Entry<X>]
        ensures entries { result.now ≡ self.now.entries }
        ensures first { (n : ℕ) × (self.now.entries ≡ entries_of (take n self.now.known)) }
        ensures follow { EntriesFollow X.tells self.now.entries }
    {
        let _front = self.known.front();
        self.entries.as_slice()
    }
}
