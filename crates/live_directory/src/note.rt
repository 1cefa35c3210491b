//! One history of what was published, of which each thread knows a beginning.
ghost use Rattle.std.specs.Prelude.{◌≡◌, ◌+◌, ◌<◌, ◌^◌, ◌++◌, ◌∷◌, [], None, length, MatchBool};
ghost use mathlib.Core.List.{IsPrefix};
ghost use Rattle.live_entry.specs.Entries.{EntriesFollow};
ghost use Rattle.live_directory.specs.Published.{entries_of, end_of};
ghost use Rattle.live_directory.specs.Histories.{added_batch, IsHistory, published_front};
ghost use Rattle.live_directory.specs.Rules.{named_book};

use crate::front::{Added, Batch, Front};
use crate::naming::Naming;
use logbook::{Gain, Offer, Plain, Play, Rule, Seen, Word};
use mcap_io::Extent;
use std::marker::{Model, PhantomData};

/// The rule of the history.
pub struct Law;

impl<X: Extent> Rule<Added<X>, u64> for Law {
    ghost use Rattle.std.specs.Prelude.{[]};
    ghost use base.Fml.{ftrue};
    ghost use Rattle.live_directory.specs.Rules.{IsBookOf};

    ghost holds = { λ cells log. IsBookOf X.tells cells log };

    ghost first = { [] };

    ghost hinted = { λ n log. Unit {0} };

    ghost shows = { λ log. [] };

    ghost keeps = { λ names log. ftrue };

    ghost moves = { λ ask before after answer. Unit {0} };
}

/// Callers trade nothing.
struct Nothing;

impl<X> Gain<Added<X>, u64> for Nothing {
    ghost use base.Fml.{ftrue};

    ghost after = { λ names about answer. ftrue };
}

/// The step that adds a batch.
struct Add;

impl<X: Extent> Play<Added<X>, u64> for Add {
    ghost use Rattle.live_directory.specs.Rules.{AddsBatch};

    ghost then = { AddsBatch X.tells };
}

impl<X> Plain<Batch<X>, Added<X>, u64> for Add {
    ghost use Rattle.std.specs.Prelude.{None};
    ghost use Rattle.live_directory.specs.Histories.{added_batch};

    ghost ask = { λ batch. added_batch batch.entries.items batch.end };

    ghost state = { λ batch. None };
}

/// The writer's word: the length of the history.
#[derive(Drop)]
pub struct Pages<X: Extent, J: Naming> {
    head: Word<Added<X>, u64, Law>,
    of: PhantomData<J>,
    ghost head_is: { head ≡ named_book J.book },
}

impl<X: Extent, J: Naming> Pages<X, J> {
    pub(crate) fn new(head: Word<Added<X>, u64, Law>) -> Pages<X, J>
        requires { head ≡ named_book J.book }
    {
        Pages {
            head,
            of: PhantomData,
        }
    }
}

/// A beginning of the history, which takes no memory. Contracts see it as what was published.
#[derive(Drop)]
pub struct Note<X: Extent, J: Naming> {
    count: u64,
    front: Front,
    seen: Seen<Added<X>, u64, Law>,
    of: PhantomData<J>,
}

impl<X: Extent, J: Naming> Model for Note<X, J> {
    ghost use Rattle.std.specs.Prelude.{◌≡◌, List, length};
    ghost use Rattle.live_directory.specs.declared.front.Added.{Added};
    ghost use Rattle.live_directory.specs.Histories.{IsHistory, published_front};

    ghost Value = { List (Added X) };

    ghost view = { λ k. k.seen.log };

    ghost invariant = { λ k. (k.count ≡ length k.seen.log) × (k.front ≡ published_front k.seen.log)
        × (k.seen.book ≡ J.book) × IsHistory X.tells k.seen.log };
}

impl<X: Extent, J: Naming> Note<X, J> {
    // An empty beginning.
    pub(crate) fn none(seen: Seen<Added<X>, u64, Law>) -> Note<X, J>
        requires empty { seen.log ≡ [] }
        requires book { seen.book ≡ J.book }
        ensures { result ≡ [] }
    {
        Note {
            count: 0,
            front: Front {
                blocks: 0,
                end: None,
            },
            seen,
            of: PhantomData,
        }
    }

    /// How many calls published it.
    pub fn count(&self) -> u64
        ensures { result ≡ length self.now }
    {
        self.count
    }

    /// How many blocks it has, and its end.
    pub fn front(&self) -> Front
        ensures front { result ≡ published_front self.now }
        ensures history { IsHistory X.tells self.now }
    {
        self.front
    }

    /// A copy. It takes no memory.
    pub fn same(&self) -> Note<X, J>
        ensures { result ≡ self.now }
    {
        Note {
            count: self.count,
            front: self.front,
            seen: self.seen.again(),
            of: PhantomData,
        }
    }

    /// Whether the other begins with this. Both begin one history, so it does unless it is shorter.
    pub fn begins(&self, other: &Note<X, J>) -> bool
        ensures begins { MatchBool result (IsPrefix self.now other.now) (IsPrefix other.now self.now) }
        ensures history { IsHistory X.tells self.now × IsHistory X.tells other.now }
    {
        let mut both = self.seen.again();
        both.learn(&other.seen);
        self.count <= other.count
    }

    /// The longer of two, which begins with both.
    pub fn longer(&self, other: &Note<X, J>) -> Note<X, J>
        ensures this { IsPrefix self.now result }
        ensures that { IsPrefix other.now result }
        ensures history { IsHistory X.tells result }
    {
        if self.begins(other) {
            return other.same();
        } else {
            return self.same();
        }
    }

    // Adds a batch to all that is known, and says whether it did. It does, where this is all of the history and the numbers
    // have room.
    pub(crate) fn add(&mut self, pages: &Pages<X, J>, batch: &Batch<X>) -> bool
        requires unsealed { end_of self.old ≡ None }
        requires follow { EntriesFollow X.tells (entries_of self.old ++ batch.now.entries.items) }
        ensures { MatchBool result (self.new ≡ self.old ++ added_batch batch.now.entries.items batch.now.end ∷ [])
            (self.new ≡ self.old) }
    {
        let (Some(blocks), true) = (
            self.front.blocks.checked_add(batch.entries.len() as u64),
            self.count < MOST,
        ) else {
            return false;
        };
        let mut seen = self.seen.again();
        let mut offer: Offer<Added<X>, u64, Law, Nothing> = seen.plain::<Nothing, Batch<X>, Add>(
            batch,
        );
        let mut pen = seen.no_pen();
        let count = self.count;
        let found = pages
            .head
            .compare_exchange::<Add, Nothing>(count, count + 1, &mut seen, &mut offer, &mut pen);
        if found != count {
            return false;
        }
        *self = Note {
            count: count + 1,
            front: Front {
                blocks,
                end: batch.end,
            },
            seen,
            of: PhantomData,
        };
        true
    }
}

const MOST: u64 = 1 << 62;
