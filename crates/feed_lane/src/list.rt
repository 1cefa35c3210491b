//! The list.
ghost use Rattle.std.specs.Prelude.{◌≡◌, ◌+◌, ◌^◌, ◌<◌, ◌≤◌, [], ◌∷◌, ◌++◌, length, true, false, IsSome, IfSome, OnOk, OnErr};
ghost use Rattle.feed_lane.specs.Listings.{most_counted};

use crate::store::Store;
use crate::trace::Trace;
use std::alloc::{AllocError, Global};
use std::marker::Model;

/// As many members as a list that only counts them takes: no fewer than a `Vec` could hold.
const MOST: u64 = 9_223_372_036_854_775_807;

/// A list of members in their order. A clause sees its members as `items`, whether they are kept, and for how many in all there
/// is room.
#[derive(Drop)]
pub struct Listing<T> {
    store: Store<T>,
    trace: Trace<T>,
}

impl<T> Model for Listing<T> {
    ghost use Rattle.feed_lane.specs.Listings.{Listed};

    ghost Value = { Listed T };

    ghost use Rattle.feed_lane.specs.Stores.{is_kept, room_in, HasMembers};

    ghost view = { λ l. record { items = l.trace.items; kept = is_kept l.store; capacity = room_in l.store } };

    ghost invariant = { λ l. HasMembers l.store l.trace.items };
}

impl<T: Drop> Listing<T> {
    /// A list with no members, whose members are kept, or only counted.
    pub fn new(alloc: Global, kept: bool) -> Listing<T>
        ensures items { result.items ≡ [] }
        ensures kept { result.kept ≡ kept }
    {
        let trace = Trace::new();
        if kept {
            return Listing {
                store: Store::Kept(Vec::new(alloc)),
                trace,
            };
        }
        return Listing {
            store: Store::Counted(0),
            trace,
        };
    }

    /// How many members there are: fewer than 2 ^ 63.
    pub fn len(&self) -> u64
        ensures len { result ≡ length self.now.items }
        ensures bound { result < 2 ^ 63 }
    {
        match &self.store {
            Store::Kept(items) => return items.len() as u64,
            Store::Counted(count) => return *count,
        }
    }

    /// The members, where they are kept.
    pub fn as_slice(&self) -> Option<&[T]>
        ensures items { IfSome result (λ items. items.now ≡ self.now.items) }
        ensures kept { self.now.kept ≡ true → IsSome result }
    {
        match &self.store {
            Store::Kept(items) => return Some(items.as_slice()),
            Store::Counted(_) => return None,
        }
    }

    /// Makes room for one more member. It is refused where memory lacks for members that are kept, or where 2 ^ 63 - 1 are counted.
    pub fn reserve(&mut self) -> Result<(), AllocError>
        ensures items { self.new.items ≡ self.old.items }
        ensures kept { self.new.kept ≡ self.old.kept }
        ensures room { OnOk result (length self.new.items + 1 ≤ self.new.capacity) }
        ensures capacity { self.old.capacity ≤ self.new.capacity }

        // It is refused only where there was no room, and if members are only counted, only where that many are.
        ensures full { OnErr result (self.old.capacity < length self.old.items + 1) }
        ensures counted { self.old.kept ≡ false → OnErr result (length self.old.items ≡ most_counted) }
    {
        match &mut self.store {
            Store::Kept(items) => return items.reserve(1),
            Store::Counted(count) => {
                if *count < MOST {
                    return Ok(());
                }
                return Err(AllocError);
            }
        }
    }

    /// Adds a member, for which there is room.
    pub fn push(&mut self, one: T)
        requires { length self.old.items + 1 ≤ self.old.capacity }
        ensures items { self.new.items ≡ self.old.items ++ one ∷ [] }
        ensures kept { self.new.kept ≡ self.old.kept }
        ensures capacity { self.old.capacity ≤ self.new.capacity }
    {
        self.trace = self.trace.and(&one);
        match &mut self.store {
            Store::Kept(items) => items.push_reserved(one),
            Store::Counted(count) => *count += 1,
        }
    }
}
