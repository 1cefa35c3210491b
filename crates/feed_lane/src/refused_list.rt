//! The messages of a feed that were refused.
ghost use Rattle.std.specs.Prelude.{◌≡◌, ◌+◌, ◌^◌, ◌<◌, ◌≤◌, [], ◌∷◌, ◌++◌, length, true, false, IsSome, IfSome, OnOk, OnErr};
ghost use Rattle.std.specs.List.{list_any};
ghost use Rattle.feed_lane.specs.Listings.{most_counted};
ghost use Rattle.feed_lane.specs.Causes.{is_over, is_memory, is_memory_stop};

use crate::Listing;
use crate::report::Refused;
use mcap_model::Stop;
use record_core::CallRefused;
use std::alloc::{AllocError, Global};
use std::marker::Model;

/// The refusals of a feed in their order, listed or only counted. Even then they tell what an answer to the recording needs of
/// their causes.
#[derive(Drop)]
pub struct Refusals {
    list: Listing<Refused>,
    over: bool,
    lacked: bool,
}

impl Model for Refusals {
    ghost use Rattle.std.specs.Prelude.{◌≡◌};
    ghost use Rattle.feed_lane.specs.Listings.{Listed};
    ghost use Rattle.feed_lane.specs.declared.report.Refused.{Refused};

    ghost Value = { Listed Refused };

    ghost use Rattle.std.specs.List.{list_any};
    ghost use Rattle.feed_lane.specs.Causes.{is_over, is_memory};

    ghost view = { λ r. r.list };

    ghost invariant = { λ r. (r.over ≡ list_any (λ x. is_over x.cause) r.list.items)
        × (r.lacked ≡ list_any (λ x. is_memory x.cause) r.list.items) };
}

// Whether that is a limit of what is recorded.
fn is_limit(cause: CallRefused) -> bool
    ensures { result ≡ is_over cause }
{
    match cause {
        CallRefused::TooLarge { .. }
        | CallRefused::TooManySchemas
        | CallRefused::TooManyChannels
        | CallRefused::TooManyRecords { .. } => true,
        CallRefused::Full { .. }
        | CallRefused::Closed { .. }
        | CallRefused::Stopped { .. }
        | CallRefused::UnknownChannel
        | CallRefused::Memory => false,
    }
}

// Whether memory lacked for that which stopped the intake.
fn is_stop_for_memory(stop: Stop) -> bool
    ensures { result ≡ is_memory_stop stop }
{
    match stop {
        Stop::Memory => true,
        Stop::Fault { .. } | Stop::Limit { .. } => false,
    }
}

// Whether that is a want of memory.
fn is_lack(cause: CallRefused) -> bool
    ensures { result ≡ is_memory cause }
{
    match cause {
        CallRefused::Memory => true,
        CallRefused::Stopped { stop, .. } => is_stop_for_memory(stop),
        CallRefused::Full { .. }
        | CallRefused::TooLarge { .. }
        | CallRefused::Closed { .. }
        | CallRefused::UnknownChannel
        | CallRefused::TooManySchemas
        | CallRefused::TooManyChannels
        | CallRefused::TooManyRecords { .. } => false,
    }
}

impl Refusals {
    /// No refusals, which are to be listed, or only counted.
    pub fn new(alloc: Global, kept: bool) -> Refusals
        ensures items { result.items ≡ [] }
        ensures kept { result.kept ≡ kept }
    {
        Refusals {
            list: Listing::new(alloc, kept),
            over: false,
            lacked: false,
        }
    }

    /// How many there are: fewer than 2 ^ 63.
    pub fn len(&self) -> u64
        ensures len { result ≡ length self.now.items }
        ensures bound { result < 2 ^ 63 }
    {
        self.list.len()
    }

    /// All of them, where they are listed.
    pub fn as_slice(&self) -> Option<&[Refused]>
        ensures items { IfSome result (λ items. items.now ≡ self.now.items) }
        ensures kept { self.now.kept ≡ true → IsSome result }
    {
        self.list.as_slice()
    }

    /// Whether a message was refused since it, its channel or the number of records would pass a limit.
    pub fn has_limit(&self) -> bool
        ensures { result ≡ list_any (λ x. is_over x.cause) self.now.items }
    {
        self.over
    }

    /// Whether a message was refused for want of memory.
    pub fn has_lack(&self) -> bool
        ensures { result ≡ list_any (λ x. is_memory x.cause) self.now.items }
    {
        self.lacked
    }

    /// Makes room for one more. It is refused where memory lacks for a list, or where 2 ^ 63 - 1 are counted.
    pub fn reserve(&mut self) -> Result<(), AllocError>
        ensures items { self.new.items ≡ self.old.items }
        ensures kept { self.new.kept ≡ self.old.kept }
        ensures room { OnOk result (length self.new.items + 1 ≤ self.new.capacity) }
        ensures capacity { self.old.capacity ≤ self.new.capacity }
        ensures full { OnErr result (self.old.capacity < length self.old.items + 1) }
        ensures counted { self.old.kept ≡ false → OnErr result (length self.old.items ≡ most_counted) }
    {
        self.list.reserve()
    }

    /// Adds one, for which there is room.
    pub fn push(&mut self, refused: Refused)
        requires { length self.old.items + 1 ≤ self.old.capacity }
        ensures items { self.new.items ≡ self.old.items ++ refused ∷ [] }
        ensures kept { self.new.kept ≡ self.old.kept }
        ensures capacity { self.old.capacity ≤ self.new.capacity }
    {
        self.over = self.over || is_limit(refused.cause);
        self.lacked = self.lacked || is_lack(refused.cause);
        self.list.push(refused);
    }
}
