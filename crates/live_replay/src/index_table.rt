//! The entries of a Message Index in the order of their times (MCAP specification, "Message Index").
ghost use Rattle.std.specs.Prelude.{◌≡◌, ◌↔◌, ◌≤◌, IfOk, IsTrue, IsPermutation, length, map, filter, take, drop, nat_lt, nat_le};
ghost use Rattle.std.specs.List.{AllAdjacentBelow};
ghost use Rattle.mcap_model.specs.Scan.{is_within};
ghost use Rattle.live_replay.specs.IndexTable.{time_at, NotAfter, Rises, HasJustEntries};

use mcap_model::Range;
use mcap_wire::{EntriesRef, Memory};
use rec_index::MessageIndex;
use std::alloc::Global;
use std::marker::Model;

/// An entry of a Message Index: the log time of a message in nanoseconds, and where it starts in the chunk's records.
#[derive(Clone, Copy, PartialEq, Eq)]
pub struct TimeAt {
    pub time: u64,
    pub offset: u64,
}

/// The entries of a Message Index in ascending order of time and offset. Contracts see the list of them.
#[derive(Drop)]
pub struct IndexTable {
    entries: Vec<TimeAt>,
}

impl Model for IndexTable {
    ghost use Rattle.std.specs.Prelude.{List};
    ghost use Rattle.live_replay.specs.declared.index_table.TimeAt.{TimeAt as Entry};
    ghost use Rattle.live_replay.specs.IndexTable.{Rises};

    ghost Value = { List Entry };

    ghost view = { λ t. t.entries.items };

    ghost invariant = { λ t. Rises t.entries.items };
}

// The entries, in their order.
fn copy_entries(alloc: Global, entries: &EntriesRef) -> Result<Vec<TimeAt>, Memory>
    ensures { IfOk result (λ copied. copied.items ≡ map time_at entries.now) }
{
    let mut copied = Vec::new(alloc);
    'entries: for i in 0..entries.count() {
        let (time, offset) = entries.item(i);
        match copied.push(TimeAt { time, offset }) {
            Ok(()) => {}
            Err(_) => return Err(Memory),
        }
    }
    return Ok(copied);
}

// Whether an entry doesn't come behind another.
fn is_not_after(one: TimeAt, other: TimeAt) -> bool
    ensures { IsTrue result ↔ NotAfter one other }
{
    if one.time != other.time {
        return one.time < other.time;
    }
    return one.offset <= other.offset;
}

// Whether no entry comes behind the next.
fn is_in_order(entries: &[TimeAt]) -> bool
    ensures { IsTrue result → AllAdjacentBelow NotAfter entries.now (length entries.now) }
{
    'entries: for i in 1..entries.len() {
        if !is_not_after(entries[i - 1], entries[i]) {
            return false;
        }
    }
    return true;
}

// Puts entries in order. Those that are in order already, as writers mostly leave them, cost one pass.
fn put_in_order(entries: &mut Vec<TimeAt>)
    ensures same { IsPermutation entries.old.items entries.new.items }
    ensures rises { Rises entries.new.items }
{
    if is_in_order(entries) {
        return;
    }
    entries.sort_unstable_by_key(|e| (e.time, e.offset));
}

// How many entries, which are in order, lie before that time.
fn count_before(entries: &[TimeAt], time: u64) -> usize
    requires { Rises entries.now }
    ensures within { result ≤ length entries.now }
    ensures early { take result entries.now ≡ filter (λ e. nat_lt e.time time) entries.now }
    ensures late { drop result entries.now ≡ filter (λ e. nat_le time e.time) entries.now }
{
    entries.partition_point(|e| e.time < time)
}

// Those of them, which are in order, that lie at that time or behind it.
fn late(entries: &[TimeAt], time: u64) -> &[TimeAt]
    requires { Rises entries.now }
    ensures late { result.now ≡ filter (λ e. nat_le time e.time) entries.now }
    ensures rises { Rises result.now }
{
    let from = count_before(entries, time);
    &entries[from..]
}

// Those that lie before it.
fn early(entries: &[TimeAt], time: u64) -> &[TimeAt]
    requires { Rises entries.now }
    ensures early { result.now ≡ filter (λ e. nat_lt e.time time) entries.now }
    ensures rises { Rises result.now }
{
    let to = count_before(entries, time);
    &entries[..to]
}

impl IndexTable {
    /// The entries of a Message Index.
    pub fn of(alloc: Global, index: &MessageIndex) -> Result<IndexTable, Memory>
        ensures { IfOk result (λ table. HasJustEntries index.now.entries table) }
    {
        let mut entries = match copy_entries(alloc, &index.entries) {
            Ok(entries) => entries,
            Err(memory) => return Err(memory),
        };
        put_in_order(&mut entries);
        return Ok(IndexTable { entries });
    }

    /// Those whose time lies in the range, in order.
    pub fn between(&self, range: Range) -> &[TimeAt]
        ensures among { result.now ≡ filter (λ e. is_within range e.time) self.now }
        ensures rises { Rises result.now }
    {
        let from_start = late(&self.entries, range.start);
        match range.end {
            Some(end) => return early(from_start, end),
            None => return from_start,
        }
    }
}
