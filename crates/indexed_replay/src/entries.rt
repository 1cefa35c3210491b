//! The messages to which the entries of a Message Index lead.
ghost use Rattle.std.specs.Prelude.{◌≡◌, ◌<◌, ◌≤◌, ℕ, length, false, true, Some, slice_get, IfOk, OnErr};
ghost use Rattle.mcap_io.specs.StoreAnswers.{StoreStays};
ghost use Rattle.indexed_replay.specs.ReplayingSteps.{ReadingCause};
ghost use Rattle.indexed_replay.specs.HoldingSteps.{HoldsExactly, HoldsWithin};
ghost use Rattle.indexed_replay.specs.Steps.{AreTimely, AsksEntries, EntriesAscend, TellsEntries};
ghost use Rattle.indexed_replay.specs.Lists.{HasTimely};
ghost use Rattle.time_player.specs.Keeping.{kept_in};

use crate::messages::add_message;
use crate::spots::Spot;
use mcap_io::Store;
use mcap_model::{Range, ReadingRefused, is_within};
use mcap_wire::{EntriesRef, Memory};
use std::alloc::Global;
use time_player::Kept;

// The entry at an index.
fn entry_in(entries: &[(u64, u64)], i: usize) -> (u64, u64)
    requires { i < length entries.now }
    ensures { slice_get entries.now i ≡ Some result }
{
    entries[i]
}

// Whether the entry at an index stands before it too: where they ascend, directly before it.
fn stands_before(entries: &[(u64, u64)], i: usize, entry: (u64, u64)) -> bool
    requires ascend { EntriesAscend entries.now }
    requires here { slice_get entries.now i ≡ Some entry }
    ensures before { result ≡ true → (k : ℕ) × (k < i) × (slice_get entries.now k ≡ Some entry) }
    ensures none { result ≡ false → (k : ℕ) → k < i → slice_get entries.now k ≡ Some entry → ⊥ }
{
    if i == 0 {
        return false;
    }
    let last = entry_in(entries, i - 1);
    last.0 == entry.0 && last.1 == entry.1
}

// The entries whose log times lie in the range.
fn timely(alloc: Global, range: Range, entries: &EntriesRef) -> Result<Vec<(u64, u64)>, Memory>
    ensures are { IfOk result (λ timely. AreTimely range entries.now timely.items) }
    ensures some { OnErr result (HasTimely range entries.now) }
{
    let mut timely = Vec::new(alloc);
    'entries: for i in 0..entries.count() {
        let entry = entries.item(i);
        if !is_within(range, entry.0) {
            continue;
        }
        match timely.push(entry) {
            Ok(()) => {}
            Err(_) => return Err(Memory),
        }
    }
    return Ok(timely);
}

// Adds the messages to which those of the entries lead that lie in the range, and says whether each of them stands there. Of
// equal ones that stand one behind the other the first is followed.
fn show_each<T: Store>(
    store: &mut T,
    len: u64,
    range: Range,
    spot: Spot,
    entries: &[(u64, u64)],
    shown: &mut Kept,
) -> Result<bool, ReadingRefused>
    requires known { len ≤ (T.state store.old).known }
    requires ascend { EntriesAscend entries.now }
    requires fits { HoldsExactly len shown.old }
    ensures told { TellsEntries (T.state store.old).bytes len range spot entries.now
        (kept_in shown.old, kept_in shown.new) result }
    ensures holds { HoldsWithin len shown.new result }
    ensures cause { ReadingCause (T.state store.old).faults (T.state store.new).faults result }
    ensures stays { StoreStays (T.state store.old) (T.state store.new) }
    ensures asks { AsksEntries len range spot.chunk entries.now (T.state store.old) (T.state store.new) }
{
    'entries: for i in 0..entries.len() {
        let entry = entry_in(entries, i);
        if !is_within(range, entry.0) {
            continue;
        }
        if stands_before(entries, i, entry) {
            continue;
        }
        match add_message(store, len, spot, entry, shown) {
            Ok(true) => {}
            Ok(false) => return Ok(false),
            Err(why) => return Err(why),
        }
    }
    return Ok(true);
}

/// Adds the messages to which those entries lead whose log times lie in the range, and says whether each of them stands
/// there. Other entries aren't looked at. They are followed in the order of their offsets, so that of an entry that stands more
/// than once the message is read once. Where the data is too much, that is told as a limit at the Message Index.
pub(crate) fn show_entries<T: Store>(
    alloc: Global,
    store: &mut T,
    len: u64,
    range: Range,
    spot: Spot,
    entries: &EntriesRef,
    shown: &mut Kept,
) -> Result<bool, ReadingRefused>
    requires known { len ≤ (T.state store.old).known }
    requires fits { HoldsExactly len shown.old }
    ensures told { TellsEntries (T.state store.old).bytes len range spot entries.now
        (kept_in shown.old, kept_in shown.new) result }
    ensures holds { HoldsWithin len shown.new result }
    ensures cause { ReadingCause (T.state store.old).faults (T.state store.new).faults result }
    ensures stays { StoreStays (T.state store.old) (T.state store.new) }
    ensures asks { AsksEntries len range spot.chunk entries.now (T.state store.old) (T.state store.new) }
{
    let mut listed = match timely(alloc, range, entries) {
        Ok(listed) => listed,
        Err(Memory) => return Err(ReadingRefused::Memory),
    };
    listed.sort_unstable_by_key(|entry| (entry.1, entry.0));
    return show_each(store, len, range, spot, &listed, shown);
}
