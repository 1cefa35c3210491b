//! The entries of a Message Index against the Messages of its chunk.
ghost use Rattle.std.specs.Prelude.{◌≡◌, ◌↔◌, ℕ, List, map, IfOk, IsPermutation, IsTrue};
ghost use Rattle.std.specs.List.Sorted.{IsNonDecreasingBy};
ghost use Rattle.mcap_model.specs.Tops.{Top};
ghost use Rattle.mcap_model.specs.Whole.{AreEntries};
ghost use Rattle.index_check.specs.Entries.{entry_offset};
ghost use Rattle.index_check.specs.Messages.{entry_of, HoldsMessages};

use crate::chunk_messages::ChunkMessages;
use mcap_scan::MessageHead;
use mcap_wire::{EntriesRef, Memory};
use std::alloc::Global;

// A copy of the entries.
fn copy_entries(alloc: Global, entries: &EntriesRef<'_>) -> Result<Vec<(u64, u64)>, Memory>
    ensures { IfOk result (λ copy. copy.items ≡ entries.now) }
{
    let mut copy = Vec::new(alloc);
    'entries: for i in 0..entries.count() {
        match copy.push(entries.item(i)) {
            Ok(()) => {}
            Err(_) => return Err(Memory),
        }
    }
    return Ok(copy);
}

// The entries in the order of their offsets.
fn sorted_entries(alloc: Global, entries: &EntriesRef<'_>) -> Result<Vec<(u64, u64)>, Memory>
    ensures same { IfOk result (λ sorted. IsPermutation entries.now sorted.items) }
    ensures order { IfOk result (λ sorted. IsNonDecreasingBy entry_offset sorted.items) }
{
    let mut sorted = match copy_entries(alloc, entries) {
        Ok(copy) => copy,
        Err(memory) => return Err(memory),
    };
    sorted.sort_unstable_by_key(|entry| entry.1);
    return Ok(sorted);
}

// Whether that is the entry of a Message.
fn is_entry(message: MessageHead, entry: (u64, u64)) -> bool
    ensures { IsTrue result ↔ (entry_of message ≡ entry) }
{
    message.time == entry.0 && message.offset == entry.1
}

// Whether the entries are those of the Messages, in this order.
fn are_listed(messages: &[MessageHead], entries: &EntriesRef<'_>) -> bool
    ensures { IsTrue result ↔ (map entry_of messages.now ≡ entries.now) }
{
    if messages.len() != entries.count() {
        return false;
    }
    'entries: for i in 0..messages.len() {
        if !is_entry(messages[i], entries.item(i)) {
            return false;
        }
    }
    return true;
}

/// Whether these entries are the log time and the offset of each Message on the channel in a chunk that has these
/// Messages, each once and in any order. Times are in nanoseconds, offsets in bytes from the front of the records. Entries
/// in ascending order of offset, as writers mostly leave them, are compared where they stand; others take memory for a copy.
pub(crate) fn are_entries(
    alloc: Global,
    messages: &ChunkMessages,
    channel: u16,
    entries: &EntriesRef<'_>,
) -> Result<bool, Memory>
    ensures { IfOk result (λ right. (records : List Top) → HoldsMessages records messages.now
        → IsTrue right ↔ AreEntries records channel entries.now) }
{
    let run = messages.on_channel(channel);
    if are_listed(run, entries) {
        return Ok(true);
    }
    let sorted = match sorted_entries(alloc, entries) {
        Ok(sorted) => sorted,
        Err(memory) => return Err(memory),
    };
    return Ok(are_listed(run, &EntriesRef::of(&sorted)));
}
