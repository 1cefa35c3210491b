//! Whether a valid file is fully indexed.
ghost use Rattle.std.specs.Prelude.{◌≡◌, ◌↔◌, ℕ, List, None, length as size, IfOk, IsTrue};
ghost use Rattle.rec_index.specs.Parsed.{chunk_index_fields};
ghost use Rattle.mcap_model.specs.Places.{At, Each};
ghost use Rattle.mcap_model.specs.Tops.{Top};
ghost use Rattle.mcap_model.specs.Fields.{ChunkFields};
ghost use Rattle.mcap_model.specs.Whole.{IsIndexOf, V12};
ghost use Rattle.mcap_model.specs.Made.{top};
ghost use Rattle.mcap_wire.specs.declared.faults.Cut.{Cut as OneCut};
ghost use Rattle.index_check.specs.Chunks.{ChunksOf};
ghost use Rattle.summary_read.specs.PartSteps.{cut_tops, AreInside};
ghost use Rattle.summary_read.specs.Steps.{Judged};
ghost use Rattle.summary_check.specs.Filed.{records_of};
ghost use Rattle.summary_check.specs.FullIndex.{EmptyIsRight, EmptyRight, HasStatistics, MakesFullyIndexed};
ghost use Rattle.summary_check.specs.Judging.{KnownOf};

use crate::channels::channels_of;
use crate::offsets::span_of;
use crate::records::record_at;
use crate::repeats::are_repeated;
use index_check::{Chunks, Section};
use mcap_wire::{Cut, Memory};
use rec_index::{CHUNK_INDEX, ChunkIndex, STATISTICS};
use std::alloc::Global;

// Whether a Chunk Index has entries in its map, or both times 0 and a chunk without Messages.
fn is_empty_right(chunks: &Chunks, index: &ChunkIndex<'_>) -> bool
    ensures { (all : List Top) (k : ℕ) (c : Top) (g : ChunkFields) → ChunksOf all chunks.now
        → IsIndexOf all (chunk_index_fields index.now) k c g
        → IsTrue result ↔ EmptyIsRight (chunk_index_fields index.now) c }
{
    if index.message_index_offsets.count() != 0 {
        return true;
    }
    if index.message_start_time != 0 || index.message_end_time != 0 {
        return false;
    }
    return !chunks.holds_messages(index.chunk_start_offset);
}

// The same of a record, where it is a Chunk Index.
fn is_right(chunks: &Chunks, op: u8, content: &[u8]) -> bool
    ensures { (all : List Top) (n : ℕ) → ChunksOf all chunks.now → V12 all n (top op content.now)
        → IsTrue result ↔ EmptyRight all (top op content.now) }
{
    if op != CHUNK_INDEX {
        return true;
    }
    match ChunkIndex::parse(content) {
        Ok(index) => return is_empty_right(chunks, &index),
        Err(_) => return true,
    }
}

// The same of each of these records.
fn are_right(chunks: &Chunks, bytes: &[u8], cuts: &[Cut]) -> bool
    requires { AreInside bytes.now cuts.now }
    ensures { (all : List Top) → ChunksOf all chunks.now
        → ((k : ℕ) (t : Top) → At (cut_tops bytes.now cuts.now) k t → (n : ℕ) × V12 all n t)
        → IsTrue result ↔ Each (EmptyRight all) (cut_tops bytes.now cuts.now) }
{
    'records: for i in 0..cuts.len() {
        let record = record_at(bytes, cuts, i);
        if !is_right(chunks, record.op, record.content) {
            return false;
        }
    }
    return true;
}

// Whether one of these records is Statistics.
fn has_statistics(cuts: &[Cut]) -> bool
    ensures { (bytes : List ℕ) → IsTrue result ↔ HasStatistics (cut_tops bytes cuts.now) }
{
    match span_of(cuts, STATISTICS) {
        Some(_) => true,
        None => false,
    }
}

/// Whether a valid file of which this is known, with these records between its Data End and its Footer, is fully indexed.
pub(crate) fn is_indexed(
    alloc: Global,
    section: &Section,
    bytes: &[u8],
    cuts: &[Cut],
) -> Result<bool, Memory>
    requires inside { AreInside bytes.now cuts.now }
    requires judged { Each (λ t. Judged t None) (cut_tops bytes.now cuts.now) }
    ensures { IfOk result (λ indexed. (tops : List Top) (foot : OneCut)
        → KnownOf tops bytes.now cuts.now foot section.now
        → IsTrue indexed
        ↔ MakesFullyIndexed (records_of tops bytes.now cuts.now foot) (cut_tops bytes.now cuts.now)
        section.now.chunks.spots section.now.has_messages) }
{
    if section.has_messages {
        return Ok(false);
    }
    if !has_statistics(cuts) {
        return Ok(false);
    }
    if !section.chunks.spots.are_named() {
        return Ok(false);
    }
    if !are_right(&section.chunks, bytes, cuts) {
        return Ok(false);
    }
    let ids = channels_of(alloc, bytes, cuts)?;
    return Ok(are_repeated(&section.tally, &ids));
}
