//! Whether each chunk has one Chunk Index, so that no message is led to twice by two of them.
ghost use Rattle.std.specs.Prelude.{◌≡◌, ◌≢◌, ◌↔◌, ◌<◌, length, IsTrue, IfOk};
ghost use Rattle.indexed_replay.specs.Apart.{Leads, AreLeads, HaveOne, Ascend, FindsTwo, ApartJudged};

use mcap_model::{ReadingRefused, Rule};
use mcap_wire::Memory;
use std::alloc::Global;
use summary_read::Loaded;

/// A Chunk Index: where it stands, and where the chunk stands to which it leads.
#[derive(Clone, Copy)]
pub(crate) struct Lead {
    pub chunk: u64,
    pub at: u64,
}

// The Chunk Index at a place.
fn lead_of(loaded: &Loaded, i: usize) -> Lead
    requires { i < length loaded.now.chunk_indexes }
    ensures { Leads loaded.now.chunk_indexes loaded.now.chunk_index_offsets i result }
{
    let index = loaded.chunk_index(i);
    Lead {
        chunk: index.chunk_start_offset,
        at: loaded.chunk_index_offset(i),
    }
}

// Whether the chunks to which the Chunk Indexes lead stand further and further behind, as writers leave them.
fn are_rising(loaded: &Loaded) -> bool
    ensures { IsTrue result → HaveOne loaded.now.chunk_indexes loaded.now.chunk_index_offsets }
{
    let mut last = 0;
    'indexes: for i in 0..loaded.chunk_indexes() {
        let lead = lead_of(loaded, i);
        if i > 0 && lead.chunk <= last {
            return false;
        }
        last = lead.chunk;
    }
    return true;
}

// All Chunk Indexes.
fn leads_of(alloc: Global, loaded: &Loaded) -> Result<Vec<Lead>, Memory>
    ensures { IfOk result (λ leads. AreLeads loaded.now.chunk_indexes loaded.now.chunk_index_offsets leads.items) }
{
    let mut leads = Vec::new(alloc);
    'indexes: for i in 0..loaded.chunk_indexes() {
        match leads.push(lead_of(loaded, i)) {
            Ok(()) => {}
            Err(_) => return Err(Memory),
        }
    }
    return Ok(leads);
}

// Whether two stand at different offsets and lead to one chunk.
fn are_two(one: Lead, other: Lead) -> bool
    ensures { IsTrue result ↔ ((one.chunk ≡ other.chunk) × (one.at ≢ other.at)) }
{
    one.chunk == other.chunk && one.at != other.at
}

// The offset of the later one of two that lead to one chunk, if there are two. They stand in the order of their chunks.
fn find_two(leads: &[Lead]) -> Option<u64>
    requires { Ascend leads.now }
    ensures { FindsTwo leads.now result }
{
    'leads: for i in 1..leads.len() {
        let one = leads[i - 1];
        let other = leads[i];
        if are_two(one, other) {
            return Some(one.at.max(other.at));
        }
    }
    return None;
}

/// Says of a chunk with two Chunk Indexes that V12 fails at the later one. Where the chunks stand in the order of their indexes, as
/// writers leave them, that costs a comparison each.
pub(crate) fn check_apart(alloc: Global, loaded: &Loaded) -> Result<(), ReadingRefused>
    ensures { ApartJudged loaded.now.chunk_indexes loaded.now.chunk_index_offsets result }
{
    if are_rising(loaded) {
        return Ok(());
    }
    let mut leads = match leads_of(alloc, loaded) {
        Ok(leads) => leads,
        Err(Memory) => return Err(ReadingRefused::Memory),
    };
    leads.sort_unstable_by_key(|lead| lead.chunk);
    match find_two(&leads) {
        Some(offset) => return Err(ReadingRefused::Grammar {
            offset,
            rule: Rule::V12,
        }),
        None => return Ok(()),
    }
}
