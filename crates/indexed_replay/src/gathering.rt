//! All messages to which the Chunk Indexes of a summary lead.
ghost use Rattle.std.specs.Prelude.{◌↔◌, ◌≤◌, IsTrue};
ghost use Rattle.mcap_io.specs.StoreAnswers.{StoreStays};
ghost use Rattle.rec_index.specs.Parsed.{chunk_index_fields};
ghost use Rattle.mcap_model.specs.Led.{Meets};
ghost use Rattle.indexed_replay.specs.Replaying.{ReplayCause};
ghost use Rattle.indexed_replay.specs.Gathering.{AsksAll, Gathers};
ghost use Rattle.indexed_replay.specs.HoldingSteps.{HoldsExactly, HoldsWithin};
ghost use Rattle.time_player.specs.Keeping.{kept_in};

use crate::chunks::show_chunk;
use crate::spots::Request;
use mcap_io::Store;
use mcap_model::{IndexedRefused, Range, is_within};
use rec_index::ChunkIndex;
use std::alloc::Global;
use summary_read::Loaded;
use time_player::Kept;

// Whether the times of a chunk meet the range.
fn meets(range: Range, index: &ChunkIndex) -> bool
    ensures { IsTrue result ↔ Meets range (chunk_index_fields index.now) }
{
    let first = index.message_start_time.max(range.start);
    if first > index.message_end_time {
        return false;
    }
    return is_within(range, first);
}

/// Adds all messages to which the Chunk Indexes lead that meet the range.
pub(crate) fn gather<T: Store>(
    alloc: Global,
    store: &mut T,
    request: &Request,
    loaded: &Loaded,
    shown: &mut Kept,
) -> Result<(), IndexedRefused>
    requires known { request.now.len ≤ (T.state store.old).known }
    requires fits { HoldsExactly request.now.len shown.old }
    ensures holds { HoldsWithin request.now.len shown.new result }
    ensures told { Gathers (T.state store.old).bytes request.now loaded.now.chunk_indexes loaded.now.chunk_index_offsets
        (kept_in shown.old, kept_in shown.new) result }
    ensures cause { ReplayCause (T.state store.old).faults (T.state store.new).faults result }
    ensures stays { StoreStays (T.state store.old) (T.state store.new) }
    ensures asks { AsksAll request.now loaded.now.chunk_indexes loaded.now.chunk_index_offsets (T.state store.old)
        (T.state store.new) result }
{
    'chunks: for i in 0..loaded.chunk_indexes() {
        let index = loaded.chunk_index(i);
        if !meets(request.range, &index) {
            continue;
        }
        let at = loaded.chunk_index_offset(i);
        match show_chunk(alloc, store, request, at, &index, shown) {
            Ok(()) => {}
            Err(why) => return Err(why),
        }
    }
    return Ok(());
}
