//! The messages of a chunk, to which its Chunk Index leads.
ghost use Rattle.std.specs.Prelude.{◌+◌, ◌^◌, ◌<◌, ◌≤◌};
ghost use Rattle.mcap_io.specs.StoreAnswers.{StoreStays};
ghost use Rattle.rec_index.specs.Parsed.{chunk_index_fields};
ghost use Rattle.indexed_replay.specs.Replaying.{RefusedReplayCause, ReplayCause};
ghost use Rattle.indexed_replay.specs.ReplayingSteps.{ReadingCause};
ghost use Rattle.indexed_replay.specs.Reaching.{head_length};
ghost use Rattle.indexed_replay.specs.HoldingSteps.{HoldsExactly, HoldsWithin};
ghost use Rattle.indexed_replay.specs.Chunks.{AsksChunk, AsksFront, AsksNames, ChecksChunk, NamesPack, TellsChunkShown, ShowsNames};
ghost use Rattle.indexed_replay.specs.Costs.{front_length};
ghost use Rattle.time_player.specs.Keeping.{kept_in};

use crate::belonging::refuse_astray;
use crate::fronts::{Front, read_front};
use crate::lists::show_list;
use crate::packings::take_packing;
use crate::spots::{Request, Spot};
use mcap_io::{Failed, OutsideRefused, Store, read_part};
use mcap_model::{IndexedRefused, NotIndexed, ReadingRefused, Rule};
use mcap_wire::{HEAD_LENGTH, Memory, Text, take_u32};
use rec_index::{CHUNK, ChunkIndex};
use std::alloc::Global;
use time_player::Kept;

/// How much of a chunk's content stands in front of its records, beside the compression: two times, the size, the CRC, and
/// the lengths of the compression and of the records.
const FRONT_LENGTH: u64 = 40;

// Refuses a record of a chunk's opcode that has a content of that length and names a compression of that length: it is a
// chunk only where its records fit behind them. The Chunk Index that leads to it stands at `index`.
fn refuse_packed<T: Store>(
    alloc: Global,
    store: &mut T,
    index: u64,
    offset: u64,
    len: u64,
    name_length: u64,
) -> ReadingRefused
    requires inside { front_length + name_length ≤ len }
    requires fits { offset + head_length + len < 2 ^ 64 }
    requires known { offset + head_length + len ≤ (T.state store.old).known }
    ensures told { NamesPack (T.state store.old).bytes index offset len name_length result }
    ensures cause { RefusedReplayCause (T.state store.old).faults (T.state store.new).faults result }
    ensures stays { StoreStays (T.state store.old) (T.state store.new) }
    ensures asks { (T.state store.new).asked ≤ (T.state store.old).asked + (front_length + name_length) }
{
    let missing = ReadingRefused::Grammar {
        offset: index,
        rule: Rule::V12,
    };
    let front_length = FRONT_LENGTH + name_length;
    let front = match read_part(alloc, store, offset + HEAD_LENGTH, front_length) {
        Ok(front) => front,
        Err(OutsideRefused::Failed) => {
            return ReadingRefused::Fault {
                faults: store.faults(),
            };
        }
        Err(OutsideRefused::Memory) => return ReadingRefused::Memory,
    };
    let (name, size) = match take_packing(&front) {
        Ok(taken) => taken,
        Err(_) => return missing,
    };
    if size > len - front_length {
        return missing;
    }
    match Text::copied(alloc, name) {
        Ok(name) => return ReadingRefused::Compressed { offset, name },
        Err(Memory) => return ReadingRefused::Memory,
    }
}

// Reads the front of the chunk at that offset: whether one stands there, and without a compression. Says where it ends. The
// Chunk Index that leads to it stands at `index`.
fn check_chunk<T: Store>(
    alloc: Global,
    store: &mut T,
    len: u64,
    index: u64,
    offset: u64,
) -> Result<u64, ReadingRefused>
    requires { len ≤ (T.state store.old).known }
    ensures told { ChecksChunk (T.state store.old).bytes len index offset result }
    ensures cause { ReadingCause (T.state store.old).faults (T.state store.new).faults result }
    ensures stays { StoreStays (T.state store.old) (T.state store.new) }
    ensures asks { AsksFront len offset (T.state store.old) (T.state store.new) }
{
    let missing = ReadingRefused::Grammar {
        offset: index,
        rule: Rule::V12,
    };
    let mut front = [0; 49];
    let found = match read_front(store, len, offset, &mut front) {
        Ok(found) => found,
        Err(Failed) => {
            return Err(ReadingRefused::Fault {
                faults: store.faults(),
            });
        }
    };
    let head = match found {
        Front::Whole(head) => head,
        Front::Long => return Err(ReadingRefused::Limit { offset }),
        Front::Absent => return Err(missing),
    };
    if head.op != CHUNK {
        return Err(missing);
    }
    let name_length = match take_u32(&front, 37) {
        Ok(read) => read.0 as u64,
        Err(_) => unreachable!(),
    };
    if name_length == 0 {
        return Ok(offset + HEAD_LENGTH + head.len);
    }
    if name_length > head.len - FRONT_LENGTH {
        return Err(missing);
    }
    let refused = refuse_packed(alloc, store, index, offset, head.len, name_length);
    return Err(refused);
}

// Adds the messages to which the Message Indexes lead that a Chunk Index at that offset names. They stand behind the chunk,
// which ends at `end`.
fn show_names<T: Store>(
    alloc: Global,
    store: &mut T,
    request: &Request,
    at: u64,
    end: u64,
    index: &ChunkIndex,
    shown: &mut Kept,
) -> Result<(), IndexedRefused>
    requires known { request.now.len ≤ (T.state store.old).known }
    requires fits { HoldsExactly request.now.len shown.old }
    ensures told { ShowsNames (T.state store.old).bytes request.now at end (chunk_index_fields index.now)
        (kept_in shown.old, kept_in shown.new) result }
    ensures holds { HoldsWithin request.now.len shown.new result }
    ensures cause { ReplayCause (T.state store.old).faults (T.state store.new).faults result }
    ensures stays { StoreStays (T.state store.old) (T.state store.new) }
    ensures asks { AsksNames request.now at end (chunk_index_fields index.now) (T.state store.old) (T.state store.new)
        result }
{
    'names: for i in 0..index.message_index_offsets.count() {
        let (channel, list) = index.message_index_offsets.item(i);
        let spot = Spot {
            chunk: index.chunk_start_offset,
            list,
            channel,
        };
        if list < end || list - end >= index.message_index_length {
            return Err(IndexedRefused::Refused {
                why: ReadingRefused::Grammar {
                    offset: at,
                    rule: Rule::V12,
                },
            });
        }
        match show_list(alloc, store, request, at, spot, shown) {
            Ok(true) => {}
            Ok(false) => {
                let why = refuse_astray(store, request.len, at, end, list);
                return Err(IndexedRefused::Refused { why });
            }
            Err(why) => return Err(why),
        }
    }
    return Ok(());
}

/// Adds the messages to which a Chunk Index at that offset leads, which meets the range.
pub(crate) fn show_chunk<T: Store>(
    alloc: Global,
    store: &mut T,
    request: &Request,
    at: u64,
    index: &ChunkIndex,
    shown: &mut Kept,
) -> Result<(), IndexedRefused>
    requires known { request.now.len ≤ (T.state store.old).known }
    requires fits { HoldsExactly request.now.len shown.old }
    ensures told { TellsChunkShown (T.state store.old).bytes request.now at (chunk_index_fields index.now)
        (kept_in shown.old, kept_in shown.new) result }
    ensures holds { HoldsWithin request.now.len shown.new result }
    ensures cause { ReplayCause (T.state store.old).faults (T.state store.new).faults result }
    ensures stays { StoreStays (T.state store.old) (T.state store.new) }
    ensures asks { AsksChunk request.now at (chunk_index_fields index.now) (T.state store.old) (T.state store.new)
        result }
{
    if index.message_index_offsets.count() == 0 {
        if index.message_start_time == 0 && index.message_end_time == 0 {
            return Ok(());
        }
        return Err(IndexedRefused::NotIndexed {
            why: NotIndexed::NoMessageIndex {
                chunk: index.chunk_start_offset,
            },
        });
    }
    let end = match check_chunk(alloc, store, request.len, at, index.chunk_start_offset) {
        Ok(end) => end,
        Err(why) => return Err(IndexedRefused::Refused { why }),
    };
    return show_names(alloc, store, request, at, end, index, shown);
}
