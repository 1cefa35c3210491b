//! Chunks, and the records inside them.
ghost use Rattle.std.specs.Prelude.{◌≡◌, ◌⊎◌, ◌↔◌, List, ◌++◌, IsTrue};
ghost use Rattle.mcap_crc.specs.Remainder.{remainder};
ghost use Rattle.mcap_model.specs.Tops.{Top};
ghost use Rattle.mcap_model.specs.Declarations.{TablesOf};
ghost use Rattle.mcap_model.specs.Made.{top};
ghost use Rattle.mcap_model.specs.Times.{TimesOf};
ghost use Rattle.mcap_model.specs.Chunked.{flat_of, InnerTaken, AllTaken, ChunkTaken};

use crate::inner::InnerWalk;
use crate::rules::Rule;
use crate::tables::{Ruling, Tables};
use crate::times::Times;
use mcap_crc::crc_of;
use rec_data::{CHANNEL, MESSAGE, SCHEMA};
use rec_index::Chunk;
use std::alloc::Global;

// Takes a record inside a chunk, and says the times so far.
fn take_inner(
    alloc: Global,
    tables: &mut Tables,
    times: Times,
    op: u8,
    content: &[u8],
) -> Result<Times, Ruling>
    ensures { (before inner : List Top) → TablesOf (before ++ flat_of inner) tables.old → TimesOf inner times
        → InnerTaken before inner (top op content.now) tables.new result }
{
    match op {
        SCHEMA => match tables.take_schema(alloc, content) {
            Ruling::Fits => return Ok(times),
            ruling => return Err(ruling),
        },
        CHANNEL => match tables.take_channel(alloc, content) {
            Ruling::Fits => return Ok(times),
            ruling => return Err(ruling),
        },
        MESSAGE => match tables.take_message(content) {
            Ok(time) => return Ok(times.with(time)),
            Err(rule) => return Err(Ruling::Breaks { rule }),
        },
        16..=255 => return Ok(times),
        _ => return Err(Ruling::Breaks { rule: Rule::V8 }),
    }
}

// Takes the records inside a chunk, and says their times.
fn take_all(alloc: Global, tables: &mut Tables, records: &[u8]) -> Result<Times, Ruling>
    ensures { (before : List Top) → TablesOf before tables.old → AllTaken before records.now tables.new result }
{
    let mut times = Times::new();
    let mut walk = InnerWalk::new(records);
    'records: while let Some(inner) = walk.next() {
        match take_inner(alloc, tables, times, inner.op, inner.content) {
            // Field by field: copied whole, the gaps between the fields go along, which takes longer than the fields.
            Ok(more) => {
                times.any = more.any;
                times.least = more.least;
                times.greatest = more.greatest;
            }
            Err(ruling) => return Err(ruling),
        }
    }
    if walk.is_whole() {
        return Ok(times);
    }
    return Err(Ruling::Breaks { rule: Rule::V8 });
}

// Whether the CRC is 0 or that of the records.
fn has_crc(crc: u32, records: &[u8]) -> bool
    ensures { IsTrue result ↔ ((crc ≡ 0) ⊎ (crc ≡ remainder records.now)) }
{
    crc == 0 || crc == crc_of(records)
}

/// Takes a chunk that isn't compressed.
pub(crate) fn take_chunk(alloc: Global, tables: &mut Tables, chunk: &Chunk<'_>) -> Ruling
    ensures { (before : List Top) → TablesOf before tables.old
        → ChunkTaken before
        (record
        { start = chunk.now.message_start_time; end = chunk.now.message_end_time; size = chunk.now.uncompressed_size; crc = chunk.now.uncompressed_crc; compression = chunk.now.compression.now; records = chunk.now.records.now })
        tables.new result }
{
    if chunk.uncompressed_size != chunk.records.len() as u64 {
        return Ruling::Breaks { rule: Rule::V8 };
    }
    if !has_crc(chunk.uncompressed_crc, chunk.records) {
        return Ruling::Breaks { rule: Rule::V8 };
    }
    match take_all(alloc, tables, chunk.records) {
        Ok(times) => {
            if times.are(chunk.message_start_time, chunk.message_end_time) {
                return Ruling::Fits;
            }
            return Ruling::Breaks { rule: Rule::V8 };
        }
        Err(Ruling::Breaks { rule: Rule::V7 }) => return Ruling::Breaks { rule: Rule::V7 },
        Err(Ruling::Memory) => return Ruling::Memory,
        Err(_) => return Ruling::Breaks { rule: Rule::V8 },
    }
}
