//! The line that tells of a file.
ghost use Rattle.std.specs.Prelude.{IfOk, OnOk};
ghost use Rattle.json.specs.Tree.{json_tokens};
ghost use Rattle.rec_index.specs.Parsed.{statistics_fields};
ghost use Rattle.command_read.specs.Json.{Info, info_value};
ghost use Rattle.command_read.specs.ToldSteps.{Informs};
ghost use Rattle.command_read.specs.Writing.{AddsTokens, ShowsParts, SpellsInfo};

use crate::channels::put_channels;
use crate::members::{close_object, open_object, put_name, put_number, put_text};
use crate::names::put_names;
use crate::schemas::put_schemas;
use json::Writer;
use mcap_model::{IndexedRefused, NotIndexed, ReadingRefused};
use mcap_wire::{Bytes, Memory};
use rec_index::Statistics;
use std::alloc::Global;
use summary_read::Loaded;

// Writes the value that tells of a file with these Statistics.
fn put_info(
    alloc: Global,
    out: &mut Writer,
    loaded: &Loaded,
    statistics: &Statistics<'_>,
) -> Result<(), Memory>
    ensures { OnOk result ((i : Info) × ShowsParts loaded.now (statistics_fields statistics.now) i
        × AddsTokens out.old out.new (json_tokens (info_value i))) }
{
    let header = loaded.header();
    open_object(out)?;
    put_number(out, "attachments", statistics.attachment_count as u64)?;
    put_name(out, "channels")?;
    put_channels(alloc, out, loaded, &statistics.channel_message_counts)?;
    put_number(out, "chunks", statistics.chunk_count as u64)?;
    put_name(out, "compression")?;
    put_names(alloc, out, loaded)?;
    put_number(out, "end", statistics.message_end_time)?;
    put_text(out, "library", header.library)?;
    put_number(out, "messages", statistics.message_count)?;
    put_number(out, "metadata", statistics.metadata_count as u64)?;
    put_text(out, "profile", header.profile)?;
    put_name(out, "schemas")?;
    put_schemas(alloc, out, loaded)?;
    put_number(out, "start", statistics.message_start_time)?;
    close_object(out)?;
    return Ok(());
}

// The line that tells of a file with these Statistics.
fn line_of(alloc: Global, loaded: &Loaded, statistics: &Statistics<'_>) -> Result<Bytes, Memory>
    ensures { IfOk result (λ text. SpellsInfo loaded.now (statistics_fields statistics.now) text) }
{
    let mut out = Writer::new(Vec::new(alloc));
    match put_info(alloc, &mut out, loaded, statistics) {
        Ok(()) => {}
        Err(memory) => return Err(memory),
    }
    let mut text = out.into_inner();
    match text.push(10) {
        Ok(()) => return Ok(Bytes::new(text)),
        Err(_) => return Err(Memory),
    }
}

/// One line of compact JSON that tells of a file what its Header and its summary show, with the members of each object in
/// the order of their names.
///
/// Of the first Statistics come the counts of the records, in decimal, and the times of the messages, in nanoseconds; of
/// the Header its texts; and of the Chunk Indexes the distinct names of compressions, in the order of their bytes. The
/// Channels and the Schemas stand in the ascending order of their ids, of several of one id the first. A Channel's count of
/// messages is what the Statistics have under its id, 0 where they have none, and null where they count no channel (MCAP
/// specification, "Statistics (op=0x0B)").
///
/// `NoStatistics` comes just where the summary has no Statistics; where it has one, memory may lack. Nothing else is refused.
/// The time grows with the summary alone, but for the ordering of the distinct names.
pub fn info_text(alloc: Global, loaded: &Loaded) -> Result<Bytes, IndexedRefused>
    ensures { Informs loaded.now result }
{
    let statistics = match loaded.statistics() {
        Some(statistics) => statistics,
        None => {
            return Err(IndexedRefused::NotIndexed {
                why: NotIndexed::NoStatistics,
            });
        }
    };
    match line_of(alloc, loaded, &statistics) {
        Ok(text) => return Ok(text),
        Err(_) => {
            return Err(IndexedRefused::Refused {
                why: ReadingRefused::Memory,
            });
        }
    }
}
