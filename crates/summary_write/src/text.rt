//! The text of a summary (MCAP specification, "Summary Section", "Summary Offset Section", "Footer").
ghost use Rattle.std.specs.Prelude.{◌≡◌, ◌+◌, ◌^◌, ◌<◌, ◌++◌, length, IfOk, OnOk, All};
ghost use Rattle.mcap_model.specs.Summary.{capped};
ghost use Rattle.summary_write.specs.Counts.{CountsRise};
ghost use Rattle.summary_write.specs.Writing.{statistics_of_numbers, statistics_record, group_offset_record, six_offsets, closed_by};

use mcap_crc::crc_of;
use mcap_wire::{CountsRef, MAGIC, Memory, put_bytes};
use rec_data::Footer;
use rec_index::{Statistics, SummaryOffset};

/// What Statistics tell of a file: counts, the least and the greatest log time in nanoseconds, and the messages of each
/// channel.
#[derive(Clone, Copy)]
pub(crate) struct Numbers<'a> {
    pub(crate) messages: u64,
    pub(crate) schemas: usize,
    pub(crate) channels: usize,
    pub(crate) blocks: u64,
    pub(crate) attachments: u32,
    pub(crate) metadata: u32,
    pub(crate) start: u64,
    pub(crate) end: u64,
    pub(crate) counts: &'a [(u16, u64)],
}

// A count as it is written in four bytes: one that is too large is the greatest.
fn in_four_bytes(count: u64) -> u32
    ensures { result ≡ capped count }
{
    count.min(4_294_967_295) as u32
}

/// Appends the Statistics, and answers how many bytes that were.
pub(crate) fn put_statistics(out: &mut Vec<u8>, n: &Numbers<'_>) -> Result<u64, Memory>
    requires rise { CountsRise n.now.counts.now }
    requires ids { All (λ c. c.0 < 2 ^ 16) n.now.counts.now }
    ensures items { IfOk result (λ len. out.new.items ≡ out.old.items
        ++ statistics_record (statistics_of_numbers n.now)) }
    ensures len { IfOk result (λ len. len ≡ length
        (statistics_record (statistics_of_numbers n.now))) }
{
    let before = out.len();
    let statistics = Statistics {
        message_count: n.messages,
        schema_count: (n.schemas % 65536) as u16,
        channel_count: in_four_bytes(n.channels as u64),
        attachment_count: n.attachments,
        metadata_count: n.metadata,
        chunk_count: in_four_bytes(n.blocks),
        message_start_time: n.start,
        message_end_time: n.end,
        channel_message_counts: CountsRef::of(n.counts),
    };
    match statistics.frame(out) {
        Ok(()) => return Ok((out.len() - before) as u64),
        Err(memory) => return Err(memory),
    }
}

// Appends the Summary Offset of a group of so many bytes. A group without bytes isn't there, and has none.
fn put_offset(out: &mut Vec<u8>, op: u8, start: u64, len: u64) -> Result<(), Memory>
    ensures { OnOk result (out.new.items ≡ out.old.items ++ group_offset_record op start len) }
{
    if len == 0 {
        return Ok(());
    }
    let offset = SummaryOffset {
        group_opcode: op,
        group_start: start,
        group_length: len,
    };
    return offset.frame(out);
}

/// How long the groups of a summary are, in bytes, in their order.
#[derive(Clone, Copy)]
pub(crate) struct Lengths {
    pub(crate) schemas: u64,
    pub(crate) channels: u64,
    pub(crate) statistics: u64,
    pub(crate) chunks: u64,
    pub(crate) attachments: u64,
    pub(crate) metadata: u64,
}

/// Appends the Summary Offsets of groups of these lengths, the first of which starts at that offset.
pub(crate) fn put_offsets(out: &mut Vec<u8>, at: u64, lengths: Lengths) -> Result<(), Memory>
    requires { at + lengths.schemas + lengths.channels + lengths.statistics + lengths.chunks + lengths.attachments
        < 2 ^ 64 }
    ensures { OnOk result (out.new.items
        ≡ out.old.items
        ++ six_offsets at lengths.schemas lengths.channels lengths.statistics lengths.chunks lengths.attachments
        lengths.metadata) }
{
    match put_offset(out, 3, at, lengths.schemas) {
        Ok(()) => {}
        Err(memory) => return Err(memory),
    }
    let at = at + lengths.schemas;
    match put_offset(out, 4, at, lengths.channels) {
        Ok(()) => {}
        Err(memory) => return Err(memory),
    }
    let at = at + lengths.channels;
    match put_offset(out, 11, at, lengths.statistics) {
        Ok(()) => {}
        Err(memory) => return Err(memory),
    }
    let at = at + lengths.statistics;
    match put_offset(out, 8, at, lengths.chunks) {
        Ok(()) => {}
        Err(memory) => return Err(memory),
    }
    let at = at + lengths.chunks;
    match put_offset(out, 10, at, lengths.attachments) {
        Ok(()) => {}
        Err(memory) => return Err(memory),
    }
    return put_offset(out, 13, at + lengths.attachments, lengths.metadata);
}

/// Appends the Footer of a summary that starts at one offset, its Summary Offsets at another, and the magic.
pub(crate) fn put_end(out: &mut Vec<u8>, at: u64, behind: u64) -> Result<(), Memory>
    ensures { OnOk result (out.new.items ≡ closed_by out.old.items at behind) }
{
    let len = out.len();
    let blank = Footer {
        summary_start: at,
        summary_offset_start: behind,
        summary_crc: 0,
    };
    match blank.frame(out) {
        Ok(()) => {}
        Err(memory) => return Err(memory),
    }
    // The CRC is that of all bytes before it: 25 of the Footer's 29 are its head and its two offsets.
    let summary_crc = crc_of(&out[..len + 25]);
    out.truncate(len);
    let footer = Footer {
        summary_start: at,
        summary_offset_start: behind,
        summary_crc,
    };
    match footer.frame(out) {
        Ok(()) => {}
        Err(memory) => return Err(memory),
    }
    match put_bytes(out, &MAGIC) {
        Ok(()) => return Ok(()),
        Err(memory) => return Err(memory),
    }
}
