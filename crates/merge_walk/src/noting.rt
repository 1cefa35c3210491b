//! Noting where the messages of a record stand.
ghost use Rattle.std.specs.Prelude.{◌≡◌, ◌+◌, ◌++◌, [], length, OnOk, IfOk};
ghost use Rattle.rec_data.specs.Records.{message_opcode};
ghost use Rattle.rec_index.specs.Records.{chunk_opcode};
ghost use Rattle.mcap_model.specs.Made.{top};
ghost use Rattle.merge_walk.specs.SpanHeads.{heads_under, times_in};
ghost use Rattle.merge_walk.specs.Spans.{spans_timed, spans_one};

use crate::spans::Span;
use crate::times::{extent_among, head_alone};
use mcap_scan::{MessageHead, list_heads};
use mcap_wire::{HEAD_LENGTH, Memory};
use rec_data::MESSAGE;
use rec_index::{CHUNK, Chunk};

// Those in front of the records of a chunk that isn't compressed.
const CHUNK_HEAD_LENGTH: u64 = 49;

// How many messages there are.
fn count_of(heads: &[MessageHead]) -> Result<u32, Memory>
    ensures { IfOk result (λ count. count ≡ length heads.now) }
{
    match u32::try_from(heads.len()) {
        Ok(count) => return Ok(count),
        Err(_) => return Err(Memory),
    }
}

// Adds the span of messages, if there are any.
fn add_span(
    spans: &mut Vec<Span>,
    offset: u64,
    at: u64,
    length: u64,
    heads: &[MessageHead],
) -> Result<(), Memory>
    ensures { OnOk result (spans.new.items ≡ spans.old.items ++ spans_timed offset at length (times_in heads.now)) }
{
    let Some(extent) = extent_among(heads) else {
        return Ok(());
    };
    let messages = count_of(heads)?;
    match spans.push(Span {
        offset,
        at,
        length,
        messages,
        least: extent.least,
        greatest: extent.greatest,
        in_order: extent.in_order,
    }) {
        Ok(()) => return Ok(()),
        Err(_) => return Err(Memory),
    }
}

// Where a part of the record at that offset stands, which has so many bytes in front of it there.
fn place_behind(offset: u64, front: u64) -> Result<u64, Memory>
    ensures { IfOk result (λ at. at ≡ offset + front) }
{
    match offset.checked_add(front) {
        Some(at) => return Ok(at),
        None => return Err(Memory),
    }
}

// Notes a Message.
fn note_message(
    spans: &mut Vec<Span>,
    heads: &mut Vec<MessageHead>,
    offset: u64,
    content: &[u8],
) -> Result<(), Memory>
    requires { heads.old.items ≡ [] }
    ensures spans { OnOk result (spans.new.items
        ≡ spans.old.items ++ spans_one offset (top message_opcode content.now)) }
    ensures heads { OnOk result (heads.new.items ≡ heads_under (top message_opcode content.now)) }
{
    let head = head_alone(content)?;
    let length = place_behind(content.len() as u64, HEAD_LENGTH)?;
    match heads.push(head) {
        Ok(()) => {}
        Err(_) => return Err(Memory),
    }
    return add_span(spans, offset, offset, length, heads);
}

// Notes the messages of a chunk.
fn note_chunk(
    spans: &mut Vec<Span>,
    heads: &mut Vec<MessageHead>,
    offset: u64,
    content: &[u8],
) -> Result<(), Memory>
    requires { heads.old.items ≡ [] }
    ensures spans { OnOk result (spans.new.items ≡ spans.old.items ++ spans_one offset (top chunk_opcode content.now)) }
    ensures heads { OnOk result (heads.new.items ≡ heads_under (top chunk_opcode content.now)) }
{
    let chunk = match Chunk::parse(content) {
        Ok(chunk) => chunk,
        Err(_) => return Err(Memory),
    };
    let at = place_behind(offset, CHUNK_HEAD_LENGTH)?;
    list_heads(heads, chunk.records)?;
    return add_span(spans, offset, at, chunk.records.len() as u64, heads);
}

/// Notes where the messages stand which the record at that offset is or holds, and lists them in place of what the vector held:
/// one that stands alone at offset 0. The record keeps its rules; one that doesn't may be refused as for want of memory.
pub fn note_spans(
    spans: &mut Vec<Span>,
    heads: &mut Vec<MessageHead>,
    op: u8,
    offset: u64,
    content: &[u8],
) -> Result<(), Memory>
    ensures spans { OnOk result (spans.new.items ≡ spans.old.items ++ spans_one offset (top op content.now)) }
    ensures heads { OnOk result (heads.new.items ≡ heads_under (top op content.now)) }
{
    heads.clear();
    match op {
        MESSAGE => return note_message(spans, heads, offset, content),
        CHUNK => return note_chunk(spans, heads, offset, content),
        _ => return Ok(()),
    }
}
