//! The open chunk: its records stand where they will in the block, behind room for the head of the Chunk.
ghost use Rattle.std.specs.Prelude.{◌≡◌, ◌+◌, ◌*◌, ◌^◌, ◌<◌, ◌≤◌, ◌++◌, ◌==◌, ℕ, [], length, drop, min, if◌then◌else◌, vec_len, vec_capacity, IfOk, OnOk, Option, Some, None, true, false};
ghost use Rattle.mcap_wire.specs.Layout.{framed};
ghost use Rattle.mcap_wire.specs.Limits.{chunk_size_limit};
ghost use Rattle.mcap_wire.specs.Writing.{HasRoom};
ghost use Rattle.rec_index.specs.Records.{chunk_opcode, chunk_text};
ghost use Rattle.chunk_build.specs.Rows.{IsRowReady};
ghost use Rattle.chunk_build.specs.Opened.{plain_chunk, chunk_of_records, with_indexed_message, IsBuilt};
ghost use Rattle.chunk_build.specs.Building.{chunk_in_memory, IsSound, RowReady, CanClose, spans_with, StaysOpen, IsOver, IsReady, record_counted, StandsBehind, CanCloseBy, Settles};

use crate::row::{Rows, put_entry, ready_row, take_indexes};
use mcap_crc::crc_of;
use mcap_model::{Block, IndexPart};
use mcap_wire::{Bytes, Memory, add_head, add_u32, add_u64, make_room};
use rec_index::CHUNK;
use std::alloc::Global;
use std::mem;

/// The bytes in front of a chunk's records: opcode and length, two times, the records' size and CRC, the length of an empty
/// compression, and the records' length (MCAP specification, "Chunk").
pub(crate) const HEAD: usize = 49;

/// The most room that is made for a chunk and its indexes before its records come.
const FIRST_ROOM: u64 = 1_048_576;

/// The open chunk: the records' bytes behind room for the head, a vector whose room a later chunk may take, a row for each
/// channel, the size of the Message Indexes, the least and the greatest log time, and the numbers of messages and of declarations.
#[derive(Drop)]
pub(crate) struct Building {
    pub(crate) bytes: Vec<u8>,
    pub(crate) spare: Vec<u8>,
    pub(crate) rows: Rows,
    pub(crate) index: u64,
    pub(crate) start: u64,
    pub(crate) end: u64,
    pub(crate) messages: u64,
    pub(crate) declared: u64,
}

/// The channel and the log time of a message.
#[derive(Clone, Copy)]
pub struct Mark {
    pub channel: u16,
    pub time: u64,
}

/// What is ready for a record, so that it is put with no refusal: the place of its channel's row, and what closes the chunk
/// behind it, where it closes.
#[derive(Drop)]
pub(crate) struct Ready {
    pub(crate) row: usize,
    pub(crate) closing: Option<Closing>,
}

/// Room for a chunk's head, and for the places of its Message Indexes.
#[derive(Drop)]
pub(crate) struct Closing {
    pub(crate) head: Vec<u8>,
    pub(crate) parts: Vec<IndexPart>,
}

/// An open chunk without a record.
pub(crate) fn begin(alloc: Global) -> Building
    ensures none { chunk_in_memory result ≡ chunk_of_records [] }
    ensures sound { IsSound result }
{
    Building {
        bytes: Vec::new(alloc),
        spare: Vec::new(alloc),
        rows: Rows {
            list: Vec::new(alloc),
            used: Vec::new(alloc),
        },
        index: 0,
        start: 0,
        end: 0,
        messages: 0,
        declared: 0,
    }
}

/// Keeps a vector for the next chunk, if its room is larger than that of the one that is kept.
pub(crate) fn keep_room(chunk: &mut Building, room: Vec<u8>)
    requires { IsSound chunk.old }
    ensures same { chunk_in_memory chunk.new ≡ chunk_in_memory chunk.old }
    ensures sound { IsSound chunk.new }
    ensures bytes { chunk.new.bytes ≡ chunk.old.bytes }
{
    if room.capacity() > chunk.spare.capacity() {
        chunk.spare = room;
    }
}

// Takes the vector that is kept, if its room is larger.
fn take_room(bytes: &mut Vec<u8>, spare: &mut Vec<u8>)
    requires { length bytes.old.items < 49 }
    ensures { length bytes.new.items < 49 }
{
    if bytes.capacity() < spare.capacity() {
        mem::swap(bytes, spare);
        bytes.clear();
    }
}

// Makes room for the head in front of the first record, and some for the records and the Message Indexes.
fn begin_chunk(bytes: &mut Vec<u8>, spare: &mut Vec<u8>, size: u64) -> Result<(), Memory>
    requires { size ≤ chunk_size_limit }
    ensures same { drop 49 bytes.new.items ≡ drop 49 bytes.old.items }
    ensures begun { OnOk result (49 ≤ length bytes.new.items) }
{
    if bytes.len() >= HEAD {
        return Ok(());
    }
    take_room(bytes, spare);
    make_room(bytes, HEAD + (size + size / 4).min(FIRST_ROOM) as usize)?;
    match bytes.resize(HEAD, 0) {
        Ok(()) => return Ok(()),
        Err(_) => return Err(Memory),
    }
}

// The row for a record.
fn row_of(alloc: Global, chunk: &mut Building, mark: Option<Mark>) -> Result<usize, Memory>
    requires { IsSound chunk.old }
    ensures same { chunk_in_memory chunk.new ≡ chunk_in_memory chunk.old }
    ensures sound { IsSound chunk.new }
    ensures bytes { chunk.new.bytes ≡ chunk.old.bytes }
    ensures row { IfOk result (λ row. RowReady chunk.new.rows mark row) }
{
    match mark {
        None => return Ok(0),
        Some(mark) => return ready_row(alloc, &mut chunk.rows, mark.channel),
    }
}

/// Makes all room that is needed to close a chunk, also behind a message more.
pub(crate) fn closing_for(alloc: Global, chunk: &Building) -> Result<Closing, Memory>
    ensures { IfOk result (λ closing. CanClose chunk.now 1 closing) }
{
    let Ok(head) = Vec::with_capacity(alloc, HEAD) else {
        return Err(Memory);
    };
    let Ok(parts) = Vec::with_capacity(alloc, chunk.rows.used.len() + 1) else {
        return Err(Memory);
    };
    return Ok(Closing { head, parts });
}

// Whether with a message more the log times of a chunk are so far apart.
fn reaches_span(chunk: &Building, span: Option<u64>, mark: Option<Mark>) -> bool
    ensures { result ≡ spans_with span (chunk_in_memory chunk.now) mark }
{
    let Some(span) = span else {
        return false;
    };
    let Some(mark) = mark else {
        return false;
    };
    let first = first_time(chunk.messages, chunk.start, mark.time);
    span <= chunk.end.max(mark.time).saturating_sub(first)
}

/// Whether a chunk that is begun stays open behind a record of so many bytes.
#[inline(always)]
pub(crate) fn stays_open(
    chunk: &Building,
    size: u64,
    span: Option<u64>,
    len: u64,
    mark: Option<Mark>,
) -> bool
    ensures begun { result ≡ true → 49 ≤ length chunk.now.bytes.items }
    ensures open { result ≡ true → StaysOpen size span len mark (chunk_in_memory chunk.now) }
    ensures over { result ≡ false → 49 ≤ length chunk.now.bytes.items
        → IsOver size span len mark (chunk_in_memory chunk.now) }
{
    if chunk.bytes.len() < HEAD {
        return false;
    }
    let held = (chunk.bytes.len() - HEAD) as u64;
    if held < size && len < size - held {
        return !reaches_span(chunk, span, mark);
    }
    false
}

/// Makes all room for a record of so many bytes. What the chunk holds stays.
pub(crate) fn prepare(
    alloc: Global,
    chunk: &mut Building,
    size: u64,
    span: Option<u64>,
    len: u64,
    mark: Option<Mark>,
) -> Result<Ready, Memory>
    requires sound { IsSound chunk.old }
    requires small { chunk.old.index < 2 ^ 31 }
    requires size { size ≤ chunk_size_limit }
    ensures same { chunk_in_memory chunk.new ≡ chunk_in_memory chunk.old }
    ensures sound { IsSound chunk.new }
    ensures ready { IfOk result (λ ready. IsReady size span len mark chunk.new ready) }
{
    let row = row_of(alloc, chunk, mark)?;
    begin_chunk(&mut chunk.bytes, &mut chunk.spare, size)?;
    if stays_open(chunk, size, span, len, mark) {
        make_room(&mut chunk.bytes, len as usize)?;
        return Ok(Ready { row, closing: None });
    }
    let closing = closing_for(alloc, chunk)?;
    let indexes = chunk.index as usize + 31;
    make_room(&mut chunk.bytes, indexes.saturating_add(len as usize))?;
    return Ok(Ready {
        row,
        closing: Some(closing),
    });
}

/// Makes room for a record of so many bytes behind which the chunk stays open, and gives the place of its channel's row. What
/// the chunk holds stays.
#[inline(always)]
pub(crate) fn prepare_open(
    alloc: Global,
    chunk: &mut Building,
    len: u64,
    mark: Option<Mark>,
) -> Result<usize, Memory>
    requires sound { IsSound chunk.old }
    ensures same { chunk_in_memory chunk.new ≡ chunk_in_memory chunk.old }
    ensures sound { IsSound chunk.new }
    ensures bytes { chunk.new.bytes.items ≡ chunk.old.bytes.items }
    ensures row { IfOk result (λ row. RowReady chunk.new.rows mark row) }
    ensures room { OnOk result (HasRoom chunk.new.bytes len) }
{
    let row = row_of(alloc, chunk, mark)?;
    make_room(&mut chunk.bytes, len as usize)?;
    Ok(row)
}

// Counts a message whose bytes stand at the end, from that offset of the records on.
fn note_message(chunk: &mut Building, offset: u64, mark: Mark, row: usize)
    requires sound { IsSound chunk.old }
    requires row { IsRowReady chunk.old.rows row mark.channel }
    requires before { 31 * chunk.old.messages + chunk.old.declared ≤ offset }
    requires behind { offset + 31 ≤ length (drop 49 chunk.old.bytes.items) }
    ensures noted { chunk_in_memory chunk.new
        ≡ with_indexed_message (chunk_in_memory chunk.old) offset mark.channel mark.time }
    ensures sound { IsSound chunk.new }
    ensures bytes { chunk.new.bytes ≡ chunk.old.bytes }
    ensures used { length chunk.new.rows.used.items ≤ length chunk.old.rows.used.items + 1 }
    ensures index { chunk.new.index ≤ chunk.old.index + 31 }
{
    // The length bounds the counts.
    let _len = chunk.bytes.len();
    chunk.index += put_entry(&mut chunk.rows, row, mark.channel, mark.time, offset);
    chunk.start = first_time(chunk.messages, chunk.start, mark.time);
    chunk.end = chunk.end.max(mark.time);
    chunk.messages += 1;
}

// The least log time with one more.
fn first_time(messages: u64, start: u64, time: u64) -> u64
    ensures { result ≡ (if messages == 0 then time else min start time) }
{
    if messages == 0 { time } else { start.min(time) }
}

/// Counts a record whose bytes stand at the end.
#[inline(always)]
pub(crate) fn note(chunk: &mut Building, offset: u64, mark: Option<Mark>, row: usize)
    requires sound { IsSound chunk.old }
    requires row { RowReady chunk.old.rows mark row }
    requires before { 31 * chunk.old.messages + chunk.old.declared ≤ offset }
    requires behind { StandsBehind offset (length (drop 49 chunk.old.bytes.items)) mark }
    ensures noted { chunk_in_memory chunk.new ≡ record_counted (chunk_in_memory chunk.old) offset mark }
    ensures sound { IsSound chunk.new }
    ensures bytes { chunk.new.bytes ≡ chunk.old.bytes }
    ensures used { length chunk.new.rows.used.items ≤ length chunk.old.rows.used.items + 1 }
    ensures index { chunk.new.index ≤ chunk.old.index + 31 }
{
    // The length bounds the counts.
    let _len = chunk.bytes.len();
    match mark {
        None => chunk.declared += 1,
        Some(mark) => note_message(chunk, offset, mark, row),
    }
}

/// Counts a record whose bytes stand at the end, and closes the chunk where it is to be closed.
pub(crate) fn settle(
    alloc: Global,
    chunk: &mut Building,
    offset: u64,
    mark: Option<Mark>,
    ready: Ready,
) -> Option<Block>
    requires sound { IsSound chunk.old }
    requires begun { 49 ≤ length chunk.old.bytes.items }
    requires row { RowReady chunk.old.rows mark ready.row }
    requires before { 31 * chunk.old.messages + chunk.old.declared ≤ offset }
    requires behind { StandsBehind offset (length (drop 49 chunk.old.bytes.items)) mark }
    requires closing { CanCloseBy chunk.old ready.closing }
    requires small { chunk.old.index < 2 ^ 31 }
    ensures settled { Settles (record_counted (chunk_in_memory chunk.old) offset mark) ready.closing result
        (chunk_in_memory chunk.new) }
    ensures sound { IsSound chunk.new }
{
    let Ready { row, closing } = ready;
    note(chunk, offset, mark, row);
    match closing {
        None => return None,
        Some(closing) => return Some(close(alloc, chunk, closing)),
    }
}

// Writes the head of a chunk of these records.
fn add_chunk_head(head: &mut Vec<u8>, start: u64, end: u64, records: &[u8])
    requires room { HasRoom head.old 49 }
    requires empty { head.old.items ≡ [] }
    ensures framed { head.new.items ++ records.now
        ≡ framed chunk_opcode (chunk_text (plain_chunk start end records.now)) }
    ensures len { length head.new.items ≡ 49 }
{
    let len = records.len() as u64;
    add_head(head, CHUNK, 40 + len);
    add_u64(head, start);
    add_u64(head, end);
    add_u64(head, len);
    add_u32(head, crc_of(records));
    add_u32(head, 0);
    add_u64(head, len);
}

// Writes bytes over the front of others.
fn write_front(bytes: &mut Vec<u8>, front: &[u8])
    requires { length front.now ≤ length bytes.old.items }
    ensures items { bytes.new.items ≡ front.now ++ drop (length front.now) bytes.old.items }
    ensures capacity { vec_capacity bytes.new ≡ vec_capacity bytes.old }
{
    write_over(bytes.as_mut_slice(), front);
}

fn write_over(bytes: &mut [u8], front: &[u8])
    requires { length front.now ≤ length bytes.old }
    ensures { bytes.new ≡ front.now ++ drop (length front.now) bytes.old }
{
    bytes[..front.len()].copy_from_slice(front);
}

/// Closes the chunk, for which all room is made. The head is written in front, and the Message Indexes behind. An open chunk
/// without a record is left.
pub(crate) fn close(alloc: Global, chunk: &mut Building, closing: Closing) -> Block
    requires sound { IsSound chunk.old }
    requires begun { 49 ≤ length chunk.old.bytes.items }
    requires small { chunk.old.index < 2 ^ 32 }
    requires room { HasRoom chunk.old.bytes chunk.old.index }
    requires closing { CanClose chunk.old 0 closing }
    ensures built { IsBuilt (chunk_in_memory chunk.old) result }
    ensures none { chunk_in_memory chunk.new ≡ chunk_of_records [] }
    ensures sound { IsSound chunk.new }
{
    let Closing {
        mut head,
        mut parts,
    } = closing;
    let chunk_length = chunk.bytes.len() as u64;
    add_chunk_head(&mut head, chunk.start, chunk.end, &chunk.bytes[HEAD..]);
    write_front(&mut chunk.bytes, head.as_slice());
    take_indexes(alloc, &mut chunk.rows, &mut chunk.bytes, &mut parts);
    let start_time = chunk.start;
    let end_time = chunk.end;
    let messages = chunk.messages;
    let declared = chunk.declared;
    chunk.index = 0;
    chunk.start = 0;
    chunk.end = 0;
    chunk.messages = 0;
    chunk.declared = 0;
    let bytes = mem::replace(&mut chunk.bytes, Vec::new(alloc));
    Block {
        bytes: Bytes::new(bytes),
        chunk_length,
        start_time,
        end_time,
        messages,
        declared,
        indexes: parts,
    }
}
