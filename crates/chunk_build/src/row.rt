//! The rows of an open chunk: for each channel the entries of its Message Index, as they will stand in it (MCAP specification,
//! "Message Index").
ghost use Rattle.std.specs.Prelude.{if◌then◌else◌, ◌≡◌, ◌+◌, ◌^◌, ◌<◌, ◌≤◌, ◌∷◌, ◌++◌, ℕ, [], length, vec_len, vec_capacity, IfOk, All, Contains};
ghost use Rattle.std.specs.List.Sorted.{IsNonDecreasing};
ghost use Rattle.mcap_wire.specs.Layout.{le};
ghost use Rattle.mcap_wire.specs.Writing.{HasRoom};
ghost use Rattle.chunk_build.specs.Rows.{rows_in, RowsRise, AreUsed, RowsSound, FoundRow, HasRow, IsRowReady, TakesRow, with_entry, rows_bytes, rows_size, rows_parts};

use mcap_model::IndexPart;
use mcap_wire::{Memory, add_bytes, add_head, add_u16, add_u32, add_u64, make_room};
use rec_index::MESSAGE_INDEX;
use std::alloc::Global;

/// A channel and its entries, each a log time and an offset among the records, in eight bytes each.
#[derive(Drop)]
pub(crate) struct Row {
    pub(crate) channel: u16,
    pub(crate) entries: Vec<u8>,
}

/// The rows of an open chunk: one for each channel that was seen, and the channels of those with an entry in this chunk, in the
/// order of their first ones.
#[derive(Drop)]
pub(crate) struct Rows {
    pub(crate) list: Vec<Row>,
    pub(crate) used: Vec<u16>,
}

/// The length of an entry in bytes.
const ENTRY: usize = 16;

/// The room with which a row begins, in bytes.
const FIRST_ENTRIES: usize = 1024;

/// The most room that all rows together keep for the next chunk beside what each begins with, in bytes: bursts on many channels
/// don't add up.
const KEPT_ENTRIES: usize = 16_777_216;

// The index of the row of a channel, or the index at which it is to stand.
fn place_of(rows: &[Row], channel: u16) -> Result<usize, usize>
    requires { RowsRise rows.now }
    ensures { FoundRow rows.now channel result }
{
    // Channels are numbered from 1, so that a row mostly stands there.
    let guess = channel.saturating_sub(1) as usize;
    if guess < rows.len() && rows[guess].channel == channel {
        return Ok(guess);
    }
    rows.binary_search_by_key(&channel, |row| row.channel)
}

// The row of a channel, with room for an entry more. A channel without a row gets one. What the rows hold stays.
fn row_for(alloc: Global, rows: &mut Vec<Row>, channel: u16) -> Result<usize, Memory>
    requires { RowsRise rows.old.items }
    ensures rise { RowsRise rows.new.items }
    ensures same { rows_in rows.new.items ≡ rows_in rows.old.items }
    ensures found { IfOk result (λ i. HasRow rows.new.items i channel) }
{
    match place_of(rows.as_slice(), channel) {
        Ok(i) => {
            make_room(&mut rows[i].entries, ENTRY)?;
            return Ok(i);
        }
        Err(i) => {
            let Ok(entries) = Vec::with_capacity(alloc, FIRST_ENTRIES) else {
                return Err(Memory);
            };
            match rows.insert(i, Row { channel, entries }) {
                Ok(()) => return Ok(i),
                Err(_) => return Err(Memory),
            }
        }
    }
}

/// The row of a channel, with room for an entry more and for its channel among those in use. What the rows hold stays.
pub(crate) fn ready_row(alloc: Global, rows: &mut Rows, channel: u16) -> Result<usize, Memory>
    requires { RowsSound rows.old }
    ensures sound { RowsSound rows.new }
    ensures same { rows_in rows.new.list.items ≡ rows_in rows.old.list.items }
    ensures row { IfOk result (λ i. IsRowReady rows.new i channel) }
{
    match rows.used.reserve(1) {
        Ok(()) => {}
        Err(_) => return Err(Memory),
    }
    return row_for(alloc, &mut rows.list, channel);
}

// Adds an entry to a row that has room for it, and answers by how many bytes the Message Indexes grow.
fn add_entry(rows: &mut Vec<Row>, i: usize, channel: u16, time: u64, offset: u64) -> u64
    requires rise { RowsRise rows.old.items }
    requires row { HasRow rows.old.items i channel }
    ensures rise { RowsRise rows.new.items }
    ensures entries { rows_in rows.new.items ≡ with_entry (rows_in rows.old.items) channel (le 8 time ++ le 8 offset) }
    ensures len { length rows.new.items ≡ length rows.old.items }
    ensures size { rows_size (rows_in rows.new.items) ≡ rows_size (rows_in rows.old.items) + result }
    ensures few { result ≤ 31 }
{
    let row = &mut rows[i];
    let more = growth(row.entries.is_empty());
    add_u64(&mut row.entries, time);
    add_u64(&mut row.entries, offset);
    more
}

// Counts the channel of a row among those in use, where the row has no entry.
fn note_use(rows: &mut Rows, i: usize, channel: u16)
    requires sound { RowsSound rows.old }
    requires row { IsRowReady rows.old i channel }
    ensures list { rows.new.list ≡ rows.old.list }
    ensures used { AreUsed rows.new.used.items rows.old.list.items }
    ensures there { Contains rows.new.used.items channel }
    ensures len { length rows.new.used.items ≤ length rows.old.used.items + 1 }
{
    if rows.list[i].entries.is_empty() {
        rows.used.push_reserved(channel);
    }
}

/// Adds an entry to a row that has room for it, and answers by how many bytes the Message Indexes grow.
pub(crate) fn put_entry(rows: &mut Rows, i: usize, channel: u16, time: u64, offset: u64) -> u64
    requires sound { RowsSound rows.old }
    requires row { IsRowReady rows.old i channel }
    ensures sound { RowsSound rows.new }
    ensures entries { rows_in rows.new.list.items
        ≡ with_entry (rows_in rows.old.list.items) channel (le 8 time ++ le 8 offset) }
    ensures used { length rows.new.used.items ≤ length rows.old.used.items + 1 }
    ensures size { rows_size (rows_in rows.new.list.items) ≡ rows_size (rows_in rows.old.list.items) + result }
    ensures few { result ≤ 31 }
{
    note_use(rows, i, channel);
    add_entry(&mut rows.list, i, channel, time, offset)
}

// By how many bytes an entry more makes the Message Index of its row longer.
fn growth(is_first: bool) -> u64
    ensures { result ≡ 16 + (if is_first then 15 else 0) }
{
    if is_first { 31 } else { 16 }
}

// Appends the Message Index of a row, if it has an entry.
fn add_index(row: &Row, bytes: &mut Vec<u8>, parts: &mut Vec<IndexPart>)
    requires small { length row.now.entries.items < 2 ^ 32 }
    requires room { HasRoom bytes.old (rows_size (rows_in (row.now ∷ []))) }
    requires parts_room { vec_len parts.old + 1 ≤ vec_capacity parts.old }
    ensures bytes { bytes.new.items ≡ bytes.old.items ++ rows_bytes (rows_in (row.now ∷ [])) }
    ensures parts { parts.new.items ≡ parts.old.items ++ rows_parts (length bytes.old.items) (rows_in (row.now ∷ [])) }
    ensures capacity { vec_capacity bytes.old ≤ vec_capacity bytes.new }
    ensures parts_len { vec_len parts.new ≤ vec_len parts.old + 1 }
    ensures parts_capacity { vec_capacity parts.old ≤ vec_capacity parts.new }
{
    let len = row.entries.len();
    if len == 0 {
        return;
    }
    let part = IndexPart {
        channel: row.channel,
        offset: bytes.len() as u64,
        count: (len / ENTRY) as u64,
    };
    parts.push(part).unwrap();
    add_head(bytes, MESSAGE_INDEX, 6 + len as u64);
    add_u16(bytes, row.channel);
    add_u32(bytes, len as u32);
    add_bytes(bytes, row.entries.as_slice());
}

// Takes the entries from a row. Its room stays, up to so many bytes.
fn clear_row(alloc: Global, row: &mut Row, most: usize)
    ensures channel { row.new.channel ≡ row.old.channel }
    ensures none { row.new.entries.items ≡ [] }
{
    if row.entries.capacity() > most.max(FIRST_ENTRIES) {
        row.entries = Vec::new(alloc);
    } else {
        row.entries.clear();
    }
}

// Takes the entries of a channel that is no later than those with entries, and appends its Message Index and where it starts.
fn take_index(
    alloc: Global,
    rows: &mut Vec<Row>,
    channel: u16,
    bytes: &mut Vec<u8>,
    parts: &mut Vec<IndexPart>,
)
    requires rise { RowsRise rows.old.items }
    requires first { All (λ p. channel ≤ p.0) (rows_in rows.old.items) }
    requires small { rows_size (rows_in rows.old.items) < 2 ^ 32 }
    requires room { HasRoom bytes.old (rows_size (rows_in rows.old.items)) }
    requires parts_room { vec_len parts.old + 1 ≤ vec_capacity parts.old }
    ensures rise { RowsRise rows.new.items }
    ensures taken { TakesRow (rows_in rows.old.items) (rows_in rows.new.items) channel
        (bytes.old.items, bytes.new.items) (parts.old.items, parts.new.items) }
    ensures capacity { vec_capacity bytes.old ≤ vec_capacity bytes.new }
    ensures parts_len { vec_len parts.new ≤ vec_len parts.old + 1 }
    ensures parts_capacity { vec_capacity parts.old ≤ vec_capacity parts.new }
{
    match place_of(rows.as_slice(), channel) {
        Ok(i) => {
            add_index(&rows[i], bytes, parts);
            let most = KEPT_ENTRIES / rows.len();
            clear_row(alloc, &mut rows[i], most);
        }
        Err(_) => {}
    }
}

// Takes the entries of all rows, by the channels that have some, in ascending order.
fn take_each(
    alloc: Global,
    rows: &mut Vec<Row>,
    used: &[u16],
    bytes: &mut Vec<u8>,
    parts: &mut Vec<IndexPart>,
)
    requires rise { RowsRise rows.old.items }
    requires used { AreUsed used.now rows.old.items }
    requires ascend { IsNonDecreasing used.now }
    requires small { rows_size (rows_in rows.old.items) < 2 ^ 32 }
    requires room { HasRoom bytes.old (rows_size (rows_in rows.old.items)) }
    requires parts_room { vec_len parts.old + length used.now ≤ vec_capacity parts.old }
    ensures rise { RowsRise rows.new.items }
    ensures none { rows_in rows.new.items ≡ [] }
    ensures bytes { bytes.new.items ≡ bytes.old.items ++ rows_bytes (rows_in rows.old.items) }
    ensures parts { parts.new.items ≡ parts.old.items ++ rows_parts (length bytes.old.items) (rows_in rows.old.items) }
{
    'used: for i in 0..used.len() {
        take_index(alloc, rows, used[i], bytes, parts);
    }
}

/// Takes the entries of all rows, and appends the Message Index of each row that has some, in ascending channel id, and where it
/// starts. Only rows with an entry are looked at. The rows stay.
pub(crate) fn take_indexes(
    alloc: Global,
    rows: &mut Rows,
    bytes: &mut Vec<u8>,
    parts: &mut Vec<IndexPart>,
)
    requires sound { RowsSound rows.old }
    requires small { rows_size (rows_in rows.old.list.items) < 2 ^ 32 }
    requires room { HasRoom bytes.old (rows_size (rows_in rows.old.list.items)) }
    requires parts_room { vec_len parts.old + length rows.old.used.items ≤ vec_capacity parts.old }
    ensures sound { RowsSound rows.new }
    ensures none { rows_in rows.new.list.items ≡ [] }
    ensures bytes { bytes.new.items ≡ bytes.old.items ++ rows_bytes (rows_in rows.old.list.items) }
    ensures parts { parts.new.items
        ≡ parts.old.items ++ rows_parts (length bytes.old.items) (rows_in rows.old.list.items) }
{
    rows.used.sort_unstable();
    take_each(alloc, &mut rows.list, &rows.used, bytes, parts);
    rows.used.clear();
}
