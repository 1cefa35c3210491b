//! Files that are written record by record, the entries of their blocks, and the limits.
ghost use Rattle.std.specs.Prelude.{◌≡◌, ◌≤◌, Some, true, false};
ghost use Rattle.mcap_wire.specs.Limits.{chunk_size_limit};
ghost use Rattle.rec_data.specs.OwnedReading.{LengthsFit};
ghost use Rattle.mcap_model.specs.History.{is_inner, rec_top};
ghost use Rattle.mcap_model.specs.ReadBack.{IsExtra};
ghost use Rattle.chunk_writer.specs.Limits.{ChunkSizeFits};

use crate::same::{holds, holds_at};
use chunk_writer::{Entry, Phase, Scribe, keep_limit};
use io_memory::{MemoryLive, Piece};
use mcap_io::LiveStore;
use mcap_model::{FileOptions, Stop};
use mcap_wire::{Memory, Text, cut};
use rec_data::{APPLICATION, Rec};
use std::alloc::Global;
use std::test::Fail;

// Each literal stands in a function, so that no goal of a test holds its bytes.

// The Channel 1 of the topic `/a`, and two Messages on it, logged at 10 and at 11.
fn channel() -> &'static [u8] {
    b"\x04\x12\0\0\0\0\0\0\0\x01\0\0\0\x02\0\0\0/a\0\0\0\0\0\0\0\0"
}

fn first() -> &'static [u8] {
    b"\x05\x17\0\0\0\0\0\0\0\x01\0\x01\0\0\0\x0a\0\0\0\0\0\0\0\x09\0\0\0\0\0\0\0\xaa"
}

fn second() -> &'static [u8] {
    b"\x05\x17\0\0\0\0\0\0\0\x01\0\x02\0\0\0\x0b\0\0\0\0\0\0\0\x09\0\0\0\0\0\0\0\xaa"
}

// Messages that are logged at 0 and as late as may be.
fn at_zero() -> &'static [u8] {
    b"\x05\x17\0\0\0\0\0\0\0\x01\0\x03\0\0\0\0\0\0\0\0\0\0\0\x09\0\0\0\0\0\0\0\xaa"
}

fn at_last() -> &'static [u8] {
    b"\x05\x17\0\0\0\0\0\0\0\x01\0\x04\0\0\0\xff\xff\xff\xff\xff\xff\xff\xff\x09\0\0\0\0\0\0\0\xaa"
}

// Records of applications, of one byte and of none.
fn application() -> &'static [u8] {
    b"\x90\x01\0\0\0\0\0\0\0\x01"
}

fn empty() -> &'static [u8] {
    b"\x80\0\0\0\0\0\0\0\0"
}

// The file of the first three without chunks: magic, Header, the three, Data End, Footer and magic.
fn plain_file() -> &'static [u8] {
    b"\x89MCAP0\r\n\
    \x01\x11\0\0\0\0\0\0\0\0\0\0\0\x09\0\0\0mcaprec 1\
    \x04\x12\0\0\0\0\0\0\0\x01\0\0\0\x02\0\0\0/a\0\0\0\0\0\0\0\0\
    \x05\x17\0\0\0\0\0\0\0\x01\0\x01\0\0\0\x0a\0\0\0\0\0\0\0\x09\0\0\0\0\0\0\0\xaa\
    \x05\x17\0\0\0\0\0\0\0\x01\0\x02\0\0\0\x0b\0\0\0\0\0\0\0\x09\0\0\0\0\0\0\0\xaa\
    \x0f\x04\0\0\0\0\0\0\0\0\0\0\0\
    \x02\x14\0\0\0\0\0\0\0\0\0\0\0\0\0\0\0\0\0\0\0\0\0\0\0\0\0\0\0\
    \x89MCAP0\r\n"
}

// What a writing left in its store, and the entries that it gave.
#[derive(Drop)]
struct Outcome {
    text: Vec<u8>,
    entries: Vec<Entry<Piece>>,
}

// Whether it is a record of an application, or no extra.
fn may_be_put(r: &Rec) -> bool
    ensures { result ≡ true → is_inner r.now ≡ false → IsExtra (rec_top r.now) }
{
    match r {
        Rec::Schema { .. } => true,
        Rec::Channel { .. } => true,
        Rec::Message { .. } => true,
        Rec::Extra { op, .. } => *op >= APPLICATION,
    }
}

// Puts a record of a file that goes on. It is proved for any store, which costs less than for one.
fn put_record<L: LiveStore>(
    scribe: &mut Scribe<L>,
    r: &Rec,
) -> Result<Option<Entry<L::Extent>>, Stop>
    requires fits { LengthsFit r.now }
    requires extra { is_inner r.now ≡ false → IsExtra (rec_top r.now) }
{
    match scribe.phase() {
        Phase::Going => scribe.put(r),
        _ => Err(Stop::Memory),
    }
}

// Ends a file that goes on.
fn end_file<L: LiveStore>(scribe: &mut Scribe<L>) -> Option<Entry<L::Extent>> {
    match scribe.phase() {
        Phase::Going => scribe.finish().last,
        _ => None,
    }
}

// Keeps an entry, if there is one.
fn keep(entry: Option<Entry<Piece>>, entries: &mut Vec<Entry<Piece>>) -> Result<(), Fail> {
    if let Some(entry) = entry {
        entries.push(entry)?;
    }
    Ok(())
}

// Puts a record, and keeps the entry that this gives.
fn put(
    alloc: Global,
    scribe: &mut Scribe<MemoryLive>,
    framed: &[u8],
    entries: &mut Vec<Entry<Piece>>,
) -> Result<(), Fail> {
    let Some(record) = Rec::from_framed(alloc, framed)? else {
        return Err(Fail::from("no record"));
    };
    if !may_be_put(&record) {
        return Err(Fail::from("another extra"));
    }
    match put_record(scribe, &record) {
        Ok(entry) => keep(entry, entries),
        Err(_) => Err(Fail::from("a record isn't taken")),
    }
}

// Writes the records and the end of their file.
fn write_all(
    alloc: Global,
    scribe: &mut Scribe<MemoryLive>,
    records: &[&[u8]],
    entries: &mut Vec<Entry<Piece>>,
) -> Result<(), Fail> {
    for record in records {
        put(alloc, scribe, record, entries)?;
    }
    keep(end_file(scribe), entries)
}

// Begins a file without a profile.
fn open(alloc: Global, chunk: Option<u64>, span: Option<u64>) -> Result<Scribe<MemoryLive>, Fail>
    requires { ChunkSizeFits chunk }
{
    let options = FileOptions {
        profile: Text::copied(alloc, "")?,
        chunk,
        span,
    };
    match Scribe::open(alloc, MemoryLive::new(alloc, Vec::new(alloc)), &options) {
        Ok(scribe) => Ok(scribe),
        Err(_) => return Err(Memory)?,
    }
}

// Writes a file of the records.
fn write(
    alloc: Global,
    chunk: Option<u64>,
    span: Option<u64>,
    records: &[&[u8]],
) -> Result<Outcome, Fail>
    requires { ChunkSizeFits chunk }
{
    let mut scribe = open(alloc, chunk, span)?;
    let mut entries = Vec::new(alloc);
    let written = write_all(alloc, &mut scribe, records, &mut entries);
    let text = scribe.into_store().into_bytes();
    match written {
        Ok(()) => Ok(Outcome { text, entries }),
        Err(fail) => Err(fail),
    }
}

/// A file of the records in chunks of that size in bytes.
pub(crate) fn chunked(alloc: Global, chunk: u64, records: &[&[u8]]) -> Result<Vec<u8>, Fail>
    requires { (1 ≤ chunk) × (chunk ≤ chunk_size_limit) }
{
    match write(alloc, Some(chunk), None, records) {
        Ok(outcome) => Ok(outcome.text),
        Err(fail) => Err(fail),
    }
}

// Where a block starts and ends in the file, the length of its Chunk, its time, and its numbers of messages and of declarations.
type Row = (usize, usize, u64, u64, u64, u64);

fn tells(entry: &Entry<Piece>, file: &[u8], row: &Row) -> bool {
    let (from, to, chunk_length, time, messages, declared) = *row;
    Some(entry.extent.bytes()) == file.get(from..to)
        && entry.offset == from as u64
        && (entry.chunk_length, entry.start_time, entry.end_time) == (chunk_length, time, time)
        && (entry.messages, entry.declared) == (messages, declared)
}

const ROWS: &[Row] = &[(34, 173, 108, 10, 1, 1), (173, 285, 81, 11, 1, 0)];

// Whether the entries tell of the blocks.
fn all_tell(file: &Outcome) -> bool {
    for (entry, row) in file.entries.iter().zip(ROWS) {
        if !tells(&entry.same(), &file.text, row) {
            return false;
        }
    }
    file.text.len() == 671 && file.entries.len() == 2
}

#[test]
fn an_entry_tells_of_its_block(rt: HostRuntime) -> Result<(), Fail> {
    let file = write(rt.alloc(), Some(59), None, &[channel(), first(), second()])?;
    holds(&rt, all_tell(&file));
    Ok(())
}

#[test]
fn records_that_are_put_plain_stand_one_behind_the_other(rt: HostRuntime) -> Result<(), Fail> {
    let file = write(rt.alloc(), None, None, &[channel(), first(), second()])?;
    holds(
        &rt,
        file.text.as_slice() == plain_file() && file.entries.is_empty(),
    );
    Ok(())
}

// The record of a letter.
fn record_of(letter: u8) -> &'static [u8] {
    match letter {
        b'c' => channel(),
        b'f' => first(),
        b's' => second(),
        b'z' => at_zero(),
        b'l' => at_last(),
        b'x' => application(),
        _ => empty(),
    }
}

// Where the records of a data section begin, and their opcodes.
type Tops = &'static [(usize, u8)];

// The records of a file by their letters, the size and the span of its chunks, its length, and what stands in it.
type Case = (&'static [u8], Option<u64>, Option<u64>, usize, Tops);

// Two blocks, of the Channel with two Messages and of one Message.
const TWO_AND_ONE: Tops = &[(34, 6), (174, 7), (221, 6), (302, 7), (333, 15)];

const CASES: &[Case] = &[
    // an extra between two blocks, in front of the first message, and in front of all
    (
        b"cfxs",
        Some(59),
        None,
        681,
        &[
            (34, 6),
            (142, 7),
            (173, 0x90),
            (183, 6),
            (264, 7),
            (295, 15),
        ],
    ),
    (
        b"cxfs",
        Some(59),
        None,
        681,
        &[(34, 0x90), (44, 6), (152, 7), (183, 6), (264, 7), (295, 15)],
    ),
    (
        b"ecf",
        Some(59),
        None,
        485,
        &[(34, 0x80), (43, 6), (151, 7), (182, 15)],
    ),
    // between two messages of one block, and last, where that is full and where it isn't
    (
        b"cfxs",
        Some(786432),
        None,
        534,
        &[(34, 0x90), (44, 6), (184, 7), (231, 15)],
    ),
    (
        b"cfx",
        Some(59),
        None,
        486,
        &[(34, 6), (142, 7), (173, 0x90), (183, 15)],
    ),
    (
        b"cfx",
        Some(786432),
        None,
        486,
        &[(34, 0x90), (44, 6), (152, 7), (183, 15)],
    ),
    // without chunks each record stands at its place
    (
        b"cxf",
        None,
        Some(1),
        153,
        &[(34, 4), (61, 0x90), (71, 5), (103, 15)],
    ),
    // a span of 1, also of times that fall, and met with the size; the longest span, met and not met
    (b"cfss", Some(786432), Some(1), 719, TWO_AND_ONE),
    (b"csff", Some(786432), Some(1), 719, TWO_AND_ONE),
    (b"cfss", Some(91), Some(1), 719, TWO_AND_ONE),
    (b"czlf", Some(786432), Some(u64::MAX), 719, TWO_AND_ONE),
    (
        b"cfls",
        Some(786432),
        Some(u64::MAX),
        572,
        &[(34, 6), (206, 7), (269, 15)],
    ),
    // an extra inside the span of a block
    (
        b"cfxss",
        Some(786432),
        Some(1),
        729,
        &[(34, 0x90), (44, 6), (184, 7), (231, 6), (312, 7), (343, 15)],
    ),
];

// Whether these bytes of a record are right, if it is an extra.
fn is_itself(framed: Option<&[u8]>, op: u8) -> bool {
    match op {
        0x90 => framed == Some(application()),
        0x80 => framed == Some(empty()),
        _ => true,
    }
}

// Whether these records stand in the file, one after the other.
fn stand(file: &[u8], tops: &[(usize, u8)]) -> bool {
    let mut at = 34;
    for (place, op) in tops {
        if at != *place || at > file.len() {
            return false;
        }
        let Ok(found) = cut(file, at) else {
            return false;
        };
        if found.op != *op || !is_itself(file.get(at..found.to as usize), *op) {
            return false;
        }
        at = found.to as usize;
    }
    true
}

fn count_of_chunks(tops: &[(usize, u8)]) -> usize {
    let mut count = 0;
    for (_, op) in tops {
        if *op == 6 && count < 100 {
            count += 1;
        }
    }
    count
}

fn may_be_a_size(chunk: Option<u64>) -> bool
    ensures { result ≡ true → ChunkSizeFits chunk }
{
    match chunk {
        None => true,
        Some(size) => 1 <= size && size <= 1000000,
    }
}

// Whether the file of a case is as it says, with an entry for each chunk.
fn is_so(alloc: Global, case: &Case) -> Result<bool, Fail> {
    let (letters, chunk, span, len, tops) = *case;
    if !may_be_a_size(chunk) {
        return Ok(false);
    }
    let mut records = Vec::new(alloc);
    for letter in letters {
        records.push(record_of(*letter))?;
    }
    let file = write(alloc, chunk, span, records.as_slice())?;
    let is_whole = file.text.len() == len && stand(file.text.as_slice(), tops);
    Ok(is_whole && file.entries.len() == count_of_chunks(tops))
}

#[test]
fn extras_stand_where_they_are_put_and_a_span_ends_blocks(rt: HostRuntime) -> Result<(), Fail> {
    for case in CASES {
        let is_so = is_so(rt.alloc(), case)?;
        holds_at(&rt, is_so, &case.3);
    }
    Ok(())
}

// A record of an application that has as many bytes as a record of a buffer may have.
fn longest(alloc: Global) -> Result<Vec<u8>, Fail> {
    let mut framed = Vec::new(alloc);
    framed.extend_from_slice(b"\xff\x16\0\0\x02\0\0\0\0")?;
    framed.resize(33_554_463, 7)?;
    Ok(framed)
}

#[test]
fn the_longest_extra_stands_whole_in_front_of_its_block(rt: HostRuntime) -> Result<(), Fail> {
    let extra = longest(rt.alloc())?;
    let records = [channel(), extra.as_slice(), first()];
    let file = write(rt.alloc(), Some(59), None, &records)?;
    let tops = [
        (34, 0xff),
        (33_554_497, 6),
        (33_554_605, 7),
        (33_554_636, 15),
    ];
    let is_whole = file.text.len() == 33_554_939 && stand(file.text.as_slice(), &tops);
    holds(
        &rt,
        is_whole && file.text.get(34..33_554_497) == Some(extra.as_slice()),
    );
    Ok(())
}

#[test]
fn a_piece_may_reach_the_limit_and_not_pass_it(rt: HostRuntime) {
    let bytes = (1 << 40) - 3;
    let blocks = 4_294_967_295;
    let rows: [(u64, u64, u64, &[u8], Result<(), Stop>); 4] = [
        (blocks - 1, 0, 1, b"", Ok(())),
        (0, bytes, 1, b"abc", Ok(())),
        (blocks, 7, 1, b"", Err(Stop::Limit { blocks, bytes: 7 })),
        (5, bytes, 0, b"abcd", Err(Stop::Limit { blocks: 5, bytes })),
    ];
    for (blocks, bytes, more, piece, want) in rows {
        if blocks <= 4_294_967_295 && bytes <= 1 << 40 && more <= 1 {
            holds_at(&rt, keep_limit(blocks, bytes, more, piece) == want, &blocks);
        } else {
            holds_at(&rt, false, &blocks);
        }
    }
}
