//! What a scanner gives, where and why it halts, and what it leaves unread.
use crate::same::holds_at;
use crate::sources::{TWO_CHUNKS, quiet};
use io_memory::MemorySource;
use mcap_io::Source;
use mcap_model::{ReadingRefused, scan_plain};
use mcap_scan::{Lent, Scanner, Step, Top};
use mcap_wire::cut;
use std::alloc::Global;
use std::test::Fail;

// Why a scan halts: the number of a rule, or one of these.
const END: u8 = 0;

const COMPRESSED: u8 = 20;

const LIMIT: u8 = 21;

const FAULT: u8 = 22;

const MEMORY: u8 = 23;

// A record isn't the one that stands there.
const OTHER: u8 = 24;

// What a scan comes to: the number of records, and where and why it halts; at a fault the count of faults stands in the
// offset's place.
type Outcome = (u64, u64, u8);

// A Header, a Channel of id 7 and a Message on it, a Data End, and four bytes behind it.
const PLAIN: &[u8] = b"\x89MCAP0\r\n\
    \x01\x08\0\0\0\0\0\0\0\0\0\0\0\0\0\0\0\
    \x04\x12\0\0\0\0\0\0\0\x07\0\0\0\x02\0\0\0/a\0\0\0\0\0\0\0\0\
    \x05\x17\0\0\0\0\0\0\0\x07\0\x01\0\0\0\x0a\0\0\0\0\0\0\0\x09\0\0\0\0\0\0\0\xaa\
    \x0f\x04\0\0\0\0\0\0\0\0\0\0\0\
    left";

// Files, what a scan of each comes to, and how many bytes stay unread.
const FILES: [(&[u8], Outcome, usize); 18] = [
    (PLAIN, (4, 97, END), 4),
    // a wrong magic
    (
        b"\x89MCAP1\r\n\x01\x08\0\0\0\0\0\0\0\0\0\0\0\0\0\0\0",
        (0, 0, 1),
        17,
    ),
    // a cut magic
    (b"\x89MCAP0\x0d", (0, 0, 1), 0),
    // the magic alone
    (b"\x89MCAP0\r\n", (0, 8, 4), 0),
    // no Header first
    (
        b"\x89MCAP0\r\n\x0f\x04\0\0\0\0\0\0\0\0\0\0\0left",
        (0, 8, 3),
        4,
    ),
    // a cut head
    (
        b"\x89MCAP0\r\n\x01\x08\0\0\0\0\0\0\0\0\0\0\0\0\0\0\0\x05\0",
        (1, 25, 4),
        0,
    ),
    // a cut content
    (
        b"\x89MCAP0\r\n\x01\x08\0\0\0\0\0\0\0\0\0\0\0\0\0\0\0\x05\x18\0\0\0\0\0\0\0\x01\0\x01\0\0\0\x0a\0\0\0\0\0\0\0\x0a\0\0\0\0\0\0\0a",
        (1, 25, 4),
        0,
    ),
    // opcode 0 of a length that lies
    (
        b"\x89MCAP0\r\n\x01\x08\0\0\0\0\0\0\0\0\0\0\0\0\0\0\0\0\0\0\0\0\0\0\0\x80left",
        (1, 25, 5),
        4,
    ),
    // a Data End of three bytes
    (
        b"\x89MCAP0\r\n\x01\x08\0\0\0\0\0\0\0\0\0\0\0\0\0\0\0\x0f\x03\0\0\0\0\0\0\0\0\0\0left",
        (1, 25, 6),
        4,
    ),
    // a schema again, two bytes behind its fields
    (
        b"\x89MCAP0\r\n\x01\x08\0\0\0\0\0\0\0\0\0\0\0\0\0\0\0\x03\x0f\0\0\0\0\0\0\0\x01\0\x01\0\0\0a\0\0\0\0\0\0\0\0\x03\x11\0\0\0\0\0\0\0\x01\0\x01\0\0\0a\0\0\0\0\0\0\0\0zz\x0f\x04\0\0\0\0\0\0\0\0\0\0\0left",
        (4, 88, END),
        4,
    ),
    // a channel defined anew
    (
        b"\x89MCAP0\r\n\x01\x08\0\0\0\0\0\0\0\0\0\0\0\0\0\0\0\x04\x12\0\0\0\0\0\0\0\x01\0\0\0\x02\0\0\0/a\0\0\0\0\0\0\0\0\x04\x12\0\0\0\0\0\0\0\x01\0\0\0\x02\0\0\0/b\0\0\0\0\0\0\0\0\x0f\x04\0\0\0\0\0\0\0\0\0\0\0",
        (2, 52, 7),
        13,
    ),
    // a chunk with its channel
    (
        b"\x89MCAP0\r\n\x01\x08\0\0\0\0\0\0\0\0\0\0\0\0\0\0\0\x06c\0\0\0\0\0\0\0\x0a\0\0\0\0\0\0\0\x0a\0\0\0\0\0\0\0;\0\0\0\0\0\0\0m\xad6\xe1\0\0\0\0;\0\0\0\0\0\0\0\x04\x12\0\0\0\0\0\0\0\x01\0\0\0\x02\0\0\0/a\0\0\0\0\0\0\0\0\x05\x17\0\0\0\0\0\0\0\x01\0\x01\0\0\0\x0a\0\0\0\0\0\0\0\x0a\0\0\0\0\0\0\0\xaa\x0f\x04\0\0\0\0\0\0\0\0\0\0\0left",
        (3, 146, END),
        4,
    ),
    // a wrong crc of a chunk
    (
        b"\x89MCAP0\r\n\x01\x08\0\0\0\0\0\0\0\0\0\0\0\0\0\0\0\x06c\0\0\0\0\0\0\0\x0a\0\0\0\0\0\0\0\x0a\0\0\0\0\0\0\0;\0\0\0\0\0\0\0\x07\0\0\0\0\0\0\0;\0\0\0\0\0\0\0\x04\x12\0\0\0\0\0\0\0\x01\0\0\0\x02\0\0\0/a\0\0\0\0\0\0\0\0\x05\x17\0\0\0\0\0\0\0\x01\0\x01\0\0\0\x0a\0\0\0\0\0\0\0\x0a\0\0\0\0\0\0\0\xaa\x0f\x04\0\0\0\0\0\0\0\0\0\0\0",
        (1, 25, 8),
        13,
    ),
    // a chunk of a compression
    (
        b"\x89MCAP0\r\n\x01\x08\0\0\0\0\0\0\0\0\0\0\0\0\0\0\0\x06/\0\0\0\0\0\0\0\x0a\0\0\0\0\0\0\0\x0a\0\0\0\0\0\0\0\x03\0\0\0\0\0\0\0\xc2A$5\x04\0\0\0zstd\x03\0\0\0\0\0\0\0abc\x0f\x04\0\0\0\0\0\0\0\0\0\0\0",
        (1, 25, COMPRESSED),
        13,
    ),
    // a wrong crc of an Attachment
    (
        b"\x89MCAP0\r\n\x01\x08\0\0\0\0\0\0\0\0\0\0\0\0\0\0\0\x09(\0\0\0\0\0\0\0\x01\0\0\0\0\0\0\0\x02\0\0\0\0\0\0\0\x01\0\0\0n\0\0\0\0\x03\0\0\0\0\0\0\0xyz\x01\0\0\0\x0f\x04\0\0\0\0\0\0\0\0\0\0\0",
        (1, 25, 10),
        13,
    ),
    // unknown opcodes
    (
        b"\x89MCAP0\r\n\x01\x08\0\0\0\0\0\0\0\0\0\0\0\0\0\0\0\x10\x02\0\0\0\0\0\0\0zz\x90\0\0\0\0\0\0\0\0\x0f\x04\0\0\0\0\0\0\0\0\0\0\0",
        (4, 58, END),
        0,
    ),
    // a content past the limit
    (
        b"\x89MCAP0\r\n\x01\x08\0\0\0\0\0\0\0\0\0\0\0\0\0\0\0\x05\x01\0\0\x10\0\0\0\0left",
        (1, 25, LIMIT),
        4,
    ),
    // a content at the limit, which isn't there
    (
        b"\x89MCAP0\r\n\x01\x08\0\0\0\0\0\0\0\0\0\0\0\0\0\0\0\x05\0\0\0\x10\0\0\0\0left",
        (1, 25, 4),
        0,
    ),
];

fn refused(why: &ReadingRefused, count: u64) -> Outcome {
    match why {
        ReadingRefused::Grammar { offset, rule } => (count, *offset, rule.number()),
        ReadingRefused::Compressed { offset, name: _ } => (count, *offset, COMPRESSED),
        ReadingRefused::Limit { offset } => (count, *offset, LIMIT),
        ReadingRefused::Fault { faults } => (count, *faults, FAULT),
        ReadingRefused::Memory => (count, 0, MEMORY),
    }
}

// Whether this is the record that stands there in the bytes, and has that number.
fn is_at(bytes: &[u8], count: u64, offset: u64, op: u8, content: &[u8]) -> bool {
    let record = bytes.get(offset as usize..).unwrap_or(&[]);
    match cut(record, 0) {
        Ok(found) => {
            found.op == op
                && record.get(9..found.to as usize) == Some(content)
                && is_by_hand(bytes, count, offset, op, content)
        }
        Err(_) => false,
    }
}

// The records of the plain file by hand: each one's opcode, its offset, and where its content starts and ends.
const BY_HAND: [(u8, u64, usize, usize); 4] = [
    (1, 8, 17, 25),
    (4, 25, 34, 52),
    (5, 52, 61, 84),
    (15, 84, 93, 97),
];

// Whether this is the record of that number, if the bytes are the plain file.
fn is_by_hand(bytes: &[u8], count: u64, offset: u64, op: u8, content: &[u8]) -> bool {
    if bytes != PLAIN {
        return true;
    }
    match BY_HAND.get(count as usize) {
        Some((wanted, at, from, to)) => {
            *wanted == op && *at == offset && bytes.get(*from..*to) == Some(content)
        }
        None => false,
    }
}

// What a scan of the bytes' records in the scanner's own room comes to.
fn scan<S: Source>(scanner: &mut Scanner<S>, bytes: &[u8]) -> Outcome {
    for count in 0..200_000 {
        match scanner.advance() {
            Step::Record { op, offset } => {
                if !is_at(bytes, count, offset, op, scanner.content()) {
                    return (count, offset, OTHER);
                }
            }
            Step::End { offset } => return (count, offset, END),
            Step::Refused => match scanner.refusal() {
                Some(why) => return refused(why, count),
                None => return (count, 0, MEMORY),
            },
        }
    }
    (200_000, 0, MEMORY)
}

// What a scan of the bytes' records with copies of their contents comes to.
fn scan_copies<S: Source>(scanner: &mut Scanner<S>, bytes: &[u8]) -> Outcome {
    for count in 0..200_000 {
        match scanner.next() {
            Ok(
                Top::Record {
                    op,
                    offset,
                    content,
                },
            ) => {
                if !is_at(bytes, count, offset, op, content.as_slice()) {
                    return (count, offset, OTHER);
                }
            }
            Ok(Top::End { offset }) => return (count, offset, END),
            Err(why) => return refused(&why, count),
        }
    }
    (200_000, 0, MEMORY)
}

// The source of a scan of the bytes that comes to this, with copies or without, and then to the same again in the other way.
fn scanned<S: Source + Drop>(
    alloc: Global,
    source: S,
    bytes: &[u8],
    copied: bool,
    want: Outcome,
) -> Option<S> {
    let Ok(mut scanner) = Scanner::new(alloc, source) else {
        return None;
    };
    let (found, again) = if copied {
        (scan_copies(&mut scanner, bytes), scan(&mut scanner, bytes))
    } else {
        (scan(&mut scanner, bytes), scan_copies(&mut scanner, bytes))
    };
    if found == want && again == (0, want.1, want.2) {
        return Some(scanner.into_source());
    }
    None
}

// Whether a scan of the bytes comes to this and leaves so many of them unread.
fn halts(alloc: Global, bytes: &[u8], copied: bool, want: Outcome, left: usize) -> bool {
    let Ok(source) = quiet(alloc, bytes) else {
        return false;
    };
    match scanned(alloc, source, bytes, copied, want) {
        Some(source) => source.rest().len() == left,
        None => false,
    }
}

// Whether the plain scan of the bytes halts at the same offset for the same reason.
fn halts_plainly(alloc: Global, bytes: &[u8], want: Outcome) -> bool {
    let (_, place, why) = want;
    match scan_plain(alloc, bytes) {
        Ok(_) => why == END,
        Err(ReadingRefused::Grammar { offset, rule }) => offset == place && why == rule.number(),
        Err(ReadingRefused::Compressed { offset, .. }) => offset == place && why == COMPRESSED,
        Err(ReadingRefused::Limit { offset }) => offset == place && why == LIMIT,
        Err(_) => false,
    }
}

// Whether every scan of the bytes comes to this and leaves so many of them unread.
fn all_halt(alloc: Global, bytes: &[u8], want: Outcome, left: usize) -> bool {
    halts(alloc, bytes, false, want, left)
        && halts(alloc, bytes, true, want, left)
        && halts_plainly(alloc, bytes, want)
}

#[test]
fn scans_halt_where_they_should_and_read_no_further(rt: HostRuntime) {
    for (bytes, want, left) in FILES {
        holds_at(&rt, all_halt(rt.alloc(), bytes, want, left), &bytes);
    }
}

// What a scan of the first bytes of the file of two chunks comes to.
fn prefix_outcome(len: usize) -> Outcome {
    if len < 8 {
        return (0, 0, 1);
    }
    let mut found = (0, 8, 4);
    for (count, place) in [(1, 34), (2, 142), (3, 173), (4, 254), (5, 285), (6, 298)] {
        if place <= len {
            found = (count, place as u64, if count == 6 { END } else { 4 });
        }
    }
    found
}

#[test]
fn each_prefix_of_a_file_gives_its_whole_records(rt: HostRuntime) {
    for len in 0..TWO_CHUNKS.len() + 1 {
        let (bytes, left) = (&TWO_CHUNKS[..len], len.saturating_sub(298));
        holds_at(
            &rt,
            all_halt(rt.alloc(), bytes, prefix_outcome(len), left),
            &len,
        );
    }
}

// Whether a scan whose read of that number fails, and the next one too, gives so many records, and reads no more.
fn fails(alloc: Global, read: u64, count: u64) -> bool {
    let Ok(bytes) = Vec::from_slice(alloc, PLAIN) else {
        return false;
    };
    let Ok(failing) = Vec::from_slice(alloc, &[read, read.saturating_add(1)]) else {
        return false;
    };
    let mut source = MemorySource::new(bytes, failing);
    let lent = Lent::new(&mut source);
    let ended = scanned(alloc, lent, PLAIN, false, (count, 1, FAULT)).is_some();
    ended && source.faults() == 1
}

// The magic is the first read, and each head and each content one more.
#[test]
fn a_failing_read_ends_a_scan_for_good(rt: HostRuntime) {
    for (read, count) in [
        (0, 0),
        (1, 0),
        (2, 0),
        (3, 1),
        (4, 1),
        (5, 2),
        (6, 2),
        (7, 3),
        (8, 3),
    ] {
        holds_at(&rt, fails(rt.alloc(), read, count), &read);
    }
}

// A file of one Chunk of 67,108,864 (0x4000000) bytes of records, which are one unknown record, with no CRC; and a Data End.
fn large_chunk(alloc: Global) -> Result<Vec<u8>, Fail> {
    let mut bytes = Vec::from_slice(
        alloc,
        b"\x89MCAP0\r\n\x01\x08\0\0\0\0\0\0\0\0\0\0\0\0\0\0\0\
        \x06\x28\0\0\x04\0\0\0\0\0\0\0\0\0\0\0\0\0\0\0\0\0\0\0\0\0\0\0\x04\0\0\0\0\0\0\0\0\0\0\0\0\0\0\0\x04\0\0\0\0\
        \x90\xf7\xff\xff\x03\0\0\0\0",
    )?;
    bytes.resize(67_108_938, 0xaa)?;
    bytes.extend_from_slice(&PLAIN[84..97])?;
    Ok(bytes)
}

// 25 + 9 + 40 + 67,108,864 + 13 bytes.
#[test]
fn a_large_chunk_is_scanned(rt: HostRuntime) -> Result<(), Fail> {
    let bytes = large_chunk(rt.alloc())?;
    let want = (3, 67_108_951, END);
    holds_at(&rt, halts(rt.alloc(), &bytes, false, want, 0), &want);
    Ok(())
}
