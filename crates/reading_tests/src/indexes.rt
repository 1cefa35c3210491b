//! What is loaded of a summary, and a replay by its indexes.
use crate::replays::{Wanted, are_shown};
use crate::same::holds_at;
use crate::sources::TWO_CHUNKS;
use indexed_replay::replay_indexed;
use io_memory::QuietStore;
use mcap_io::Store;
use mcap_model::{IndexedRefused, NotIndexed, Range, ReadingRefused, Rule};
use mcap_wire::Text;
use std::alloc::Global;
use std::test::Fail;
use summary_read::{Loaded, load};

// A file of a front and a summary alone, of 293 bytes from 34 up to the Footer at 327: a Schema and a Channel of it,
// Statistics, a Chunk Index at 140 of a Chunk at 7, an Attachment Index, a Metadata Index and a Summary Offset.
const LISTED: &[u8] = b"\x89MCAP0\r\n\x01\x11\0\0\0\0\0\0\0\0\0\0\0\x09\0\0\0mcaprec 1\
    \x03\x0f\0\0\0\0\0\0\0\x01\0\x01\0\0\0s\0\0\0\0\0\0\0\0\
    \x04\x12\0\0\0\0\0\0\0\x01\0\x01\0\x02\0\0\0/a\0\0\0\0\0\0\0\0\
    \x0b.\0\0\0\0\0\0\0\0\0\0\0\0\0\0\0\0\0\0\0\0\0\0\0\0\0\0\0\0\0\0\0\0\0\0\0\0\0\0\0\0\0\0\0\0\0\0\0\0\0\0\0\0\0\
    \x08@\0\0\0\0\0\0\0\0\0\0\0\0\0\0\0\0\0\0\0\0\0\0\0\x07\0\0\0\0\0\0\0\0\0\0\0\0\0\0\0\0\0\0\0\0\0\0\0\0\0\0\0\0\0\0\0\0\0\0\0\0\0\0\0\0\0\0\0\0\0\0\0\
    \x0a\x31\0\0\0\0\0\0\0\0\0\0\0\0\0\0\0\0\0\0\0\0\0\0\0\0\0\0\0\0\0\0\0\0\0\0\0\0\0\0\0\0\0\0\0\0\0\0\0\x01\0\0\0n\0\0\0\0\
    \x0d\x15\0\0\0\0\0\0\0\0\0\0\0\0\0\0\0\0\0\0\0\0\0\0\0\x01\0\0\0m\
    \x0e\x11\0\0\0\0\0\0\0\x03\x22\0\0\0\0\0\0\0\x18\0\0\0\0\0\0\0\
    \x02\x14\0\0\0\0\0\0\0\x22\0\0\0\0\0\0\0\0\0\0\0\0\0\0\0\0\0\0\0\
    \x89MCAP0\r\n";

// Whether its Footer is found, and the records of it that no command lists.
fn are_listed(it: &Loaded) -> bool {
    it.footer().summary_start == 34
        && it.attachment_indexes() == 1
        && it.attachment_index(0).name == "n"
        && it.metadata_indexes() == 1
        && it.metadata_index(0).name == "m"
        && it.summary_offsets() == 1
        && it.summary_offset(0).group_start == 34
}

#[test]
fn the_records_of_a_summary_are_listed(rt: HostRuntime) -> Result<(), Fail> {
    let mut store = QuietStore::new(Vec::from_slice(rt.alloc(), LISTED)?);
    let found = match load(rt.alloc(), &mut store) {
        Ok(it) => are_listed(&it),
        Err(_) => false,
    };
    // 37 at the end, 17 at the front, the Header's content and the summary
    holds_at(
        &rt,
        found && store.asked() == 37 + 17 + 17 + 293,
        &store.asked(),
    );
    Ok(())
}

#[test]
fn indexes_lead_to_messages_of_their_own(rt: HostRuntime) -> Result<(), Fail> {
    let alloc = rt.alloc();
    let mut store = QuietStore::new(Vec::from_slice(alloc, TWO_CHUNKS)?);
    let asked = Text::copied(alloc, "/a")?;
    let range = Range {
        start: 10,
        end: Some(12),
    };
    let wanted = Wanted {
        lines: "10 9 1 1 \"/a\" 01\n11 9 1 2 \"/a\" 02\n",
        places: &[(34, 27), (173, 0)],
    };
    let found = match replay_indexed(alloc, &mut store, range, Some(&asked)) {
        Ok(played) => are_shown(alloc, &played, wanted),
        Err(_) => false,
    };
    // the ends and the summary; of each chunk its front, its Message Index and its message
    holds_at(
        &rt,
        found && store.asked() == 37 + 34 + 336 + 2 * (49 + 31 + 32),
        &store.asked(),
    );
    Ok(())
}

// What a replay by the indexes is refused for.
#[derive(Clone, Copy)]
enum End {
    Flaw(u64),
    Compressed(u64),
    Counts(u32),
}

// Whether V12 fails at that offset, a chunk there names "lz4", or so many chunks are stated where there are two.
fn is_end(why: &IndexedRefused, end: End) -> bool {
    match why {
        IndexedRefused::Refused {
            why: ReadingRefused::Grammar {
                offset,
                rule: Rule::V12,
            },
        } => matches!(end, End::Flaw(at) if at == *offset),
        IndexedRefused::Refused {
            why: ReadingRefused::Compressed { offset, name },
        } => name.is("lz4") && matches!(end, End::Compressed(at) if at == *offset),
        IndexedRefused::NotIndexed {
            why: NotIndexed::ChunkCount { stated, found: 2 },
        } => matches!(end, End::Counts(n) if n == *stated),
        _ => false,
    }
}

// The file of two chunks with these bytes at that place.
fn with_bytes(alloc: Global, place: usize, bytes: &[u8]) -> Option<Vec<u8>> {
    let mut file = Vec::new(alloc);
    for i in 0..TWO_CHUNKS.len() {
        let byte = if i >= place && i - place < bytes.len() {
            bytes[i - place]
        } else {
            TWO_CHUNKS[i]
        };
        if file.push(byte).is_err() {
            return None;
        }
    }
    Some(file)
}

// Whether its replay is refused so, and asks for so many bytes.
fn is_refused(alloc: Global, place: usize, bytes: &[u8], end: End, asked: u128) -> bool {
    let Some(file) = with_bytes(alloc, place, bytes) else {
        return false;
    };
    let mut store = QuietStore::new(file);
    let range = Range {
        start: 10,
        end: Some(12),
    };
    match replay_indexed(alloc, &mut store, range, None) {
        Ok(_) => return false,
        Err(why) => return is_end(&why, end) && store.asked() == asked,
    }
}

// Behind the ends and the summary, of 407 bytes, a chunk is looked at by 49 bytes, a compression by 40 and its name besides, and
// what is no Message Index by 9. The Chunk Indexes stand at 390 and 473.
#[test]
fn refused_replays_ask_for_little(rt: HostRuntime) -> Result<(), Fail> {
    let rows: [(usize, &[u8], End, u128); 8] = [
        // more chunks are stated than there are Chunk Indexes
        (356, b"\x03", End::Counts(3), 407),
        // no chunk; its compression doesn't fit, or its records don't; a compressed one
        (34, b"\x10", End::Flaw(390), 407 + 49),
        (71, b"<", End::Flaw(390), 407 + 49),
        (71, b"\x03\0\0\0lz49", End::Flaw(390), 407 + 49 + 43),
        (
            71,
            b"\x03\0\0\0lz48\0\0\0\0\0\0\0",
            End::Compressed(34),
            407 + 49 + 43,
        ),
        // no Message Index; one of another channel
        (142, b"\x10", End::Flaw(390), 407 + 49 + 9),
        (151, b"\x02", End::Flaw(390), 407 + 49 + 31),
        // the second Chunk Index leads to none, behind the first chunk with its message
        (173, b"\x10", End::Flaw(473), 407 + 49 + 31 + 32 + 49),
    ];
    for (place, bytes, end, asked) in rows {
        holds_at(
            &rt,
            is_refused(rt.alloc(), place, bytes, end, asked),
            &place,
        );
    }
    Ok(())
}
