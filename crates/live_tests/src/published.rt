//! A recording whose blocks are published as they stand in the store.
ghost use Rattle.std.specs.Prelude.{◌≡◌};
ghost use Rattle.live_directory.specs.Writing.{empty_directory};

use io_memory::{MemoryLive, MemorySource, Piece};
use live_directory::{Directory, Front, Naming, Opened, Reader, open_directory};
use live_entry::Entry;
use live_recording::{PublishingTape, last_room};
use mcap_io::Extent;
use mcap_model::{End, FileOptions, RecordOptions};
use mcap_wire::{Memory, Text};
use recorder::{Onto, record_onto};
use std::alloc::Global;
use std::marker::Brand;
use std::process::Abort;
use std::sync::Wait;
use std::test::*;
use std::thread::Threads;

// A feed of a Channel of the topic `/a` and two Messages on it, logged at 10 and at 11.
pub(crate) fn feed_bytes() -> &'static [u8] {
    b"\x89MCAP0\r\n\
    \x01\x08\0\0\0\0\0\0\0\0\0\0\0\0\0\0\0\
    \x04\x12\0\0\0\0\0\0\0\x01\0\0\0\x02\0\0\0/a\0\0\0\0\0\0\0\0\
    \x05\x17\0\0\0\0\0\0\0\x01\0\x01\0\0\0\x0a\0\0\0\0\0\0\0\x09\0\0\0\0\0\0\0\xaa\
    \x05\x17\0\0\0\0\0\0\0\x01\0\x02\0\0\0\x0b\0\0\0\0\0\0\0\x09\0\0\0\0\0\0\0\xaa\
    \x0f\x04\0\0\0\0\0\0\0\0\0\0\0"
}

// Records the feed in chunks of 59 bytes, and says how the writer ended.
fn record_published<J: Naming + Send + Sync, R: Threads + Wait + Sync>(
    rt: &R,
    alloc: Global,
    directory: &mut Directory<Piece, J>,
) -> Result<End, Fail>
    requires { directory.old ≡ empty_directory }
{
    let options = RecordOptions {
        file: FileOptions {
            profile: Text::copied(alloc, "")?,
            chunk: Some(59),
            span: None,
        },
        limit: 1_048_576,
        lossless: true,
    };
    let bytes = Vec::from_slice(alloc, feed_bytes())?;
    let feeds = vec![in alloc; MemorySource::new(bytes, Vec::new(alloc))]?;
    let live = MemoryLive::new(alloc, Vec::new(alloc));
    let room = last_room(alloc)?;
    let tape = match PublishingTape::open(alloc, rt, live, &options.file, directory, room) {
        Ok(tape) => tape,
        Err(_) => return Err(Fail::from("no tape")),
    };
    let Onto {
        report,
        feeds: _,
        tape,
    } = record_onto(rt, alloc, &options, feeds, tape, true);
    drop(tape);
    match report {
        Some(report) => Ok(report.writer.end),
        None => Err(Fail::from("no report")),
    }
}

// Whether an entry has these numbers.
fn is_entry(
    entry: &Entry<Piece>,
    offset: u64,
    bytes: u64,
    chunk: u64,
    time: u64,
    declared: u64,
) -> bool {
    entry.offset == offset
        && entry.extent.len() == bytes
        && entry.chunk_length == chunk
        && entry.start_time == time
        && entry.end_time == time
        && entry.messages == 1
        && entry.declared == declared
}

// A Chunk has 49 bytes beside its records, which are the Channel of 27 bytes and Messages of 32; a Message Index of one entry
// has 31. The first block stands behind the magic and a Header without a profile.
fn read_published<J: Naming + Send + Sync, R: Threads + Wait + Abort + Sync>(
    rt: &R,
    alloc: Global,
    directory: &mut Directory<Piece, J>,
    reader: &mut Reader<Piece, J>,
) -> Result<(), Fail>
    requires { directory.old ≡ empty_directory }
{
    assert_eq!(rt; record_published(rt, alloc, directory)?, End::Closed);
    let front = Front {
        blocks: 2,
        end: None,
    };
    assert_eq!(rt; reader.refresh(rt)?, front);
    match reader.entries() {
        [first, second] => {
            assert!(rt; is_entry(first, 34, 139, 108, 10, 1));
            assert!(rt; is_entry(second, 173, 112, 81, 11, 0));
            return Ok(());
        }
        _ => return Err(Fail::from("other entries")),
    }
}

fn published_as<J: Naming + Send + Sync, R: Threads + Wait + Abort + Sync>(
    rt: &R,
    alloc: Global,
    opened: Opened<Piece>,
) -> Result<(), Fail>
    requires { opened.seen.book ≡ J.book }
{
    let (mut directory, mut readers) = open_directory::<Piece, J, R>(alloc, rt, opened, 1)?;
    let answer = match readers.first_mut() {
        Some(reader) => read_published(rt, alloc, &mut directory, reader),
        None => Err(Fail::from("no reader")),
    };
    directory.close(rt);
    answer
}

#[test]
fn a_recording_publishes_each_of_its_blocks(rt: HostRuntime) -> Result<(), Fail> {
    published_as::<Brand, _>(&rt, rt.alloc(), Opened::new())
}
