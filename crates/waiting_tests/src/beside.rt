//! Lanes run beside one another and beside the writer.
ghost use Rattle.std.specs.Prelude.{◌≡◌, ◌≤◌, [], Some, vec_len, true, IfOk};

use crate::held_source::HeldSource;
use crate::held_store::HeldStore;
use file_check::check;
use io_memory::{QuietLive, QuietStore};
use mcap_model::{End, FileOptions, RecordOptions, Verdict};
use mcap_wire::{Memory, Text};
use recorder::{FeedEnd, Recording, Report, record};
use std::alloc::Global;
use std::process::Abort;
use std::sync::Wait;
use std::sync::atomic::AtomicBool;
use std::test::Fail;
use std::thread::Threads;

// Magic and Header, 25 bytes, and a Channel of the topic `/a`, 27 bytes.
const BEGIN: &[u8] = b"\x89MCAP0\r\n\
    \x01\x08\0\0\0\0\0\0\0\0\0\0\0\0\0\0\0\
    \x04\x12\0\0\0\0\0\0\0\x07\0\0\0\x02\0\0\0/a\0\0\0\0\0\0\0\0";

// A Message on it, 32 bytes.
const MESSAGE: &[u8] =
    b"\x05\x17\0\0\0\0\0\0\0\x07\0\x01\0\0\0\x0a\0\0\0\0\0\0\0\x09\0\0\0\0\0\0\0\xaa";

const DATA_END: &[u8] = b"\x0f\x04\0\0\0\0\0\0\0\0\0\0\0";

// A feed of so many equal Messages.
fn feed_of(alloc: Global, many: u32) -> Result<Vec<u8>, Memory> {
    let mut bytes = Vec::from_slice(alloc, BEGIN)?;
    for _ in 0..many {
        bytes.extend_from_slice(MESSAGE)?;
    }
    bytes.extend_from_slice(DATA_END)?;
    Ok(bytes)
}

// A buffer of one record, and blocks of one.
fn options_of(alloc: Global) -> Result<RecordOptions, Memory>
    ensures { IfOk result (λ options. (options.limit ≡ 1) × (options.file.profile ≡ [])
        × (options.file.chunk ≡ Some 1)) }
{
    Ok(RecordOptions {
        file: FileOptions {
            profile: Text::copied(alloc, "")?,
            chunk: Some(1),
            span: None,
        },
        limit: 1,
        lossless: false,
    })
}

// Whether all feeds came to their ends, and the file was closed.
fn is_done(report: &Report) -> bool {
    for feed in report.feeds.iter() {
        if !matches!(feed.end, FeedEnd::Done) {
            return false;
        }
    }
    report.writer.end == End::Closed
}

// How many messages of the first feed were accepted, and how many were refused.
fn counts_of(report: &Report) -> (u64, u64) {
    match report.feeds.first() {
        Some(feed) => (feed.accepted.len(), feed.refused.len()),
        None => (0, 0),
    }
}

// Whether a check of the file says that it is indexed.
fn is_indexed(alloc: Global, file: Vec<u8>) -> bool {
    let mut store = QuietStore::new(file);
    matches!(check(alloc, &mut store), Ok(Verdict::Indexed { .. }))
}

// Ends the test where this doesn't hold.
fn holds(rt: &impl Abort, holds: bool)
    ensures { holds ≡ true }
{
    assert!(rt; holds);
}

// Records these feeds over a buffer and blocks of one record.
fn recorded<'f, R: Threads + Wait + Sync>(
    rt: &R,
    alloc: Global,
    feeds: Vec<HeldSource<'f>>,
    live: HeldStore<'f>,
) -> Result<(Report, Vec<u8>), Memory>
    requires { (1 ≤ vec_len feeds) × (vec_len feeds ≤ 64) }
{
    let options = options_of(alloc)?;
    let Recording {
        report,
        feeds: _,
        live,
    } = record(rt, alloc, &options, feeds, live, true);
    let HeldStore {
        store,
        appends: _,
        until: _,
        taken: _,
        faults: _,
    } = live;
    match report {
        Some(report) => return Ok((report, store.into_bytes())),
        None => return Err(Memory),
    }
}

// Each of two feeds waits before its first byte until the other was asked for one.
#[test]
fn feeds_that_wait_for_each_other(rt: HostRuntime) -> Result<(), Fail> {
    let alloc = rt.alloc();
    let (free, given) = (AtomicBool::new(true), AtomicBool::new(false));
    let (one_asked, other_asked) = (AtomicBool::new(false), AtomicBool::new(false));
    let one = HeldSource {
        bytes: feed_of(alloc, 1)?,
        next: 0,
        held_at: 0,
        until: &other_asked,
        asked: &one_asked,
        given: &given,
        faults: 0,
    };
    let other = HeldSource {
        bytes: feed_of(alloc, 1)?,
        next: 0,
        held_at: 0,
        until: &one_asked,
        asked: &other_asked,
        given: &given,
        faults: 0,
    };
    let live = HeldStore {
        store: QuietLive::new(alloc),
        appends: 0,
        until: &free,
        taken: &given,
        faults: 0,
    };
    let feeds = Vec::from_array(alloc, [one, other])?;
    let (report, _) = recorded(&rt, alloc, feeds, live)?;
    holds(&rt, is_done(&report));
    Ok(())
}

// The first block waits for the feed's last byte: what finds the buffer full is refused, and counted.
#[test]
fn a_store_that_waits_for_the_feed(rt: HostRuntime) -> Result<(), Fail> {
    let alloc = rt.alloc();
    let (free, asked) = (AtomicBool::new(true), AtomicBool::new(false));
    let (given, taken) = (AtomicBool::new(false), AtomicBool::new(false));
    let feed = HeldSource {
        bytes: feed_of(alloc, 5)?,
        next: 0,
        held_at: 0,
        until: &free,
        asked: &asked,
        given: &given,
        faults: 0,
    };
    let live = HeldStore {
        store: QuietLive::new(alloc),
        appends: 0,
        until: &given,
        taken: &taken,
        faults: 0,
    };
    let (report, file) = recorded(&rt, alloc, Vec::from_array(alloc, [feed])?, live)?;
    let (accepted, refused) = counts_of(&report);
    holds(&rt, is_done(&report) && accepted <= 2);
    holds(&rt, accepted.wrapping_add(refused) == 5);
    holds(&rt, is_indexed(alloc, file));
    Ok(())
}

// The feed waits within its second message until the first block was written.
#[test]
fn a_feed_that_waits_for_the_store(rt: HostRuntime) -> Result<(), Fail> {
    let alloc = rt.alloc();
    let (free, asked) = (AtomicBool::new(true), AtomicBool::new(false));
    let (given, taken) = (AtomicBool::new(false), AtomicBool::new(false));
    let bytes = feed_of(alloc, 2)?;
    let feed = HeldSource {
        held_at: bytes.len().saturating_sub(DATA_END.len() + 1),
        bytes,
        next: 0,
        until: &taken,
        asked: &asked,
        given: &given,
        faults: 0,
    };
    let live = HeldStore {
        store: QuietLive::new(alloc),
        appends: 0,
        until: &free,
        taken: &taken,
        faults: 0,
    };
    let (report, _) = recorded(&rt, alloc, Vec::from_array(alloc, [feed])?, live)?;
    holds(&rt, is_done(&report));
    Ok(())
}
