//! Recordings of feeds on threads: each message of a feed is told once, and stands at its place in the file.
ghost use Rattle.std.specs.Prelude.{◌≡◌, ◌≤◌, vec_len, IfOk};
ghost use Rattle.mcap_wire.specs.RecordingLimits.{buffer_limit};

use crate::same::{holds, holds_at};
use io_memory::{FailingWrite, MemoryLive, MemorySource};
use mcap_model::{End, FileOptions, RecordOptions, Stop};
use mcap_wire::{Memory, Text};
use recorder::{FeedEnd, FeedReport, Recording, Report, record};
use std::alloc::Global;
use std::sync::Wait;
use std::test::Fail;
use std::thread::Threads;

// Magic and Header.
fn head() -> &'static [u8] {
    b"\x89MCAP0\r\n\
    \x01\x08\0\0\0\0\0\0\0\0\0\0\0\0\0\0\0"
}

fn data_end() -> &'static [u8] {
    b"\x0f\x04\0\0\0\0\0\0\0\0\0\0\0"
}

// A feed: a Channel of the topic `/a` with that id, and so many messages of one byte on it, which is the mark.
fn feed_of(alloc: Global, channel: u8, mark: u8, many: u32) -> Result<MemorySource, Memory> {
    let mut bytes = Vec::from_slice(alloc, head())?;
    bytes.extend_from_slice(&[
        4, 18, 0, 0, 0, 0, 0, 0, 0, channel, 0, 0, 0, 2, 0, 0, 0, 47, 97, 0, 0, 0, 0, 0, 0, 0, 0,
    ])?;
    for sequence in 0..many {
        let [a, b, c, d] = sequence.to_le_bytes();
        bytes.extend_from_slice(&[
            5, 23, 0, 0, 0, 0, 0, 0, 0, channel, 0, a, b, c, d, 10, 0, 0, 0, 0, 0, 0, 0, 9, 0, 0,
            0, 0, 0, 0, 0, mark,
        ])?;
    }
    bytes.extend_from_slice(data_end())?;
    Ok(MemorySource::new(bytes, Vec::new(alloc)))
}

// Where the records of a plain file begin.
fn records_of(alloc: Global, bytes: &[u8]) -> Result<Vec<usize>, Memory> {
    let mut starts = Vec::new(alloc);
    let mut at = 34usize;
    for _ in 0..bytes.len() {
        let (op, len) = match bytes.get(at..at.saturating_add(9)) {
            Some([op, a, b, c, d, 0, 0, 0, 0]) => (*op, u32::from_le_bytes([*a, *b, *c, *d])),
            _ => return Ok(starts),
        };
        let end = at.saturating_add(9).saturating_add(len as usize);
        if (op != 4 && op != 5) || end > bytes.len() {
            return Ok(starts);
        }
        starts.push(at)?;
        at = end;
    }
    Ok(starts)
}

// Whether the message with this mark and number stands there.
fn is_message(bytes: &[u8], at: usize, sequence: u64, mark: u8) -> bool {
    let [a, b, c, d, _, _, _, _] = sequence.to_le_bytes();
    let wanted = [
        5, 23, 0, 0, 0, 0, 0, 0, 0, 1, 0, a, b, c, d, 10, 0, 0, 0, 0, 0, 0, 0, 9, 0, 0, 0, 0, 0, 0,
        0, mark,
    ];
    bytes.get(at..at.saturating_add(32)) == Some(wanted.as_slice())
}

// How many messages of a feed are told.
fn told(report: &FeedReport) -> u64 {
    report.accepted.len().wrapping_add(report.refused.len())
}

// Whether each message of a feed that was accepted stands at its place, where the file has that, at places that rise.
fn is_placed(bytes: &[u8], starts: &[usize], report: &FeedReport, mark: u8) -> bool {
    let Some(all) = report.accepted.as_slice() else {
        return false;
    };
    let mut next = 0;
    for accepted in all {
        if accepted.place < next {
            return false;
        }
        next = accepted.place.saturating_add(1);
        if let Some(at) = starts.get(accepted.place as usize) {
            if !is_message(bytes, *at, accepted.index, mark) {
                return false;
            }
        }
    }
    true
}

// How many messages were accepted, records were declared, and messages were refused.
fn count(report: &Report) -> (u64, u64, u64) {
    let (mut accepted, mut declared, mut refused) = (0u64, 0u64, 0u64);
    for feed in report.feeds.iter() {
        accepted = accepted.wrapping_add(feed.accepted.len());
        refused = refused.wrapping_add(feed.refused.len());
        for one in feed.declared.iter() {
            declared = declared.wrapping_add(one.count as u64);
        }
    }
    (accepted, declared, refused)
}

// Whether what was accepted of all feeds stands in the file, and is as many records as the writer tells.
fn is_told(alloc: Global, report: &Report, bytes: &[u8], marks: &[u8]) -> Result<bool, Memory> {
    let starts = records_of(alloc, bytes)?;
    for (feed, mark) in report.feeds.iter().zip(marks.iter()) {
        if !is_placed(bytes, starts.as_slice(), feed, *mark) {
            return Ok(false);
        }
    }
    let (accepted, declared, _) = count(report);
    Ok(
        report.feeds.len() == marks.len()
            && starts.len() as u64 <= report.writer.records
            && accepted.wrapping_add(declared) == report.writer.records,
    )
}

// Whether a recording that was closed is told as it is: all messages of each feed, of one channel.
fn is_whole(
    alloc: Global,
    report: &Report,
    bytes: &[u8],
    marks: &[u8],
    many: u64,
) -> Result<bool, Memory> {
    for feed in report.feeds.iter() {
        if told(feed) != many || !matches!(feed.end, FeedEnd::Done) {
            return Ok(false);
        }
    }
    let (_, declared, _) = count(report);
    let records = records_of(alloc, bytes)?.len() as u64;
    Ok(
        is_told(alloc, report, bytes, marks)?
            && report.writer.end == End::Closed
            && report.writer.bytes == bytes.len() as u64
            && report.writer.records == records
            && declared == 1,
    )
}

// Whether a recording whose store failed is told as it is.
fn is_cut(alloc: Global, report: &Report, bytes: &[u8], marks: &[u8]) -> Result<bool, Memory> {
    for feed in report.feeds.iter() {
        if !matches!(feed.end, FeedEnd::Ended) {
            return Ok(false);
        }
    }
    let opened = report.writer.bytes > 0;
    Ok(
        is_told(alloc, report, bytes, marks)?
            && report.writer.end
                == End::Stopped {
                    stop: Stop::Fault { faults: 1 },
                }
            && report.writer.bytes <= bytes.len() as u64
            && (opened || report.writer.records == 0),
    )
}

// Records these feeds into a plain file.
fn recorded<R: Threads + Wait + Sync>(
    rt: &R,
    alloc: Global,
    feeds: Vec<MemorySource>,
    live: MemoryLive,
    limit: u64,
    lossless: bool,
) -> Result<Recording<MemorySource, MemoryLive>, Memory>
    requires feeds { (1 ≤ vec_len feeds) × (vec_len feeds ≤ 64) }
    requires limit { (1 ≤ limit) × (limit ≤ buffer_limit) }
{
    let options = RecordOptions {
        file: FileOptions {
            profile: Text::copied(alloc, "")?,
            chunk: None,
            span: None,
        },
        limit,
        lossless,
    };
    Ok(record(rt, alloc, &options, feeds, live, true))
}

// Records these feeds of so many messages each; answers whether that is told as it is, and how many messages were refused.
fn check<R: Threads + Wait + Sync>(
    rt: &R,
    alloc: Global,
    feeds: Vec<MemorySource>,
    marks: &[u8],
    many: u64,
    limit: u64,
    lossless: bool,
) -> Result<(bool, u64), Memory>
    requires feeds { (1 ≤ vec_len feeds) × (vec_len feeds ≤ 64) }
    requires limit { (1 ≤ limit) × (limit ≤ buffer_limit) }
{
    let live = MemoryLive::new(alloc, Vec::new(alloc));
    let Recording {
        report,
        feeds,
        live,
    } = recorded(rt, alloc, feeds, live, limit, lossless)?;
    let bytes = live.into_bytes();
    match report {
        Some(report) => {
            let whole = is_whole(alloc, &report, bytes.as_slice(), marks, many)?;
            let (_, _, refused) = count(&report);
            return Ok((whole && feeds.len() == marks.len(), refused));
        }
        None => return Err(Memory),
    }
}

fn one_of(alloc: Global, many: u32) -> Result<Vec<MemorySource>, Memory>
    ensures { IfOk result (λ feeds. vec_len feeds ≡ 1) }
{
    Ok(Vec::from_array(alloc, [feed_of(alloc, 7, 0, many)?])?)
}

// Two feeds of channels of these ids.
fn two_of(
    alloc: Global,
    channels: (u8, u8),
    marks: (u8, u8),
    many: u32,
) -> Result<Vec<MemorySource>, Memory>
    ensures { IfOk result (λ feeds. vec_len feeds ≡ 2) }
{
    let first = feed_of(alloc, channels.0, marks.0, many)?;
    let second = feed_of(alloc, channels.1, marks.1, many)?;
    Ok(Vec::from_array(alloc, [first, second])?)
}

fn four_of(alloc: Global, many: u32) -> Result<Vec<MemorySource>, Memory>
    ensures { IfOk result (λ feeds. vec_len feeds ≡ 4) }
{
    let first = feed_of(alloc, 7, 0, many)?;
    let second = feed_of(alloc, 7, 1, many)?;
    let third = feed_of(alloc, 7, 2, many)?;
    let fourth = feed_of(alloc, 7, 3, many)?;
    Ok(Vec::from_array(alloc, [first, second, third, fourth])?)
}

#[test]
fn one_feed(rt: HostRuntime) -> Result<(), Fail> {
    let alloc = rt.alloc();
    let feeds = one_of(alloc, 20_000)?;
    let (whole, refused) = check(&rt, alloc, feeds, &[0], 20_000, 1_048_576, false)?;
    holds(&rt, whole && refused == 0);
    Ok(())
}

#[test]
fn four_feeds(rt: HostRuntime) -> Result<(), Fail> {
    let alloc = rt.alloc();
    let feeds = four_of(alloc, 5_000)?;
    let (whole, _) = check(&rt, alloc, feeds, &[0, 1, 2, 3], 5_000, 16_777_216, false)?;
    holds(&rt, whole);
    Ok(())
}

#[test]
fn a_buffer_of_a_hundred_bytes(rt: HostRuntime) -> Result<(), Fail> {
    let alloc = rt.alloc();
    let feeds = four_of(alloc, 2_000)?;
    let (whole, refused) = check(&rt, alloc, feeds, &[0, 1, 2, 3], 2_000, 100, false)?;
    holds_at(&rt, whole, &refused);
    Ok(())
}

#[test]
fn lanes_that_wait_for_room(rt: HostRuntime) -> Result<(), Fail> {
    let alloc = rt.alloc();
    let feeds = four_of(alloc, 2_000)?;
    let (whole, refused) = check(&rt, alloc, feeds, &[0, 1, 2, 3], 2_000, 100, true)?;
    holds_at(&rt, whole && refused == 0, &refused);
    Ok(())
}

#[test]
fn equal_channels_under_different_ids(rt: HostRuntime) -> Result<(), Fail> {
    let alloc = rt.alloc();
    let feeds = two_of(alloc, (7, 9), (0, 1), 1_000)?;
    let (whole, refused) = check(&rt, alloc, feeds, &[0, 1], 1_000, 100, true)?;
    holds_at(&rt, whole && refused == 0, &refused);
    Ok(())
}

#[test]
fn the_same_feed_twice(rt: HostRuntime) -> Result<(), Fail> {
    let alloc = rt.alloc();
    let feeds = two_of(alloc, (7, 7), (5, 5), 1_000)?;
    let (whole, refused) = check(&rt, alloc, feeds, &[5, 5], 1_000, 1_048_576, false)?;
    holds_at(&rt, whole && refused == 0, &refused);
    Ok(())
}

// Whether a recording whose store fails at that append is told as it is.
fn fails_at<R: Threads + Wait + Sync>(rt: &R, alloc: Global, append: u64) -> Result<bool, Memory> {
    let failing = FailingWrite {
        call: append,
        taken: 5,
    };
    let live = MemoryLive::new(alloc, Vec::from_array(alloc, [failing])?);
    let Recording {
        report,
        feeds: _,
        live,
    } = recorded(rt, alloc, four_of(alloc, 3_000)?, live, 200, true)?;
    let bytes = live.into_bytes();
    match report {
        Some(report) => return is_cut(alloc, &report, bytes.as_slice(), &[0, 1, 2, 3]),
        None => return Err(Memory),
    }
}

#[test]
fn a_store_that_fails(rt: HostRuntime) -> Result<(), Fail> {
    let alloc = rt.alloc();
    for append in 0..4u64 {
        holds_at(&rt, fails_at(&rt, alloc, append)?, &append);
    }
    Ok(())
}
