//! Recordings that are watched.
ghost use Rattle.std.specs.Prelude.{◌≡◌, vec_len, IfOk};

use crate::published::feed_bytes;
use io_memory::{FailingWrite, MemoryLive, MemorySink, MemorySource};
use live_recording::{WatchedRecording, record_watched};
use live_watcher::{WatchEnd, WatchReport};
use mcap_model::{End, FileOptions, Range, RecordOptions};
use mcap_wire::{Memory, Text};
use recorder::Report;
use std::alloc::Global;
use std::test::*;

// What a watcher of the feed writes behind its fronts.
const LINES: &[u8] = b"end closed 2 2\n10 9 1 1 \"/a\" aa\n11 9 1 2 \"/a\" aa\n";

// A sink that fails at the write of that number, if there is one.
fn sink_of(alloc: Global, failing: Option<u64>) -> Result<MemorySink, Memory> {
    let mut writes = Vec::new(alloc);
    if let Some(call) = failing {
        writes.push(FailingWrite { call, taken: 0 })?;
    }
    Ok(MemorySink::new(alloc, writes))
}

// Four sinks, the second of which fails at the write of that number.
fn sinks_of(alloc: Global, call: u64) -> Result<Vec<MemorySink>, Memory>
    ensures { IfOk result (λ sinks. vec_len sinks ≡ 4) }
{
    let sinks = [
        sink_of(alloc, None)?,
        sink_of(alloc, Some(call))?,
        sink_of(alloc, None)?,
        sink_of(alloc, None)?,
    ];
    Ok(Vec::from_array(alloc, sinks)?)
}

// Whether the watcher of the sink wrote all, or failed once where it is to fail.
fn is_watched(watch: &WatchReport, sink: &MemorySink, fails: bool) -> bool {
    if fails {
        return watch.end == WatchEnd::Fault { faults: 1 } && !sink.bytes().ends_with(LINES);
    }
    watch.end == WatchEnd::Whole && sink.bytes().ends_with(LINES)
}

// Whether all but the second wrote all.
fn are_watched(watches: &[WatchReport], sinks: &[MemorySink]) -> bool {
    let mut place = 0usize;
    for (watch, sink) in watches.iter().zip(sinks.iter()) {
        if !is_watched(watch, sink, place == 1) {
            return false;
        }
        place = place.saturating_add(1);
    }
    place == 4
}

// Whether both messages were accepted and the file was closed.
fn is_whole(report: &Option<Report>) -> bool {
    match report {
        Some(report) => report.writer.end == End::Closed && report.writer.records == 3,
        None => false,
    }
}

// The first write of a watcher is a front or the end, so there always is one; and its last write is never its first.
#[test]
fn a_sink_that_fails_takes_nothing_from_others(rt: HostRuntime) -> Result<(), Fail> {
    let alloc = rt.alloc();
    for call in 0..2u64 {
        let options = RecordOptions {
            file: FileOptions {
                profile: Text::copied(alloc, "")?,
                chunk: Some(59),
                span: None,
            },
            limit: 1_048_576,
            lossless: true,
        };
        let all_times = Range {
            start: 0,
            end: None,
        };
        let bytes = Vec::from_slice(alloc, feed_bytes())?;
        let feed = MemorySource::new(bytes, Vec::new(alloc));
        let WatchedRecording {
            report,
            sealed,
            watches,
            feeds: _,
            live: _,
            views: _,
            watchers,
        } = record_watched(
            &rt,
            alloc,
            &options,
            all_times,
            Vec::from_array(alloc, [feed])?,
            MemoryLive::new(alloc, Vec::new(alloc)),
            sinks_of(alloc, call)?,
            true,
        );
        assert!(rt; is_whole(&report) && sealed);
        assert!(rt; are_watched(&watches, &watchers));
    }
    Ok(())
}
