//! Recording feeds into a store while watchers replay what is written.
ghost use Rattle.std.specs.Prelude.{◌≡◌, ◌≤◌, [], length, map, vec_len, vec_capacity, None, Some, true, IfOk, is_some};
ghost use Rattle.std.specs.List.{AllZip};
ghost use Rattle.mcap_wire.specs.Layout.{content_limit};
ghost use Rattle.mcap_wire.specs.RecordingLimits.{buffer_limit};
ghost use Rattle.mcap_model.specs.Places.{Each};
ghost use Rattle.chunk_writer.specs.Limits.{ChunkSizeFits};
ghost use Rattle.feed_lane.specs.Steps.{ListsMessages};
ghost use Rattle.feed_lane.specs.Lanes.{InStep};
ghost use Rattle.live_directory.specs.Published.{end_of};
ghost use Rattle.live_directory.specs.ReaderSteps.{AreUnread};
ghost use Rattle.live_directory.specs.Writing.{empty_directory};
ghost use Rattle.recorder.specs.Lanes.{AreReady, AreMessagesListed};
ghost use Rattle.recorder.specs.Recorded.{sides};
ghost use Rattle.live_recording.specs.WatchedSteps.{SeatRuns, RecordedOver, RecordedWatched, seen_watching};
ghost use Rattle.live_recording.specs.Publishing.{IsChunked};

use crate::beside::{Wrote, write_beside};
use crate::publishing::last_room;
use crate::seats::{AllLeft, Unviewed, finish_seats, left_room, make_seats, run_seats, seat_room};
use live_directory::{Directory, Naming, Note, Opened, Reader, open_directory};
use live_entry::Entry;
use live_watcher::{WatchReport, Watcher};
use mcap_io::{Extent, LiveStore, LiveView, Sink, Source};
use mcap_model::{Range, RecordOptions};
use mcap_wire::Memory;
use recorder::{Ready, Recording, Report, Room, make_ready, make_room, record};
use std::alloc::Global;
use std::marker::Brand;
use std::sync::Wait;
use std::sync::atomic::AtomicBool;
use std::thread::{Threads, join};

/// A recording's report and those of its watchers, with the feeds, the store, the views that were made of it, and the
/// watchers' sinks. There is no report only where memory lacked before anything was read or appended. It is unsealed only where
/// memory lacked to tell the watchers of the end.
#[derive(Drop)]
pub struct WatchedRecording<S, L: LiveStore, K> {
    pub report: Option<Report>,
    pub sealed: bool,
    pub watches: Vec<WatchReport>,
    pub feeds: Vec<S>,
    pub live: L,
    pub views: Vec<L::View>,
    pub watchers: Vec<K>,
}

// What watchers need before the first record: room for them and for what is left of them, and for the last entry.
#[derive(Drop)]
struct WatchRoom<X: Extent, J: Naming, V: LiveView<X>, K: Sink> {
    seats: Vec<Result<Watcher<X, J, V, K>, Unviewed<K>>>,
    left: AllLeft<V, K>,
    last: Vec<Entry<X>>,
}

fn watch_room<X: Extent, J: Naming, V: LiveView<X> + Drop, K: Sink + Drop>(
    alloc: Global,
    many: usize,
) -> Result<WatchRoom<X, J, V, K>, Memory>
    ensures seats { IfOk result (λ room. (room.seats.items ≡ []) × (many ≤ vec_capacity room.seats)) }
    ensures reports { IfOk result (λ room. (room.left.reports.items ≡ []) × (many ≤ vec_capacity room.left.reports)) }
    ensures views { IfOk result (λ room. (room.left.views.items ≡ []) × (many ≤ vec_capacity room.left.views)) }
    ensures sinks { IfOk result (λ room. (room.left.sinks.items ≡ []) × (many ≤ vec_capacity room.left.sinks)) }
    ensures last { IfOk result (λ room. (room.last.items ≡ []) × (1 ≤ vec_capacity room.last)) }
{
    let seats = match seat_room(alloc, many) {
        Ok(seats) => seats,
        Err(memory) => return Err(memory),
    };
    let left = match left_room(alloc, many) {
        Ok(left) => left,
        Err(memory) => return Err(memory),
    };
    match last_room(alloc) {
        Ok(last) => return Ok(WatchRoom { seats, left, last }),
        Err(memory) => return Err(memory),
    }
}

// A recording for which memory lacked before anything was read or appended, and before the store was asked for a view.
fn unread<S, L: LiveStore, K>(
    alloc: Global,
    feeds: Vec<S>,
    live: L,
    watchers: Vec<K>,
) -> WatchedRecording<S, L, K>
    ensures report { (result.report ≡ None) × (result.sealed ≡ true) }
    ensures same { (result.feeds ≡ feeds) × (result.live ≡ live) × (result.watchers ≡ watchers) }
    ensures none { (result.watches.items ≡ []) × (result.views.items ≡ []) }
{
    WatchedRecording {
        report: None,
        sealed: true,
        watches: Vec::new(alloc),
        feeds,
        live,
        views: Vec::new(alloc),
        watchers,
    }
}

// A recording without watchers.
fn alone<S, L: LiveStore, K>(
    alloc: Global,
    recording: Recording<S, L>,
    watchers: Vec<K>,
) -> WatchedRecording<S, L, K>
    ensures same { (result.report ≡ recording.report) × (result.feeds ≡ recording.feeds)
        × (result.live ≡ recording.live) × (result.watchers ≡ watchers) }
    ensures sealed { result.sealed ≡ true }
    ensures none { (result.watches.items ≡ []) × (result.views.items ≡ []) }
{
    WatchedRecording {
        report: recording.report,
        sealed: true,
        watches: Vec::new(alloc),
        feeds: recording.feeds,
        live: recording.live,
        views: Vec::new(alloc),
        watchers,
    }
}

// Whether the note has an end.
fn is_sealed<X: Extent, J: Naming>(note: &Note<X, J>) -> bool
    ensures { result ≡ is_some (end_of note.now) }
{
    note.front().end.is_some()
}

// Runs the watchers and, beside them, the lanes and the writer.
fn run_beside<
    't,
    J: Naming + Send + Sync,
    R: Threads + Wait + Sync,
    S: Source + Drop + Send,
    L: LiveStore<Extent: Send + Sync, View: Drop + Send> + Drop + Send,
    K: Sink + Drop + Send,
>(
    rt: &'t R,
    alloc: Global,
    options: &RecordOptions,
    ready: Ready<'t, R, S>,
    feeds: Vec<S>,
    live: L,
    directory: &mut Directory<L::Extent, J>,
    last: Vec<Entry<L::Extent>>,
    seats: Vec<Result<Watcher<L::Extent, J, L::View, K>, Unviewed<K>>>,
    listed: bool,
) -> (
    Vec<Result<Watcher<L::Extent, J, L::View, K>, Unviewed<K>>>,
    (Report, Vec<S>, L, Note<L::Extent, J>),
)
    requires chunked { IsChunked options.now.file.chunk }
    requires profile { length options.now.file.profile ≤ content_limit }
    requires few { vec_len feeds ≤ 64 }
    requires ready { AreReady ready.lanes.control.seat.me.0 ready.drain.seat.me.0 ready.spare }
    requires same_turn { ready.drain.seat.table_id ≡ ready.lanes.control.seat.table_id }
    requires lanes { (ready.lanes.lanes.items ≡ []) × (vec_len feeds ≤ vec_capacity ready.lanes.lanes) }
    requires feeds { (ready.lanes.feeds.items ≡ []) × (vec_len feeds ≤ vec_capacity ready.lanes.feeds) }
    requires reports { (ready.lanes.reports.items ≡ []) × (vec_len feeds ≤ vec_capacity ready.lanes.reports) }
    requires limit { ready.lanes.control.seat.me.0.pass.limit ≡ options.now.limit }
    requires lossless { ready.lanes.lossless ≡ options.now.lossless }
    requires empty { directory.old ≡ empty_directory }
    requires last { (last.items ≡ []) × (1 ≤ vec_capacity last) }
    ensures ran { InStep (SeatRuns (λ e. L.Extent.tells e)) seats.items result.0.items }
    ensures stays { AllZip S.stays feeds.items result.1.1.items }
    ensures recorded { RecordedOver (λ e. L.Extent.tells e) options.now
        (sides (map S.state feeds.items) (L.state live)) (sides (map S.state result.1.1.items) (L.state result.1.2))
        result.1.0 result.1.3 }
    ensures listed { Each (λ f. ListsMessages f listed) result.1.0.feeds.items }
{
    let tried = AtomicBool::new(false);
    join(
        rt,
        ||
            ensures { InStep (SeatRuns (λ e. L.Extent.tells e)) seats.items result.items }
        { run_seats(rt, alloc, seats, &tried) },
        || -> (Report, Vec<S>, L, Note<L::Extent, J>)
            requires chunked { IsChunked options.now.file.chunk }
            requires profile { length options.now.file.profile ≤ content_limit }
            requires few { vec_len feeds ≤ 64 }
            requires ready { AreReady ready.lanes.control.seat.me.0 ready.drain.seat.me.0 ready.spare }
            requires same_turn { ready.drain.seat.table_id ≡ ready.lanes.control.seat.table_id }
            requires lanes { (ready.lanes.lanes.items ≡ []) × (vec_len feeds ≤ vec_capacity ready.lanes.lanes) }
            requires feeds { (ready.lanes.feeds.items ≡ []) × (vec_len feeds ≤ vec_capacity ready.lanes.feeds) }
            requires reports { (ready.lanes.reports.items ≡ []) × (vec_len feeds ≤ vec_capacity ready.lanes.reports) }
            requires limit { ready.lanes.control.seat.me.0.pass.limit ≡ options.now.limit }
            requires lossless { ready.lanes.lossless ≡ options.now.lossless }
            requires empty { directory.now ≡ empty_directory }
            requires room { (last.items ≡ []) × (1 ≤ vec_capacity last) }
            ensures stays { AllZip S.stays feeds.items result.1.items }
            ensures recorded { RecordedOver (λ e. L.Extent.tells e) options.entry.now
                (sides (map S.state feeds.items) (L.state live)) (sides (map S.state result.1.items) (L.state result.2))
                result.0 result.3 }
            ensures listed { Each (λ f. ListsMessages f listed) result.0.feeds.items }
        {
            let Wrote {
                report,
                feeds,
                live,
                note,
            } = write_beside(
                rt, alloc, options, ready, feeds, live, directory, last, &tried, listed,
            );
            (report, feeds, live, note)
        },
    )
}

// Makes the watchers, runs them beside lanes and writer, and has them finish before the directory is closed.
fn record_beside<
    't,
    J: Naming + Send + Sync,
    R: Threads + Wait + Sync,
    S: Source + Drop + Send,
    L: LiveStore<Extent: Send + Sync, View: Drop + Send> + Drop + Send,
    K: Sink + Drop + Send,
>(
    rt: &'t R,
    alloc: Global,
    options: &RecordOptions,
    range: Range,
    ready: Ready<'t, R, S>,
    feeds: Vec<S>,
    live: L,
    directory: &mut Directory<L::Extent, J>,
    readers: Vec<Reader<L::Extent, J>>,
    watchers: Vec<K>,
    room: WatchRoom<L::Extent, J, L::View, K>,
    listed: bool,
) -> WatchedRecording<S, L, K>
    requires chunked { IsChunked options.now.file.chunk }
    requires profile { length options.now.file.profile ≤ content_limit }
    requires few { vec_len feeds ≤ 64 }
    requires ready { AreReady ready.lanes.control.seat.me.0 ready.drain.seat.me.0 ready.spare }
    requires same_turn { ready.drain.seat.table_id ≡ ready.lanes.control.seat.table_id }
    requires lanes { (ready.lanes.lanes.items ≡ []) × (vec_len feeds ≤ vec_capacity ready.lanes.lanes) }
    requires feeds { (ready.lanes.feeds.items ≡ []) × (vec_len feeds ≤ vec_capacity ready.lanes.feeds) }
    requires reports { (ready.lanes.reports.items ≡ []) × (vec_len feeds ≤ vec_capacity ready.lanes.reports) }
    requires limit { ready.lanes.control.seat.me.0.pass.limit ≡ options.now.limit }
    requires lossless { ready.lanes.lossless ≡ options.now.lossless }
    requires empty { directory.old ≡ empty_directory }
    requires readers { AreUnread readers.items (vec_len watchers) }
    requires some { watchers.items ≡ [] → ⊥ }
    requires seats { (room.seats.items ≡ []) × (vec_len watchers ≤ vec_capacity room.seats) }
    requires watches { (room.left.reports.items ≡ []) × (vec_len watchers ≤ vec_capacity room.left.reports) }
    requires views { (room.left.views.items ≡ []) × (vec_len watchers ≤ vec_capacity room.left.views) }
    requires sinks { (room.left.sinks.items ≡ []) × (vec_len watchers ≤ vec_capacity room.left.sinks) }
    requires last { (room.last.items ≡ []) × (1 ≤ vec_capacity room.last) }
    ensures report { result.report ≡ None → ⊥ }
    ensures stays { AllZip S.stays feeds.items result.feeds.items }
    ensures recorded { (r : _) → result.report ≡ Some r
        → RecordedWatched (λ e. L.Extent.tells e) options.now range (sides (map S.state feeds.items) (L.state live))
        (sides (map S.state result.feeds.items) (L.state result.live)) r
        (seen_watching (map K.state watchers.items) (map K.state result.watchers.items)
        (map (λ v. L.View.failures v) result.views.items) result.watches.items result.sealed) }
    ensures listed { AreMessagesListed result.report listed }
{
    let WatchRoom { seats, left, last } = room;
    let mut live = live;
    let seats = make_seats(alloc, &mut live, readers, watchers, range, seats);
    let (seats, (report, feeds, live, note)) = run_beside(
        rt, alloc, options, ready, feeds, live, directory, last, seats, listed,
    );
    let AllLeft {
        reports,
        views,
        sinks,
    } = finish_seats(rt, alloc, seats, &note, left);
    WatchedRecording {
        report: Some(report),
        sealed: is_sealed(&note),
        watches: reports,
        feeds,
        live,
        views,
        watchers: sinks,
    }
}

// Records beside a directory without blocks. All memory is had before the store is asked for the first view.
fn record_over<
    J: Naming + Send + Sync,
    R: Threads + Wait + Sync,
    S: Source + Drop + Send,
    L: LiveStore<Extent: Send + Sync, View: Drop + Send> + Drop + Send,
    K: Sink + Drop + Send,
>(
    rt: &R,
    alloc: Global,
    options: &RecordOptions,
    range: Range,
    feeds: Vec<S>,
    live: L,
    directory: &mut Directory<L::Extent, J>,
    readers: Vec<Reader<L::Extent, J>>,
    watchers: Vec<K>,
    listed: bool,
) -> WatchedRecording<S, L, K>
    requires some { 1 ≤ options.now.limit }
    requires small { options.now.limit ≤ buffer_limit }
    requires chunked { IsChunked options.now.file.chunk }
    requires profile { length options.now.file.profile ≤ content_limit }
    requires feeds { (1 ≤ vec_len feeds) × (vec_len feeds ≤ 64) }
    requires empty { directory.old ≡ empty_directory }
    requires readers { AreUnread readers.items (vec_len watchers) }
    requires watchers { watchers.items ≡ [] → ⊥ }
    ensures refused { result.report ≡ None
        → (result.feeds.items ≡ feeds.items) × (result.live ≡ live) × (result.watchers.items ≡ watchers.items)
        × (result.views.items ≡ []) × (result.watches.items ≡ []) }
    ensures stays { AllZip S.stays feeds.items result.feeds.items }
    ensures recorded { (r : _) → result.report ≡ Some r
        → RecordedWatched (λ e. L.Extent.tells e) options.now range (sides (map S.state feeds.items) (L.state live))
        (sides (map S.state result.feeds.items) (L.state result.live)) r
        (seen_watching (map K.state watchers.items) (map K.state result.watchers.items)
        (map (λ v. L.View.failures v) result.views.items) result.watches.items result.sealed) }
    ensures listed { AreMessagesListed result.report listed }
{
    let watched = match watch_room(alloc, watchers.len()) {
        Ok(room) => room,
        Err(Memory) => return unread(alloc, feeds, live, watchers),
    };
    let Room {
        mut turn,
        spare,
        feeds: back,
        reports,
    } = match make_room(alloc, options.limit, feeds.len()) {
        Ok(room) => room,
        Err(Memory) => return unread(alloc, feeds, live, watchers),
    };
    let ready = match make_ready(
        alloc,
        &mut turn,
        spare,
        back,
        reports,
        options.lossless,
        feeds.len(),
    ) {
        Ok(ready) => ready,
        Err(Memory) => return unread(alloc, feeds, live, watchers),
    };
    record_beside(
        rt, alloc, options, range, ready, feeds, live, directory, readers, watchers, watched,
        listed,
    )
}

// Records beside a directory of that name.
fn record_as<
    J: Naming + Send + Sync,
    R: Threads + Wait + Sync,
    S: Source + Drop + Send,
    L: LiveStore<Extent: Send + Sync, View: Drop + Send> + Drop + Send,
    K: Sink + Drop + Send,
>(
    rt: &R,
    alloc: Global,
    options: &RecordOptions,
    range: Range,
    opened: Opened<L::Extent>,
    feeds: Vec<S>,
    live: L,
    watchers: Vec<K>,
    listed: bool,
) -> WatchedRecording<S, L, K>
    requires book { opened.seen.book ≡ J.book }
    requires some { 1 ≤ options.now.limit }
    requires small { options.now.limit ≤ buffer_limit }
    requires chunked { IsChunked options.now.file.chunk }
    requires profile { length options.now.file.profile ≤ content_limit }
    requires feeds { (1 ≤ vec_len feeds) × (vec_len feeds ≤ 64) }
    requires watchers { (watchers.items ≡ [] → ⊥) × (vec_len watchers ≤ 16) }
    ensures refused { result.report ≡ None
        → (result.feeds.items ≡ feeds.items) × (result.live ≡ live) × (result.watchers.items ≡ watchers.items)
        × (result.views.items ≡ []) × (result.watches.items ≡ []) }
    ensures stays { AllZip S.stays feeds.items result.feeds.items }
    ensures recorded { (r : _) → result.report ≡ Some r
        → RecordedWatched (λ e. L.Extent.tells e) options.now range (sides (map S.state feeds.items) (L.state live))
        (sides (map S.state result.feeds.items) (L.state result.live)) r
        (seen_watching (map K.state watchers.items) (map K.state result.watchers.items)
        (map (λ v. L.View.failures v) result.views.items) result.watches.items result.sealed) }
    ensures listed { AreMessagesListed result.report listed }
{
    match open_directory::<L::Extent, J, R>(alloc, rt, opened, watchers.len() as u32) {
        Ok((directory, readers)) => {
            let mut directory = directory;
            let recording = record_over(
                rt,
                alloc,
                options,
                range,
                feeds,
                live,
                &mut directory,
                readers,
                watchers,
                listed,
            );
            directory.close(rt);
            return recording;
        }
        Err(Memory) => return unread(alloc, feeds, live, watchers),
    }
}

/// Records the feeds into the store, as `record` does, while watchers replay its blocks: each writes to its sink how many
/// messages of the range the file has so far, and at the end their lines. The watchers' part of the recording is theirs: a
/// watcher that fails ends alone, and what is recorded and told of it is as without watchers. A file without chunks has no
/// watchers. The reports, the sinks and the feeds come back in their order; so do the views, which are of those watchers that
/// got one.
pub fn record_watched<
    R: Threads + Wait + Sync,
    S: Source + Drop + Send,
    L: LiveStore<Extent: Send + Sync, View: Drop + Send> + Drop + Send,
    K: Sink + Drop + Send,
>(
    rt: &R,
    alloc: Global,
    options: &RecordOptions,
    range: Range,
    feeds: Vec<S>,
    live: L,
    watchers: Vec<K>,
    listed: bool,
) -> WatchedRecording<S, L, K>
    requires some { 1 ≤ options.now.limit }
    requires small { options.now.limit ≤ buffer_limit }
    requires size { ChunkSizeFits options.now.file.chunk }
    requires profile { length options.now.file.profile ≤ content_limit }
    requires feeds { (1 ≤ vec_len feeds) × (vec_len feeds ≤ 64) }
    requires watchers { vec_len watchers ≤ 16 }
    requires plain { options.now.file.chunk ≡ None → watchers.items ≡ [] }
    ensures refused { result.report ≡ None
        → (result.feeds.items ≡ feeds.items) × (result.live ≡ live) × (result.watchers.items ≡ watchers.items)
        × (result.views.items ≡ []) × (result.watches.items ≡ []) }
    ensures stays { AllZip S.stays feeds.items result.feeds.items }
    ensures recorded { (r : _) → result.report ≡ Some r
        → RecordedWatched (λ e. L.Extent.tells e) options.now range (sides (map S.state feeds.items) (L.state live))
        (sides (map S.state result.feeds.items) (L.state result.live)) r
        (seen_watching (map K.state watchers.items) (map K.state result.watchers.items)
        (map (λ v. L.View.failures v) result.views.items) result.watches.items result.sealed) }
    ensures listed { AreMessagesListed result.report listed }
{
    if watchers.is_empty() {
        return alone(
            alloc,
            record(rt, alloc, options, feeds, live, listed),
            watchers,
        );
    }
    record_as::<Brand, R, S, L, K>(
        rt,
        alloc,
        options,
        range,
        Opened::new(),
        feeds,
        live,
        watchers,
        listed,
    )
}
