//! Recording feeds under their names into a file under another, while watchers write files of their own.
ghost use Rattle.std.specs.Prelude.{◌≡◌, ◌≤◌, ◌<◌, ◌^◌, ◌||◌, ℕ, [], length, map, vec_len, vec_capacity, Some, IfOk, true, false};
ghost use Rattle.mcap_io.specs.Outside.{WorldState};
ghost use Rattle.mcap_wire.specs.Layout.{content_limit};
ghost use Rattle.mcap_wire.specs.RecordingLimits.{buffer_limit};
ghost use Rattle.chunk_writer.specs.Limits.{ChunkSizeFits};
ghost use Rattle.recorder.specs.Lanes.{AreMessagesListed};
ghost use Rattle.command_words.specs.Commands.{NamesDiffer, watcher_limit};
ghost use Rattle.command_record.specs.RecordSteps.{AreFew};
ghost use Rattle.command_record.specs.Sources.{FeedsOpened};
ghost use Rattle.command_record.specs.SinkSteps.{CountsFit, OutOpened, SinksOpened};
ghost use Rattle.command_record.specs.Watched.{requested, is_watch_fault, with_ends};
ghost use Rattle.command_record.specs.WatchedSteps.{or_at, NamesWatched};

use crate::sinks::{keep_sinks, keep_views, open_sinks};
use command_base::{
    AsSources, Room, add_refused, has_failed, is_failed, keep_inputs, make_room, open_inputs,
};
use live_recording::laws::watch_files_are_told;
use live_recording::{WatchedRecording, record_watched};
use live_watcher::{WatchEnd, WatchReport};
use mcap_io::{LiveStore, World};
use mcap_model::{Range, RecordOptions};
use mcap_wire::{Memory, Text};
use recorder::Report;
use std::alloc::Global;
use std::sync::Wait;
use std::thread::Threads;

/// What a recording with watchers came to: its report and those of its watchers, whether these were told of the end, and which
/// names couldn't be opened or kept. Of the feeds and of the watch files these are the answers for those that were reached, in
/// their order; a watch file failed too where its watcher ended at a fault.
#[derive(Drop)]
pub struct WatchedOutcome {
    pub report: Option<Report>,
    pub sealed: bool,
    pub watches: Vec<WatchReport>,
    pub feeds_failed: Vec<bool>,
    pub out_failed: bool,
    pub watches_failed: Vec<bool>,
}

// Room for the sources of feeds and the sinks of watchers, and for which of them failed.
#[derive(Drop)]
struct Rooms<S, K> {
    sources: Vec<S>,
    feeds_failed: Vec<bool>,
    sinks: Vec<K>,
    watches_failed: Vec<bool>,
}

// Makes room for so many feeds and watchers.
fn make_rooms<S: Drop, K: Drop>(
    alloc: Global,
    feeds: usize,
    watches: usize,
) -> Result<Rooms<S, K>, Memory>
    ensures sources { IfOk result (λ rooms. (rooms.sources.items ≡ []) × (feeds ≤ vec_capacity rooms.sources)) }
    ensures feeds_failed { IfOk result (λ rooms. (rooms.feeds_failed.items ≡ [])
        × (feeds ≤ vec_capacity rooms.feeds_failed)) }
    ensures sinks { IfOk result (λ rooms. (rooms.sinks.items ≡ []) × (watches ≤ vec_capacity rooms.sinks)) }
    ensures watches_failed { IfOk result (λ rooms. (rooms.watches_failed.items ≡ [])
        × (watches ≤ vec_capacity rooms.watches_failed)) }
{
    let Room {
        objects: sources,
        failed: feeds_failed,
    } = match make_room(alloc, feeds) {
        Ok(room) => room,
        Err(memory) => return Err(memory),
    };
    let Room {
        objects: sinks,
        failed: watches_failed,
    } = match make_room(alloc, watches) {
        Ok(room) => room,
        Err(memory) => return Err(memory),
    };
    return Ok(Rooms {
        sources,
        feeds_failed,
        sinks,
        watches_failed,
    });
}

fn unwatched(
    alloc: Global,
    feeds_failed: Vec<bool>,
    out_failed: bool,
    watches_failed: Vec<bool>,
) -> WatchedOutcome
    ensures report { result.report ≡ None }
    ensures watches { result.watches.items ≡ [] }
    ensures failed { (result.feeds_failed ≡ feeds_failed) × (result.out_failed ≡ out_failed)
        × (result.watches_failed ≡ watches_failed) }
{
    WatchedOutcome {
        report: None,
        sealed: true,
        watches: Vec::new(alloc),
        feeds_failed,
        out_failed,
        watches_failed,
    }
}

// Whether the watcher ended at a fault.
fn ended_at_fault(report: &WatchReport) -> bool
    ensures { result ≡ is_watch_fault report.now.end }
{
    match report.end {
        WatchEnd::Fault { .. } => true,
        WatchEnd::Whole | WatchEnd::Unsealed | WatchEnd::Flaw { .. } | WatchEnd::Memory => false,
    }
}

// Whether a watch file failed, or its watcher ended at a fault.
fn is_watch_failed(failed: bool, report: &WatchReport) -> bool
    ensures { result ≡ (failed || is_watch_fault report.now.end) }
{
    failed || ended_at_fault(report)
}

// Adds to the answer at the index that the watcher ended at a fault.
fn add_end(failed: &mut [bool], index: usize, report: &WatchReport)
    ensures { failed.new ≡ or_at failed.old index (is_watch_fault report.now.end) }
{
    if index >= failed.len() {
        return;
    }
    failed[index] = is_watch_failed(failed[index], report);
}

// Adds that a watch file failed where its watcher ended at a fault.
fn add_ends(failed: &mut Vec<bool>, reports: &[WatchReport])
    ensures { failed.new.items ≡ with_ends failed.old.items reports.now }
{
    'reports: for (i, report) in reports.iter().enumerate() {
        add_end(failed, i, report);
    }
}

// Records the feeds into the output beside the watchers, and keeps all.
fn record_beside<R: Threads + Wait + Sync, W: World>(
    rt: &R,
    alloc: Global,
    options: &RecordOptions,
    range: Range,
    out: &str,
    watch_names: &[Text],
    feeds: &[Text],
    rooms: Rooms<W::Source, W::Sink>,
    live: W::Live,
    world: &mut W,
    listed: bool,
) -> WatchedOutcome
    requires some { 1 ≤ options.now.limit }
    requires small { options.now.limit ≤ buffer_limit }
    requires size { ChunkSizeFits options.now.file.chunk }
    requires plain { options.now.file.chunk ≡ None → watch_names.now ≡ [] }
    requires profile { length options.now.file.profile ≤ content_limit }
    requires few { AreFew feeds.now }
    requires watched { length watch_names.now ≤ watcher_limit }
    requires apart { NamesDiffer out.now watch_names.now }
    requires many { vec_len rooms.sources ≡ length feeds.now }
    requires none { rooms.feeds_failed.items ≡ [] }
    requires room { length feeds.now ≤ vec_capacity rooms.feeds_failed }
    requires many_sinks { vec_len rooms.sinks ≡ length watch_names.now }
    requires no_sinks { rooms.watches_failed.items ≡ [] }
    requires sink_room { length watch_names.now ≤ vec_capacity rooms.watches_failed }
    ensures recorded { (before between : WorldState)
        → OutOpened before between out.now feeds.now (map W.Source.state rooms.sources.items) (W.Live.state live)
        → SinksOpened between (W.state world.old) watch_names.now (map W.Sink.state rooms.sinks.items)
        → NamesWatched (requested options.now range out.now watch_names.now feeds.now) before (W.state world.new)
        result }
    ensures listed { AreMessagesListed result.report listed }
{
    let Rooms {
        sources,
        mut feeds_failed,
        sinks,
        mut watches_failed,
    } = rooms;
    let WatchedRecording {
        report,
        sealed,
        watches,
        feeds: sources,
        live,
        views,
        watchers: sinks,
    } = record_watched(rt, alloc, options, range, sources, live, sinks, listed);
    watch_files_are_told::<<W::Live as LiveStore>::Extent>();
    keep_views(world, views);
    keep_sinks(world, watch_names, sinks, &mut watches_failed);
    add_ends(&mut watches_failed, &watches);
    let live_faults = live.faults();
    keep_inputs(&AsSources, world, feeds, sources, &mut feeds_failed);
    let live_kept = world.keep_live(out, live);
    WatchedOutcome {
        report,
        sealed,
        watches,
        feeds_failed,
        out_failed: has_failed(live_faults, live_kept),
        watches_failed,
    }
}

// Opens the watch files, records the feeds into the output beside their watchers, and keeps all.
fn open_watches<R: Threads + Wait + Sync, W: World>(
    rt: &R,
    alloc: Global,
    options: &RecordOptions,
    range: Range,
    out: &str,
    watch_names: &[Text],
    feeds: &[Text],
    rooms: Rooms<W::Source, W::Sink>,
    live: W::Live,
    world: &mut W,
    listed: bool,
) -> WatchedOutcome
    requires some { 1 ≤ options.now.limit }
    requires small { options.now.limit ≤ buffer_limit }
    requires size { ChunkSizeFits options.now.file.chunk }
    requires plain { options.now.file.chunk ≡ None → watch_names.now ≡ [] }
    requires profile { length options.now.file.profile ≤ content_limit }
    requires few { AreFew feeds.now }
    requires watched { length watch_names.now ≤ watcher_limit }
    requires apart { NamesDiffer out.now watch_names.now }
    requires many { vec_len rooms.sources ≡ length feeds.now }
    requires none { rooms.feeds_failed.items ≡ [] }
    requires room { length feeds.now ≤ vec_capacity rooms.feeds_failed }
    requires no_sinks { (rooms.sinks.items ≡ []) × (rooms.watches_failed.items ≡ []) }
    requires sinks { length watch_names.now ≤ vec_capacity rooms.sinks }
    requires sink_room { length watch_names.now ≤ vec_capacity rooms.watches_failed }
    ensures recorded { (before : WorldState)
        → OutOpened before (W.state world.old) out.now feeds.now (map W.Source.state rooms.sources.items)
        (W.Live.state live)
        → NamesWatched (requested options.now range out.now watch_names.now feeds.now) before (W.state world.new)
        result }
    ensures listed { AreMessagesListed result.report listed }
{
    let mut rooms = rooms;
    match open_sinks(world, watch_names, &mut rooms.sinks) {
        Ok(()) => {
            return record_beside(
                rt,
                alloc,
                options,
                range,
                out,
                watch_names,
                feeds,
                rooms,
                live,
                world,
                listed,
            );
        }
        Err(why) => {
            let Rooms {
                sources,
                mut feeds_failed,
                sinks,
                mut watches_failed,
            } = rooms;
            keep_sinks(
                world,
                &watch_names[..sinks.len()],
                sinks,
                &mut watches_failed,
            );
            add_refused(&mut watches_failed, is_failed(why));
            let live_faults = live.faults();
            keep_inputs(&AsSources, world, feeds, sources, &mut feeds_failed);
            let live_kept = world.keep_live(out, live);
            let out_failed = has_failed(live_faults, live_kept);
            return unwatched(alloc, feeds_failed, out_failed, watches_failed);
        }
    }
}

// Opens the output and the watch files, records the feeds beside their watchers, and keeps all.
fn open_output<R: Threads + Wait + Sync, W: World>(
    rt: &R,
    alloc: Global,
    options: &RecordOptions,
    range: Range,
    out: &str,
    watch_names: &[Text],
    feeds: &[Text],
    rooms: Rooms<W::Source, W::Sink>,
    world: &mut W,
    listed: bool,
) -> WatchedOutcome
    requires some { 1 ≤ options.now.limit }
    requires small { options.now.limit ≤ buffer_limit }
    requires size { ChunkSizeFits options.now.file.chunk }
    requires plain { options.now.file.chunk ≡ None → watch_names.now ≡ [] }
    requires profile { length options.now.file.profile ≤ content_limit }
    requires few { AreFew feeds.now }
    requires watched { length watch_names.now ≤ watcher_limit }
    requires apart { NamesDiffer out.now watch_names.now }
    requires many { vec_len rooms.sources ≡ length feeds.now }
    requires none { rooms.feeds_failed.items ≡ [] }
    requires room { length feeds.now ≤ vec_capacity rooms.feeds_failed }
    requires no_sinks { (rooms.sinks.items ≡ []) × (rooms.watches_failed.items ≡ []) }
    requires sinks { length watch_names.now ≤ vec_capacity rooms.sinks }
    requires sink_room { length watch_names.now ≤ vec_capacity rooms.watches_failed }
    ensures recorded { (before : WorldState)
        → FeedsOpened before (W.state world.old) feeds.now (map W.Source.state rooms.sources.items) → CountsFit before
        → NamesWatched (requested options.now range out.now watch_names.now feeds.now) before (W.state world.new)
        result }
    ensures listed { AreMessagesListed result.report listed }
{
    match world.live(out) {
        Ok(live) => {
            return open_watches(
                rt,
                alloc,
                options,
                range,
                out,
                watch_names,
                feeds,
                rooms,
                live,
                world,
                listed,
            );
        }
        Err(why) => {
            let Rooms {
                sources,
                mut feeds_failed,
                ..
            } = rooms;
            keep_inputs(&AsSources, world, feeds, sources, &mut feeds_failed);
            return unwatched(alloc, feeds_failed, is_failed(why), Vec::new(alloc));
        }
    }
}

/// Opens all names, records the feeds into the output while watchers write the watch files, and keeps all: first the sinks, then
/// the feeds, and last the output. Where an opening is refused, what was opened before is kept, and nothing else is done.
pub(crate) fn record_watched_names<R: Threads + Wait + Sync, W: World>(
    rt: &R,
    alloc: Global,
    options: &RecordOptions,
    range: Range,
    out: &str,
    watch_names: &[Text],
    feeds: &[Text],
    world: &mut W,
    listed: bool,
) -> WatchedOutcome
    requires some { 1 ≤ options.now.limit }
    requires small { options.now.limit ≤ buffer_limit }
    requires size { ChunkSizeFits options.now.file.chunk }
    requires plain { options.now.file.chunk ≡ None → watch_names.now ≡ [] }
    requires profile { length options.now.file.profile ≤ content_limit }
    requires few { AreFew feeds.now }
    requires watched { length watch_names.now ≤ watcher_limit }
    requires apart { NamesDiffer out.now watch_names.now }
    requires world_fits { (W.state world.old).faults < 2 ^ 64 }
    requires inputs_fit { (W.state world.old).input_faults < 2 ^ 64 }
    requires outputs_fit { (W.state world.old).output_faults < 2 ^ 64 }
    requires watches_fit { (W.state world.old).watch_faults < 2 ^ 64 }
    ensures recorded { NamesWatched (requested options.now range out.now watch_names.now feeds.now) (W.state world.old)
        (W.state world.new) result }
    ensures listed { AreMessagesListed result.report listed }
{
    let mut rooms = match make_rooms(alloc, feeds.len(), watch_names.len()) {
        Ok(rooms) => rooms,
        Err(_) => return unwatched(alloc, Vec::new(alloc), false, Vec::new(alloc)),
    };
    match open_inputs(&AsSources, world, feeds, &mut rooms.sources) {
        Ok(()) => {
            return open_output(
                rt,
                alloc,
                options,
                range,
                out,
                watch_names,
                feeds,
                rooms,
                world,
                listed,
            );
        }
        Err(why) => {
            let Rooms {
                sources,
                mut feeds_failed,
                ..
            } = rooms;
            keep_inputs(
                &AsSources,
                world,
                &feeds[..sources.len()],
                sources,
                &mut feeds_failed,
            );
            add_refused(&mut feeds_failed, is_failed(why));
            return unwatched(alloc, feeds_failed, false, Vec::new(alloc));
        }
    }
}
