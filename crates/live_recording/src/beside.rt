//! The lanes and the writer of a recording, beside those who read its blocks.
ghost use Rattle.std.specs.Prelude.{◌≡◌, ◌≤◌, [], length, map, vec_len, vec_capacity};
ghost use Rattle.std.specs.List.{AllZip};
ghost use Rattle.mcap_wire.specs.Layout.{content_limit};
ghost use Rattle.mcap_io.specs.Outside.{LiveState};
ghost use Rattle.mcap_model.specs.Places.{Each};
ghost use Rattle.mcap_model.specs.declared.ends.End.TheVariants as ends;
ghost use Rattle.record_core.specs.Desk.{IsCause};
ghost use Rattle.live_directory.specs.Writing.{empty_directory};
ghost use Rattle.chunk_writer.specs.declared.phase.Phase.TheVariants as phases;
ghost use Rattle.chunk_writer.specs.Scribes.{WritesHistory, store_of, phase_of};
ghost use Rattle.feed_lane.specs.Steps.{ListsMessages};
ghost use Rattle.recorder.specs.Lanes.{AreReady};
ghost use Rattle.recorder.specs.Onto.{IsReported};
ghost use Rattle.recorder.specs.Recorded.{sides};
ghost use Rattle.live_recording.specs.WatchedSteps.{RecordedBeside, RecordedOver};
ghost use Rattle.live_recording.specs.Publishing.{IsChunked, IsNewPublishing, TriesSeal, publishing};

use crate::publishing::{PublishingTape, try_seal};
use chunk_writer::Scribe;
use live_directory::{Directory, Naming, Note};
use live_entry::Entry;
use mcap_io::{Extent, LiveStore, Source};
use mcap_model::{End, RecordOptions, Stop};
use recorder::{Ran, Ready, Report, Unwritten};
use std::alloc::Global;
use std::sync::Wait;
use std::sync::atomic::AtomicBool;
use std::sync::atomic::Ordering::SeqCst;
use std::thread::Threads;

/// A report, with the feeds and the store; and the note of what the directory showed in the end, with the end of its seal, if it
/// was sealed.
#[derive(Drop)]
pub(crate) struct Wrote<S, L, X: Extent, J: Naming> {
    pub report: Report,
    pub feeds: Vec<S>,
    pub live: L,
    pub note: Note<X, J>,
}

// The same with the tape, whose directory is named here.
#[derive(Drop)]
struct Sealed<'d, S, L: LiveStore, J: Naming, R: Wait> {
    report: Report,
    feeds: Vec<S>,
    tape: PublishingTape<'d, L, J, R>,
    note: Note<L::Extent, J>,
}

// The same where the file couldn't be begun.
#[derive(Drop)]
struct Unopened<S, X: Extent, J: Naming> {
    report: Report,
    feeds: Vec<S>,
    note: Note<X, J>,
}

// Records the feeds onto a new tape of a file with these options, and seals its directory.
fn run_and_seal<
    't,
    'd,
    J: Naming + Send + Sync,
    R: Threads + Wait + Sync,
    S: Source + Drop + Send,
    L: LiveStore<Extent: Send + Sync, View: Send> + Drop + Send,
>(
    rt: &'t R,
    alloc: Global,
    options: &RecordOptions,
    ready: Ready<'t, R, S>,
    feeds: Vec<S>,
    tape: PublishingTape<'d, L, J, R>,
    listed: bool,
) -> Sealed<'d, S, L, J, R>
    requires profile { length options.now.file.profile ≤ content_limit }
    requires few { vec_len feeds ≤ 64 }
    requires ready { AreReady ready.lanes.control.seat.me.0 ready.drain.seat.me.0 ready.spare }
    requires same_turn { ready.drain.seat.table_id ≡ ready.lanes.control.seat.table_id }
    requires lanes { (ready.lanes.lanes.items ≡ []) × (vec_len feeds ≤ vec_capacity ready.lanes.lanes) }
    requires feeds { (ready.lanes.feeds.items ≡ []) × (vec_len feeds ≤ vec_capacity ready.lanes.feeds) }
    requires reports { (ready.lanes.reports.items ≡ []) × (vec_len feeds ≤ vec_capacity ready.lanes.reports) }
    requires limit { ready.lanes.control.seat.me.0.pass.limit ≡ options.now.limit }
    requires lossless { ready.lanes.lossless ≡ options.now.lossless }
    requires going { phase_of tape.scribe ≡ phases.Going }
    requires empty { tape.directory.now ≡ empty_directory }
    requires unused { IsNewPublishing L.state (publishing tape.scribe tape.directory.now tape.short tape.lost) }
    requires room { (tape.room.items ≡ []) × (1 ≤ vec_capacity tape.room) }
    ensures stays { AllZip S.stays feeds.items result.feeds.items }
    ensures recorded { (opened : LiveState)
        → WritesHistory L.state options.now.file [] opened [] tape.entry.scribe
        → (L.state (store_of tape.entry.scribe)).faults ≡ opened.faults
        → RecordedBeside (λ e. L.Extent.tells e) options.now (sides (map S.state feeds.items) opened)
        (sides (map S.state result.feeds.items) (L.state (store_of result.tape.scribe))) result.report result.note
        result.tape.directory.now }
    ensures listed { Each (λ f. ListsMessages f listed) result.report.feeds.items }
{
    let Ran {
        report,
        feeds,
        mut tape,
    } = ready.run_onto(rt, alloc, feeds, tape, listed);
    let note = tape.seal(report.writer.end);
    Sealed {
        report,
        feeds,
        tape,
        note,
    }
}

// Reads the feeds where the file couldn't be begun, for that reason, and seals the directory.
fn run_unopened<'t, X: Extent, J: Naming, R: Threads + Wait + Sync, S: Source + Drop + Send>(
    rt: &'t R,
    alloc: Global,
    ready: Ready<'t, R, S>,
    feeds: Vec<S>,
    directory: &mut Directory<X, J>,
    why: Stop,
    listed: bool,
) -> Unopened<S, X, J>
    requires few { vec_len feeds ≤ 64 }
    requires ready { AreReady ready.lanes.control.seat.me.0 ready.drain.seat.me.0 ready.spare }
    requires same_turn { ready.drain.seat.table_id ≡ ready.lanes.control.seat.table_id }
    requires lanes { (ready.lanes.lanes.items ≡ []) × (vec_len feeds ≤ vec_capacity ready.lanes.lanes) }
    requires feeds { (ready.lanes.feeds.items ≡ []) × (vec_len feeds ≤ vec_capacity ready.lanes.feeds) }
    requires reports { (ready.lanes.reports.items ≡ []) × (vec_len feeds ≤ vec_capacity ready.lanes.reports) }
    requires cause { IsCause why }
    requires empty { directory.old ≡ empty_directory }
    ensures stays { AllZip S.stays feeds.items result.feeds.items }
    ensures reported { IsReported ready.entry.lanes.control.seat.me.0.pass.limit ready.entry.lanes.lossless
        (map S.state feeds.items) (map S.state result.feeds.items) [] result.report }
    ensures writer { result.report.writer ≡ record { records = 0; blocks = 0; bytes = 0; end = ends.Stopped why } }
    ensures seals { TriesSeal directory.old directory.new (ends.Stopped why) result.note }
    ensures listed { Each (λ f. ListsMessages f listed) result.report.feeds.items }
{
    let Unwritten { report, feeds } = ready.run_unopened(rt, alloc, feeds, why, listed);
    let note = try_seal(rt, directory, End::Stopped { stop: why });
    Unopened {
        report,
        feeds,
        note,
    }
}

/// Records the feeds into the store and tells the directory of the blocks, seals it, and raises the flag.
pub(crate) fn write_beside<
    't,
    J: Naming + Send + Sync,
    R: Threads + Wait + Sync,
    S: Source + Drop + Send,
    L: LiveStore<Extent: Send + Sync, View: Send> + Drop + Send,
>(
    rt: &'t R,
    alloc: Global,
    options: &RecordOptions,
    ready: Ready<'t, R, S>,
    feeds: Vec<S>,
    live: L,
    directory: &mut Directory<L::Extent, J>,
    room: Vec<Entry<L::Extent>>,
    tried: &AtomicBool,
    listed: bool,
) -> Wrote<S, L, L::Extent, J>
    requires chunked { IsChunked options.now.file.chunk }
    requires profile { length options.now.file.profile ≤ content_limit }
    requires few { vec_len feeds ≤ 64 }
    requires ready { AreReady ready.lanes.control.seat.me.0 ready.drain.seat.me.0 ready.spare }
    requires same_turn { ready.drain.seat.table_id ≡ ready.lanes.control.seat.table_id }
    requires lanes { (ready.lanes.lanes.items ≡ []) × (vec_len feeds ≤ vec_capacity ready.lanes.lanes) }
    requires feeds { (ready.lanes.feeds.items ≡ []) × (vec_len feeds ≤ vec_capacity ready.lanes.feeds) }
    requires reports { (ready.lanes.reports.items ≡ []) × (vec_len feeds ≤ vec_capacity ready.lanes.reports) }
    requires limit { ready.lanes.control.seat.me.0.pass.limit ≡ options.now.limit }
    requires lossless { ready.lanes.lossless ≡ options.now.lossless }
    requires empty { directory.old ≡ empty_directory }
    requires room { (room.items ≡ []) × (1 ≤ vec_capacity room) }
    ensures stays { AllZip S.stays feeds.items result.feeds.items }
    ensures recorded { RecordedOver (λ e. L.Extent.tells e) options.now
        (sides (map S.state feeds.items) (L.state live)) (sides (map S.state result.feeds.items) (L.state result.live))
        result.report result.note }
    ensures listed { Each (λ f. ListsMessages f listed) result.report.feeds.items }
{
    match Scribe::open(alloc, live, &options.file) {
        Ok(scribe) => {
            let tape = PublishingTape {
                scribe,
                directory,
                rt,
                alloc,
                room,
                short: false,
                lost: false,
            };
            let Sealed {
                report,
                feeds,
                tape,
                note,
            } = run_and_seal(rt, alloc, options, ready, feeds, tape, listed);
            let live = tape.into_store();
            tried.store(true, SeqCst);
            return Wrote {
                report,
                feeds,
                live,
                note,
            };
        }
        Err((live, why)) => {
            let Unopened {
                report,
                feeds,
                note,
            } = run_unopened(rt, alloc, ready, feeds, directory, why, listed);
            tried.store(true, SeqCst);
            return Wrote {
                report,
                feeds,
                live,
                note,
            };
        }
    }
}
