//! Recording feeds onto a tape, and into one store.
ghost use Rattle.std.specs.Prelude.{◌≡◌, ◌≤◌, List, [], length, map, vec_len, vec_capacity, None, Some, IfOk};
ghost use Rattle.std.specs.List.{AllZip};
ghost use Rattle.mcap_wire.specs.Layout.{content_limit};
ghost use Rattle.mcap_wire.specs.RecordingLimits.{buffer_limit};
ghost use Rattle.rec_data.specs.declared.owned.Rec.{Rec};
ghost use Rattle.mcap_model.specs.declared.ends.Stop.{Stop as Why};
ghost use Rattle.mcap_model.specs.declared.ends.End.{End as Last};
ghost use Rattle.mcap_model.specs.declared.ends.End.TheVariants.{Stopped};
ghost use Rattle.mcap_model.specs.Places.{Each};
ghost use Rattle.chunk_writer.specs.Limits.{ChunkSizeFits};
ghost use Rattle.chunk_writer.specs.declared.phase.Phase.TheVariants as phases;
ghost use Rattle.record_core.specs.Desk.{IsCause};
ghost use Rattle.feed_lane.specs.PassCalls.{no_calls};
ghost use Rattle.feed_lane.specs.Steps.{ListsMessages};
ghost use Rattle.buffer_swap.specs.Calls.{first_limit, IsNewTurn, DrainIsOver};
ghost use Rattle.recorder.specs.Writing.{empty_buffer, seen_tape};
ghost use Rattle.recorder.specs.Lanes.{IsFreshControl, AreReady, LanesRan, AreMessagesListed};
ghost use Rattle.recorder.specs.Onto.{TapeIsWritten, IsAll, IsReported, tape_sides, RecordedOnto};
ghost use Rattle.recorder.specs.Recorded.{sides, Recorded};

use crate::lanes::{Lane, Lanes};
use crate::report::Report;
use crate::unopened::{Unwritten, run_unwritten, stop_unread};
use crate::writer::{Writer, Written};
use buffer_swap::laws::places_are_known;
use buffer_swap::{Drain, Turn, meet};
use chunk_writer::{Scribe, Tape};
use feed_lane::FeedReport;
use mcap_io::{LiveStore, Source};
use mcap_model::{RecordOptions, Stop};
use mcap_wire::Memory;
use record_cache::Cache;
use record_core::Desk;
use std::alloc::Global;
use std::sync::Wait;
use std::thread::{Threads, join};

/// A recording's report, with the feeds and the tape that it was handed. There is no report only where memory lacked before
/// anything was read or taken.
#[derive(Drop)]
pub struct Onto<S, T> {
    pub report: Option<Report>,
    pub feeds: Vec<S>,
    pub tape: T,
}

/// A recording's report, with the feeds and the store that it was handed. There is no report only where memory lacked before
/// anything was read or appended.
#[derive(Drop)]
pub struct Recording<S, L> {
    pub report: Option<Report>,
    pub feeds: Vec<S>,
    pub live: L,
}

/// What a recording needs before its first record: the turn, the second buffer, and room for the feeds and for the reports.
#[derive(Drop)]
pub struct Room<S> {
    pub turn: Turn,
    pub spare: Cache,
    pub feeds: Vec<S>,
    pub reports: Vec<FeedReport>,
}

/// A recording that has all the room that it will need, and has read nothing.
#[derive(Drop)]
pub struct Ready<'t, R: Wait, S> {
    lanes: Lanes<'t, R, S>,
    drain: Drain<'t>,
    spare: Cache,
}

/// A report, with the feeds and the tape.
#[derive(Drop)]
pub struct Ran<S, T> {
    pub report: Report,
    pub feeds: Vec<S>,
    pub tape: T,
}

/// Makes the room for a recording of so many feeds, over a buffer with that limit.
pub fn make_room<S: Drop>(alloc: Global, limit: u64, many: usize) -> Result<Room<S>, Memory>
    requires some { 1 ≤ limit }
    requires small { limit ≤ buffer_limit }
    ensures turn { IfOk result (λ room. IsNewTurn room.turn.board.table.shared.table_id room.turn.first
        × (first_limit room.turn.first ≡ limit)) }
    ensures spare { IfOk result (λ room. room.spare ≡ empty_buffer limit) }
    ensures feeds { IfOk result (λ room. (room.feeds.items ≡ []) × (many ≤ vec_capacity room.feeds)) }
    ensures reports { IfOk result (λ room. (room.reports.items ≡ []) × (many ≤ vec_capacity room.reports)) }
{
    let mut feeds = Vec::new(alloc);
    let mut reports = Vec::new(alloc);
    match (feeds.reserve(many), reports.reserve(many)) {
        (Ok(()), Ok(())) => {}
        _ => return Err(Memory),
    }
    let desk = match Desk::open(alloc, limit) {
        Ok(desk) => desk,
        Err(memory) => return Err(memory),
    };
    let spare = match Cache::new(alloc, limit) {
        Ok(spare) => spare,
        Err(memory) => return Err(memory),
    };
    match Turn::open(alloc, desk) {
        Ok(turn) => {
            return Ok(Room {
                turn,
                spare,
                feeds,
                reports,
            });
        }
        Err(memory) => return Err(memory),
    }
}

// Makes room for so many lanes.
fn lane_room<'t, R: Wait, S: Drop>(
    alloc: Global,
    many: usize,
) -> Result<Vec<Lane<'t, R, S>>, Memory>
    ensures { IfOk result (λ lanes. (lanes.items ≡ []) × (many ≤ vec_capacity lanes)) }
{
    let mut lanes = Vec::new(alloc);
    match lanes.reserve(many) {
        Ok(()) => return Ok(lanes),
        Err(_) => return Err(Memory),
    }
}

/// Makes a recording ready that is to have so many feeds. Its lanes wait for room, or don't.
pub fn make_ready<'t, R: Wait, S: Drop>(
    alloc: Global,
    turn: &'t mut Turn,
    spare: Cache,
    feeds: Vec<S>,
    reports: Vec<FeedReport>,
    lossless: bool,
    many: usize,
) -> Result<Ready<'t, R, S>, Memory>
    requires new { IsNewTurn turn.old.board.table.shared.table_id turn.old.first }
    requires spare { spare ≡ empty_buffer (first_limit turn.old.first) }
    requires feeds { (feeds.items ≡ []) × (many ≤ vec_capacity feeds) }
    requires reports { (reports.items ≡ []) × (many ≤ vec_capacity reports) }
    ensures ready { IfOk result (λ it. AreReady it.lanes.control.seat.me.0 it.drain.seat.me.0 it.spare) }
    ensures same_turn { IfOk result (λ it. it.drain.seat.table_id ≡ it.lanes.control.seat.table_id) }
    ensures lanes { IfOk result (λ it. (it.lanes.lanes.items ≡ []) × (many ≤ vec_capacity it.lanes.lanes)) }
    ensures feeds { IfOk result (λ it. (it.lanes.feeds.items ≡ []) × (many ≤ vec_capacity it.lanes.feeds)) }
    ensures reports { IfOk result (λ it. (it.lanes.reports.items ≡ []) × (many ≤ vec_capacity it.lanes.reports)) }
    ensures limit { IfOk result (λ it. it.lanes.control.seat.me.0.pass.limit ≡ first_limit turn.old.first) }
    ensures lossless { IfOk result (λ it. it.lanes.lossless ≡ lossless) }
{
    let lanes = match lane_room(alloc, many) {
        Ok(lanes) => lanes,
        Err(memory) => return Err(memory),
    };
    let (control, drain) = turn.start();
    return Ok(Ready {
        lanes: Lanes {
            control,
            lossless,
            lanes,
            feeds,
            reports,
        },
        drain,
        spare,
    });
}

// A recording for which memory lacked before anything was read or appended.
fn refused<S, L>(feeds: Vec<S>, live: L) -> Recording<S, L>
    ensures { result ≡ record { report = None; feeds = feeds; live = live } }
{
    Recording {
        report: None,
        feeds,
        live,
    }
}

// The same onto a tape.
fn unread<S, T>(feeds: Vec<S>, tape: T) -> Onto<S, T>
    ensures { result ≡ record { report = None; feeds = feeds; tape = tape } }
{
    Onto {
        report: None,
        feeds,
        tape,
    }
}

// What the writer and the lanes hand back of a recording, with the report.
fn handed_back<R: Wait, S: Drop, T>(written: Written<'_, T>, lanes: Lanes<'_, R, S>) -> Ran<S, T>
    ensures { result
        ≡ record {
          report = record {
            feeds = lanes.entry.reports;
            writer = written.entry.report;
          };
          feeds = lanes.entry.feeds;
          tape = written.entry.tape;
        } }
{
    let Written {
        drain: _,
        tape,
        report,
    } = written;
    let Lanes {
        control: _,
        lossless: _,
        lanes: _,
        feeds,
        reports,
    } = lanes;
    Ran {
        report: Report {
            feeds: reports,
            writer: report,
        },
        feeds,
        tape,
    }
}

// Runs the lanes beside the writer, and makes the report. The control closes the intake once all lanes have ended, while the
// writer still takes what is left.
fn run_beside<R: Threads + Wait + Sync, S: Source + Drop + Send, T: Tape<X: Send> + Drop + Send>(
    rt: &R,
    alloc: Global,
    lanes: Lanes<'_, R, S>,
    writer: Writer<'_, T>,
    spare: Cache,
    listed: bool,
) -> Ran<S, T>
    requires same_turn { writer.drain.seat.table_id ≡ lanes.control.seat.table_id }
    requires turns { Each (λ lane. lane.pass.publisher.seat.table_id ≡ lanes.control.seat.table_id) lanes.lanes.items }
    requires new { Each (λ lane. lane.pass.publisher.seat.me.0.pass ≡ no_calls lanes.control.seat.me.0.pass.limit)
        lanes.lanes.items }
    requires waits { Each (λ lane. lane.pass.lossless ≡ lanes.lossless) lanes.lanes.items }
    requires fresh { IsFreshControl lanes.control.seat.me.0.post (vec_len lanes.lanes) }
    requires feeds { (lanes.feeds.items ≡ []) × (vec_len lanes.lanes ≤ vec_capacity lanes.feeds) }
    requires reports { (lanes.reports.items ≡ []) × (vec_len lanes.lanes ≤ vec_capacity lanes.reports) }
    requires spare { spare ≡ empty_buffer writer.drain.seat.me.0.pass.limit }
    requires none { writer.drain.seat.me.0.post.taken ≡ [] }
    requires unstopped { writer.drain.seat.me.0.post.stop ≡ None }
    requires going { T.phase writer.tape ≡ phases.Going }
    requires unused { T.is_new writer.tape }
    ensures recorded { RecordedOnto (seen_tape T.grows T.ends T.limit_met T.phase T.numbers T.failures)
        lanes.entry.control.seat.me.0.pass.limit lanes.entry.lossless
        (tape_sides (map (λ lane. S.state lane.source) lanes.entry.lanes.items) writer.entry.tape)
        (tape_sides (map S.state result.feeds.items) result.tape) result.report }
    ensures listed { Each (λ f. ListsMessages f listed) result.report.feeds.items }
    ensures stays { AllZip S.stays (map (λ lane. lane.source) lanes.entry.lanes.items) result.feeds.items }
{
    let (mut written, mut lanes) = join(
        rt,
        ||
            requires spare { spare ≡ empty_buffer writer.drain.seat.me.0.pass.limit }
            requires none { writer.drain.seat.me.0.post.taken ≡ [] }
            requires unstopped { writer.drain.seat.me.0.post.stop ≡ None }
            requires going { T.phase writer.tape ≡ phases.Going }
            requires unused { T.is_new writer.tape }
            ensures turn { result.drain.seat.table_id ≡ writer.entry.drain.seat.table_id }
            ensures over { (end : Last) × DrainIsOver result.drain.seat.me.0.pass result.drain.seat.me.0.post end }
            ensures written { TapeIsWritten (seen_tape T.grows T.ends T.limit_met T.phase T.numbers T.failures)
                writer.entry.tape result.tape result.drain.seat.me.0.post.taken result.report }
            ensures all { IsAll result.drain.seat.me.0.post.taken result.report }
            ensures stops { (stop : Why) → result.drain.seat.me.0.post.stop ≡ Some stop
                → result.report.end ≡ Stopped stop }
        { writer.run(rt, spare) },
        ||
            requires turn { Each (λ lane. lane.pass.publisher.seat.table_id ≡ lanes.control.seat.table_id)
                lanes.lanes.items }
            requires new { Each
                (λ lane. lane.pass.publisher.seat.me.0.pass ≡ no_calls lanes.control.seat.me.0.pass.limit)
                lanes.lanes.items }
            requires waits { Each (λ lane. lane.pass.lossless ≡ lanes.lossless) lanes.lanes.items }
            requires fresh { IsFreshControl lanes.control.seat.me.0.post (vec_len lanes.lanes) }
            requires feeds { (lanes.feeds.items ≡ []) × (vec_len lanes.lanes ≤ vec_capacity lanes.feeds) }
            requires reports { (lanes.reports.items ≡ []) × (vec_len lanes.lanes ≤ vec_capacity lanes.reports) }
            ensures turn { result.control.seat.table_id ≡ lanes.entry.control.seat.table_id }
            ensures ran { LanesRan lanes.entry.control.seat.me.0.pass.limit lanes.entry.lossless listed
                (map (λ lane. S.state lane.source) lanes.entry.lanes.items) (map S.state result.feeds.items)
                result.reports.items result.control.seat.me.0.post }
            ensures stays { AllZip S.stays (map (λ lane. lane.source) lanes.entry.lanes.items) result.feeds.items }
        { lanes.run(rt, alloc, listed) },
    );
    meet(&mut lanes.control, &mut written.drain);
    places_are_known();
    handed_back(written, lanes)
}

impl<'t, R: Threads + Wait + Sync, S: Source + Drop + Send> Ready<'t, R, S> {
    /// Records these feeds onto the tape, which is new, and ends it.
    pub fn run_onto<T: Tape<X: Send> + Drop + Send>(
        self,
        rt: &'t R,
        alloc: Global,
        feeds: Vec<S>,
        tape: T,
        listed: bool,
    ) -> Ran<S, T>
        requires ready { AreReady self.lanes.control.seat.me.0 self.drain.seat.me.0 self.spare }
        requires same_turn { self.drain.seat.table_id ≡ self.lanes.control.seat.table_id }
        requires few { vec_len feeds ≤ 64 }
        requires lanes { (self.lanes.lanes.items ≡ []) × (vec_len feeds ≤ vec_capacity self.lanes.lanes) }
        requires feeds { (self.lanes.feeds.items ≡ []) × (vec_len feeds ≤ vec_capacity self.lanes.feeds) }
        requires reports { (self.lanes.reports.items ≡ []) × (vec_len feeds ≤ vec_capacity self.lanes.reports) }
        requires going { T.phase tape ≡ phases.Going }
        requires unused { T.is_new tape }
        ensures stays { AllZip S.stays feeds.items result.feeds.items }
        ensures recorded { RecordedOnto (seen_tape T.grows T.ends T.limit_met T.phase T.numbers T.failures)
            self.entry.lanes.control.seat.me.0.pass.limit self.entry.lanes.lossless
            (tape_sides (map S.state feeds.items) tape) (tape_sides (map S.state result.feeds.items) result.tape)
            result.report }
        ensures listed { Each (λ f. ListsMessages f listed) result.report.feeds.items }
    {
        let Ready {
            mut lanes,
            drain,
            spare,
        } = self;
        lanes.add_all(rt, feeds);
        run_beside(rt, alloc, lanes, Writer { drain, tape }, spare, listed)
    }

    /// Reads these feeds where the file couldn't be begun, for that reason: nothing is accepted.
    pub fn run_unopened(
        self,
        rt: &'t R,
        alloc: Global,
        feeds: Vec<S>,
        why: Stop,
        listed: bool,
    ) -> Unwritten<S>
        requires ready { AreReady self.lanes.control.seat.me.0 self.drain.seat.me.0 self.spare }
        requires same_turn { self.drain.seat.table_id ≡ self.lanes.control.seat.table_id }
        requires few { vec_len feeds ≤ 64 }
        requires lanes { (self.lanes.lanes.items ≡ []) × (vec_len feeds ≤ vec_capacity self.lanes.lanes) }
        requires feeds { (self.lanes.feeds.items ≡ []) × (vec_len feeds ≤ vec_capacity self.lanes.feeds) }
        requires reports { (self.lanes.reports.items ≡ []) × (vec_len feeds ≤ vec_capacity self.lanes.reports) }
        requires cause { IsCause why }
        ensures stays { AllZip S.stays feeds.items result.feeds.items }
        ensures reported { IsReported self.entry.lanes.control.seat.me.0.pass.limit self.entry.lanes.lossless
            (map S.state feeds.items) (map S.state result.feeds.items) [] result.report }
        ensures writer { result.report.writer ≡ record { records = 0; blocks = 0; bytes = 0; end = Stopped why } }
        ensures listed { Each (λ f. ListsMessages f listed) result.report.feeds.items }
    {
        let Ready {
            mut lanes,
            mut drain,
            spare,
        } = self;
        stop_unread(rt, &mut lanes.control, &mut drain, spare, why);
        lanes.add_all(rt, feeds);
        run_unwritten(rt, alloc, lanes, drain, why, listed)
    }
}

/// Records the feeds onto the tape, which is new, and ends it. Each feed has a lane of its own, and the lanes run beside the writer. Of
/// `options` it uses the limit of the buffer and whether lanes wait: what the tape's file is like is the tape's matter. Where
/// messages aren't to be listed the report only counts them.
pub fn record_onto<
    R: Threads + Wait + Sync,
    S: Source + Drop + Send,
    T: Tape<X: Send> + Drop + Send,
>(
    rt: &R,
    alloc: Global,
    options: &RecordOptions,
    feeds: Vec<S>,
    tape: T,
    listed: bool,
) -> Onto<S, T>
    requires some { 1 ≤ options.now.limit }
    requires small { options.now.limit ≤ buffer_limit }
    requires feeds { (1 ≤ vec_len feeds) × (vec_len feeds ≤ 64) }
    requires going { T.phase tape ≡ phases.Going }
    requires unused { T.is_new tape }
    ensures refused { result.report ≡ None → (result.feeds.items ≡ feeds.items) × (result.tape ≡ tape) }
    ensures stays { AllZip S.stays feeds.items result.feeds.items }
    ensures recorded { (r : _) → result.report ≡ Some r
        → RecordedOnto (seen_tape T.grows T.ends T.limit_met T.phase T.numbers T.failures) options.now.limit
        options.now.lossless (tape_sides (map S.state feeds.items) tape)
        (tape_sides (map S.state result.feeds.items) result.tape) r }
    ensures listed { AreMessagesListed result.report listed }
{
    let Room {
        mut turn,
        spare,
        feeds: back,
        reports,
    } = match make_room(alloc, options.limit, feeds.len()) {
        Ok(room) => room,
        Err(_) => return unread(feeds, tape),
    };
    let ready = match make_ready(
        alloc,
        &mut turn,
        spare,
        back,
        reports,
        options.lossless,
        feeds.len(),
    ) {
        Ok(ready) => ready,
        Err(_) => return unread(feeds, tape),
    };
    let Ran {
        report,
        feeds,
        tape,
    } = ready.run_onto(rt, alloc, feeds, tape, listed);
    Onto {
        report: Some(report),
        feeds,
        tape,
    }
}

/// Records the feeds into the store, behind what the store holds, which is nothing where the file is to be read back. Each feed
/// has a lane of its own, and the lanes run beside the writer. Where messages aren't to be listed the report only counts them, and
/// takes no memory for them.
pub fn record<
    R: Threads + Wait + Sync,
    S: Source + Drop + Send,
    L: LiveStore<Extent: Send, View: Send> + Drop + Send,
>(
    rt: &R,
    alloc: Global,
    options: &RecordOptions,
    feeds: Vec<S>,
    live: L,
    listed: bool,
) -> Recording<S, L>
    requires some { 1 ≤ options.now.limit }
    requires small { options.now.limit ≤ buffer_limit }
    requires size { ChunkSizeFits options.now.file.chunk }
    requires profile { length options.now.file.profile ≤ content_limit }
    requires feeds { (1 ≤ vec_len feeds) × (vec_len feeds ≤ 64) }
    ensures refused { result.report ≡ None → (result.feeds.items ≡ feeds.items) × (result.live ≡ live) }
    ensures stays { AllZip S.stays feeds.items result.feeds.items }
    ensures recorded { (r : _) → result.report ≡ Some r
        → Recorded options.now (sides (map S.state feeds.items) (L.state live))
        (sides (map S.state result.feeds.items) (L.state result.live)) r }
    ensures listed { AreMessagesListed result.report listed }
{
    let Room {
        mut turn,
        spare,
        feeds: back,
        reports,
    } = match make_room(alloc, options.limit, feeds.len()) {
        Ok(room) => room,
        Err(_) => return refused(feeds, live),
    };
    let ready = match make_ready(
        alloc,
        &mut turn,
        spare,
        back,
        reports,
        options.lossless,
        feeds.len(),
    ) {
        Ok(ready) => ready,
        Err(_) => return refused(feeds, live),
    };
    match Scribe::open(alloc, live, &options.file) {
        Ok(tape) => {
            let ran = ready.run_onto(rt, alloc, feeds, tape, listed);
            return Recording {
                report: Some(ran.report),
                feeds: ran.feeds,
                live: ran.tape.into_store(),
            };
        }
        Err((live, stop)) => {
            let unwritten = ready.run_unopened(rt, alloc, feeds, stop, listed);
            return Recording {
                report: Some(unwritten.report),
                feeds: unwritten.feeds,
                live,
            };
        }
    }
}
