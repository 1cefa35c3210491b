//! A recording whose file couldn't be begun: the intake is stopped before there is a lane, so that nothing is accepted, and each
//! lane finds it so.
ghost use Rattle.std.specs.Prelude.{◌≡◌, ◌≤◌, [], map, vec_len, vec_capacity, None, Some};
ghost use Rattle.std.specs.List.{AllZip};
ghost use Rattle.mcap_model.specs.declared.ends.Stop.{Stop as Why};
ghost use Rattle.mcap_model.specs.declared.ends.End.{End as Last};
ghost use Rattle.mcap_model.specs.Places.{Each};
ghost use Rattle.record_core.specs.Desk.{IsCause};
ghost use Rattle.feed_lane.specs.PassCalls.{no_calls};
ghost use Rattle.feed_lane.specs.Steps.{ListsMessages};
ghost use Rattle.buffer_swap.specs.Calls.{DrainIsOver};
ghost use Rattle.recorder.specs.Writing.{empty_buffer};
ghost use Rattle.recorder.specs.Lanes.{IsFreshControl};
ghost use Rattle.recorder.specs.Onto.{IsReported};

use crate::lanes::Lanes;
use crate::report::{Report, WriterReport};
use buffer_swap::laws::places_are_known;
use buffer_swap::{Control, Drain, meet};
use mcap_io::Source;
use mcap_model::{End, Stop};
use record_cache::Cache;
use std::alloc::Global;
use std::sync::Wait;
use std::thread::Threads;

/// A report, with the feeds.
#[derive(Drop)]
pub struct Unwritten<S> {
    pub report: Report,
    pub feeds: Vec<S>,
}

// Stops the intake for that reason, and takes what it has up to its end.
fn stop<R: Wait>(rt: &R, drain: &mut Drain<'_>, spare: Cache, why: Stop)
    requires spare { spare ≡ empty_buffer drain.old.seat.me.0.pass.limit }
    requires cause { IsCause why }
    requires unstopped { drain.old.seat.me.0.post.stop ≡ None }
    ensures turn { drain.new.seat.table_id ≡ drain.old.seat.table_id }
    ensures over { (end : Last) × DrainIsOver drain.new.seat.me.0.pass drain.new.seat.me.0.post end }
    ensures stops { (other : Why) → drain.new.seat.me.0.post.stop ≡ Some other → other ≡ why }
{
    drain.stop(rt, why);
    let mut spare = spare;
    'swaps: for _ in rt.forever() {
        match drain.swap(rt, spare) {
            Ok(full) => {
                spare = full;
                spare.clear();
            }
            Err(empty) => {
                if empty.end.is_some() {
                    return;
                }
                spare = empty.cache;
            }
        }
    }
    unreachable!()
}

/// Stops the intake for that reason before its control has made a publisher: nothing was accepted then.
pub(crate) fn stop_unread<R: Wait>(
    rt: &R,
    control: &mut Control<'_>,
    drain: &mut Drain<'_>,
    spare: Cache,
    why: Stop,
)
    requires same_turn { drain.old.seat.table_id ≡ control.old.seat.table_id }
    requires fresh { IsFreshControl control.old.seat.me.0.post 0 }
    requires spare { spare ≡ empty_buffer drain.old.seat.me.0.pass.limit }
    requires cause { IsCause why }
    requires unstopped { drain.old.seat.me.0.post.stop ≡ None }
    ensures turn { (control.new.seat.table_id ≡ control.old.seat.table_id)
        × (drain.new.seat.table_id ≡ drain.old.seat.table_id) }
    ensures limit { control.new.seat.me.0.pass ≡ control.old.seat.me.0.pass }
    ensures fresh { IsFreshControl control.new.seat.me.0.post 0 }
    ensures none { drain.new.seat.me.0.post.taken ≡ [] }
    ensures over { (end : Last) × DrainIsOver drain.new.seat.me.0.pass drain.new.seat.me.0.post end }
    ensures stops { (other : Why) → drain.new.seat.me.0.post.stop ≡ Some other → other ≡ why }
{
    stop(rt, drain, spare, why);
    meet(control, drain);
    places_are_known();
}

/// Runs the lanes at an intake that was stopped for that reason before its first record, and makes the report.
pub(crate) fn run_unwritten<R: Threads + Wait + Sync, S: Source + Drop + Send>(
    rt: &R,
    alloc: Global,
    lanes: Lanes<'_, R, S>,
    drain: Drain<'_>,
    why: Stop,
    listed: bool,
) -> Unwritten<S>
    requires same_turn { drain.seat.table_id ≡ lanes.control.seat.table_id }
    requires turns { Each (λ lane. lane.pass.publisher.seat.table_id ≡ lanes.control.seat.table_id) lanes.lanes.items }
    requires new { Each (λ lane. lane.pass.publisher.seat.me.0.pass ≡ no_calls lanes.control.seat.me.0.pass.limit)
        lanes.lanes.items }
    requires waits { Each (λ lane. lane.pass.lossless ≡ lanes.lossless) lanes.lanes.items }
    requires fresh { IsFreshControl lanes.control.seat.me.0.post (vec_len lanes.lanes) }
    requires feeds { (lanes.feeds.items ≡ []) × (vec_len lanes.lanes ≤ vec_capacity lanes.feeds) }
    requires reports { (lanes.reports.items ≡ []) × (vec_len lanes.lanes ≤ vec_capacity lanes.reports) }
    requires none { drain.seat.me.0.post.taken ≡ [] }
    requires over { (end : Last) × DrainIsOver drain.seat.me.0.pass drain.seat.me.0.post end }
    requires stops { (other : Why) → drain.seat.me.0.post.stop ≡ Some other → other ≡ why }
    ensures reported { IsReported lanes.entry.control.seat.me.0.pass.limit lanes.entry.lossless
        (map (λ lane. S.state lane.source) lanes.entry.lanes.items) (map S.state result.feeds.items) [] result.report }
    ensures writer { result.report.writer ≡ record { records = 0; blocks = 0; bytes = 0; end = End.Stopped why } }
    ensures listed { Each (λ f. ListsMessages f listed) result.report.feeds.items }
    ensures stays { AllZip S.stays (map (λ lane. lane.source) lanes.entry.lanes.items) result.feeds.items }
{
    let mut drain = drain;
    let Lanes {
        mut control,
        lossless: _,
        lanes: _,
        feeds,
        reports,
    } = lanes.run(rt, alloc, listed);
    meet(&mut control, &mut drain);
    places_are_known();
    Unwritten {
        report: Report {
            feeds: reports,
            writer: WriterReport {
                records: 0,
                blocks: 0,
                bytes: 0,
                end: End::Stopped { stop: why },
            },
        },
        feeds,
    }
}
