//! The lanes of a recording, one for each feed. They run side by side, and are gathered once all have ended.
ghost use Rattle.std.specs.Prelude.{◌≡◌, ◌+◌, ◌<◌, ◌≤◌, ℕ, [], ◌∷◌, ◌++◌, map, vec_capacity, vec_len, false, Some, None, IsSome};
ghost use Rattle.std.specs.List.{AllZip};
ghost use Rattle.mcap_model.specs.Places.{Each};
ghost use Rattle.feed_lane.specs.PassCalls.{no_calls};
ghost use Rattle.feed_lane.specs.Lanes.{InStep};
ghost use Rattle.buffer_swap.specs.Plays.{hires, gathered, Unclosed};
ghost use Rattle.recorder.specs.Lanes.{LaneRan, IsFreshControl, LanesRan};

use crate::rousing::publish_roused;
use buffer_swap::{Control, LanePass};
use feed_lane::FeedReport;
use mcap_io::Source;
use std::alloc::Global;
use std::sync::Wait;
use std::thread::Threads;
use std::{mem, thread};

/// A feed, the pass of its lane, and what the lane reported, once it has ended.
#[derive(Drop)]
pub(crate) struct Lane<'t, R: Wait, S> {
    pub source: S,
    pub pass: LanePass<'t, 't, R>,
    pub report: Option<FeedReport>,
}

/// All lanes of a recording with their control, and whether they wait for room; and, once they were gathered, their feeds and
/// the reports on these, in order.
#[derive(Drop)]
pub(crate) struct Lanes<'t, R: Wait, S> {
    pub control: Control<'t>,
    pub lossless: bool,
    pub lanes: Vec<Lane<'t, R, S>>,
    pub feeds: Vec<S>,
    pub reports: Vec<FeedReport>,
}

impl<R: Wait, S: Source> Lane<'_, R, S> {
    // Reads the feed and publishes it, and lists its messages or only counts them.
    fn run(&mut self, alloc: Global, listed: bool)
        requires { (limit : ℕ) × (self.old.pass.publisher.seat.me.0.pass ≡ no_calls limit) }
        ensures turn { self.new.pass.publisher.seat.table_id ≡ self.old.pass.publisher.seat.table_id }
        ensures ran { (limit : ℕ) → self.old.pass.publisher.seat.me.0.pass ≡ no_calls limit
            → LaneRan limit self.old.pass.lossless listed (S.state self.old.source) (S.state self.new.source)
            self.new.pass.publisher.seat.me.0.pass self.new.report }
        ensures stays { S.stays self.old.source self.new.source }
    {
        let rouser = self.pass.publisher.rouser();
        let report = publish_roused(alloc, &mut self.source, rouser, &mut self.pass, listed);
        self.report = Some(report);
    }
}

impl<'t, R: Wait, S: Source + Drop> Lanes<'t, R, S> {
    // Adds a lane for that feed.
    fn add(&mut self, rt: &'t R, source: S)
        requires few { self.old.control.seat.me.0.post.made < 64 }
        requires room { vec_len self.old.lanes < vec_capacity self.old.lanes }
        ensures turn { self.new.control.seat.table_id ≡ self.old.control.seat.table_id }
        ensures hired { self.new.control.seat.me.0 ≡ hires self.old.control.seat.me.0 }
        ensures turns { Each (λ lane. lane.pass.publisher.seat.table_id ≡ self.old.control.seat.table_id)
            self.old.lanes.items
            → Each (λ lane. lane.pass.publisher.seat.table_id ≡ self.old.control.seat.table_id) self.new.lanes.items }
        ensures passes { (limit : ℕ) → self.old.control.seat.me.0.pass.limit ≡ limit
            → Each (λ lane. lane.pass.publisher.seat.me.0.pass ≡ no_calls limit) self.old.lanes.items
            → Each (λ lane. lane.pass.publisher.seat.me.0.pass ≡ no_calls limit) self.new.lanes.items }
        ensures waits { Each (λ lane. lane.pass.lossless ≡ self.old.lossless) self.old.lanes.items
            → Each (λ lane. lane.pass.lossless ≡ self.old.lossless) self.new.lanes.items }
        ensures sources { map (λ lane. lane.source) self.new.lanes.items
            ≡ map (λ lane. lane.source) self.old.lanes.items ++ source ∷ [] }
        ensures room { vec_capacity self.new.lanes ≡ vec_capacity self.old.lanes }
        ensures same { (self.new.lossless ≡ self.old.lossless) × (self.new.feeds ≡ self.old.feeds)
            × (self.new.reports ≡ self.old.reports) }
    {
        let publisher = self.control.publisher();
        self.lanes.push_reserved(Lane {
            source,
            pass: LanePass {
                rt,
                publisher,
                lossless: self.lossless,
            },
            report: None,
        });
    }

    /// Adds a lane for each of these feeds, in their order.
    pub(crate) fn add_all(&mut self, rt: &'t R, sources: Vec<S>)
        requires none { self.old.lanes.items ≡ [] }
        requires fresh { IsFreshControl self.old.control.seat.me.0.post 0 }
        requires few { vec_len sources ≤ 64 }
        requires room { vec_len sources ≤ vec_capacity self.old.lanes }
        ensures turn { self.new.control.seat.table_id ≡ self.old.control.seat.table_id }
        ensures turns { Each (λ lane. lane.pass.publisher.seat.table_id ≡ self.new.control.seat.table_id)
            self.new.lanes.items }
        ensures passes { Each
            (λ lane. lane.pass.publisher.seat.me.0.pass ≡ no_calls self.new.control.seat.me.0.pass.limit)
            self.new.lanes.items }
        ensures waits { Each (λ lane. lane.pass.lossless ≡ self.new.lossless) self.new.lanes.items }
        ensures sources { map (λ lane. lane.source) self.new.lanes.items ≡ sources.items }
        ensures fresh { IsFreshControl self.new.control.seat.me.0.post (vec_len self.new.lanes) }
        ensures limit { self.new.control.seat.me.0.pass.limit ≡ self.old.control.seat.me.0.pass.limit }
        ensures same { (self.new.lossless ≡ self.old.lossless) × (self.new.feeds ≡ self.old.feeds)
            × (self.new.reports ≡ self.old.reports) }
    {
        'sources: for source in sources {
            self.add(rt, source);
        }
    }

    // Makes the control know what a lane did, and keeps its feed and its report.
    fn gather_one(&mut self, lane: Lane<'t, R, S>)
        requires turn { lane.pass.publisher.seat.table_id ≡ self.old.control.seat.table_id }
        requires ended { IsSome lane.report }
        requires feeds { vec_len self.old.feeds < vec_capacity self.old.feeds }
        requires reports { vec_len self.old.reports < vec_capacity self.old.reports }
        ensures turn { self.new.control.seat.table_id ≡ self.old.control.seat.table_id }
        ensures known { self.new.control.seat.me.0.post.known
            ≡ self.old.control.seat.me.0.post.known ++ gathered lane.entry.pass.publisher.seat.me.0 ∷ [] }
        ensures unclosed { self.old.control.seat.me.0.post.closed ≡ false
            → Unclosed lane.entry.pass.publisher.seat.me.0.pass }
        ensures post { (self.new.control.seat.me.0.post.closed ≡ self.old.control.seat.me.0.post.closed)
            × (self.new.control.seat.me.0.post.made ≡ self.old.control.seat.me.0.post.made) }
        ensures feeds { self.new.feeds.items ≡ self.old.feeds.items ++ lane.entry.source ∷ [] }
        ensures reports { map Some self.new.reports.items ≡ map Some self.old.reports.items ++ lane.entry.report ∷ [] }
        ensures count { vec_len self.new.reports ≡ vec_len self.old.reports + 1 }
        ensures room { (vec_capacity self.new.feeds ≡ vec_capacity self.old.feeds)
            × (vec_capacity self.new.reports ≡ vec_capacity self.old.reports) }
    {
        let Lane {
            source,
            pass,
            report,
        } = lane;
        let LanePass {
            rt: _,
            publisher,
            lossless: _,
        } = pass;
        self.control.gather(publisher.end());
        self.feeds.push_reserved(source);
        match report {
            Some(report) => self.reports.push_reserved(report),
            None => unreachable!(),
        }
    }

    // Gathers all lanes.
    fn gather(&mut self, alloc: Global)
        requires turn { Each (λ lane. lane.pass.publisher.seat.table_id ≡ self.old.control.seat.table_id)
            self.old.lanes.items }
        requires ended { Each (λ lane. IsSome lane.report) self.old.lanes.items }
        requires feeds { vec_len self.old.feeds + vec_len self.old.lanes ≤ vec_capacity self.old.feeds }
        requires reports { vec_len self.old.reports + vec_len self.old.lanes ≤ vec_capacity self.old.reports }
        requires unclosed { self.old.control.seat.me.0.post.closed ≡ false }
        ensures turn { self.new.control.seat.table_id ≡ self.old.control.seat.table_id }
        ensures known { self.new.control.seat.me.0.post.known
            ≡ self.old.control.seat.me.0.post.known
            ++ map (λ lane. gathered lane.pass.publisher.seat.me.0) self.old.lanes.items }
        ensures unclosed { Each (λ lane. Unclosed lane.pass.publisher.seat.me.0.pass) self.old.lanes.items }
        ensures made { self.new.control.seat.me.0.post.made ≡ self.old.control.seat.me.0.post.made }
        ensures feeds { self.new.feeds.items ≡ self.old.feeds.items ++ map (λ lane. lane.source) self.old.lanes.items }
        ensures reports { map Some self.new.reports.items
            ≡ map Some self.old.reports.items ++ map (λ lane. lane.report) self.old.lanes.items }
    {
        let lanes = mem::replace(&mut self.lanes, Vec::new(alloc));
        'lanes: for lane in lanes {
            self.gather_one(lane);
        }
    }
}

// Runs all lanes to their ends, each in a thread of its own where one can be made.
fn run_all<R: Threads + Wait + Sync, S: Source + Send>(
    rt: &R,
    alloc: Global,
    lanes: &mut [Lane<'_, R, S>],
    listed: bool,
)
    requires { (limit : ℕ) × Each (λ lane. lane.pass.publisher.seat.me.0.pass ≡ no_calls limit) lanes.old }
    ensures turns { InStep (λ x y. y.pass.publisher.seat.table_id ≡ x.pass.publisher.seat.table_id) lanes.old
        lanes.new }
    ensures ran { (limit : ℕ) → Each (λ lane. lane.pass.publisher.seat.me.0.pass ≡ no_calls limit) lanes.old
        → InStep
        (λ x y. LaneRan limit x.pass.lossless listed (S.state x.source) (S.state y.source) y.pass.publisher.seat.me.0.pass y.report)
        lanes.old lanes.new }
    ensures stays { InStep (λ x y. S.stays x.source y.source) lanes.old lanes.new }
{
    thread::for_each_mut(
        rt,
        lanes,
        64,
        &|_, lane: &mut Lane<'_, R, S>|
            requires { (limit : ℕ) × (lane.old.pass.publisher.seat.me.0.pass ≡ no_calls limit) }
            ensures turn { lane.new.pass.publisher.seat.table_id ≡ lane.old.pass.publisher.seat.table_id }
            ensures ran { (limit : ℕ) → lane.old.pass.publisher.seat.me.0.pass ≡ no_calls limit
                → LaneRan limit lane.old.pass.lossless listed (S.state lane.old.source) (S.state lane.new.source)
                lane.new.pass.publisher.seat.me.0.pass lane.new.report }
            ensures stays { S.stays lane.old.source lane.new.source }
        { lane.run(alloc, listed) },
    );
}

impl<R: Threads + Wait + Sync, S: Source + Drop + Send> Lanes<'_, R, S> {
    /// Runs all lanes to their ends, gathers them, and closes the intake.
    pub(crate) fn run(self, rt: &R, alloc: Global, listed: bool) -> Self
        requires turn { Each (λ lane. lane.pass.publisher.seat.table_id ≡ self.control.seat.table_id) self.lanes.items }
        requires new { Each (λ lane. lane.pass.publisher.seat.me.0.pass ≡ no_calls self.control.seat.me.0.pass.limit)
            self.lanes.items }
        requires waits { Each (λ lane. lane.pass.lossless ≡ self.lossless) self.lanes.items }
        requires fresh { IsFreshControl self.control.seat.me.0.post (vec_len self.lanes) }
        requires feeds { (self.feeds.items ≡ []) × (vec_len self.lanes ≤ vec_capacity self.feeds) }
        requires reports { (self.reports.items ≡ []) × (vec_len self.lanes ≤ vec_capacity self.reports) }
        ensures turn { result.control.seat.table_id ≡ self.entry.control.seat.table_id }
        ensures ran { LanesRan self.entry.control.seat.me.0.pass.limit self.entry.lossless listed
            (map (λ lane. S.state lane.source) self.entry.lanes.items)
            (map (λ source. S.state source) result.feeds.items) result.reports.items result.control.seat.me.0.post }
        ensures stays { AllZip S.stays (map (λ lane. lane.source) self.entry.lanes.items) result.feeds.items }
    {
        let mut all = self;
        run_all(rt, alloc, all.lanes.as_mut_slice(), listed);
        all.gather(alloc);
        all.control.close(rt);
        all
    }
}
