//! The watchers of a recording, one for each sink that was handed in.
ghost use Rattle.std.specs.Prelude.{◌≡◌, ◌<◌, ◌≤◌, ◌++◌, ◌∷◌, [], map, vec_len, vec_capacity, Ok, Some, IfOk};
ghost use Rattle.feed_lane.specs.Lanes.{InStep};
ghost use Rattle.live_directory.specs.Published.{at_most_one};
ghost use Rattle.live_directory.specs.Reading.{unread};
ghost use Rattle.live_directory.specs.ReaderSteps.{AreUnread};
ghost use Rattle.live_recording.specs.WatchedSteps.{failures_in, SeatRuns, SeatEnds, SeatMade, SeatsMade, SeatsEnd};

use live_directory::{Naming, Note, Reader};
use live_watcher::{WatchEnd, WatchReport, Watched, Watcher};
use mcap_io::{Extent, Failed, LiveStore, LiveView, Sink};
use mcap_model::Range;
use mcap_wire::Memory;
use std::alloc::Global;
use std::sync::Wait;
use std::sync::atomic::AtomicBool;
use std::thread::{Threads, for_each_mut};

/// The most watchers of a recording.
const MOST: usize = 16;

/// A sink whose watcher got no view: the store refused it, with that count of faults.
#[derive(Drop)]
pub(crate) struct Unviewed<K> {
    pub faults: u64,
    pub sink: K,
}

/// What is left of a watcher.
#[derive(Drop)]
pub(crate) struct Left<V, K> {
    pub report: WatchReport,
    pub view: Option<V>,
    pub sink: K,
}

/// What is left of all watchers, in their order, or room for it.
#[derive(Drop)]
pub(crate) struct AllLeft<V, K> {
    pub reports: Vec<WatchReport>,
    pub views: Vec<V>,
    pub sinks: Vec<K>,
}

/// Room for what is left of so many watchers.
pub(crate) fn left_room<V: Drop, K: Drop>(
    alloc: Global,
    many: usize,
) -> Result<AllLeft<V, K>, Memory>
    ensures reports { IfOk result (λ room. (room.reports.items ≡ []) × (many ≤ vec_capacity room.reports)) }
    ensures views { IfOk result (λ room. (room.views.items ≡ []) × (many ≤ vec_capacity room.views)) }
    ensures sinks { IfOk result (λ room. (room.sinks.items ≡ []) × (many ≤ vec_capacity room.sinks)) }
{
    let mut reports = Vec::new(alloc);
    let mut views = Vec::new(alloc);
    let mut sinks = Vec::new(alloc);
    match (
        reports.reserve(many),
        views.reserve(many),
        sinks.reserve(many),
    ) {
        (Ok(()), Ok(()), Ok(())) => {
            return Ok(AllLeft {
                reports,
                views,
                sinks,
            });
        }
        _ => return Err(Memory),
    }
}

/// Room for so many watchers.
pub(crate) fn seat_room<X: Extent, J: Naming, V: LiveView<X> + Drop, K: Sink + Drop>(
    alloc: Global,
    many: usize,
) -> Result<Vec<Result<Watcher<X, J, V, K>, Unviewed<K>>>, Memory>
    ensures { IfOk result (λ seats. (seats.items ≡ []) × (many ≤ vec_capacity seats)) }
{
    let mut seats = Vec::new(alloc);
    match seats.reserve(many) {
        Ok(()) => return Ok(seats),
        Err(_) => return Err(Memory),
    }
}

// Makes the watcher of a sink, where the store gives a view.
fn make_seat<J: Naming, L: LiveStore, K: Sink>(
    alloc: Global,
    live: &mut L,
    reader: Reader<L::Extent, J>,
    sink: K,
    range: Range,
) -> Result<Watcher<L::Extent, J, L::View, K>, Unviewed<K>>
    requires unread { reader ≡ unread }
    ensures held { (L.state live.new).held ≡ (L.state live.old).held }
    ensures waits { (L.state live.new).waiting ≤ (L.state live.old).waiting }
    ensures made { SeatMade K.state range (L.state live.old) (L.state live.new) sink result }
{
    match live.view() {
        Ok(view) => return Ok(Watcher::new(alloc, reader, view, sink, range)),
        Err(Failed) => {
            return Err(Unviewed {
                faults: live.faults(),
                sink,
            });
        }
    }
}

/// Makes a watcher for each sink, in their order, as far as the store gives them views.
pub(crate) fn make_seats<J: Naming, L: LiveStore<View: Drop>, K: Sink + Drop>(
    alloc: Global,
    live: &mut L,
    readers: Vec<Reader<L::Extent, J>>,
    sinks: Vec<K>,
    range: Range,
    room: Vec<Result<Watcher<L::Extent, J, L::View, K>, Unviewed<K>>>,
) -> Vec<Result<Watcher<L::Extent, J, L::View, K>, Unviewed<K>>>
    requires readers { AreUnread readers.items (vec_len sinks) }
    requires room { (room.items ≡ []) × (vec_len sinks ≤ vec_capacity room) }
    ensures made { SeatsMade K.state range (L.state live.old) sinks.items (L.state live.new) result.items }
{
    let mut readers = readers;
    let mut seats = room;
    'sinks: for sink in sinks {
        match readers.pop() {
            Some(reader) => seats.push_reserved(make_seat(alloc, live, reader, sink, range)),
            None => unreachable!(),
        }
    }
    seats
}

// Runs the watcher of a sink, if it has one.
fn run_seat<X: Extent, J: Naming, V: LiveView<X>, K: Sink, R: Wait>(
    rt: &R,
    alloc: Global,
    seat: &mut Result<Watcher<X, J, V, K>, Unviewed<K>>,
    tried: &AtomicBool,
)
    ensures { SeatRuns X.tells seat.old seat.new }
{
    match seat {
        Ok(watcher) => watcher.run(rt, alloc, tried),
        Err(_) => {}
    }
}

/// Runs all watchers until they have ended or the flag was raised, each in a thread of its own where one can be made.
pub(crate) fn run_seats<
    X: Extent + Send + Sync,
    J: Naming + Send + Sync,
    V: LiveView<X> + Send,
    K: Sink + Send,
    R: Threads + Wait + Sync,
>(
    rt: &R,
    alloc: Global,
    seats: Vec<Result<Watcher<X, J, V, K>, Unviewed<K>>>,
    tried: &AtomicBool,
) -> Vec<Result<Watcher<X, J, V, K>, Unviewed<K>>>
    ensures { InStep (SeatRuns X.tells) seats.items result.items }
{
    let mut seats = seats;
    for_each_mut(
        rt,
        seats.as_mut_slice(),
        MOST,
        &|_, seat: &mut Result<Watcher<X, J, V, K>, Unviewed<K>>|
            ensures { SeatRuns X.tells seat.old seat.new }
        { run_seat(rt, alloc, seat, tried) },
    );
    seats
}

// Has a watcher finish, with the note of what the directory showed in the end.
fn finish_watcher<X: Extent, J: Naming, V: LiveView<X>, K: Sink, R: Wait>(
    rt: &R,
    alloc: Global,
    watcher: Watcher<X, J, V, K>,
    note: &Note<X, J>,
) -> Watched<V, K>
    ensures { SeatEnds X.tells K.state note.now (Ok watcher) (K.state result.sink) (Some (V.failures result.view))
        result.report }
{
    match note.front().end {
        Some(_) => return watcher.finish(rt, alloc, note),
        None => return watcher.finish_unsealed(rt, note),
    }
}

// What is left of a sink and its watcher, if it has one.
fn finish_seat<X: Extent, J: Naming, V: LiveView<X>, K: Sink, R: Wait>(
    rt: &R,
    alloc: Global,
    seat: Result<Watcher<X, J, V, K>, Unviewed<K>>,
    note: &Note<X, J>,
) -> Left<V, K>
    ensures { SeatEnds X.tells K.state note.now seat (K.state result.sink) (failures_in V.failures result.view)
        result.report }
{
    match seat {
        Ok(watcher) => {
            let Watched { report, view, sink } = finish_watcher(rt, alloc, watcher, note);
            return Left {
                report,
                view: Some(view),
                sink,
            };
        }
        Err(Unviewed { faults, sink }) => {
            return Left {
                report: WatchReport {
                    fronts: Vec::new(alloc),
                    end: WatchEnd::Fault { faults },
                },
                view: None,
                sink,
            };
        }
    }
}

// Puts what is left of a watcher behind what is left of others.
fn put_left<V, K>(all: &mut AllLeft<V, K>, left: Left<V, K>)
    requires reports { vec_len all.old.reports < vec_capacity all.old.reports }
    requires views { vec_len all.old.views < vec_capacity all.old.views }
    requires sinks { vec_len all.old.sinks < vec_capacity all.old.sinks }
    ensures reports { all.new.reports.items ≡ all.old.reports.items ++ left.report ∷ [] }
    ensures views { all.new.views.items ≡ all.old.views.items ++ at_most_one left.view }
    ensures sinks { all.new.sinks.items ≡ all.old.sinks.items ++ left.sink ∷ [] }
    ensures room { (vec_capacity all.new.reports ≡ vec_capacity all.old.reports)
        × (vec_capacity all.new.views ≡ vec_capacity all.old.views)
        × (vec_capacity all.new.sinks ≡ vec_capacity all.old.sinks) }
{
    let Left { report, view, sink } = left;
    all.reports.push_reserved(report);
    all.sinks.push_reserved(sink);
    match view {
        Some(view) => all.views.push_reserved(view),
        None => {}
    }
}

/// Has all watchers finish, in their order, and gives what is left of them.
pub(crate) fn finish_seats<X: Extent, J: Naming, V: LiveView<X> + Drop, K: Sink + Drop, R: Wait>(
    rt: &R,
    alloc: Global,
    seats: Vec<Result<Watcher<X, J, V, K>, Unviewed<K>>>,
    note: &Note<X, J>,
    room: AllLeft<V, K>,
) -> AllLeft<V, K>
    requires reports { (room.reports.items ≡ []) × (vec_len seats ≤ vec_capacity room.reports) }
    requires views { (room.views.items ≡ []) × (vec_len seats ≤ vec_capacity room.views) }
    requires sinks { (room.sinks.items ≡ []) × (vec_len seats ≤ vec_capacity room.sinks) }
    ensures { SeatsEnd X.tells K.state note.now seats.items (map K.state result.sinks.items)
        (map V.failures result.views.items) result.reports.items }
{
    let mut all = room;
    'seats: for seat in seats {
        let left = finish_seat(rt, alloc, seat, note);
        put_left(&mut all, left);
    }
    all
}
