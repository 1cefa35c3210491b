//! The command `record` with watchers: which parts failed, what standard error is told, and the status.
ghost use Rattle.std.specs.List.{list_any, flat_map};
ghost use Rattle.std.specs.Prelude.{◌≡◌, ◌⊎◌, ◌↔◌, ◌≤◌, ◌<◌, ◌^◌, ◌+◌, ◌*◌, ◌||◌, ℕ, [], ◌∷◌, ◌++◌, List, Some, None, drop, length, not, if◌then◌else◌, true, false, IsTrue};
ghost use Rattle.arrayvec.specs.ArrayVec.{array_vec_len};
ghost use Rattle.mcap_io.specs.Outside.{Rose};
ghost use Rattle.command_words.specs.Commands.{feed_limit, watcher_limit};
ghost use Rattle.command_base.specs.ComplaintTroubles.{trouble_of, complained};
ghost use Rattle.command_base.specs.Ran.{first_failed, told_of};
ghost use Rattle.command_base.specs.Outputs.{some_failed};
ghost use Rattle.command_base.specs.OutputSteps.{flags_of, PartFailed};
ghost use Rattle.command_record.specs.Watched.{named};
ghost use Rattle.command_record.specs.WatchedAnswer.{counted_watches, watched_counts, watch_troubles, flaws_of, is_memory_watch, lacks_beside};
ghost use Rattle.command_record.specs.WatchedSteps.{first_flaw, watch_flags_of, AnyPartFailed, WatchedPartsShow, LacksMemoryBeside, AnswersBeside};

use crate::answering::Telling;
use crate::watched_names::WatchedOutcome;
use arrayvec::ArrayVec;
use command_base::{
    Complaint, Counts, FailedParts, MOST_COMPLAINTS, Status, any_holds, complain_of, due_when,
    has_some, holds_alone, input_complaints, is_part_failed, rose,
};
use live_watcher::{WatchEnd, WatchReport};
use mcap_io::{Sink, World};
use mcap_wire::Text;
use recorder::{Report, has_limit, names_memory};

/// The counts of faults of a recording with watchers: those that every command has, and that of the watchers' sinks and views.
#[derive(Clone, Copy)]
pub struct WatchedCounts {
    pub seen: Counts,
    pub watches: u64,
}

impl WatchedCounts {
    /// The counts as they stand, of a recording with these watch files.
    pub fn of<W: World, O: Sink>(world: &W, out: &O, watch_names: &[Text]) -> WatchedCounts
        ensures are { result ≡ watched_counts watch_names.now (W.state world.now) (O.state out.now) }
        ensures world_fits { (W.state world.now).faults < 2 ^ 64 }
        ensures inputs_fit { (W.state world.now).input_faults < 2 ^ 64 }
        ensures outputs_fit { (W.state world.now).output_faults < 2 ^ 64 }
        ensures watches_fit { (W.state world.now).watch_faults < 2 ^ 64 }
    {
        WatchedCounts {
            seen: Counts::of(world, out),
            watches: count_of_watches(world.watch_faults(), watch_names),
        }
    }
}

// The count of watchers' sinks and views, where there are watchers.
fn count_of_watches(faults: u64, watch_names: &[Text]) -> u64
    ensures { result ≡ counted_watches watch_names.now faults }
{
    if watch_names.is_empty() {
        return 0;
    }
    faults
}

/// Which parts of the outside failed: the feeds, the file and standard output as without watchers, and these watchers, or all of
/// them.
#[derive(Clone, Copy)]
pub struct WatchedFailures<'a> {
    pub parts: FailedParts<'a>,
    pub watches: &'a [bool],
    pub every_watch: bool,
}

/// Which parts failed between the two counts. A fault of the inputs that no answer told of may be any feed's, one of sinks and
/// views any watcher's, and one of the world is the file's.
pub fn failed_watched_parts<'a>(
    before: &WatchedCounts,
    now: &WatchedCounts,
    outcome: &'a WatchedOutcome,
) -> WatchedFailures<'a>
    requires feed_cause { some_failed outcome.now.feeds_failed.items ≡ true
        → Rose before.now.seen.world now.now.seen.world ⊎ Rose before.now.seen.inputs now.now.seen.inputs }
    requires out_cause { outcome.now.out_failed ≡ true
        → Rose before.now.seen.world now.now.seen.world ⊎ Rose before.now.seen.outputs now.now.seen.outputs }
    requires watch_cause { some_failed outcome.now.watches_failed.items ≡ true
        → Rose before.now.seen.world now.now.seen.world
        ⊎ (Rose before.now.seen.outputs now.now.seen.outputs ⊎ Rose before.now.watches now.now.watches) }
    ensures { (watches feeds : List (List ℕ)) → (Rose before.now.watches now.now.watches → 1 ≤ length watches)
        → 1 ≤ length feeds → WatchedPartsShow before.now now.now watches feeds outcome.now result }
{
    let world = rose(before.seen.world, now.seen.world);
    let inputs = rose(before.seen.inputs, now.seen.inputs);
    let outputs = rose(before.seen.outputs, now.seen.outputs);
    let sinks = rose(before.watches, now.watches);
    let some_feed = has_some(outcome.feeds_failed.as_slice());
    let some_watch = has_some(outcome.watches_failed.as_slice());
    let told = either_holds(some_feed, some_watch);
    let parts = FailedParts {
        inputs: outcome.feeds_failed.as_slice(),
        every_input: holds_alone(inputs, some_feed),
        out: any_holds(outcome.out_failed, outputs, holds_alone(world, told)),
        printing: rose(before.seen.printing, now.seen.printing),
    };
    WatchedFailures {
        parts,
        watches: outcome.watches_failed.as_slice(),
        every_watch: holds_alone(sinks, some_watch),
    }
}

// Whether one of two holds.
fn either_holds(first: bool, second: bool) -> bool
    ensures { result ≡ (first || second) }
{
    first || second
}

// The complaint of how a watcher ended.
fn watch_complaint<'a>(name: &'a str, end: WatchEnd) -> Option<Complaint<'a>>
    ensures { complained result ≡ watch_troubles name.now end }
{
    match end {
        WatchEnd::Flaw { rule, offset } => Some(Complaint::Flaw { name, rule, offset }),
        WatchEnd::Whole | WatchEnd::Unsealed | WatchEnd::Fault { .. } | WatchEnd::Memory => None,
    }
}

// That of the watcher at the index, where it is reported on.
fn flaw_complaint<'a>(
    name: &'a str,
    reports: &'a [WatchReport],
    index: usize,
) -> Option<Complaint<'a>>
    ensures { complained result ≡ first_flaw name.now (drop index reports.now) }
{
    if index < reports.len() {
        return watch_complaint(name, reports[index].end);
    }
    return None;
}

// Whether the watcher at the index failed.
fn is_watch_blamed(failed: WatchedFailures<'_>, index: usize) -> bool
    ensures { (watches : List (List ℕ)) → index + 1 ≤ length watches
        → result ≡ first_failed (drop index (watch_flags_of watches failed.entry)) }
{
    if failed.every_watch {
        return true;
    }
    if index < failed.watches.len() {
        return failed.watches[index];
    }
    return false;
}

// Puts the complaints of the watchers behind the others, in their order: of each its flaw, and then that it failed.
fn put_watch_complaints<'a>(
    complaints: &mut ArrayVec<Option<Complaint<'a>>, MOST_COMPLAINTS>,
    watches: &'a [Text],
    reports: &'a [WatchReport],
    failed: WatchedFailures<'_>,
)
    requires few { length watches.now ≤ watcher_limit }
    requires room { array_vec_len complaints.old + 2 * length watches.now ≤ MOST_COMPLAINTS }
    ensures troubles { flat_map complained complaints.new.items
        ≡ flat_map complained complaints.old.items
        ++ told_of watches.now (flaws_of watches.now reports.now) (watch_flags_of watches.now failed.entry) [] }
    ensures many { array_vec_len complaints.new ≡ array_vec_len complaints.old + 2 * length watches.now }
{
    'watches: for (i, watch) in watches.iter().enumerate() {
        let name = watch.as_str();
        complaints.push(flaw_complaint(name, reports, i));
        complaints.push(due_when(is_watch_blamed(failed, i), Complaint::Fault { name }));
    }
}

// Whether memory lacked for the watcher.
fn is_end_for_memory(end: WatchEnd) -> bool
    ensures { result ≡ is_memory_watch end }
{
    match end {
        WatchEnd::Memory => true,
        WatchEnd::Whole | WatchEnd::Unsealed | WatchEnd::Fault { .. } | WatchEnd::Flaw { .. } => {
            false
        }
    }
}

// Whether memory lacked for one of the watchers.
fn watches_lacked(reports: &[WatchReport]) -> bool
    ensures { result ≡ list_any (λ w. is_memory_watch w.end) reports.now }
{
    reports.iter().any(|watch| is_end_for_memory(watch.end))
}

// Whether the reports name a want of memory.
fn reports_lack(report: &Report, sealed: bool, watches: &[WatchReport]) -> bool
    ensures { result ≡ lacks_beside report.now sealed watches.now }
{
    names_memory(report) || !sealed || watches_lacked(watches)
}

// Whether some part failed.
fn has_any_failed(failed: WatchedFailures<'_>) -> bool
    ensures { IsTrue result ↔ AnyPartFailed failed.entry }
{
    is_part_failed(failed.parts) || failed.every_watch || has_some(failed.watches)
}

// Whether memory lacked: the reports name it, or there are none though nothing failed.
fn lacks_memory_beside(outcome: &WatchedOutcome, failed: WatchedFailures<'_>) -> bool
    ensures { LacksMemoryBeside outcome.now.report outcome.now.sealed outcome.now.watches.items failed.entry result }
{
    match &outcome.report {
        Some(report) => {
            return reports_lack(report, outcome.sealed, outcome.watches.as_slice());
        }
        None => return !has_any_failed(failed),
    }
}

/// Complains of what went wrong in a recording, with any number of watchers, and answers the status.
pub fn answer_watched<'a, E: Sink>(
    err: &mut E,
    out: &'a str,
    watches: &'a [Text],
    feeds: &'a [Text],
    outcome: &'a WatchedOutcome,
    failed: WatchedFailures<'_>,
) -> Status
    requires few { length feeds.now ≤ feed_limit }
    requires watched { length watches.now ≤ watcher_limit }
    ensures { AnswersBeside (named out.now watches.now feeds.now) outcome.now failed.entry (E.state err.old)
        (E.state err.new) result }
{
    let lacked = lacks_memory_beside(outcome, failed);
    let telling = Telling {
        report: &outcome.report,
    };
    let mut complaints = input_complaints(&telling, feeds, failed.parts);
    complaints.push(due_when(failed.parts.out, Complaint::Fault { name: out }));
    complaints.push(due_when(
        has_limit(&outcome.report),
        Complaint::OutputLimit { name: out },
    ));
    put_watch_complaints(&mut complaints, watches, outcome.watches.as_slice(), failed);
    complaints.push(due_when(failed.parts.printing, Complaint::OutputFault));
    complaints.push(due_when(lacked, Complaint::NoMemory));
    complain_of(err, complaints.as_slice())
}
