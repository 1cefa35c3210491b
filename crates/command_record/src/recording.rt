//! Recording feeds under their names into a file under another, beside watchers or without.
ghost use Rattle.std.specs.Prelude.{◌≡◌, ◌≤◌, [], length, None};
ghost use Rattle.command_words.specs.Commands.{NamesDiffer, watcher_limit};
ghost use Rattle.command_base.specs.Scenes.{scene};
ghost use Rattle.command_record.specs.RecordSteps.{AreAllowed, AreFew, AreListed, IsReportOf};
ghost use Rattle.command_record.specs.Watched.{requested};
ghost use Rattle.command_record.specs.WatchedAnswer.{Records};

use crate::answering::print_outcome;
use crate::watched_answer::{WatchedCounts, answer_watched, failed_watched_parts};
use crate::watched_names::{WatchedOutcome, record_watched_names};
use command_base::Status;
use live_watcher::WatchReport;
use mcap_io::{Sink, World};
use mcap_model::{Range, RecordOptions};
use mcap_wire::Text;
use recorder::Report;
use std::sync::Wait;
use std::thread::Threads;

/// What a recording came to: the recorder's report, whether the watchers were told of the end, and what each of them wrote and how
/// it ended, in the order of the watch names. Without watchers there is none that isn't told of the end.
#[derive(Drop)]
pub struct RecordingReport {
    pub recorded: Report,
    pub sealed: bool,
    pub watchers: Vec<WatchReport>,
}

/// How a recording ended: its status, and the report.
pub struct Ended {
    pub status: Status,
    pub report: Option<RecordingReport>,
}

// The report of a recording, if it has one, with what its watchers came to.
fn report_of(
    recorded: Option<Report>,
    sealed: bool,
    watchers: Vec<WatchReport>,
) -> Option<RecordingReport>
    ensures { IsReportOf recorded sealed watchers.items result }
{
    match recorded {
        Some(recorded) => {
            return Some(RecordingReport {
                recorded,
                sealed,
                watchers,
            });
        }
        None => return None,
    }
}

/// Records the feeds under their names into the file under another, while watchers, of which there may be none, write what they
/// replay of it, of the messages in the range, to the files under the watch names; prints the report on `out`, and answers how that
/// ended: done where all was recorded and each watcher wrote all that it had to, and refused where a feed breaks a rule or is
/// compressed, or a watcher reads what breaks a rule. Where all was done a message may have been refused for a full buffer, unless
/// the options let feeds wait for room. Where messages aren't to be listed the report only counts them, and takes no memory for
/// them. A file without chunks has no watchers.
pub fn record_file<R: AllocGlobal + Threads + Wait + Sync, W: World, O: Sink, E: Sink>(
    rt: &R,
    options: &RecordOptions,
    range: Range,
    out_name: &str,
    watch_names: &[Text],
    feed_names: &[Text],
    world: &mut W,
    out: &mut O,
    err: &mut E,
    listed: bool,
) -> Ended
    requires allowed { AreAllowed options.now }
    requires few { AreFew feed_names.now }
    requires watched { length watch_names.now ≤ watcher_limit }
    requires plain { options.now.file.chunk ≡ None → watch_names.now ≡ [] }
    requires apart { NamesDiffer out_name.now watch_names.now }
    ensures recorded { Records (requested options.now range out_name.now watch_names.now feed_names.now)
        (scene (W.state world.old) (O.state out.old) (E.state err.old))
        (scene (W.state world.new) (O.state out.new) (E.state err.new))
        result.report result.status }
    ensures listed { AreListed result.report listed }
{
    let before = WatchedCounts::of(world, out, watch_names);
    let outcome = record_watched_names(
        rt,
        rt.alloc(),
        options,
        range,
        out_name,
        watch_names,
        feed_names,
        world,
        listed,
    );
    print_outcome(out, &outcome.report);
    let now = WatchedCounts::of(world, out, watch_names);
    let failed = failed_watched_parts(&before, &now, &outcome);
    let status = answer_watched(err, out_name, watch_names, feed_names, &outcome, failed);
    let WatchedOutcome {
        report,
        sealed,
        watches,
        feeds_failed: _feeds_failed,
        out_failed: _,
        watches_failed: _watches_failed,
    } = outcome;
    Ended {
        status,
        report: report_of(report, sealed, watches),
    }
}
