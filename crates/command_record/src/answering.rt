//! What a recording tells of its feeds and of its output.
ghost use Rattle.std.specs.Prelude.{◌≡◌, drop};
ghost use Rattle.command_base.specs.ComplaintTroubles.{complained};
ghost use Rattle.command_base.specs.Printing.{Takes};
ghost use Rattle.command_record.specs.Record.{end_troubles, reports_in, report_text, report_lack, ending_of_recording};
ghost use Rattle.command_record.specs.RecordSteps.{first_end};

use crate::print::print_report;
use command_base::{Complaint, FileWriting, reading_complaint};
use mcap_io::Sink;
use mcap_wire::Text;
use recorder::{FeedEnd, FeedReport, Report, has_limit, names_memory};

/// What a recording tells, of its report, if it made one.
#[derive(Clone, Copy)]
pub(crate) struct Telling<'a> {
    pub report: &'a Option<Report>,
}

// The complaint of how the reading of a feed ended.
fn feed_complaint<'a>(feed: &'a str, end: &'a FeedEnd) -> Option<Complaint<'a>>
    ensures { complained result ≡ end_troubles feed.now end.now }
{
    match end {
        FeedEnd::Refused { why } => return reading_complaint(feed, why),
        FeedEnd::Done | FeedEnd::Ended => return None,
    }
}

// That of the feed at the index, where it is reported on.
fn end_complaint<'a>(
    feed: &'a str,
    reports: &'a [FeedReport],
    index: usize,
) -> Option<Complaint<'a>>
    ensures { complained result ≡ first_end feed.now (drop index reports.now) }
{
    if index < reports.len() {
        return feed_complaint(feed, &reports[index].end);
    }
    return None;
}

// The reports on the feeds, where there are some.
fn feed_reports(report: &Option<Report>) -> &[FeedReport]
    ensures { result.now ≡ reports_in report.now }
{
    match report {
        Some(report) => return report.feeds.as_slice(),
        None => return &[],
    }
}

// Prints the report, if there is one.
pub(crate) fn print_outcome<O: Sink>(out: &mut O, report: &Option<Report>)
    ensures { Takes (O.state out.old) (O.state out.new) (report_text report.now) }
{
    match report {
        Some(report) => match print_report(out, report) {
            Ok(()) => {}
            Err(_) => {}
        },
        None => {}
    }
}

// Whether memory lacked: the report names it, or there is none though nothing failed.
fn has_lacked(report: &Option<Report>, some_failed: bool) -> bool
    ensures { result ≡ report_lack report.now some_failed }
{
    match report {
        Some(report) => return names_memory(report),
        None => return !some_failed,
    }
}

impl FileWriting for Telling<'_> {
    ghost ending = { λ s feeds some. ending_of_recording feeds s.report.now some };

    fn print<O: Sink>(&self, _inputs: &[Text], out: &mut O) {
        print_outcome(out, self.report);
    }

    fn halt<'a>(&'a self, inputs: &'a [Text], index: usize) -> Option<Complaint<'a>> {
        if index < inputs.len() {
            return end_complaint(inputs[index].as_str(), feed_reports(self.report), index);
        }
        return None;
    }

    fn passes_limit(&self) -> bool {
        has_limit(self.report)
    }

    fn lacks_memory(&self, some_failed: bool) -> bool {
        has_lacked(self.report, some_failed)
    }
}
