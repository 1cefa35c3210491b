//! Whether a limit would be passed or memory lacked, as the report of a recording tells it.
ghost use Rattle.std.specs.Prelude.{◌≡◌, ◌||◌};
ghost use Rattle.std.specs.List.{list_any};
ghost use Rattle.feed_lane.specs.Causes.{is_over, is_memory, is_memory_stop};
ghost use Rattle.recorder.specs.Findings.{is_limit, is_memory_end, is_memory_writer, limit_passed, lacks_memory as names_lack};

use crate::{FeedEnd, FeedReport, Report};
use mcap_model::{End, Stop};

// Whether the writer stopped at a limit.
fn is_at_limit(end: End) -> bool
    ensures { result ≡ is_limit end }
{
    match end {
        End::Stopped {
            stop: Stop::Limit { .. },
        } => true,
        End::Closed | End::Stopped { .. } => false,
    }
}

// Whether one of the feed's messages was refused for a limit.
fn has_too_much(feed: &FeedReport) -> bool
    ensures { result ≡ list_any (λ x. is_over x.cause) feed.now.refused.items }
{
    feed.refused.has_limit()
}

// Whether one of the messages of all feeds was.
fn have_too_much(feeds: &[FeedReport]) -> bool
    ensures { result ≡ list_any (λ f. list_any (λ x. is_over x.cause) f.refused.items) feeds.now }
{
    feeds.iter().any(|feed| has_too_much(feed))
}

/// Whether the file or a message would have passed a limit.
pub fn has_limit(report: &Option<Report>) -> bool
    ensures { result ≡ limit_passed report.now }
{
    match report {
        Some(report) => {
            return is_at_limit(report.writer.end) || have_too_much(&report.feeds);
        }
        None => return false,
    }
}

// Whether the writer stopped for want of memory.
fn is_out_of_memory(stop: Stop) -> bool
    ensures { result ≡ is_memory_stop stop }
{
    match stop {
        Stop::Memory => true,
        Stop::Fault { .. } | Stop::Limit { .. } => false,
    }
}

// Whether the reading of the feed ended for want of memory.
fn is_end_for_memory(end: &FeedEnd) -> bool
    ensures { result ≡ is_memory_end end.now }
{
    match end {
        FeedEnd::Refused { why } => return why.is_memory(),
        FeedEnd::Done | FeedEnd::Ended => return false,
    }
}

// Whether memory lacked for the feed, or for one of its messages.
fn feed_lacked(feed: &FeedReport) -> bool
    ensures { result ≡ (is_memory_end feed.now.end || list_any (λ x. is_memory x.cause) feed.now.refused.items) }
{
    is_end_for_memory(&feed.end) || feed.refused.has_lack()
}

// Whether memory lacked for one of the feeds.
fn feeds_lacked(feeds: &[FeedReport]) -> bool
    ensures { result
        ≡ list_any (λ f. is_memory_end f.end || list_any (λ x. is_memory x.cause) f.refused.items) feeds.now }
{
    feeds.iter().any(|feed| feed_lacked(feed))
}

// Whether memory lacked for the file.
fn writer_lacked(end: End) -> bool
    ensures { result ≡ is_memory_writer end }
{
    match end {
        End::Stopped { stop } => is_out_of_memory(stop),
        End::Closed => false,
    }
}

/// Whether the report names a want of memory.
pub fn names_memory(report: &Report) -> bool
    ensures { result ≡ names_lack report.now }
{
    writer_lacked(report.writer.end) || feeds_lacked(&report.feeds)
}
