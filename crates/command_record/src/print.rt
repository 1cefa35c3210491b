//! What the program prints of a recording on standard output.
ghost use Rattle.std.specs.Prelude.{◌≡◌, ◌+◌, ◌≤◌, ◌++◌, length};
ghost use Rattle.command_record.specs.ReportTexts.{refusal_text, feed_end_text, end_text, feed_line, feed_lines, file_line, printed};
ghost use Rattle.command_base.specs.Putting.{Prints};

use mcap_io::{Failed, Sink, write_all_of};
use mcap_model::{End, ReadingRefused, Stop};
use recorder::{FeedEnd, FeedReport, Report, WriterReport};
use text_line::{LINE_ROOM, Line};

// Puts why the reading of a feed was refused behind the line.
fn push_refusal(line: &mut Line, why: &ReadingRefused)
    requires { length line.old + 31 ≤ LINE_ROOM }
    ensures text { line.new ≡ line.old ++ refusal_text why.now }
    ensures len { length line.new ≤ length line.old + 31 }
{
    match why {
        ReadingRefused::Grammar { offset, .. } => {
            line.push_text("grammar ");
            line.push_number(*offset);
        }
        ReadingRefused::Compressed { offset, .. } => {
            line.push_text("compressed ");
            line.push_number(*offset);
        }
        ReadingRefused::Limit { offset } => {
            line.push_text("limit ");
            line.push_number(*offset);
        }
        ReadingRefused::Fault { .. } => line.push_text("fault"),
        ReadingRefused::Memory => line.push_text("memory"),
    }
}

// Puts the end of a feed behind the line.
fn push_feed_end(line: &mut Line, end: &FeedEnd)
    requires { length line.old + 31 ≤ LINE_ROOM }
    ensures text { line.new ≡ line.old ++ feed_end_text end.now }
    ensures len { length line.new ≤ length line.old + 31 }
{
    match end {
        FeedEnd::Done => line.push_text("end"),
        FeedEnd::Refused { why } => push_refusal(line, why),
        FeedEnd::Ended => line.push_text("ended"),
    }
}

// The line of a feed, with its number.
#[tactic(auto, unfolding(crate::specs::ReportTexts::feed_line))]
fn line_of_feed(number: u64, feed: &FeedReport) -> Line
    ensures { result ≡ feed_line number feed.now }
{
    let mut line = Line::new();
    line.push_text("feed ");
    line.push_number(number);
    line.push_text(" accepted=");
    line.push_number(feed.accepted.len());
    line.push_text(" refused=");
    line.push_number(feed.refused.len());
    line.push_text(" passed=");
    line.push_number(feed.passed);
    line.push_text(" ");
    push_feed_end(&mut line, &feed.end);
    line.push_text("\n");
    line
}

// The line of the file.
#[tactic(auto, unfolding(crate::specs::ReportTexts::file_line))]
fn line_of_file(writer: &WriterReport) -> Line
    ensures { result ≡ file_line writer.now }
{
    let end = match writer.end {
        End::Closed => "closed",
        End::Stopped {
            stop: Stop::Fault { .. },
        } => "stopped fault",
        End::Stopped {
            stop: Stop::Limit { .. },
        } => "stopped limit",
        End::Stopped { stop: Stop::Memory } => "stopped memory",
    };
    let mut line = Line::new();
    line.push_text("file records=");
    line.push_number(writer.records);
    line.push_text(" blocks=");
    line.push_number(writer.blocks);
    line.push_text(" bytes=");
    line.push_number(writer.bytes);
    line.push_text(" ");
    line.push_text(end);
    line.push_text("\n");
    line
}

// Prints a line.
fn print_line<K: Sink>(out: &mut K, line: &Line) -> Result<(), Failed>
    ensures { Prints (K.state out.old) (K.state out.new) line.now result }
{
    match write_all_of(out, line.as_bytes()) {
        Ok(()) => Ok(()),
        Err(_) => Err(Failed),
    }
}

// Prints the lines of the feeds, numbered from 1.
fn print_feeds<K: Sink>(out: &mut K, feeds: &[FeedReport]) -> Result<(), Failed>
    ensures { Prints (K.state out.old) (K.state out.new) (feed_lines 1 feeds.now) result }
{
    'feeds: for (i, feed) in feeds.iter().enumerate() {
        match print_line(out, &line_of_feed(i as u64 + 1, feed)) {
            Ok(()) => {}
            Err(Failed) => return Err(Failed),
        }
    }
    Ok(())
}

/// Prints a line for each feed, numbered from 1 in their order, and then the line of the file. It takes no memory.
/// After a line that failed nothing more is written.
pub fn print_report<K: Sink>(out: &mut K, report: &Report) -> Result<(), Failed>
    ensures { Prints (K.state out.old) (K.state out.new) (printed report.now) result }
{
    match print_feeds(out, &report.feeds) {
        Ok(()) => print_line(out, &line_of_file(&report.writer)),
        Err(Failed) => Err(Failed),
    }
}
