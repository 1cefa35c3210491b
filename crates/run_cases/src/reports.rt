//! What is said of reports that no run brings about.
use command_base::FailedParts;
use command_record::{WatchedFailures, WatchedOutcome, answer_watched, print_report};
use io_memory::MemorySink;
use mcap_app::{
    CallRefused, End, FeedEnd, FeedReport, Listing, ReadingRefused, Refusals, Refused, Report,
    Stop, WriterReport,
};
use mcap_wire::Text;
use std::alloc::{AllocError, Global};

const NO_FAILURE: FailedParts<'static> = FailedParts {
    inputs: &[],
    every_input: false,
    out: false,
    printing: false,
};

const FEED_FAILURE: FailedParts<'static> = FailedParts {
    inputs: &[true],
    every_input: false,
    out: false,
    printing: false,
};

const LIMIT: Stop = Stop::Limit {
    blocks: 1,
    bytes: 173,
};

// These refusals, only counted.
fn refusals_of(alloc: Global, refused: &[Refused]) -> Result<Refusals, AllocError> {
    let mut refusals = Refusals::new(alloc, false);
    for one in refused {
        refusals.reserve()?;
        refusals.push(*one);
    }
    Ok(refusals)
}

// Adds a feed that ended so, of which these messages were refused.
fn add_feed(
    alloc: Global,
    feeds: &mut Vec<FeedReport>,
    refused: &[Refused],
    end: FeedEnd,
) -> Result<(), AllocError> {
    feeds.push(FeedReport {
        accepted: Listing::new(alloc, false),
        declared: Vec::new(alloc),
        refused: refusals_of(alloc, refused)?,
        passed: 0,
        end,
    })?;
    Ok(())
}

// Adds a feed of which two messages were refused for the cause, and another, for which memory lacked or not.
fn add_feeds(
    alloc: Global,
    feeds: &mut Vec<FeedReport>,
    cause: CallRefused,
    is_lacking: bool,
) -> Result<(), AllocError> {
    let refused = [Refused { index: 0, cause }, Refused { index: 1, cause }];
    add_feed(alloc, feeds, &refused, FeedEnd::Done)?;
    if is_lacking {
        let why = ReadingRefused::Memory;
        return add_feed(alloc, feeds, &[], FeedEnd::Refused { why });
    }
    add_feed(alloc, feeds, &[], FeedEnd::Done)
}

// A report of these feeds, and of a file that ended so.
fn report_of(
    alloc: Global,
    cause: CallRefused,
    is_lacking: bool,
    end: End,
) -> Result<Report, AllocError> {
    let mut feeds = Vec::new(alloc);
    add_feeds(alloc, &mut feeds, cause, is_lacking)?;
    let writer = WriterReport {
        records: 0,
        blocks: 0,
        bytes: 84,
        end,
    };
    Ok(Report { feeds, writer })
}

// A status, and what standard error is told and standard output holds.
type Told = (u8, &'static str, &'static str);

// Whether that is printed of a report.
fn is_printed(alloc: Global, report: &Report, lines: &str) -> bool {
    let mut out = MemorySink::new(alloc, Vec::new(alloc));
    print_report(&mut out, report).is_ok() && out.bytes() == lines.as_bytes()
}

// What a recording without watchers came to that made this report.
fn outcome_of(alloc: Global, report: Option<Report>) -> WatchedOutcome {
    WatchedOutcome {
        report,
        sealed: true,
        watches: Vec::new(alloc),
        feeds_failed: Vec::new(alloc),
        out_failed: false,
        watches_failed: Vec::new(alloc),
    }
}

// Whether that is answered and complained of.
fn is_answered(
    alloc: Global,
    report: Option<Report>,
    parts: FailedParts<'_>,
    status: u8,
    complaints: &str,
) -> bool {
    let Ok(feed) = Text::copied(alloc, "F") else {
        return false;
    };
    let failed = WatchedFailures {
        parts,
        watches: &[],
        every_watch: false,
    };
    let mut err = MemorySink::new(alloc, Vec::new(alloc));
    let outcome = outcome_of(alloc, report);
    answer_watched(&mut err, "OUT", &[], &[feed], &outcome, failed).number() == status
        && err.bytes() == complaints.as_bytes()
}

// The cause, whether memory lacked for the other feed, the file's end, what failed besides; and what is told.
type Row = (CallRefused, bool, End, FailedParts<'static>, Told);

// Whether what a row wants is told of the report.
fn is_told(alloc: Global, report: Report, failed: FailedParts<'_>, told: &Told) -> bool {
    let (status, complaints, lines) = *told;
    is_printed(alloc, &report, lines)
        && is_answered(alloc, Some(report), failed, status, complaints)
}

// How many rows are told so, up to the first that isn't.
fn told_rows(alloc: Global) -> Result<u64, AllocError> {
    let mut count = 0u64;
    for (cause, is_lacking, end, failed, told) in ROWS {
        let report = report_of(alloc, *cause, *is_lacking, *end)?;
        if !is_told(alloc, report, *failed, told) {
            return Ok(count);
        }
        count = count.saturating_add(1);
    }
    Ok(count)
}

const CLOSED: &str =
    "feed 1 accepted=0 refused=2 passed=0 end\nfeed 2 accepted=0 refused=0 passed=0 end\nfile records=0 blocks=0 bytes=84 closed\n";

const AT_LIMIT: &str =
    "feed 1 accepted=0 refused=2 passed=0 end\nfeed 2 accepted=0 refused=0 passed=0 end\nfile records=0 blocks=0 bytes=84 stopped limit\n";

const WITHOUT_MEMORY: &str =
    "feed 1 accepted=0 refused=2 passed=0 end\nfeed 2 accepted=0 refused=0 passed=0 end\nfile records=0 blocks=0 bytes=84 stopped memory\n";

const LACKING: &str =
    "feed 1 accepted=0 refused=2 passed=0 end\nfeed 2 accepted=0 refused=0 passed=0 memory\nfile records=0 blocks=0 bytes=84 closed\n";

const TOO_MUCH: &str = "mcaprec: \"OUT\": limit\n";

const NO_MEMORY: &str = "mcaprec: no memory\n";

const FAULT_AND_NO_MEMORY: &str = "mcaprec: \"F\": fault\nmcaprec: no memory\n";

const FULL: CallRefused = CallRefused::Full {
    held: 59,
    from: 0,
    to: 2,
};

const CLOSE: End = End::Closed;

const AT_A_LIMIT: End = End::Stopped { stop: LIMIT };

const FOR_A_LIMIT: CallRefused = CallRefused::Stopped { at: 2, stop: LIMIT };

const WITHOUT: End = End::Stopped { stop: Stop::Memory };

const FOR_MEMORY: CallRefused = CallRefused::Stopped {
    at: 2,
    stop: Stop::Memory,
};

const MANY: CallRefused = CallRefused::TooManyRecords { count: 7 };

const ROWS: &[Row] = &[
    (FULL, false, CLOSE, NO_FAILURE, (0, "", CLOSED)),
    (
        CallRefused::TooManySchemas,
        false,
        CLOSE,
        NO_FAILURE,
        (4, TOO_MUCH, CLOSED),
    ),
    (MANY, false, CLOSE, NO_FAILURE, (4, TOO_MUCH, CLOSED)),
    (
        FOR_A_LIMIT,
        false,
        AT_A_LIMIT,
        NO_FAILURE,
        (4, TOO_MUCH, AT_LIMIT),
    ),
    (
        CallRefused::Memory,
        false,
        CLOSE,
        NO_FAILURE,
        (5, NO_MEMORY, CLOSED),
    ),
    (
        CallRefused::Memory,
        false,
        CLOSE,
        FEED_FAILURE,
        (5, FAULT_AND_NO_MEMORY, CLOSED),
    ),
    (
        FOR_MEMORY,
        false,
        WITHOUT,
        NO_FAILURE,
        (5, NO_MEMORY, WITHOUT_MEMORY),
    ),
    (FULL, true, CLOSE, NO_FAILURE, (5, NO_MEMORY, LACKING)),
    (
        FULL,
        true,
        CLOSE,
        FEED_FAILURE,
        (5, FAULT_AND_NO_MEMORY, LACKING),
    ),
];

/// Whether a limit is told once, however often it was met, and a want of memory last; and a report that is missing though
/// nothing failed as a want of memory.
pub(crate) fn are_told(alloc: Global) -> Result<bool, AllocError> {
    let count = told_rows(alloc)?;
    Ok(count == ROWS.len() as u64 && is_answered(alloc, None, NO_FAILURE, 5, NO_MEMORY))
}
