//! The lane of a feed, from its first record to its end.
ghost use Rattle.std.specs.Prelude.{◌≡◌, ℕ, []};
ghost use Rattle.feed_lane.specs.Pass.{PassState};
ghost use Rattle.feed_lane.specs.PassCalls.{no_calls};
ghost use Rattle.feed_lane.specs.Lanes.{LaneFits};
ghost use Rattle.feed_lane.specs.Steps.{over_end as end_of_over, ListsMessages};
ghost use Rattle.feed_lane.specs.Feeds.{reported, Reports};

use crate::Listing;
use crate::lane::{Lane, Over};
use crate::pass::Pass;
use crate::refused_list::Refusals;
use crate::report::{FeedEnd, FeedReport};
use mcap_io::Source;
use mcap_model::ReadingRefused;
use mcap_scan::{FlatReader, FlatStep};
use std::alloc::Global;

// The end of a feed whose lane was over before.
fn over_end(over: Over) -> FeedEnd
    ensures { result ≡ end_of_over over }
{
    match over {
        Over::Memory => return FeedEnd::Refused {
            why: ReadingRefused::Memory,
        },
        Over::Ended => return FeedEnd::Ended,
    }
}

impl Lane {
    // The report of the lane, which came to this end.
    fn report(self, end: FeedEnd) -> FeedReport
        ensures { result
            ≡ record
            { accepted = self.accepted; declared = self.declared; refused = self.refused; passed = self.passed; end = end } }
    {
        let Lane {
            ids: _,
            accepted,
            declared,
            refused,
            passed,
        } = self;
        FeedReport {
            accepted,
            declared,
            refused,
            passed,
            end,
        }
    }
}

// The report of a lane for which there was no memory.
fn nothing(alloc: Global, listed: bool) -> FeedReport
    ensures end { result.end ≡ FeedEnd.Refused ReadingRefused.Memory }
    ensures passed { result.passed ≡ 0 }
    ensures fits { (limit : ℕ) → LaneFits [] 0 (reported result) (no_calls limit) }
    ensures kept { ListsMessages result listed }
{
    FeedReport {
        accepted: Listing::new(alloc, listed),
        declared: Vec::new(alloc),
        refused: Refusals::new(alloc, listed),
        passed: 0,
        end: FeedEnd::Refused {
            why: ReadingRefused::Memory,
        },
    }
}

/// Reads a feed up to and with its Data End, declares each of its channels at the first message on it and publishes its
/// messages over the pass, and reports what became of each. A message that is refused doesn't end the lane, unless the
/// intake has ended. Where messages aren't to be listed the report only counts them, and the lane takes no memory for them.
pub fn publish_feed<S: Source, P: Pass>(
    alloc: Global,
    source: &mut S,
    pass: &mut P,
    listed: bool,
) -> FeedReport
    requires { (limit : ℕ) × P.since pass.old pass.old (no_calls limit) }
    ensures reports { (limit : ℕ) → P.since pass.old pass.old (no_calls limit)
        → (shown : PassState) × P.since pass.old pass.new shown × (shown.limit ≡ limit)
        × Reports (S.state source.old) (S.state source.new) shown result }
    ensures stays { S.stays source.old source.new }
    ensures kept { ListsMessages result listed }
{
    let mut flat = match FlatReader::new(alloc) {
        Ok(flat) => flat,
        Err(_) => return nothing(alloc, listed),
    };
    let mut lane = match Lane::new(alloc, listed) {
        Ok(lane) => lane,
        Err(_) => return nothing(alloc, listed),
    };
    'records: loop {
        match flat.advance(source) {
            FlatStep::Record { op, place: _ } => {
                match lane.take(alloc, flat.tables(), op, flat.content(), pass) {
                    Ok(()) => {}
                    Err(over) => return lane.report(over_end(over)),
                }
            }
            FlatStep::End { offset: _ } => return lane.report(FeedEnd::Done),
            FlatStep::Refused => match flat.into_refusal() {
                Some(why) => return lane.report(FeedEnd::Refused { why }),
                None => unreachable!(),
            },
        }
    }
}
