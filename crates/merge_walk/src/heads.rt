//! The messages in a piece that is loaded.
ghost use Rattle.std.specs.Prelude.{◌↔◌, IsTrue, IsPermutation};
ghost use Rattle.merge_walk.specs.Heads.{OffsetsRise, AreInSpan, HeadBefore, HeadsRise};

use crate::Span;
use mcap_scan::MessageHead;

// Whether a message comes before another.
fn comes_before(one: &MessageHead, other: &MessageHead) -> bool
    ensures { IsTrue result ↔ HeadBefore one.now other.now }
{
    if one.time != other.time {
        return one.time < other.time;
    }
    return one.offset < other.offset;
}

// Whether each message comes before the next.
fn rise(heads: &[MessageHead]) -> bool
    ensures { IsTrue result ↔ HeadsRise heads.now }
{
    'messages: for i in 1..heads.len() {
        if !comes_before(&heads[i - 1], &heads[i]) {
            return false;
        }
    }
    return true;
}

/// Whether all were logged in the times of a span.
pub(crate) fn are_within(heads: &[MessageHead], span: &Span) -> bool
    ensures { IsTrue result ↔ AreInSpan span.now heads.now }
{
    'messages: for i in 0..heads.len() {
        if heads[i].time < span.least || span.greatest < heads[i].time {
            return false;
        }
    }
    return true;
}

/// Puts messages, as they stand, in the order of log time and place. Those that are in order already cost no sort.
pub(crate) fn put_in_order(heads: &mut Vec<MessageHead>)
    requires { OffsetsRise heads.old.items }
    ensures same { IsPermutation heads.old.items heads.new.items }
    ensures rise { HeadsRise heads.new.items }
{
    if rise(heads) {
        return;
    }
    heads.sort_unstable_by_key(|e| (e.time, e.offset));
}
