//! Places in a replay, by log time.
ghost use Rattle.std.specs.Prelude.{◌≡◌, ◌≤◌, ◌<◌, ◌↔◌, ℕ, length, slice_index};
ghost use Rattle.play_clock.specs.Times.{TimesRise};

use crate::timeline::Timeline;

/// The place of the first message that isn't logged before the time, or how many messages there are.
pub(crate) fn first_from<M: Timeline>(list: &M, time: u64) -> usize
    requires { TimesRise (M.times list.now) }
    ensures within { result ≤ length (M.times list.now) }
    ensures before { (k : ℕ) → k < result → slice_index (M.times list.now) k < time }
    ensures after { (k : ℕ) → result ≤ k → k < length (M.times list.now) → time ≤ slice_index (M.times list.now) k }
{
    let mut low: usize = 0;
    let mut high = list.count();
    'search: while low < high {
        let middle = low + (high - low) / 2;
        if list.log_time(middle) < time {
            low = middle + 1;
        } else {
            high = middle;
        }
    }
    return low;
}

/// The place of the first message from that place on that is logged after the time, or how many messages there are. It looks at
/// no message after that one.
pub(crate) fn first_after<M: Timeline>(list: &M, from: usize, time: u128) -> usize
    requires { TimesRise (M.times list.now) }
    ensures from { from ≤ result }
    ensures within { from ≤ length (M.times list.now) → result ≤ length (M.times list.now) }
    ensures before { (k : ℕ) → from ≤ k → k < result → slice_index (M.times list.now) k ≤ time }
    ensures after { (k : ℕ) → result ≤ k → k < length (M.times list.now) → time < slice_index (M.times list.now) k }
{
    let count = list.count();
    if count < from {
        return from;
    }
    'later: for place in from..count {
        if time < u128::from(list.log_time(place)) {
            return place;
        }
    }
    return count;
}
