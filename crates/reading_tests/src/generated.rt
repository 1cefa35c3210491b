//! Sums of the messages of generated feeds.
use crate::same::holds_at;
use command_generate::{GeneratedFeed, sum_messages};
use std::alloc::Global;

// A seed, the number of a feed, how many messages it has, and by the generator's definition how many bytes of data these have and
// the total of log times and of all these bytes.
const FEEDS: [(u64, u64, u32, u64, u64); 3] = [
    (0, 0, 0, 0, 0),
    (0, 0, 1, 63, 12_840),
    (7, 0, 1_000, 31_821, 504_548_126),
];

// Whether the sums of a feed are these.
fn sums_are(alloc: Global, seed: u64, feed: u64, messages: u32, bytes: u64, total: u64) -> bool {
    let Ok(mut made) = GeneratedFeed::new(alloc, seed, feed, messages) else {
        return false;
    };
    match sum_messages(alloc, &mut made) {
        Ok(sums) => {
            return sums.messages == messages as u64 && sums.bytes == bytes && sums.total == total;
        }
        Err(_) => return false,
    }
}

#[test]
fn sums_of_generated_feeds_are_those_of_the_generator(rt: HostRuntime) {
    for (seed, feed, messages, bytes, total) in FEEDS {
        holds_at(
            &rt,
            sums_are(rt.alloc(), seed, feed, messages, bytes, total),
            &total,
        );
    }
}
