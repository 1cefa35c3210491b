//! Feeds that are made from a number while they are read, recording them into a file, reading it back and printing sums of its
//! messages.
#![tactic(auto)]

mod adding;
mod back;
mod feed;
mod feed_laws;
mod generating;
mod generator;
mod laws;
mod line;
mod making;
mod summing;
mod sums;

pub use back::{Back, Summing};
pub use feed::GeneratedFeed;
pub use feed_laws::generated_feeds_are_read;
pub use generating::{Generated, generate_file};
pub use laws::generated_sums_are_told;
pub use making::{Numbers, Written, write_generated};
pub use summing::sum_messages;
pub use sums::Sums;
