//! Replay of a file by its index: only the summary, the Message Indexes of the chunks that meet a range of log times, and
//! the messages in the range are read.
#![tactic(auto)]

mod belonging;
mod channels;
mod chunks;
mod entries;
mod fronts;
mod gathering;
pub mod laws;
mod lists;
mod messages;
mod packings;
mod repeats;
mod replaying;
mod spots;

pub use replaying::{replay_indexed, replay_kept};
