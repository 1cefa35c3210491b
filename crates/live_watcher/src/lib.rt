//! A watcher of a recording: while the recording goes on it replays what is written so far, each time from the front, and writes
//! how many messages that has and the checksum of their lines; and at the end the lines of all.
#![tactic(auto)]

mod lines;
mod pieces;
mod report;
mod watcher;

pub use report::{WatchEnd, WatchReport};
pub use watcher::{Watched, Watcher};
