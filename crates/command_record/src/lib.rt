//! The command `record`: its names, its report, and how it ends.
#![tactic(auto)]

mod answering;
pub mod laws;
mod print;
mod recording;
mod sinks;
mod watched_answer;
mod watched_names;

pub use print::print_report;
pub use recording::{Ended, RecordingReport, record_file};
pub use watched_answer::{WatchedCounts, WatchedFailures, answer_watched, failed_watched_parts};
pub use watched_names::WatchedOutcome;
