//! Sorting: the messages of a file are written as a new file in the order of log time and place, each with what it needs.
#![tactic(auto)]

mod answers;
mod declaring;
mod gathering;
mod laws;
mod putting;
mod reading;
mod sorting;
mod turns;

pub use answers::{SortCounts, SortRefused};
pub use gathering::Gathered;
pub use laws::{messages_are_replayed, sorted_files_stay_so};
pub use putting::{put_extras, put_message};
pub use reading::read_store;
pub use sorting::sort;
pub use turns::put_turns;
