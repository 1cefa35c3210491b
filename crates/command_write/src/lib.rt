//! The commands that read files and write one: `recover`, `filter`, `merge` and `sort`.
#![tactic(auto)]

mod filtered_line;
mod filtering;
mod halting;
mod merged_line;
mod merging;
mod recovered_line;
mod recovering;
mod sorted_line;
mod sorting;

pub use filtering::{Wanted, filter_file};
pub use merging::merge_file;
pub use recovering::recover_file;
pub use sorting::sort_file;
