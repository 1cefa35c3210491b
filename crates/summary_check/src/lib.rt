//! The records behind the Data End of an MCAP file, judged by the rules of the whole file.
#![tactic(auto)]

mod channels;
mod closing;
mod counting;
mod cutting;
mod declarations;
mod flaws;
mod indexing;
mod judging;
mod kinds;
mod offsets;
mod ordering;
mod records;
mod repeats;
mod statistics;
mod summary;
mod told;

pub use judging::judge_summary;
pub use repeats::are_repeated;
