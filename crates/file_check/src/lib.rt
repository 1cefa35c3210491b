//! Checking a whole MCAP file by the rules of the format. Of its data section is kept what an index repeats and what Statistics
//! count, and the Message Indexes behind each chunk are judged as it is read.
#![tactic(auto)]

mod checking;
mod ends;
mod flaws;
mod gathering;
mod indexed_records;
mod last_chunk;
pub mod laws;
mod message_counts;
mod reading;
mod record_counts;
mod top_records;
mod unended;
mod whole;

pub use whole::check;
