//! What a sort answers.
use mcap_model::{ReadingRefused, Stop};

/// What was written: how many messages, and how many Schemas, Channels and Messages in all.
#[derive(Clone, Copy)]
pub struct SortCounts {
    pub messages: u64,
    pub records: u64,
}

/// Why a file wasn't sorted, or not all of it.
#[derive(Drop)]
pub enum SortRefused {
    /// The input wasn't read, or not read again: it isn't a file that is sorted, or it failed.
    Halted { why: ReadingRefused },
    /// What stands at that offset of the input wasn't the same when it was read again.
    Changed { offset: u64 },
    /// The live store failed; the next piece of the file would have passed what a file may hold; or memory lacked, for whatever
    /// it was.
    Stopped { stop: Stop },
}
