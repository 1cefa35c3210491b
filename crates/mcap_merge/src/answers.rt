//! What a merge answers.
use mcap_model::{ReadingRefused, Stop};

/// What was merged: how many messages, how many records in all, and the most bytes of chunks and messages that were held at one
/// time.
#[derive(Clone, Copy, Debug, PartialEq, Eq)]
pub struct Merged {
    pub messages: u64,
    pub records: u64,
    pub peak: u64,
}

/// Why files weren't merged. Inputs are numbered from 0.
#[derive(Debug, Drop)]
pub enum MergeRefused {
    /// The input of that number wasn't read, or not read again: it isn't a file that is merged, or it failed.
    Halted { input: u32, why: ReadingRefused },
    /// What stands at that offset of the input wasn't the same when it was read again.
    Changed { input: u32, offset: u64 },
    /// More than 65,535 schemas are used.
    TooManySchemas,
    /// More than 65,535 channels are used.
    TooManyChannels,
    /// The live store failed; the next piece of the file would have passed what a file may hold; or memory lacked, for whatever
    /// it was.
    Stopped { stop: Stop },
}
