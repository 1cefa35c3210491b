//! What a filtering answers.
use mcap_model::{ReadingRefused, Stop};

/// How many messages were picked, and how many records were written with them: these messages with the Schemas and Channels that
/// they need.
#[derive(Clone, Copy, Debug, PartialEq, Eq)]
pub struct Picked {
    pub messages: u64,
    pub records: u64,
}

/// Why no whole file was written.
#[derive(Debug, Drop)]
pub enum PickRefused {
    /// The source wasn't read to its Data End: it failed, breaks a rule, is compressed or passes a limit; or memory lacked beside
    /// the writer's own.
    Refused { why: ReadingRefused },
    /// The writer of the new file stopped: its store failed, the file would pass a limit, or memory lacked.
    Stopped { stop: Stop },
}
