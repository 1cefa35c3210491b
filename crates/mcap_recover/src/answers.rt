//! What a recovery answers.
use mcap_model::{ReadingRefused, Stop};

/// Why the reading stopped: its Data End was read; the bytes end within a record; a rule is broken; a chunk is compressed; or a
/// limit is passed.
#[derive(Clone, Copy, Debug, PartialEq, Eq)]
pub enum Why {
    Complete,
    Short,
    Grammar,
    Compressed,
    Limit,
}

/// What was recovered: how many Schemas, Channels and Messages, how many of these are Messages, and how many extras, which are
/// Attachments, Metadata and records of applications (opcodes from 0x80) at top level. Then where the reading stopped, in bytes from
/// the source's front, at a record or after the Data End; and why it stopped there.
#[derive(Clone, Copy, Debug, PartialEq, Eq)]
pub struct Recovered {
    pub messages: u64,
    pub records: u64,
    pub extras: u64,
    pub at: u64,
    pub why: Why,
}

/// Why nothing is recovered, or not all.
#[derive(Debug, Drop)]
pub enum RecoverRefused {
    /// The source doesn't begin with the magic.
    NoMagic,
    /// The source failed, with its count of faults; or memory lacked before the writer began or while the source was read. What
    /// else halts a reading ends a recovery well.
    Refused { why: ReadingRefused },
    /// The writer of the new file stopped: its store failed, the file would pass a limit, or memory lacked.
    Stopped { stop: Stop },
}
