//! What the lane of a feed came to.
use crate::Listing;
use crate::refused_list::Refusals;
use mcap_model::ReadingRefused;
use record_core::CallRefused;

/// A message that was recorded: its number in the feed, and its place among the recorded records.
#[derive(Clone, Copy)]
pub struct Accepted {
    pub index: u64,
    pub place: u64,
}

/// A channel that was declared for a message: the message's number in the feed, the id that the channel got, and the
/// places of the `count` records that the declaration added, from `first`.
#[derive(Clone, Copy)]
pub struct DeclaredAt {
    pub index: u64,
    pub channel: u16,
    pub first: u64,
    pub count: u8,
}

/// A message that was not recorded: its number in the feed, and why.
#[derive(Clone, Copy)]
pub struct Refused {
    pub index: u64,
    pub cause: CallRefused,
}

/// How the reading of a feed ended. Offsets count from the feed's first byte.
#[derive(Drop)]
pub enum FeedEnd {
    /// The Data End was read.
    Done,
    /// The reading was refused, or memory lacked to go on.
    Refused { why: ReadingRefused },
    /// The intake was closed or stopped, and the message at hand was refused for it.
    Ended,
}

/// One feed's part of a recording. The recorded and the refused messages are listed, or only counted.
#[derive(Drop)]
pub struct FeedReport {
    pub accepted: Listing<Accepted>,
    pub declared: Vec<DeclaredAt>,
    pub refused: Refusals,
    /// Attachments, Metadata and unknown records that were passed over, those in chunks too.
    pub passed: u64,
    pub end: FeedEnd,
}
