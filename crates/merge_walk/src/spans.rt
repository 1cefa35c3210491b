//! Where messages stand in an input, and when they were logged.

/// A record of an input that is a Message, or a chunk in which there are some: the offset at which it stands; the bytes that
/// are read again for its messages, which are the records of the chunk, or the whole Message; how many messages there are; the
/// least and the greatest log time; and whether no message was logged before one that stands in front of it.
#[derive(Clone, Copy, Debug, PartialEq, Eq)]
pub struct Span {
    pub offset: u64,
    pub at: u64,
    pub length: u64,
    pub messages: u32,
    pub least: u64,
    pub greatest: u64,
    pub in_order: bool,
}
