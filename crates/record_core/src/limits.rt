//! The limits of what an intake accepts.

/// How many bytes of data a message has at most.
pub const DATA_LIMIT: u64 = 32 * 1024 * 1024;

/// How many bytes the framed records of a declaration, a Schema and a Channel, have at most.
pub const DECLARATION_LIMIT: u64 = 1024 * 1024;

/// How many records a recording takes: 2^48.
pub const RECORD_COUNT_LIMIT: u64 = 281_474_976_710_656;
