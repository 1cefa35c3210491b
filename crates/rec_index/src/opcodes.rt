//! The opcodes of the records.

/// The opcode of a Chunk.
pub const CHUNK: u8 = 6;

/// The opcode of a Message Index.
pub const MESSAGE_INDEX: u8 = 7;

/// The opcode of a Chunk Index.
pub const CHUNK_INDEX: u8 = 8;

/// The opcode of an Attachment Index.
pub const ATTACHMENT_INDEX: u8 = 0x0a;

/// The opcode of a Statistics.
pub const STATISTICS: u8 = 0x0b;

/// The opcode of a Metadata Index.
pub const METADATA_INDEX: u8 = 0x0d;

/// The opcode of a Summary Offset.
pub const SUMMARY_OFFSET: u8 = 0x0e;
