//! The opcodes of the records.

/// The opcode of a Header.
pub const HEADER: u8 = 1;

/// The opcode of a Footer.
pub const FOOTER: u8 = 2;

/// The opcode of a Schema.
pub const SCHEMA: u8 = 3;

/// The opcode of a Channel.
pub const CHANNEL: u8 = 4;

/// The opcode of a Message.
pub const MESSAGE: u8 = 5;

/// The opcode of an Attachment.
pub const ATTACHMENT: u8 = 9;

/// The opcode of a Metadata.
pub const METADATA: u8 = 0x0c;

/// The opcode of a Data End.
pub const DATA_END: u8 = 0x0f;

/// The first of the opcodes that applications give to records of their own.
pub const APPLICATION: u8 = 0x80;
