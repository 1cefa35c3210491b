//! What a scanner answers.
use mcap_wire::Bytes;

/// What comes next in a file. Offsets are in bytes from the file's front; the content of a record is lent by the scanner.
#[derive(Clone, Copy)]
pub enum Step {
    /// The next record: its opcode, and where it begins.
    Record { op: u8, offset: u64 },
    /// The Data End was given, and this is the offset behind it.
    End { offset: u64 },
    /// The reading was refused, now or before.
    Refused,
}

/// What comes next in a file, with a content of its own.
#[derive(Drop)]
pub enum Top {
    Record { op: u8, offset: u64, content: Bytes },
    /// The offset behind the Data End.
    End { offset: u64 },
}
