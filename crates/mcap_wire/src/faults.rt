//! What is cut, the limits of the format, and why a reading is refused.
ghost use Rattle.std.specs.Prelude.{◌≡◌, Ok, Err, IfOk, IfErr};

use std::alloc::{AllocError, AllocFailed};

/// The eight bytes at both ends of a file (MCAP specification, "Magic").
pub const MAGIC: [u8; 8] = [0x89, 0x4d, 0x43, 0x41, 0x50, 0x30, 0x0d, 0x0a];

/// The largest content of a record, in bytes.
pub const CONTENT_LIMIT: u64 = 256 * 1024 * 1024;

/// The longest file, in bytes: 1 TiB.
pub const FILE_LIMIT: u64 = 1_099_511_627_776;

/// The length of a record's head, in bytes: the opcode and the length of the content (MCAP specification, "Records").
pub const HEAD_LENGTH: u64 = 9;

/// Memory ran out.
#[derive(Clone, Copy, Debug, PartialEq, Eq)]
pub struct Memory;

impl From<AllocError> for Memory {
    fn from(_: AllocError) -> Self {
        Memory
    }
}

impl<T: Drop> From<AllocFailed<T>> for Memory {
    fn from(_: AllocFailed<T>) -> Self {
        Memory
    }
}

/// What a record begins with: its opcode and the length of its content.
#[derive(Clone, Copy, PartialEq, Eq)]
pub struct Head {
    pub op: u8,
    pub len: u64,
}

/// Why no head was read.
#[derive(Clone, Copy, PartialEq, Eq)]
pub enum HeadFault {
    /// Fewer than nine bytes stand there.
    Short,
    /// The opcode is 0, which isn't valid.
    ZeroOp,
}

/// A record that was cut: its opcode, and the offsets at which its content begins and ends.
#[derive(Clone, Copy, PartialEq, Eq)]
pub struct Cut {
    pub op: u8,
    pub from: u64,
    pub to: u64,
}

/// Why no record was cut.
#[derive(Clone, Copy, PartialEq, Eq)]
pub enum CutFault {
    /// The head or the content isn't whole.
    Short,
    /// The opcode is 0, which isn't valid.
    ZeroOp,
    /// The content is longer than `CONTENT_LIMIT`.
    TooLong { len: u64 },
}

/// Why a field could not be read.
#[derive(Clone, Copy, Debug, PartialEq, Eq)]
pub enum Why {
    /// The field is cut short.
    Short,
    /// The text isn't UTF-8.
    BadText,
    /// The length of an array or a map is no whole number of items, or bytes stand after the last field where none may.
    BadLength,
    /// A key stands twice in a map.
    DoubleKey,
}

/// The first field of a content that can't be read, counted from 1, and why.
#[derive(Clone, Copy, Debug, PartialEq, Eq)]
pub struct Bad {
    pub field: u8,
    pub why: Why,
}

/// What was read, or the number of the field that can't be.
pub fn at_field<T>(field: u8, read: Result<T, Why>) -> Result<T, Bad>
    ensures ok { IfOk result (λ value. read ≡ Ok value) }
    ensures err { IfErr result (λ bad. (bad.field ≡ field) × (read ≡ Err bad.why)) }
{
    match read {
        Ok(value) => Ok(value),
        Err(why) => Err(Bad { field, why }),
    }
}
