//! What a walk gives, and why it ends before all is given.
use mcap_model::ReadingRefused;

/// A message whose turn it is: when it was logged, the number of its input, the offset of the record of the top level that it
/// is or in which it stands, where the loaded piece begins, and where the message's record begins in that piece.
#[derive(Clone, Copy, Debug, PartialEq, Eq)]
pub struct Turn {
    pub log_time: u64,
    pub input: u32,
    pub offset: u64,
    pub at: u64,
    pub inner: u64,
}

/// Why a walk can't go on.
#[derive(Debug, Drop)]
pub enum WalkRefused {
    /// The bytes that were loaded for the record at that offset of the input can't be those that were surveyed, or another piece
    /// begins where it does.
    Changed { input: u32, offset: u64 },
    /// A piece of the input wasn't loaded: its store failed, or memory lacked.
    Refused { input: u32, why: ReadingRefused },
}
