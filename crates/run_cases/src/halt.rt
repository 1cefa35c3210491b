//! Why a script isn't done to its end.
use std::alloc::{AllocError, AllocFailed};

/// Why a script isn't done to its end: memory failed, or a line says nothing that is known.
#[derive(Drop)]
pub(crate) struct Halt {
    pub why: &'static str,
}

impl From<AllocError> for Halt {
    fn from(_: AllocError) -> Self {
        Halt { why: "no memory" }
    }
}

impl<T: Drop> From<AllocFailed<T>> for Halt {
    fn from(_: AllocFailed<T>) -> Self {
        Halt { why: "no memory" }
    }
}

/// The answer to a line that can't be read.
pub(crate) fn unread<T>(why: &'static str) -> Result<T, Halt> {
    Err(Halt { why })
}
