//! Writing a file into a live store: its blocks or its records as they come, then its summary. Each piece of the file is one
//! append, and each block that stands in the store is told by an entry.
#![tactic(auto)]

mod body;
mod buffered;
mod extras;
mod limits;
mod next;
mod phase;
mod pieces;
mod plan;
mod scribe;
mod tape;

pub use limits::keep_limit;
pub use live_entry::Entry;
pub use phase::Phase;
pub use scribe::Scribe;
pub use tape::{Finished, Taken, Tape, Written};
