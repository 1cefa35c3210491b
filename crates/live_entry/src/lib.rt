//! The blocks of a file that is being written, as readers find them in its store.
#![tactic(auto)]

mod entry;

pub use entry::{Entry, copy_all};
