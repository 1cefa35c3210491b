//! Merging files: the messages of all inputs in the order of log time, on channels that are numbered by content.
#![tactic(auto)]

mod answers;
mod checking;
mod extras;
mod framing;
mod gathering;
mod input;
mod joining;
mod marks;
mod merge_file;
mod merge_stores;
mod pen;
mod pieces;
mod profile;
mod reading;
mod schemas;
mod scribe_pen;
mod starting;
mod turns;
mod writing;

pub use answers::{MergeRefused, Merged};
pub use input::{Extra, Holding, Input, hold, hold_nothing, input_of};
pub use merge_stores::merge;
pub use reading::refusal_at;
pub use turns::message_in;
