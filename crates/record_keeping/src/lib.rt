//! Keeping what the records of a file show, in a new file that is being written: Schemas and Channels without what declares an id
//! again, Messages, and the extras, which are the Attachments, Metadata and records of applications at top level.
#![tactic(auto)]

mod ending;
mod headers;
mod ids;
mod keeping;

pub use ending::{KeptCounts, Over, end_file};
pub use headers::profile_in;
pub use ids::declare;
pub use keeping::{
    Keeping, keep_channel, keep_lone_message, keep_message, keep_other, keep_record, keep_schema,
    keeping_of,
};
