//! Recording feeds into a file: a lane reads each of them and publishes into the intake, the intake's records go to a tape
//! beside the lanes, and the report says what became of each message.
#![tactic(auto)]

mod findings;
mod lanes;
pub mod laws;
mod recording;
mod report;
mod rousing;
mod unopened;
mod writer;

pub use feed_lane::{Accepted, DeclaredAt, FeedEnd, FeedReport, Listing, Refusals, Refused};
pub use findings::{has_limit, names_memory};
pub use record_core::CallRefused;
pub use recording::{
    Onto, Ran, Ready, Recording, Room, make_ready, make_room, record, record_onto,
};
pub use report::{Report, WriterReport};
pub use unopened::Unwritten;
