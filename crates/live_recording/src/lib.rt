//! Recording while others read: a tape that publishes the blocks of a recording as they stand, and a recording with watchers
//! beside it.
#![tactic(auto)]

mod beside;
pub mod laws;
mod publishing;
mod recording;
mod seats;

pub use publishing::{PublishingTape, last_room};
pub use recording::{WatchedRecording, record_watched};
