//! A desk that threads share in turns: publishers add records to it, a drain takes them, and a control ends it and knows at
//! the end what all publishers did.
#![tactic(auto)]

mod board;
mod control;
mod doorbell;
mod drain;
mod lane_pass;
pub mod laws;
mod meeting;
mod plays;
mod publisher;
mod rouser;
mod seats;
mod turn;
mod view;

pub use lane_pass::LanePass;
pub use meeting::meet;
pub use seats::{Control, Drain, EndedPass, Publisher, Rouser};
pub use turn::Turn;
