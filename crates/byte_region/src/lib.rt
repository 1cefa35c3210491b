//! Bytes in room that is reserved once: what fits is added without asking for memory.
#![tactic(auto)]

mod encode;
mod region;

pub use encode::Encode;
pub use region::Region;
