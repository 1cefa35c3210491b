//! The intake of a recording: a desk that accepts records into a buffer and gives ids by content, and the machine that a
//! recording is.
#![tactic(auto)]

mod answers;
mod desk;
mod framing;
pub mod laws;
mod limits;

pub use answers::{CallRefused, Declared, Empty, Found, NewMessage};
pub use desk::Desk;
pub use framing::declared_size;
pub use limits::{DATA_LIMIT, DECLARATION_LIMIT, RECORD_COUNT_LIMIT};
