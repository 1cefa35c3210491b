//! Lines of text of fixed room, so that printing takes no memory.
#![tactic(auto)]

mod line;

pub use line::{LINE_ROOM, Line};
