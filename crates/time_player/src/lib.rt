//! Playing a recording back: the messages of a range of log times, and of a topic if one is asked for, in the order of log
//! time and place; and the lines that are printed of them. The messages that are kept for it have their payloads one behind
//! the other in one vector.
#![tactic(auto)]

mod asking;
mod hex;
mod keeping;
mod kept;
mod lent;
mod line;
mod lines;
mod messages;
mod pieces;
mod printer;
mod replay;
mod replaying;
mod store_part;
mod timed_lines;
mod topics;

pub use kept::Kept;
pub use lent::{Lent, lend};
pub use line::add_line;
pub use lines::cat_text;
pub use printer::Printer;
pub use replay::KeptReplay;
pub use replaying::{replay_lines, replay_scan, replay_timed};
pub use timed_lines::{Stretch, TimedLines};
pub use topics::topics_of_kept;
