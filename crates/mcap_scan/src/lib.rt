//! Reading a recording once, from its front: a scanner gives the records of the longest good front of an MCAP file, and
//! then says where and why it halted; a walk gives with them those inside chunks, in their places. Each record was checked
//! after those before it. A list of heads is of the records of a chunk that lie in memory.
#![tactic(auto)]

mod answers;
mod first;
mod flat_reader;
mod heads;
mod inside;
mod lent;
mod message_heads;
mod reader;
mod scanner;

pub use answers::{Step, Top};
pub use first::first_record;
pub use flat_reader::{FlatReader, FlatStep};
pub use lent::Lent;
pub use message_heads::{MessageHead, list_heads};
pub use reader::Reader;
pub use scanner::Scanner;
