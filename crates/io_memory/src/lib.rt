//! The outside in memory, for tests: objects whose bytes contracts see, with a plan of the calls that fail, and a world that
//! lists what was opened and kept.
#![tactic(auto)]

mod memory;
mod memory_world;
mod openings;
mod store_memory;

pub use memory::{
    FailingWrite, MemoryLive, MemorySink, MemorySource, MemoryView, Piece, QuietLive, QuietSource,
};
pub use memory_world::{MemoryWorld, Plan};
pub use openings::{Kept, Opened};
pub use store_memory::{MemoryStore, QuietStore};
