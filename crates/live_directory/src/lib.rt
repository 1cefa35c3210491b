//! The blocks that a writer has published, as many readers find them while it goes on: one list that only grows, until it is
//! sealed with the writer's end.
#![tactic(auto)]

mod directory;
mod front;
mod naming;
mod note;
mod outbox;
mod raw;
mod reader;
mod shelf;
mod visit;

pub use directory::{Directory, open_directory};
pub use front::{Added, Front};
pub use naming::{Naming, Opened};
pub use note::Note;
pub use reader::Reader;
