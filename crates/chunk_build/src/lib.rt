//! The blocks of a recording: Schemas, Channels and Messages are gathered into chunks of a size, and each closed Chunk is given
//! with its Message Indexes behind it (MCAP specification, "Chunk", "Message Index").
#![tactic(auto)]

mod building;
mod chunker;
mod framed;
mod row;

pub use building::Mark;
pub use chunker::Chunker;
pub use framed::{framed_of, mark_of_bytes};
