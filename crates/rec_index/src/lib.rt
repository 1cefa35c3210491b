//! The records of an MCAP file that lead to others: chunks, indexes and the offsets of the summary. Each is parsed from a
//! record's content, and framed onto the end of a vector.
#![tactic(auto)]

mod attachment_index;
mod chunk;
mod chunk_index;
pub mod laws;
mod message_index;
mod metadata_index;
mod opcodes;
mod summary_offset;
mod summary_statistics;

pub use attachment_index::AttachmentIndex;
pub use chunk::Chunk;
pub use chunk_index::ChunkIndex;
pub use message_index::MessageIndex;
pub use metadata_index::MetadataIndex;
pub use opcodes::{
    ATTACHMENT_INDEX, CHUNK, CHUNK_INDEX, MESSAGE_INDEX, METADATA_INDEX, STATISTICS, SUMMARY_OFFSET,
};
pub use summary_offset::SummaryOffset;
pub use summary_statistics::Statistics;
