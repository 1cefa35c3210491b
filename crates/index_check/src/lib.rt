//! The rules of a whole MCAP file that concern its indexes: each is judged by a function of its own, over what is kept of
//! the records that an index tells of.
#![tactic(auto)]

mod behind;
mod chunk_indexes;
mod chunk_messages;
mod entries;
mod extras;
mod ids;
mod order;
mod section;
mod spots;
mod summary_crc;
mod summary_places;
mod tally;

pub use behind::{has_indexes, is_index_right};
pub use chunk_indexes::{ChunkNote, Chunks, IndexNote};
pub use chunk_messages::ChunkMessages;
pub use extras::{AttachmentNote, Attachments, MetadataList, MetadataNote};
pub use ids::Ids;
pub use order::Order;
pub use section::Section;
pub use spots::{Naming, Spot, Spots};
pub use summary_crc::is_crc_right;
pub use summary_places::SummaryPlaces;
pub use tally::{IdCounts, Tally};
