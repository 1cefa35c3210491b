//! What is kept of a data section.
use crate::chunk_indexes::Chunks;
use crate::extras::{Attachments, MetadataList};
use crate::ids::Ids;
use crate::tally::Tally;
use mcap_model::Tables;

/// What is kept of a data section, up to and with its Data End, for the rules of the whole file: the first Schema and
/// Channel of each id, those in chunks too; what an index repeats; what Statistics count, with the ids in the section for
/// those in the file; the ids of Schemas and of Channels; whether a Message stands outside of chunks; and the offset behind
/// the Data End, in bytes.
#[derive(Drop)]
pub struct Section {
    pub tables: Tables,
    pub chunks: Chunks,
    pub attachments: Attachments,
    pub metadata: MetadataList,
    pub tally: Tally,
    pub schemas: Ids,
    pub channels: Ids,
    pub has_messages: bool,
    pub behind: u64,
}
