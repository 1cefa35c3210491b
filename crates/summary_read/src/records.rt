//! The records that stand in a summary, judged one by one.
ghost use Rattle.std.specs.Prelude.{◌≡◌, ◌↔◌, ℕ, List, IsTrue};
ghost use Rattle.rec_data.specs.Records.{schema_opcode, channel_opcode};
ghost use Rattle.rec_index.specs.Records.{chunk_index_opcode, attachment_index_opcode, statistics_opcode, metadata_index_opcode, summary_offset_opcode};
ghost use Rattle.mcap_model.specs.Fields.{SchemaFields, IsSchema, ChannelFields, IsChannel, ChunkIndexFields, IsChunkIndex, AttachmentIndexFields, IsAttachmentIndex, StatisticsFields, IsStatistics, IsMetadataIndex, IsSummaryOffset};
ghost use Rattle.mcap_model.specs.Made.{top};
ghost use Rattle.summary_read.specs.Steps.{Judged};

use mcap_model::Rule;
use rec_data::{CHANNEL, Channel, SCHEMA, Schema};
use rec_index::{
    ATTACHMENT_INDEX, AttachmentIndex, CHUNK_INDEX, ChunkIndex, METADATA_INDEX, MetadataIndex,
    STATISTICS, SUMMARY_OFFSET, Statistics, SummaryOffset,
};

// Whether the content is that of a Schema, whose id isn't 0.
fn is_schema(content: &[u8]) -> bool
    ensures { IsTrue result ↔ ((id : ℕ) × (f : SchemaFields) × IsSchema (top schema_opcode content.now) id f) }
{
    match Schema::parse(content) {
        Ok(schema) => {
            if schema.id == 0 {
                return false;
            }
            return true;
        }
        Err(_) => return false,
    }
}

// Whether the content is that of a Channel.
fn is_channel(content: &[u8]) -> bool
    ensures { IsTrue result ↔ ((id : ℕ) × (f : ChannelFields) × IsChannel (top channel_opcode content.now) id f) }
{
    match Channel::parse(content) {
        Ok(_) => return true,
        Err(_) => return false,
    }
}

// Whether the content is that of a Chunk Index.
fn is_chunk_index(content: &[u8]) -> bool
    ensures { IsTrue result ↔ ((f : ChunkIndexFields) × IsChunkIndex (top chunk_index_opcode content.now) f) }
{
    match ChunkIndex::parse(content) {
        Ok(_) => return true,
        Err(_) => return false,
    }
}

// Whether the content is that of an Attachment Index.
fn is_attachment_index(content: &[u8]) -> bool
    ensures { IsTrue result
        ↔ ((f : AttachmentIndexFields) × IsAttachmentIndex (top attachment_index_opcode content.now) f) }
{
    match AttachmentIndex::parse(content) {
        Ok(_) => return true,
        Err(_) => return false,
    }
}

// Whether the content is that of a Statistics.
fn is_statistics(content: &[u8]) -> bool
    ensures { IsTrue result ↔ ((f : StatisticsFields) × IsStatistics (top statistics_opcode content.now) f) }
{
    match Statistics::parse(content) {
        Ok(_) => return true,
        Err(_) => return false,
    }
}

// Whether the content is that of a Metadata Index.
fn is_metadata_index(content: &[u8]) -> bool
    ensures { IsTrue result
        ↔ ((offset size : ℕ) × (name : List ℕ) × IsMetadataIndex (top metadata_index_opcode content.now) offset size name) }
{
    match MetadataIndex::parse(content) {
        Ok(_) => return true,
        Err(_) => return false,
    }
}

// Whether the content is that of a Summary Offset.
fn is_summary_offset(content: &[u8]) -> bool
    ensures { IsTrue result
        ↔ ((op offset size : ℕ) × IsSummaryOffset (top summary_offset_opcode content.now) op offset size) }
{
    match SummaryOffset::parse(content) {
        Ok(_) => return true,
        Err(_) => return false,
    }
}

/// The rule that a record breaks: V5 where it is none that stands in a summary, V6 where its content can't be read.
pub fn breaks(op: u8, content: &[u8]) -> Option<Rule>
    ensures { Judged (top op content.now) result }
{
    let readable = match op {
        SCHEMA => is_schema(content),
        CHANNEL => is_channel(content),
        CHUNK_INDEX => is_chunk_index(content),
        ATTACHMENT_INDEX => is_attachment_index(content),
        STATISTICS => is_statistics(content),
        METADATA_INDEX => is_metadata_index(content),
        SUMMARY_OFFSET => is_summary_offset(content),
        16..=255 => true,
        _ => return Some(Rule::V5),
    };
    if readable {
        return None;
    }
    return Some(Rule::V6);
}
