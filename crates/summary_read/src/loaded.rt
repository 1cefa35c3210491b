//! A summary that was loaded.
ghost use Rattle.std.specs.Prelude.{◌≡◌, ◌<◌, length};
ghost use Rattle.rec_data.specs.Parsed.{header_fields, schema_fields, channel_fields};
ghost use Rattle.rec_data.specs.Records.{ShowsHeader};
ghost use Rattle.rec_index.specs.Parsed.{chunk_index_fields, attachment_index_fields};
ghost use Rattle.mcap_model.specs.Places.{At};
ghost use Rattle.mcap_model.specs.Fields.{IsSchema, IsChannel, IsChunkIndex, IsAttachmentIndex, IsMetadataIndex, IsSummaryOffset};
ghost use Rattle.summary_read.specs.PartSteps.{AreInside, IsContentAt, IsSuchAt, GivesStatistics};

use mcap_wire::{Cut, HEAD_LENGTH};
use rec_data::{Channel, Footer, Header, Schema};
use rec_index::{AttachmentIndex, ChunkIndex, MetadataIndex, Statistics, SummaryOffset};
use std::marker::Model;

/// What was loaded of a file: its Header, its Footer, and the known records of its summary, of several Statistics the
/// first. Each list is in the order of the file. Contracts see the records.
#[derive(Drop)]
pub struct Loaded {
    pub(crate) header: Vec<u8>,
    pub(crate) footer: Footer,
    pub(crate) summary: Vec<u8>,
    pub(crate) statistics: Vec<Cut>,
    pub(crate) schemas: Vec<Cut>,
    pub(crate) channels: Vec<Cut>,
    pub(crate) chunk_indexes: Vec<Cut>,
    pub(crate) attachment_indexes: Vec<Cut>,
    pub(crate) metadata_indexes: Vec<Cut>,
    pub(crate) summary_offsets: Vec<Cut>,
}

impl Model for Loaded {
    ghost use Rattle.std.specs.Prelude.{◌+◌, ◌^◌, ◌<◌, length, slice_get};
    ghost use Rattle.rec_data.specs.Records.{header_opcode, schema_opcode, channel_opcode};
    ghost use Rattle.rec_index.specs.Records.{chunk_index_opcode, attachment_index_opcode, statistics_opcode, metadata_index_opcode, summary_offset_opcode};
    ghost use Rattle.mcap_model.specs.Fields.{IsHeader};
    ghost use Rattle.mcap_model.specs.Made.{top};
    ghost use Rattle.summary_read.specs.Parts.{Parts};
    ghost use Rattle.summary_read.specs.PartSteps.{AreHeld, offsets_of, cut_tops};

    ghost Value = { Parts };

    ghost view = { λ l. record {
      header = top header_opcode l.header.items;
      footer = l.footer;
      statistics = slice_get (cut_tops l.summary.items l.statistics.items) 0;
      schemas = cut_tops l.summary.items l.schemas.items;
      channels = cut_tops l.summary.items l.channels.items;
      chunk_indexes = cut_tops l.summary.items l.chunk_indexes.items;
      chunk_index_offsets = offsets_of l.footer.summary_start l.chunk_indexes.items;
      attachment_indexes = cut_tops l.summary.items l.attachment_indexes.items;
      metadata_indexes = cut_tops l.summary.items l.metadata_indexes.items;
      summary_offsets = cut_tops l.summary.items l.summary_offsets.items;
    } };

    ghost invariant = { λ l. IsHeader (top header_opcode l.header.items)
        × AreHeld l.summary.items statistics_opcode l.statistics.items
        × AreHeld l.summary.items schema_opcode l.schemas.items
        × AreHeld l.summary.items channel_opcode l.channels.items
        × AreHeld l.summary.items chunk_index_opcode l.chunk_indexes.items
        × AreHeld l.summary.items attachment_index_opcode l.attachment_indexes.items
        × AreHeld l.summary.items metadata_index_opcode l.metadata_indexes.items
        × AreHeld l.summary.items summary_offset_opcode l.summary_offsets.items
        × (l.footer.summary_start + length l.summary.items < 2 ^ 64) };
}

// The content of the record at that place among those that were cut.
fn content_at<'a>(bytes: &'a [u8], cuts: &[Cut], i: usize) -> &'a [u8]
    requires within { i < length cuts.now }
    requires inside { AreInside bytes.now cuts.now }
    ensures { IsContentAt bytes.now cuts.now i result.now }
{
    let cut = cuts[i];
    &bytes[cut.from as usize..cut.to as usize]
}

impl Loaded {
    /// The Header.
    pub fn header(&self) -> Header<'_>
        ensures { ShowsHeader self.now.header.content (header_fields result) }
    {
        match Header::parse(&self.header) {
            Ok(parsed) => return parsed,
            Err(_) => unreachable!(),
        }
    }

    /// The Footer.
    pub fn footer(&self) -> Footer
        ensures { result ≡ self.now.footer }
    {
        self.footer
    }

    /// The first Statistics, if there is one.
    pub fn statistics(&self) -> Option<Statistics<'_>>
        ensures { GivesStatistics self.now.statistics result }
    {
        if self.statistics.is_empty() {
            return None;
        }
        match Statistics::parse(content_at(&self.summary, &self.statistics, 0)) {
            Ok(parsed) => return Some(parsed),
            Err(_) => unreachable!(),
        }
    }

    /// How many Schemas there are.
    pub fn schemas(&self) -> usize
        ensures { result ≡ length self.now.schemas }
    {
        self.schemas.len()
    }

    /// The Schema at that place.
    pub fn schema(&self, i: usize) -> Schema<'_>
        requires { i < length self.now.schemas }
        ensures { IsSuchAt self.now.schemas i (λ t. IsSchema t result.id (schema_fields result)) }
    {
        match Schema::parse(content_at(&self.summary, &self.schemas, i)) {
            Ok(parsed) => return parsed,
            Err(_) => unreachable!(),
        }
    }

    /// How many Channels there are.
    pub fn channels(&self) -> usize
        ensures { result ≡ length self.now.channels }
    {
        self.channels.len()
    }

    /// The Channel at that place.
    pub fn channel(&self, i: usize) -> Channel<'_>
        requires { i < length self.now.channels }
        ensures { IsSuchAt self.now.channels i (λ t. IsChannel t result.id (channel_fields result)) }
    {
        match Channel::parse(content_at(&self.summary, &self.channels, i)) {
            Ok(parsed) => return parsed,
            Err(_) => unreachable!(),
        }
    }

    /// How many Chunk Indexes there are.
    pub fn chunk_indexes(&self) -> usize
        ensures { result ≡ length self.now.chunk_indexes }
    {
        self.chunk_indexes.len()
    }

    /// The Chunk Index at that place.
    pub fn chunk_index(&self, i: usize) -> ChunkIndex<'_>
        requires { i < length self.now.chunk_indexes }
        ensures { IsSuchAt self.now.chunk_indexes i (λ t. IsChunkIndex t (chunk_index_fields result)) }
    {
        match ChunkIndex::parse(content_at(&self.summary, &self.chunk_indexes, i)) {
            Ok(parsed) => return parsed,
            Err(_) => unreachable!(),
        }
    }

    /// The offset in the file of the Chunk Index at that place.
    pub fn chunk_index_offset(&self, i: usize) -> u64
        requires { i < length self.now.chunk_indexes }
        ensures { At self.now.chunk_index_offsets i result }
    {
        self.footer.summary_start + (self.chunk_indexes[i].from - HEAD_LENGTH)
    }

    /// How many Attachment Indexes there are.
    pub fn attachment_indexes(&self) -> usize
        ensures { result ≡ length self.now.attachment_indexes }
    {
        self.attachment_indexes.len()
    }

    /// The Attachment Index at that place.
    pub fn attachment_index(&self, i: usize) -> AttachmentIndex<'_>
        requires { i < length self.now.attachment_indexes }
        ensures { IsSuchAt self.now.attachment_indexes i (λ t. IsAttachmentIndex t (attachment_index_fields result)) }
    {
        match AttachmentIndex::parse(content_at(&self.summary, &self.attachment_indexes, i)) {
            Ok(parsed) => return parsed,
            Err(_) => unreachable!(),
        }
    }

    /// How many Metadata Indexes there are.
    pub fn metadata_indexes(&self) -> usize
        ensures { result ≡ length self.now.metadata_indexes }
    {
        self.metadata_indexes.len()
    }

    /// The Metadata Index at that place.
    pub fn metadata_index(&self, i: usize) -> MetadataIndex<'_>
        requires { i < length self.now.metadata_indexes }
        ensures { IsSuchAt self.now.metadata_indexes i (λ t. IsMetadataIndex t result.offset result.length
            result.name.now) }
    {
        match MetadataIndex::parse(content_at(&self.summary, &self.metadata_indexes, i)) {
            Ok(parsed) => return parsed,
            Err(_) => unreachable!(),
        }
    }

    /// How many Summary Offsets there are.
    pub fn summary_offsets(&self) -> usize
        ensures { result ≡ length self.now.summary_offsets }
    {
        self.summary_offsets.len()
    }

    /// The Summary Offset at that place.
    pub fn summary_offset(&self, i: usize) -> SummaryOffset
        requires { i < length self.now.summary_offsets }
        ensures { IsSuchAt self.now.summary_offsets i (λ t. IsSummaryOffset t result.group_opcode result.group_start
            result.group_length) }
    {
        match SummaryOffset::parse(content_at(&self.summary, &self.summary_offsets, i)) {
            Ok(parsed) => return parsed,
            Err(_) => unreachable!(),
        }
    }
}
