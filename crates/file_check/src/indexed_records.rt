//! The records that an index can repeat.
ghost use Rattle.std.specs.Prelude.{◌≡◌, ◌↔◌, ◌+◌, ◌-◌, ◌^◌, ◌<◌, ◌∷◌, ◌++◌, [], min, true, List, length, OnOk};
ghost use Rattle.rec_index.specs.Records.{chunk_opcode, message_index_opcode};
ghost use Rattle.mcap_model.specs.Places.{Each};
ghost use Rattle.mcap_model.specs.Tops.{Top, inner_tops, offset_behind};
ghost use Rattle.mcap_model.specs.Kept.{reading_limits, Fits};
ghost use Rattle.mcap_model.specs.Made.{top};
ghost use Rattle.mcap_model.specs.Rules.{V6};
ghost use Rattle.index_check.specs.Chunks.{HasMessage, EndsWithChunk};
ghost use Rattle.file_check.specs.IndexedRecords.{IndexedOf};

use index_check::{Attachments, Chunks, MetadataList};
use mcap_model::{RecordView, view_record};
use mcap_wire::{HEAD_LENGTH, Memory};
use std::alloc::Global;

/// The chunks of a data section with the Message Indexes behind them, its Attachments and its Metadata records.
#[derive(Drop)]
pub(crate) struct IndexedRecords {
    pub chunks: Chunks,
    pub attachments: Attachments,
    pub metadata: MetadataList,
}

// The length of the whole record of that content.
fn framed_length(content: &[u8]) -> u64
    ensures { result ≡ min (9 + length content.now) (2 ^ 64 - 1) }
{
    HEAD_LENGTH.saturating_add(content.len() as u64)
}

impl IndexedRecords {
    pub(crate) fn new(alloc: Global) -> IndexedRecords
        ensures { IndexedOf [] result }
    {
        IndexedRecords {
            chunks: Chunks::new(alloc),
            attachments: Attachments::new(alloc),
            metadata: MetadataList::new(alloc),
        }
    }

    /// Takes the next record, which stands at that offset; a Message Index behind a chunk alone. Of a chunk it is said whether it
    /// holds a Message. After a want of memory what is kept is of no use.
    pub(crate) fn take(
        &mut self,
        alloc: Global,
        op: u8,
        offset: u64,
        content: &[u8],
        messages: bool,
    ) -> Result<(), Memory>
        requires v6 { V6 (top op content.now) }
        requires chunks { Each (λ s. s.offset < offset) self.old.chunks.spots }
        requires attachments { Each (λ s. s.offset < offset) self.old.attachments.spots }
        requires metadata { Each (λ s. s.offset < offset) self.old.metadata.spots }
        ensures { OnOk result ((tops : List Top) → IndexedOf tops self.old
            → Fits reading_limits tops (top op content.now) → (op ≡ message_index_opcode → EndsWithChunk tops)
            → offset ≡ offset_behind tops
            → (op ≡ chunk_opcode → (messages ≡ true) ↔ HasMessage (inner_tops (top op content.now)))
            → IndexedOf (tops ++ top op content.now ∷ []) self.new) }
    {
        let length = framed_length(content);
        match view_record(op, content) {
            RecordView::Chunk(chunk) => {
                return self.chunks.add(alloc, offset, length, &chunk, messages);
            }
            RecordView::MessageIndex(index) => return self.chunks.add_index(offset, length, &index),
            RecordView::Attachment(attachment) => {
                return self.attachments.add(alloc, offset, length, &attachment);
            }
            RecordView::Metadata(metadata) => {
                return self.metadata.add(alloc, offset, length, &metadata);
            }
            _ => return Ok(()),
        }
    }
}
