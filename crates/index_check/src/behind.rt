//! The Message Indexes behind a chunk.
ghost use Rattle.std.specs.Prelude.{◌≡◌, ◌↔◌, ◌∷◌, ◌++◌, ℕ, List, length, IfOk, IsTrue};
ghost use Rattle.rec_index.specs.Records.{message_index_opcode, ShowsMessageIndex};
ghost use Rattle.mcap_model.specs.Tops.{Top};
ghost use Rattle.mcap_model.specs.Whole.{BelongsTo, IsIndexed};
ghost use Rattle.mcap_model.specs.Made.{top};
ghost use Rattle.index_check.specs.Behind.{IsChunkOpen};

use crate::chunk_messages::ChunkMessages;
use crate::entries::are_entries;
use crate::ids::Ids;
use mcap_wire::Memory;
use rec_index::MessageIndex;
use std::alloc::Global;

/// Whether a Message Index is right behind the chunk with these Messages, where the earlier Message Indexes of that chunk
/// are those of these channels: none of them is of its channel, and it has an entry for each Message of its channel.
pub fn is_index_right(
    alloc: Global,
    messages: &ChunkMessages,
    channels: &Ids,
    index: &MessageIndex<'_>,
) -> Result<bool, Memory>
    ensures { IfOk result (λ right. (before : List Top) (content : List ℕ)
        → IsChunkOpen before messages.now channels.now
        → ShowsMessageIndex content index.now.channel_id index.now.entries
        → IsTrue right ↔ BelongsTo before (top message_index_opcode content)) }
{
    if channels.has(index.channel_id) {
        return Ok(false);
    }
    return are_entries(alloc, messages, index.channel_id, &index.entries);
}

/// Whether a chunk with these Messages has the Message Indexes that it needs, where those behind it are those of these
/// channels, and a record of another kind follows: there is none, or each channel with a Message in the chunk has one.
pub fn has_indexes(messages: &ChunkMessages, channels: &Ids) -> bool
    ensures { (before after : List Top) (t : Top) (o : IsChunkOpen before messages.now channels.now)
        → (t.op ≡ message_index_opcode → ⊥)
        → IsTrue result ↔ IsIndexed (before ++ t ∷ after) (length o.others) o.chunk }
{
    if channels.is_empty() {
        return true;
    }
    return messages.are_on(channels);
}
