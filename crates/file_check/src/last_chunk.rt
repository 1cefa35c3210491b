//! The last chunk and the Message Indexes behind it.
ghost use Rattle.std.specs.Prelude.{◌≡◌, ◌↔◌, ◌∷◌, ◌++◌, [], true, false, List, OnOk};
ghost use Rattle.rec_index.specs.Records.{chunk_opcode, message_index_opcode};
ghost use Rattle.mcap_model.specs.Places.{Each};
ghost use Rattle.mcap_model.specs.Tops.{Top, inner_tops, offset_behind};
ghost use Rattle.mcap_model.specs.Fields.{ChunkFields, IsChunk};
ghost use Rattle.mcap_model.specs.Rules.{V6};
ghost use Rattle.mcap_model.specs.Valid.{Keeps};
ghost use Rattle.mcap_model.specs.Whole.{V9};
ghost use Rattle.mcap_model.specs.Made.{top};
ghost use Rattle.index_check.specs.Chunks.{HasMessage};
ghost use Rattle.file_check.specs.LastChunk.{LastOf, LastTaken};
ghost use Rattle.file_check.specs.CutFiles.{IndexFails};

use index_check::{ChunkMessages, Ids, has_indexes, is_index_right};
use mcap_wire::Memory;
use rec_index::{CHUNK, Chunk, MESSAGE_INDEX, MessageIndex};
use std::alloc::Global;

/// The chunk at the end of the records so far, where nothing but Message Indexes stands behind it: its offset in bytes from
/// the file's front, its Messages, and the channels of the Message Indexes.
#[derive(Drop)]
pub(crate) struct LastChunk {
    // Whether there is one.
    is_open: bool,
    offset: u64,
    messages: ChunkMessages,
    channels: Ids,
}

impl LastChunk {
    pub(crate) fn new(alloc: Global) -> LastChunk
        ensures { LastOf [] result }
    {
        LastChunk {
            is_open: false,
            offset: 0,
            messages: ChunkMessages::new(alloc),
            channels: Ids::new(alloc),
        }
    }

    // Whether the chunk lacks a Message Index, now that no more can follow.
    fn lacks_index(&self) -> bool
        ensures lacks { result ≡ true → (tops more : List Top) (t : Top) → LastOf tops self.now
            → (t.op ≡ message_index_opcode → ⊥) → IndexFails (tops ++ t ∷ more) self.now.offset }
        ensures keeps { result ≡ false → (tops : List Top) (t : Top) → LastOf tops self.now
            → (t.op ≡ message_index_opcode → ⊥) → Keeps V9 tops → Keeps V9 (tops ++ t ∷ []) }
    {
        if !self.is_open {
            return false;
        }
        return !has_indexes(&self.messages, &self.channels);
    }

    // Keeps the chunk at that offset in place of the one before.
    fn begin(&mut self, alloc: Global, offset: u64, records: &[u8]) -> Result<(), Memory>
        ensures { OnOk result ((tops : List Top) (t : Top) (f : ChunkFields) → IsChunk t f → f.records ≡ records.now
            → offset ≡ offset_behind tops → LastOf (tops ++ t ∷ []) self.new) }
    {
        match self.messages.refill(records) {
            Ok(()) => {}
            Err(memory) => return Err(memory),
        }
        self.channels = Ids::new(alloc);
        self.offset = offset;
        self.is_open = true;
        return Ok(());
    }

    // Takes the Message Index at that offset, or says that it is wrong.
    fn take_index(
        &mut self,
        alloc: Global,
        offset: u64,
        content: &[u8],
    ) -> Result<Option<u64>, Memory>
        requires { V6 (top message_index_opcode content.now) }
        ensures { (tops : List Top) → LastOf tops self.old → Keeps V9 tops → offset ≡ offset_behind tops
            → LastTaken tops (top message_index_opcode content.now) self.new result }
    {
        if !self.is_open {
            return Ok(Some(offset));
        }
        let index = match MessageIndex::parse(content) {
            Ok(index) => index,
            Err(_) => unreachable!(),
        };
        match is_index_right(alloc, &self.messages, &self.channels, &index) {
            Ok(true) => {}
            Ok(false) => return Ok(Some(offset)),
            Err(memory) => return Err(memory),
        }
        match self.channels.add(index.channel_id) {
            Ok(()) => return Ok(None),
            Err(memory) => return Err(memory),
        }
    }

    /// Whether the chunk holds a Message, where it is the last record and its own records keep the rules on contents.
    pub(crate) fn holds_messages(&self) -> bool
        ensures { (tops : List Top) (t : Top) → LastOf (tops ++ t ∷ []) self.now → t.op ≡ chunk_opcode
            → Each V6 (inner_tops t) → (result ≡ true) ↔ HasMessage (inner_tops t) }
    {
        if self.messages.is_empty() {
            return false;
        }
        return true;
    }

    /// Takes the next record, which stands at that offset; or says where V9 fails now: at a Message Index that is wrong, or at a
    /// chunk that lacks one. After that, and after a want of memory, what is kept is of no use.
    pub(crate) fn take(
        &mut self,
        alloc: Global,
        op: u8,
        offset: u64,
        content: &[u8],
    ) -> Result<Option<u64>, Memory>
        requires { V6 (top op content.now) }
        ensures { (tops : List Top) → LastOf tops self.old → Keeps V9 tops → offset ≡ offset_behind tops
            → LastTaken tops (top op content.now) self.new result }
    {
        if op == MESSAGE_INDEX {
            return self.take_index(alloc, offset, content);
        }
        if self.lacks_index() {
            return Ok(Some(self.offset));
        }
        if op != CHUNK {
            self.is_open = false;
            return Ok(None);
        }
        let chunk = match Chunk::parse(content) {
            Ok(chunk) => chunk,
            Err(_) => unreachable!(),
        };
        match self.begin(alloc, offset, chunk.records) {
            Ok(()) => return Ok(None),
            Err(memory) => return Err(memory),
        }
    }
}
