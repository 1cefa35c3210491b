//! What is kept of the records of the top level so far.
ghost use Rattle.std.specs.Prelude.{◌≡◌, ◌<◌, ◌∷◌, ◌++◌, [], List};
ghost use Rattle.mcap_model.specs.Places.{Each};
ghost use Rattle.mcap_model.specs.Tops.{Top, offset_behind};
ghost use Rattle.mcap_model.specs.Kept.{reading_limits, Fits};
ghost use Rattle.mcap_model.specs.Made.{top};
ghost use Rattle.mcap_model.specs.Rules.{V6};
ghost use Rattle.file_check.specs.TopRecords.{TopsOf, TopTaken};

use crate::indexed_records::IndexedRecords;
use crate::last_chunk::LastChunk;
use mcap_wire::Memory;
use rec_data::MESSAGE;
use std::alloc::Global;

/// What is kept of the records of the top level: what indexes can repeat, the last chunk, and whether a Message is among them.
#[derive(Drop)]
pub(crate) struct TopRecords {
    pub indexed: IndexedRecords,
    pub last: LastChunk,
    pub has_messages: bool,
}

impl TopRecords {
    pub(crate) fn new(alloc: Global) -> TopRecords
        ensures { TopsOf [] result }
    {
        TopRecords {
            indexed: IndexedRecords::new(alloc),
            last: LastChunk::new(alloc),
            has_messages: false,
        }
    }

    /// Takes the next record, which stands at that offset; or says at which offset V9 fails now. After that, and after a want of
    /// memory, what is kept is of no use.
    pub(crate) fn take(
        &mut self,
        alloc: Global,
        op: u8,
        offset: u64,
        content: &[u8],
    ) -> Result<Option<u64>, Memory>
        requires v6 { V6 (top op content.now) }
        requires chunks { Each (λ s. s.offset < offset) self.old.indexed.chunks.spots }
        requires attachments { Each (λ s. s.offset < offset) self.old.indexed.attachments.spots }
        requires metadata { Each (λ s. s.offset < offset) self.old.indexed.metadata.spots }
        ensures { (tops : List Top) → TopsOf tops self.old → Fits reading_limits tops (top op content.now)
            → offset ≡ offset_behind tops → TopTaken tops (top op content.now) self.new result }
    {
        match self.last.take(alloc, op, offset, content) {
            Ok(None) => {}
            Ok(Some(wrong)) => return Ok(Some(wrong)),
            Err(memory) => return Err(memory),
        }
        let messages = self.last.holds_messages();
        match self.indexed.take(alloc, op, offset, content, messages) {
            Ok(()) => {}
            Err(memory) => return Err(memory),
        }
        if op == MESSAGE {
            self.has_messages = true;
        }
        return Ok(None);
    }
}
