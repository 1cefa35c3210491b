//! The record Message Index (MCAP specification, "Message Index (op=0x07)").
ghost use Rattle.std.specs.Prelude.{◌≡◌, ◌+◌, ◌^◌, ◌<◌, ◌≤◌, ℕ, List, ◌++◌, length, vec_capacity, IfOk, IfErr, OnOk, OnErr};
ghost use Rattle.mcap_wire.specs.Arrays.{entry_texts};
ghost use Rattle.mcap_wire.specs.Layout.{framed};
ghost use Rattle.mcap_wire.specs.Writing.{LacksRoom};
ghost use Rattle.rec_index.specs.Records.{message_index_opcode, message_index_text, ShowsMessageIndex};
ghost use Rattle.rec_index.specs.RecordReading.{MessageIndexFails};

use crate::opcodes::MESSAGE_INDEX;
use mcap_wire::{
    Bad, EntriesRef, HEAD_LENGTH, Memory, add_entries, add_head, add_u16, at_field, make_room,
    take_entries, take_u16,
};

/// The messages of a channel in the chunk before it: the channel's id, and an array of entries, each the log time of a message in
/// nanoseconds and where it starts in the chunk's records before compression.
#[derive(Drop)]
pub struct MessageIndex<'a> {
    pub channel_id: u16,
    pub entries: EntriesRef<'a>,
}

impl<'a> MessageIndex<'a> {
    /// Reads the fields from a content. Bytes after the last field are allowed.
    pub fn parse(content: &'a [u8]) -> Result<Self, Bad>
        ensures shown { IfOk result (λ i. ShowsMessageIndex content.now
            i.channel_id i.entries) }
        ensures none { OnErr result
            ((channel_id : ℕ) (entries : List (ℕ × ℕ))
            → ShowsMessageIndex content.now
            channel_id entries → ⊥) }
        ensures first_fault { IfErr result (λ bad. MessageIndexFails content.now bad.field bad.why) }
    {
        let (channel_id, at) = at_field(1, take_u16(content, 0))?;
        let (entries, _after) = at_field(2, take_entries(content, at))?;
        Ok(MessageIndex {
            channel_id,
            entries,
        })
    }

    /// Appends the whole record. Memory is lacking only where the vector has no room for it, and then the vector keeps its
    /// bytes.
    pub fn frame(&self, out: &mut Vec<u8>) -> Result<(), Memory>
        requires { length (entry_texts 8 self.now.entries) < 2 ^ 32 }
        ensures ok { OnOk result (out.new.items ≡ out.old.items ++ framed message_index_opcode
            (message_index_text self.now.channel_id self.now.entries)) }
        ensures err { OnErr result (out.new.items ≡ out.old.items) }
        ensures full { OnErr result (LacksRoom out.old
            (15 + length (entry_texts 8 self.now.entries))) }
        ensures capacity { vec_capacity out.old ≤ vec_capacity out.new }
    {
        let len = 6 + self.entries.byte_len();
        make_room(out, HEAD_LENGTH as usize + len)?;
        add_head(out, MESSAGE_INDEX, len as u64);
        add_u16(out, self.channel_id);
        add_entries(out, &self.entries);
        Ok(())
    }
}
