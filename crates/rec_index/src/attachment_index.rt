//! The record Attachment Index (MCAP specification, "Attachment Index (op=0x0A)").
ghost use Rattle.std.specs.Prelude.{◌≡◌, ◌+◌, ◌^◌, ◌<◌, ◌≤◌, ℕ, List, ◌++◌, length, vec_capacity, IfOk, IfErr, OnOk, OnErr};
ghost use Rattle.mcap_wire.specs.Layout.{framed};
ghost use Rattle.mcap_wire.specs.Writing.{LacksRoom};
ghost use Rattle.rec_index.specs.Fields.{AttachmentIndexFields};
ghost use Rattle.rec_index.specs.Parsed.{attachment_index_fields};
ghost use Rattle.rec_index.specs.Records.{attachment_index_opcode, attachment_index_text, ShowsAttachmentIndex};
ghost use Rattle.rec_index.specs.RecordReading.{AttachmentIndexFails};

use crate::opcodes::ATTACHMENT_INDEX;
use mcap_wire::{
    Bad, HEAD_LENGTH, Memory, add_head, add_text, add_u64, at_field, make_room, take_text, take_u64,
};

/// An Attachment of the file: where it starts and how long the whole record is, both in bytes, when it was logged and when
/// it was created, both in nanoseconds, how many bytes its data has, its name and its media type.
#[derive(Clone, Copy, PartialEq, Eq)]
pub struct AttachmentIndex<'a> {
    pub offset: u64,
    pub length: u64,
    pub log_time: u64,
    pub create_time: u64,
    pub data_size: u64,
    pub name: &'a str,
    pub media_type: &'a str,
}

impl<'a> AttachmentIndex<'a> {
    /// Reads the fields from a content. Bytes after the last field are allowed.
    pub fn parse(content: &'a [u8]) -> Result<Self, Bad>
        ensures shown { IfOk result (λ i. ShowsAttachmentIndex content.now (attachment_index_fields i)) }
        ensures none { OnErr result ((f : AttachmentIndexFields) → ShowsAttachmentIndex content.now f → ⊥) }
        ensures first_fault { IfErr result
            (λ bad. AttachmentIndexFails content.now bad.field bad.why) }
    {
        let (offset, at) = at_field(1, take_u64(content, 0))?;
        let (length, at) = at_field(2, take_u64(content, at))?;
        let (log_time, at) = at_field(3, take_u64(content, at))?;
        let (create_time, at) = at_field(4, take_u64(content, at))?;
        let (data_size, at) = at_field(5, take_u64(content, at))?;
        let (name, at) = at_field(6, take_text(content, at))?;
        let (media_type, _after) = at_field(7, take_text(content, at))?;
        Ok(AttachmentIndex {
            offset,
            length,
            log_time,
            create_time,
            data_size,
            name,
            media_type,
        })
    }

    /// Appends the whole record. Memory is lacking only where the vector has no room for it, and then the vector keeps its
    /// bytes.
    pub fn frame(&self, out: &mut Vec<u8>) -> Result<(), Memory>
        requires name_fits { length self.now.name.now < 2 ^ 32 }
        requires media_type_fits { length self.now.media_type.now < 2 ^ 32 }
        ensures ok { OnOk result (out.new.items ≡ out.old.items ++ framed attachment_index_opcode
            (attachment_index_text (attachment_index_fields self.now))) }
        ensures err { OnErr result (out.new.items ≡ out.old.items) }
        ensures full { OnErr result (LacksRoom out.old
            (57 + length self.now.name.now + length self.now.media_type.now)) }
        ensures capacity { vec_capacity out.old ≤ vec_capacity out.new }
    {
        let len = 48 + self.name.len() + self.media_type.len();
        make_room(out, HEAD_LENGTH as usize + len)?;
        add_head(out, ATTACHMENT_INDEX, len as u64);
        add_u64(out, self.offset);
        add_u64(out, self.length);
        add_u64(out, self.log_time);
        add_u64(out, self.create_time);
        add_u64(out, self.data_size);
        add_text(out, self.name);
        add_text(out, self.media_type);
        Ok(())
    }
}
