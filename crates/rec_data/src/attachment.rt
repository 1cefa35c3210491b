//! The record Attachment (MCAP specification, "Attachment (op=0x09)").
ghost use Rattle.std.specs.Prelude.{◌≡◌, ◌+◌, ◌^◌, ◌<◌, ◌≤◌, ℕ, List, ◌++◌, length, vec_capacity, IfOk, IfErr, OnOk, OnErr};
ghost use Rattle.mcap_wire.specs.Layout.{framed};
ghost use Rattle.mcap_wire.specs.Writing.{LacksRoom};
ghost use Rattle.rec_data.specs.Fields.{AttachmentFields};
ghost use Rattle.rec_data.specs.Parsed.{attachment_fields};
ghost use Rattle.rec_data.specs.Records.{attachment_opcode, ShowsAttachment, CrcStandsAt};
ghost use Rattle.rec_data.specs.RecordReading.{attachment_text, AttachmentFails, HasCrcAt};

use crate::opcodes::ATTACHMENT;
use mcap_wire::{
    Bad, HEAD_LENGTH, Memory, add_bytes64, add_head, add_text, add_u32, add_u64, at_field,
    make_room, take_bytes64, take_text, take_u32, take_u64,
};

/// A file that goes along with the messages: when it was logged and when it was created, both in nanoseconds, its name, its
/// media type, its data, and the CRC-32 of these fields (0 where there is none).
#[derive(Clone, Copy, PartialEq, Eq)]
pub struct Attachment<'a> {
    pub log_time: u64,
    pub create_time: u64,
    pub name: &'a str,
    pub media_type: &'a str,
    pub payload: &'a [u8],
    pub crc: u32,
}

impl<'a> Attachment<'a> {
    /// Reads the fields from a content. Bytes after the last field are allowed.
    pub fn parse(content: &'a [u8]) -> Result<Self, Bad>
        ensures shown { IfOk result (λ a. ShowsAttachment content.now (attachment_fields a)) }
        ensures none { OnErr result ((f : AttachmentFields) → ShowsAttachment content.now f → ⊥) }
        ensures first_fault { IfErr result (λ bad. AttachmentFails content.now bad.field bad.why) }
    {
        match Self::read(content) {
            Ok((attachment, _)) => Ok(attachment),
            Err(bad) => Err(bad),
        }
    }

    // The fields, and the place of the last.
    fn read(content: &'a [u8]) -> Result<(Self, usize), Bad>
        ensures shown { IfOk result (λ r. CrcStandsAt content.now r.1 (attachment_fields r.0)) }
        ensures none { OnErr result ((f : AttachmentFields) → ShowsAttachment content.now f → ⊥) }
        ensures first_fault { IfErr result (λ bad. AttachmentFails content.now bad.field bad.why) }
    {
        let (log_time, at) = at_field(1, take_u64(content, 0))?;
        let (create_time, at) = at_field(2, take_u64(content, at))?;
        let (name, at) = at_field(3, take_text(content, at))?;
        let (media_type, at) = at_field(4, take_text(content, at))?;
        let (payload, at) = at_field(5, take_bytes64(content, at))?;
        let (crc, _after) = at_field(6, take_u32(content, at))?;
        let attachment = Attachment {
            log_time,
            create_time,
            name,
            media_type,
            payload,
            crc,
        };
        Ok((attachment, at))
    }

    /// Appends the whole record. Memory is lacking only where the vector has no room for it, and then the vector keeps its
    /// bytes.
    pub fn frame(&self, out: &mut Vec<u8>) -> Result<(), Memory>
        requires name_fits { length self.now.name.now < 2 ^ 32 }
        requires media_type_fits { length self.now.media_type.now < 2 ^ 32 }
        ensures ok { OnOk result (out.new.items ≡ out.old.items ++ framed attachment_opcode
            (attachment_text (attachment_fields self.now))) }
        ensures err { OnErr result (out.new.items ≡ out.old.items) }
        ensures full { OnErr result (LacksRoom out.old (45 + length self.now.name.now
            + length self.now.media_type.now + length self.now.payload.now)) }
        ensures capacity { vec_capacity out.old ≤ vec_capacity out.new }
    {
        let len = 36 + self.name.len() + self.media_type.len() + self.payload.len();
        make_room(out, HEAD_LENGTH as usize + len)?;
        add_head(out, ATTACHMENT, len as u64);
        add_u64(out, self.log_time);
        add_u64(out, self.create_time);
        add_text(out, self.name);
        add_text(out, self.media_type);
        add_bytes64(out, self.payload);
        add_u32(out, self.crc);
        Ok(())
    }
}

/// The place in a content of an Attachment where its CRC stands, which is that of the bytes in front of it. It is refused
/// where `Attachment::parse` refuses the content, with the same field and reason.
pub fn attachment_crc_place(content: &[u8]) -> Result<usize, Bad>
    ensures place { IfOk result (HasCrcAt content.now) }
    ensures none { OnErr result ((f : AttachmentFields) → ShowsAttachment content.now f → ⊥) }
    ensures first_fault { IfErr result (λ bad. AttachmentFails content.now bad.field bad.why) }
{
    match Attachment::read(content) {
        Ok((_, place)) => Ok(place),
        Err(bad) => Err(bad),
    }
}
