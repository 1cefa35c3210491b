//! The record Message (MCAP specification, "Message (op=0x05)").
ghost use Rattle.std.specs.Prelude.{◌≡◌, ◌+◌, ◌<◌, ◌≤◌, ℕ, List, ◌∷◌, ◌++◌, length, take, vec_capacity, IfOk, IfErr, OnOk, OnErr};
ghost use Rattle.mcap_wire.specs.Layout.{le, framed};
ghost use Rattle.mcap_wire.specs.Writing.{LacksRoom};
ghost use Rattle.rec_data.specs.Fields.{MessageFields};
ghost use Rattle.rec_data.specs.Parsed.{message_fields};
ghost use Rattle.rec_data.specs.Records.{message_opcode, message_text, ShowsMessage};
ghost use Rattle.rec_data.specs.RecordReading.{MessageFails};

use crate::opcodes::MESSAGE;
use byteorder::{ByteOrder, LittleEndian};
use mcap_wire::{
    Bad, HEAD_LENGTH, Memory, add_bytes, at_field, make_room, take_u16, take_u32, take_u64,
};

/// A message on a channel: its number on that channel, when it was logged and when it was published, both in nanoseconds,
/// and its data, which is the rest of the content.
#[derive(Clone, Copy, Debug, PartialEq, Eq)]
pub struct Message<'a> {
    pub channel_id: u16,
    pub sequence: u32,
    pub log_time: u64,
    pub publish_time: u64,
    pub payload: &'a [u8],
}

impl<'a> Message<'a> {
    /// Reads the fields from a content. All bytes after the publish time are the data.
    pub fn parse(content: &'a [u8]) -> Result<Self, Bad>
        ensures shown { IfOk result (λ m. ShowsMessage content.now m.channel_id (message_fields m)) }
        ensures none { OnErr result ((channel_id : ℕ) (f : MessageFields)
            → ShowsMessage content.now channel_id f → ⊥) }
        ensures first_fault { IfErr result (λ bad. MessageFails content.now bad.field bad.why) }
    {
        let (channel_id, at) = at_field(1, take_u16(content, 0))?;
        let (sequence, at) = at_field(2, take_u32(content, at))?;
        let (log_time, at) = at_field(3, take_u64(content, at))?;
        let (publish_time, at) = at_field(4, take_u64(content, at))?;
        Ok(Message {
            channel_id,
            sequence,
            log_time,
            publish_time,
            payload: &content[at..],
        })
    }

    /// Appends the whole record. Memory is lacking only where the vector has no room for it, and then the vector keeps its
    /// bytes.
    #[inline(always)]
    pub fn frame(&self, out: &mut Vec<u8>) -> Result<(), Memory>
        ensures ok { OnOk result (out.new.items ≡ out.old.items ++ framed message_opcode
            (message_text self.now.channel_id (message_fields self.now))) }
        ensures err { OnErr result (out.new.items ≡ out.old.items) }
        ensures full { OnErr result (LacksRoom out.old (31 + length self.now.payload.now)) }
        ensures capacity { vec_capacity out.old ≤ vec_capacity out.new }
    {
        let len = 22 + self.payload.len();
        make_room(out, HEAD_LENGTH as usize + len)?;
        add_bytes(out, &self.front(len as u64));
        add_bytes(out, self.payload);
        Ok(())
    }

    // What stands before the data of a record whose content has that length. It is appended in one piece, since each piece
    // looks for its room.
    #[inline(always)]
    fn front(&self, len: u64) -> [u8; 31]
        ensures { result
            ≡ message_opcode
            ∷ (le 8 len ++ (le 2 self.now.channel_id ++ (le 4 self.now.sequence ++ (le 8 self.now.log_time ++ le 8 self.now.publish_time)))) }
    {
        let mut front = [MESSAGE; 31];
        set_u64(&mut front, 1, len);
        set_u16(&mut front, 9, self.channel_id);
        set_u32(&mut front, 11, self.sequence);
        set_u64(&mut front, 15, self.log_time);
        set_u64(&mut front, 23, self.publish_time);
        front
    }
}

// Writes a number of two bytes at a place.
#[inline(always)]
fn set_u16(bytes: &mut [u8], at: usize, value: u16)
    requires { at + 2 ≤ length bytes.old }
    ensures front { take (at + 2) bytes.new ≡ take at bytes.old ++ le 2 value }
    ensures len { length bytes.new ≡ length bytes.old }
{
    LittleEndian::write_u16(&mut bytes[at..], value);
}

// Writes a number of four bytes at a place.
#[inline(always)]
fn set_u32(bytes: &mut [u8], at: usize, value: u32)
    requires { at + 4 ≤ length bytes.old }
    ensures front { take (at + 4) bytes.new ≡ take at bytes.old ++ le 4 value }
    ensures len { length bytes.new ≡ length bytes.old }
{
    LittleEndian::write_u32(&mut bytes[at..], value);
}

// Writes a number of eight bytes at a place.
#[inline(always)]
fn set_u64(bytes: &mut [u8], at: usize, value: u64)
    requires { at + 8 ≤ length bytes.old }
    ensures front { take (at + 8) bytes.new ≡ take at bytes.old ++ le 8 value }
    ensures len { length bytes.new ≡ length bytes.old }
{
    LittleEndian::write_u64(&mut bytes[at..], value);
}
