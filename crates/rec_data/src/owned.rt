//! Records that own what they hold: Schema, Channel, Message, and extras.
ghost use Rattle.std.specs.Prelude.{◌≡◌, ◌≤◌, ◌+◌, ◌++◌, length, true, false, vec_capacity, OnOk, OnErr};
ghost use Rattle.mcap_wire.specs.Layout.{framed};
ghost use Rattle.mcap_wire.specs.Writing.{LacksRoom};
ghost use Rattle.rec_data.specs.Owned.{rec_bytes, IsExtraContent};
ghost use Rattle.rec_data.specs.OwnedReading.{LengthsFit, ContentRead, Unframed, FramedRead};
ghost use Rattle.rec_data.specs.Records.{schema_opcode, channel_opcode, message_opcode};

use crate::attachment::Attachment;
use crate::channel::Channel;
use crate::message::Message;
use crate::metadata::Metadata;
use crate::opcodes::{APPLICATION, ATTACHMENT, CHANNEL, MESSAGE, METADATA, SCHEMA};
use crate::schema::{Schema, SchemaDef};
use mcap_wire::{
    Bytes, HEAD_LENGTH, Head, Memory, PairList, PairsRef, Text, add_bytes, add_head, make_room,
    take_head,
};
use std::alloc::Global;

/// A record of the data section that owns what it holds (MCAP specification, "Schema", "Channel", "Message"); or an
/// extra, which is an Attachment, a Metadata or a record of an application (opcodes from 0x80 on), by its content.
#[derive(Debug, Drop)]
pub enum Rec {
    Schema {
        id: u16,
        schema: SchemaDef,
    },
    Channel {
        id: u16,
        schema_id: u16,
        topic: Text,
        message_encoding: Text,
        metadata: PairList,
    },
    Message {
        channel_id: u16,
        sequence: u32,
        log_time: u64,
        publish_time: u64,
        payload: Bytes,
    },
    Extra {
        op: u8,
        content: Bytes,
    },
}

impl Rec {
    /// Appends the whole record. Memory is lacking only where the vector has no room for it, and then the vector keeps its
    /// bytes.
    pub fn frame(&self, out: &mut Vec<u8>) -> Result<(), Memory>
        requires { LengthsFit self.now }
        ensures ok { OnOk result (out.new.items ≡ out.old.items ++ rec_bytes self.now) }
        ensures err { OnErr result (out.new.items ≡ out.old.items) }
        ensures full { OnErr result (LacksRoom out.old (length (rec_bytes self.now))) }
        ensures capacity { vec_capacity out.old ≤ vec_capacity out.new }
    {
        match self {
            Rec::Schema { id, schema } => {
                let record = Schema {
                    id: *id,
                    name: schema.name.as_str(),
                    encoding: schema.encoding.as_str(),
                    payload: schema.payload.as_slice(),
                };
                return record.frame(out);
            }
            Rec::Channel {
                id,
                schema_id,
                topic,
                message_encoding,
                metadata,
            } => {
                let record = Channel {
                    id: *id,
                    schema_id: *schema_id,
                    topic: topic.as_str(),
                    message_encoding: message_encoding.as_str(),
                    metadata: PairsRef::of(metadata.as_slice()),
                };
                return record.frame(out);
            }
            Rec::Message {
                channel_id,
                sequence,
                log_time,
                publish_time,
                payload,
            } => {
                let record = Message {
                    channel_id: *channel_id,
                    sequence: *sequence,
                    log_time: *log_time,
                    publish_time: *publish_time,
                    payload: payload.as_slice(),
                };
                return record.frame(out);
            }
            Rec::Extra { op, content } => return frame_content(out, *op, content.as_slice()),
        }
    }

    /// The number of bytes of the whole record.
    pub fn framed_len(&self) -> u64
        requires { LengthsFit self.now }
        ensures { result ≡ length (rec_bytes self.now) }
    {
        match self {
            Rec::Schema { schema, .. } => {
                let texts = schema.name.as_str().len() + schema.encoding.as_str().len();
                return (23 + texts + schema.payload.as_slice().len()) as u64;
            }
            Rec::Channel {
                topic,
                message_encoding,
                metadata,
                ..
            } => {
                let texts = topic.as_str().len() + message_encoding.as_str().len();
                return (25 + texts + PairsRef::of(metadata.as_slice()).byte_len()) as u64;
            }
            Rec::Message { payload, .. } => return 31 + payload.as_slice().len() as u64,
            Rec::Extra { content, .. } => return 9 + content.as_slice().len() as u64,
        }
    }

    /// Reads a record that the bytes are, no more and no less. Bytes after a Schema's or Channel's fields are dropped,
    /// those of an extra stay. There is none exactly where the bytes aren't one framed Schema, Channel, Message or extra
    /// whose content meets its layout.
    pub fn from_framed(alloc: Global, bytes: &[u8]) -> Result<Option<Rec>, Memory>
        ensures { FramedRead bytes.now result }
    {
        let Some((op, content)) = unframed(bytes) else {
            return Ok(None);
        };
        match op {
            SCHEMA => return schema_of(alloc, content),
            CHANNEL => return channel_of(alloc, content),
            MESSAGE => return message_of(alloc, content),
            _ => return extra_of(alloc, op, content),
        }
    }
}

// Appends a whole record of that opcode.
fn frame_content(out: &mut Vec<u8>, op: u8, content: &[u8]) -> Result<(), Memory>
    ensures ok { OnOk result (out.new.items ≡ out.old.items ++ framed op content.now) }
    ensures err { OnErr result (out.new.items ≡ out.old.items) }
    ensures full { OnErr result (LacksRoom out.old (9 + length content.now)) }
    ensures capacity { vec_capacity out.old ≤ vec_capacity out.new }
{
    make_room(out, HEAD_LENGTH as usize + content.len())?;
    add_head(out, op, content.len() as u64);
    add_bytes(out, content);
    Ok(())
}

// The opcode and the content of the one record that the bytes are.
fn unframed(bytes: &[u8]) -> Option<(u8, &[u8])>
    ensures { Unframed bytes.now result }
{
    let Head { op, len } = match take_head(bytes, 0) {
        Ok(head) => head,
        Err(_) => return None,
    };
    if len != (bytes.len() - HEAD_LENGTH as usize) as u64 {
        return None;
    }
    return Some((op, &bytes[HEAD_LENGTH as usize..]));
}

// The Schema that a content shows.
fn schema_of(alloc: Global, content: &[u8]) -> Result<Option<Rec>, Memory>
    ensures { ContentRead schema_opcode content.now result }
{
    let schema = match Schema::parse(content) {
        Ok(schema) => schema,
        Err(_) => return Ok(None),
    };
    let Ok(name) = Text::copied(alloc, schema.name) else {
        return Err(Memory);
    };
    let Ok(encoding) = Text::copied(alloc, schema.encoding) else {
        return Err(Memory);
    };
    let Ok(payload) = Bytes::copied(alloc, schema.payload) else {
        return Err(Memory);
    };
    return Ok(Some(Rec::Schema {
        id: schema.id,
        schema: SchemaDef {
            name,
            encoding,
            payload,
        },
    }));
}

// The Channel that a content shows.
fn channel_of(alloc: Global, content: &[u8]) -> Result<Option<Rec>, Memory>
    ensures { ContentRead channel_opcode content.now result }
{
    let channel = match Channel::parse(content) {
        Ok(channel) => channel,
        Err(_) => return Ok(None),
    };
    let Ok(topic) = Text::copied(alloc, channel.topic) else {
        return Err(Memory);
    };
    let Ok(message_encoding) = Text::copied(alloc, channel.message_encoding) else {
        return Err(Memory);
    };
    let Ok(metadata) = PairList::copied(alloc, &channel.metadata) else {
        return Err(Memory);
    };
    return Ok(Some(Rec::Channel {
        id: channel.id,
        schema_id: channel.schema_id,
        topic,
        message_encoding,
        metadata,
    }));
}

// The Message that a content shows.
fn message_of(alloc: Global, content: &[u8]) -> Result<Option<Rec>, Memory>
    ensures { ContentRead message_opcode content.now result }
{
    let message = match Message::parse(content) {
        Ok(message) => message,
        Err(_) => return Ok(None),
    };
    let Ok(payload) = Bytes::copied(alloc, message.payload) else {
        return Err(Memory);
    };
    return Ok(Some(Rec::Message {
        channel_id: message.channel_id,
        sequence: message.sequence,
        log_time: message.log_time,
        publish_time: message.publish_time,
        payload,
    }));
}

// Whether a record of that opcode with that content is an extra.
fn is_extra(op: u8, content: &[u8]) -> bool
    ensures found { result ≡ true → IsExtraContent op content.now }
    ensures none { result ≡ false → IsExtraContent op content.now → ⊥ }
{
    match op {
        ATTACHMENT => match Attachment::parse(content) {
            Ok(_) => return true,
            Err(_) => return false,
        },
        METADATA => match Metadata::parse(content) {
            Ok(_) => return true,
            Err(_) => return false,
        },
        _ => return op >= APPLICATION,
    }
}

// The extra that a content is.
fn extra_of(alloc: Global, op: u8, content: &[u8]) -> Result<Option<Rec>, Memory>
    requires no_schema { op ≡ schema_opcode → ⊥ }
    requires no_channel { op ≡ channel_opcode → ⊥ }
    requires no_message { op ≡ message_opcode → ⊥ }
    ensures { ContentRead op content.now result }
{
    if !is_extra(op, content) {
        return Ok(None);
    }
    let Ok(content) = Bytes::copied(alloc, content) else {
        return Err(Memory);
    };
    return Ok(Some(Rec::Extra { op, content }));
}
