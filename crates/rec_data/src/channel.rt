//! The record Channel (MCAP specification, "Channel (op=0x04)").
ghost use Rattle.std.specs.Prelude.{◌≡◌, ◌+◌, ◌^◌, ◌<◌, ◌≤◌, ℕ, List, ◌++◌, length, vec_capacity, IfOk, IfErr, OnOk, OnErr};
ghost use Rattle.mcap_wire.specs.Layout.{framed};
ghost use Rattle.mcap_wire.specs.Maps.{pair_texts};
ghost use Rattle.mcap_wire.specs.Writing.{LacksRoom};
ghost use Rattle.rec_data.specs.Fields.{ChannelFields};
ghost use Rattle.rec_data.specs.Parsed.{channel_fields};
ghost use Rattle.rec_data.specs.Records.{channel_opcode, channel_text, ShowsChannel};
ghost use Rattle.rec_data.specs.RecordReading.{ChannelFails};

use crate::opcodes::CHANNEL;
use crate::schema::SchemaDef;
use mcap_wire::{
    Bad, HEAD_LENGTH, Memory, Pairs, PairsRef, Text, add_head, add_pairs, add_text, add_u16,
    at_field, make_room, take_pairs, take_text, take_u16,
};
use std::alloc::Global;

/// A stream of messages: its id, the id of the schema of its messages (0 where they have none), its topic, the encoding of
/// its messages, and a map of texts about it.
#[derive(Debug, Drop)]
pub struct Channel<'a> {
    pub id: u16,
    pub schema_id: u16,
    pub topic: &'a str,
    pub message_encoding: &'a str,
    pub metadata: PairsRef<'a>,
}

/// A channel that is to be written, without its ids, and the schema of its messages, if they have one.
#[derive(Drop, PartialEq, Eq, Hash)]
pub struct ChannelDef {
    pub topic: Text,
    pub message_encoding: Text,
    pub metadata: Pairs,
    pub schema: Option<SchemaDef>,
}

impl ChannelDef {
    /// A copy of a channel.
    pub fn copied(alloc: Global, channel: &ChannelDef) -> Result<ChannelDef, Memory>
        ensures { IfOk result (λ copy. copy ≡ channel.now) }
    {
        let Ok(topic) = Text::copied(alloc, channel.topic.as_str()) else {
            return Err(Memory);
        };
        let Ok(message_encoding) = Text::copied(alloc, channel.message_encoding.as_str()) else {
            return Err(Memory);
        };
        let Ok(metadata) = Pairs::copied(alloc, &channel.metadata) else {
            return Err(Memory);
        };
        match &channel.schema {
            None => return Ok(ChannelDef {
                topic,
                message_encoding,
                metadata,
                schema: None,
            }),
            Some(schema) => match SchemaDef::copied(alloc, schema) {
                Ok(schema) => return Ok(ChannelDef {
                    topic,
                    message_encoding,
                    metadata,
                    schema: Some(schema),
                }),
                Err(memory) => return Err(memory),
            },
        }
    }
}

impl<'a> Channel<'a> {
    /// Reads the fields from a content. Bytes after the last field are allowed.
    pub fn parse(content: &'a [u8]) -> Result<Self, Bad>
        ensures shown { IfOk result (λ c. ShowsChannel content.now c.id (channel_fields c)) }
        ensures none { OnErr result ((id : ℕ) (f : ChannelFields) → ShowsChannel content.now id f → ⊥) }
        ensures first_fault { IfErr result (λ bad. ChannelFails content.now bad.field bad.why) }
    {
        let (id, at) = at_field(1, take_u16(content, 0))?;
        let (schema_id, at) = at_field(2, take_u16(content, at))?;
        let (topic, at) = at_field(3, take_text(content, at))?;
        let (message_encoding, at) = at_field(4, take_text(content, at))?;
        let (metadata, _after) = at_field(5, take_pairs(content, at))?;
        Ok(Channel {
            id,
            schema_id,
            topic,
            message_encoding,
            metadata,
        })
    }

    /// Appends the whole record. Memory is lacking only where the vector has no room for it, and then the vector keeps its
    /// bytes.
    #[inline(never)]
    pub fn frame(&self, out: &mut Vec<u8>) -> Result<(), Memory>
        requires topic_fits { length self.now.topic.now < 2 ^ 32 }
        requires encoding_fits { length self.now.message_encoding.now < 2 ^ 32 }
        requires metadata_fits { length (pair_texts self.now.metadata) < 2 ^ 32 }
        ensures ok { OnOk result (out.new.items ≡ out.old.items ++ framed channel_opcode
            (channel_text self.now.id (channel_fields self.now))) }
        ensures err { OnErr result (out.new.items ≡ out.old.items) }
        ensures full { OnErr result (LacksRoom out.old (25 + length self.now.topic.now
            + length self.now.message_encoding.now + length (pair_texts self.now.metadata))) }
        ensures capacity { vec_capacity out.old ≤ vec_capacity out.new }
    {
        let len = 16 + self.topic.len() + self.message_encoding.len() + self.metadata.byte_len();
        make_room(out, HEAD_LENGTH as usize + len)?;
        add_head(out, CHANNEL, len as u64);
        add_u16(out, self.id);
        add_u16(out, self.schema_id);
        add_text(out, self.topic);
        add_text(out, self.message_encoding);
        add_pairs(out, &self.metadata);
        Ok(())
    }
}
