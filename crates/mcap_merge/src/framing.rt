//! Records of a merge by their framed bytes.
ghost use Rattle.std.specs.Prelude.{◌≡◌, Some, OnOk};
ghost use Rattle.mcap_model.specs.History.{schema_of, channel_of, message_of};
ghost use Rattle.rec_data.specs.Owned.{RecFits};
ghost use Rattle.rec_data.specs.Parsed.{message_fields};
ghost use Rattle.chunk_build.specs.Chunker.{AreInner};
ghost use Rattle.history_ids.specs.DeclarationFields.{fields_of_schema, fields_with};
ghost use Rattle.history_ids.specs.DeclarationFits.{SchemaFits, DefFits};

use mcap_wire::{Memory, PairsRef};
use rec_data::{Channel, ChannelDef, Message, Schema, SchemaDef};

/// The Schema of that content, in place of what the vector held.
pub(crate) fn frame_schema(framed: &mut Vec<u8>, schema: &SchemaDef, id: u16) -> Result<(), Memory>
    requires { SchemaFits (Some schema.now) }
    ensures { OnOk result (AreInner framed.new.items (schema_of id (fields_of_schema schema.now))) }
{
    framed.clear();
    Schema {
        id,
        name: schema.name.as_str(),
        encoding: schema.encoding.as_str(),
        payload: schema.payload.as_slice(),
    }
    .frame(framed)
}

/// The Channel of that content, in place of what the vector held.
pub(crate) fn frame_channel(
    framed: &mut Vec<u8>,
    channel: &ChannelDef,
    id: u16,
    schema_id: u16,
) -> Result<(), Memory>
    requires { DefFits channel.now }
    ensures { OnOk result (AreInner framed.new.items (channel_of id (fields_with channel.now schema_id))) }
{
    framed.clear();
    Channel {
        id,
        schema_id,
        topic: channel.topic.as_str(),
        message_encoding: channel.message_encoding.as_str(),
        metadata: PairsRef::of(channel.metadata.as_slice()),
    }
    .frame(framed)
}

/// The message on another channel, in place of what the vector held.
#[inline(always)]
pub(crate) fn frame_message(
    framed: &mut Vec<u8>,
    channel: u16,
    message: &Message<'_>,
) -> Result<(), Memory>
    ensures { OnOk result (AreInner framed.new.items (message_of channel (message_fields message.now))) }
{
    framed.clear();
    Message {
        channel_id: channel,
        sequence: message.sequence,
        log_time: message.log_time,
        publish_time: message.publish_time,
        payload: message.payload,
    }
    .frame(framed)
}
