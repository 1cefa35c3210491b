//! How long the records of a feed's channel are, where it is declared.
ghost use Rattle.std.specs.Prelude.{◌≡◌, ◌<◌, ◌≤◌, ◌^◌, Some, List, length, IfSome};
ghost use Rattle.mcap_wire.specs.Limits.{declaration_limit};
ghost use Rattle.mcap_wire.specs.Maps.{pair_texts};
ghost use Rattle.rec_data.specs.Owned.{rec_bytes};
ghost use Rattle.mcap_model.specs.Tops.{Top};
ghost use Rattle.mcap_model.specs.Declarations.{TablesOf};
ghost use Rattle.mcap_model.specs.History.{channel_of};
ghost use Rattle.history_ids.specs.DeclarationFits.{SchemaFits};
ghost use Rattle.history_ids.specs.DeclarationFields.{schema_size};
ghost use Rattle.history_ids.specs.FeedContents.{definition_of};
ghost use Rattle.feed_lane.specs.Sizes.{shown_by, IsSchemaLength, IsLength};

use mcap_model::Tables;
use rec_data::{Channel, Schema};
use record_core::DECLARATION_LIMIT;

// How many bytes a Schema has.
fn schema_bytes(schema: &Schema<'_>) -> u64
    requires { SchemaFits (Some (definition_of schema.now.name.now schema.now.encoding.now schema.now.payload.now)) }
    ensures size { result
        ≡ schema_size (Some (definition_of schema.now.name.now schema.now.encoding.now schema.now.payload.now)) }
    ensures small { result ≤ 12884901911 }
{
    let texts = schema.name.len() + schema.encoding.len();
    (23 + texts + schema.payload.len()) as u64
}

// How many bytes the Schema of that id has, and none for 0. A channel's schema is always there.
fn schema_len(tables: &Tables, id: u16) -> Option<u64>
    ensures size { IfSome result (λ len. (records : List Top) → TablesOf records tables.now
        → IsSchemaLength records id len) }
    ensures small { IfSome result (λ len. len ≤ 12884901911) }
{
    if id == 0 {
        return Some(0);
    }
    let Some(content) = tables.schemas.find(id) else {
        return None;
    };
    match Schema::parse(content) {
        Ok(schema) => return Some(schema_bytes(&schema)),
        Err(_) => return None,
    }
}

// How many bytes a Channel has.
fn channel_bytes(channel: &Channel<'_>) -> u64
    requires topic { length channel.now.topic.now < 2 ^ 32 }
    requires encoding { length channel.now.message_encoding.now < 2 ^ 32 }
    requires metadata { length (pair_texts channel.now.metadata) < 2 ^ 32 }
    ensures size { result ≡ length (rec_bytes (channel_of 0 (shown_by channel.now))) }
    ensures small { result ≤ 12884901913 }
{
    let texts = channel.topic.len() + channel.message_encoding.len();
    (25 + texts + channel.metadata.byte_len()) as u64
}

/// How many bytes the records of the channel of that id have, where that is more than those of a declaration may have.
/// Nothing is copied for that.
pub(crate) fn excess(tables: &Tables, source: u16) -> Option<u64>
    ensures size { IfSome result (λ len. (records : List Top) → TablesOf records tables.now
        → IsLength records source len) }
    ensures over { IfSome result (λ len. declaration_limit < len) }
{
    let Some(content) = tables.channels.find(source) else {
        return None;
    };
    let channel = match Channel::parse(content) {
        Ok(channel) => channel,
        Err(_) => return None,
    };
    let Some(schema) = schema_len(tables, channel.schema_id) else {
        return None;
    };
    let len = schema + channel_bytes(&channel);
    if len <= DECLARATION_LIMIT {
        return None;
    }
    Some(len)
}
