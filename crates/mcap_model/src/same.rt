//! Whether two declarations of one id have equal fields.
ghost use Rattle.std.specs.Prelude.{◌≡◌, ◌↔◌, ℕ, List, IsTrue, IfOk, IfErr, IsPermutation};
ghost use Rattle.mcap_model.specs.Fields.{SchemaFields, IsSchema, ChannelFields, IsChannel, SameChannel};
ghost use Rattle.mcap_wire.specs.Maps.{KeysAscend};
ghost use Rattle.rec_data.specs.Parsed.{schema_fields, channel_fields};
ghost use Rattle.rec_data.specs.Records.{schema_opcode, channel_opcode};
ghost use Rattle.mcap_model.specs.Made.{top};
ghost use Rattle.mcap_model.specs.WantsOfMemory.{SameButMetadata};

use mcap_wire::{Memory, Pairs, PairsRef, Text};
use rec_data::{Channel, Schema};
use std::alloc::Global;

// Whether two Schemas have equal fields beside their ids.
fn has_fields(first: &Schema<'_>, schema: &Schema<'_>) -> bool
    ensures { IsTrue result ↔ (schema_fields first.now ≡ schema_fields schema.now) }
{
    first.name == schema.name
        && first.encoding == schema.encoding
        && first.payload == schema.payload
}

/// Whether the content shows a Schema with the fields of this one.
pub(crate) fn is_same_schema(content: &[u8], schema: &Schema<'_>) -> bool
    ensures { (id : ℕ) (f : SchemaFields) → IsSchema (top schema_opcode content.now) id f
        → IsTrue result ↔ (f ≡ schema_fields schema.now) }
{
    match Schema::parse(content) {
        Ok(first) => return has_fields(&first, schema),
        Err(_) => return false,
    }
}

// Whether two pairs are the same.
fn is_same_pair(one: &(Text, Text), other: &(Text, Text)) -> bool
    ensures { IsTrue result ↔ (one.now ≡ other.now) }
{
    one.0.is(other.0.as_str()) && one.1.is(other.1.as_str())
}

// Whether two maps have the same pairs in the same order.
fn is_same_list(one: &Pairs, other: &Pairs) -> bool
    ensures same { IsTrue result ↔ (one.now ≡ other.now) }
    ensures order { KeysAscend one.now }
    ensures other_order { KeysAscend other.now }
{
    let pairs = one.as_slice();
    let others = other.as_slice();
    if pairs.len() != others.len() {
        return false;
    }
    for i in 0..pairs.len() {
        if !is_same_pair(&pairs[i], &others[i]) {
            return false;
        }
    }
    true
}

// Whether two maps have the same pairs in some order.
fn is_same_map(alloc: Global, one: &PairsRef<'_>, other: &PairsRef<'_>) -> Result<bool, Memory>
    ensures { IfOk result (λ same. IsTrue same ↔ IsPermutation one.now other.now) }
{
    let pairs = match Pairs::sorted(alloc, one) {
        Ok(pairs) => pairs,
        Err(memory) => return Err(memory),
    };
    let others = match Pairs::sorted(alloc, other) {
        Ok(others) => others,
        Err(memory) => return Err(memory),
    };
    return Ok(is_same_list(&pairs, &others));
}

// Whether two Channels have equal fields beside their ids and their metadata.
fn has_head(first: &Channel<'_>, channel: &Channel<'_>) -> bool
    ensures { IsTrue result
        ↔ ((first.now.schema_id ≡ channel.now.schema_id) × (first.now.topic.now ≡ channel.now.topic.now)
        × (first.now.message_encoding.now ≡ channel.now.message_encoding.now)) }
{
    first.schema_id == channel.schema_id
        && first.topic == channel.topic
        && first.message_encoding == channel.message_encoding
}

/// Whether the content shows a Channel with the fields of this one.
pub(crate) fn is_same_channel(
    alloc: Global,
    content: &[u8],
    channel: &Channel<'_>,
) -> Result<bool, Memory>
    ensures same { IfOk result (λ same. (id : ℕ) (f : ChannelFields) → IsChannel (top channel_opcode content.now) id f
        → IsTrue same ↔ SameChannel f (channel_fields channel.now)) }
    ensures lacks { IfErr result (λ memory. (id : ℕ) (f : ChannelFields)
        → IsChannel (top channel_opcode content.now) id f → SameButMetadata f (channel_fields channel.now)) }
{
    match Channel::parse(content) {
        Ok(first) => {
            if !has_head(&first, channel) {
                return Ok(false);
            }
            match is_same_map(alloc, &first.metadata, &channel.metadata) {
                Ok(same) => return Ok(same),
                Err(memory) => return Err(memory),
            }
        }
        Err(_) => return Ok(false),
    }
}
