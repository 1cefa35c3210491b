//! The records of a declaration.
ghost use Rattle.std.specs.Prelude.{◌≡◌, ◌≤◌, ◌++◌, ◌∷◌, [], Some};
ghost use Rattle.mcap_wire.specs.Limits.{declaration_limit};
ghost use Rattle.mcap_model.specs.History.{schema_of, channel_of};
ghost use Rattle.record_cache.specs.Offers.{rec_of};
ghost use Rattle.history_ids.specs.DeclarationFields.{fields_of_schema, fields_with, schema_size, declared_size};
ghost use Rattle.rec_data.specs.Owned.{RecFits};
ghost use Rattle.record_cache.specs.KeptRecords.{IsKept};
ghost use Rattle.history_ids.specs.Tables.{id_of, schema_with};
ghost use Rattle.history_ids.specs.DeclarationFits.{SchemaFits, DefFits};
ghost use Rattle.record_core.specs.Sights.{recs_of, FirstFits, SchemaKept, CountedOffer};

use history_ids::id_of;
use id_table::Given;
use mcap_wire::PairsRef;
use rec_data::{Channel, ChannelDef, Schema, SchemaDef};
use record_cache::{Cache, Full, RecRef};

// How many bytes the Schema of a declaration has.
fn schema_size(schema: &Option<SchemaDef>) -> u64
    requires { SchemaFits schema.now }
    ensures size { result ≡ schema_size schema.now }
    ensures small { result ≤ 12884901911 }
{
    match schema {
        None => return 0,
        Some(schema) => {
            let texts = schema.name.as_str().len() + schema.encoding.as_str().len();
            return (23 + texts + schema.payload.as_slice().len()) as u64;
        }
    }
}

/// How many bytes the records of a declaration have.
pub fn declared_size(channel: &ChannelDef) -> u64
    requires { DefFits channel.now }
    ensures { result ≡ declared_size channel.now }
{
    let texts = channel.topic.as_str().len() + channel.message_encoding.as_str().len();
    let pairs = PairsRef::of(channel.metadata.as_slice()).byte_len();
    schema_size(&channel.schema) + (25 + texts + pairs) as u64
}

// The Schema of a declaration.
fn schema_ref<'a>(schema: &'a SchemaDef, id: u16) -> RecRef<'a>
    requires { SchemaFits (Some schema.now) }
    ensures is { rec_of result ≡ schema_of id (fields_of_schema schema.now) }
    ensures fits { RecFits (rec_of result) }
{
    RecRef::Schema(Schema {
        id,
        name: schema.name.as_str(),
        encoding: schema.encoding.as_str(),
        payload: schema.payload.as_slice(),
    })
}

// The Channel of a declaration.
fn channel_ref<'a>(channel: &'a ChannelDef, id: u16, schema_id: u16) -> RecRef<'a>
    requires { DefFits channel.now }
    ensures is { rec_of result ≡ channel_of id (fields_with channel.now schema_id) }
    ensures fits { RecFits (rec_of result) }
{
    RecRef::Channel(Channel {
        id,
        schema_id,
        topic: channel.topic.as_str(),
        message_encoding: channel.message_encoding.as_str(),
        metadata: PairsRef::of(channel.metadata.as_slice()),
    })
}

// Offers a Channel, and its Schema in front of it where there is one.
fn offer_them(
    buffer: &mut Cache,
    schema: Option<RecRef<'_>>,
    channel: RecRef<'_>,
) -> Result<u8, Full>
    requires schema { SchemaKept (recs_of schema) (rec_of channel) }
    requires channel { IsKept (rec_of channel) }
    ensures { CountedOffer buffer.old (recs_of schema.entry ++ rec_of channel.entry ∷ []) result buffer.new }
{
    match schema {
        None => match buffer.offer(channel) {
            Ok(()) => return Ok(1),
            Err(full) => return Err(full),
        },
        Some(schema) => match buffer.offer_two(schema, channel) {
            Ok(()) => return Ok(2),
            Err(full) => return Err(full),
        },
    }
}

// The Schema of a declaration, where its id is new.
fn new_schema_ref<'a>(schema: &'a Option<SchemaDef>, given: &Option<Given>) -> Option<RecRef<'a>>
    requires { SchemaFits schema.now }
    ensures are { recs_of result ≡ schema_with schema.now given.now }
    ensures fits { FirstFits (recs_of result) }
{
    match schema {
        None => return None,
        Some(schema) => match given {
            None => return None,
            Some(Given::Known(_)) => return None,
            Some(Given::New(id)) => return Some(schema_ref(schema, *id)),
        },
    }
}

/// Offers the records of the ids that are new, and counts them.
pub(crate) fn offer_declared(
    buffer: &mut Cache,
    channel: &ChannelDef,
    schema: &Option<Given>,
    id: u16,
) -> Result<u8, Full>
    requires fits { DefFits channel.now }
    requires small { declared_size channel.now ≤ declaration_limit }
    ensures { CountedOffer buffer.old
        (schema_with channel.now.schema schema.now ++ channel_of id (fields_with channel.now (id_of schema.now)) ∷ [])
        result buffer.new }
{
    let first = new_schema_ref(&channel.schema, schema);
    let second = channel_ref(channel, id, id_of(schema));
    offer_them(buffer, first, second)
}
