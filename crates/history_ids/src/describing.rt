//! What a channel of a feed is as it is declared.
ghost use Rattle.std.specs.Prelude.{◌≡◌, true, Some, List, IfOk};
ghost use Rattle.mcap_model.specs.Tops.{Top};
ghost use Rattle.mcap_model.specs.Declarations.{TablesOf};
ghost use Rattle.history_ids.specs.DeclarationFits.{SchemaFits, DefFits};
ghost use Rattle.history_ids.specs.FeedContents.{SchemaShown, DeclaresContent, definition_of, no_schema, KeptStands};

use mcap_model::Tables;
use mcap_wire::{Bytes, Memory, Pairs, Text};
use rec_data::{Channel, ChannelDef, Schema, SchemaDef};
use std::alloc::Global;

/// A schema as a declaration has it, with its id in the feed, none for 0, and whether it is known of the last channel that got
/// an id.
#[derive(Drop)]
pub struct KeptSchema {
    pub id: u16,
    pub schema: Option<SchemaDef>,
    pub known: bool,
}

/// No schema.
pub fn no_schema() -> KeptSchema
    ensures { result ≡ no_schema }
{
    KeptSchema {
        id: 0,
        schema: None,
        known: false,
    }
}

// A copy of a schema.
fn copied(alloc: Global, schema: &Schema<'_>) -> Result<Option<SchemaDef>, Memory>
    ensures { IfOk result (λ s. s
        ≡ Some (definition_of schema.now.name.now schema.now.encoding.now schema.now.payload.now)) }
{
    let Ok(name) = Text::copied(alloc, schema.name) else {
        return Err(Memory);
    };
    let Ok(encoding) = Text::copied(alloc, schema.encoding) else {
        return Err(Memory);
    };
    let Ok(payload) = Bytes::copied(alloc, schema.payload) else {
        return Err(Memory);
    };
    return Ok(Some(SchemaDef {
        name,
        encoding,
        payload,
    }));
}

// The schema of that id, or none for 0: the one that was kept under it, which isn't looked at, or else a copy. A channel's
// schema is always there.
fn schema_of(
    alloc: Global,
    tables: &Tables,
    id: u16,
    kept: KeptSchema,
) -> Result<Option<SchemaDef>, Memory>
    requires { SchemaFits kept.schema }
    ensures shows { IfOk result (λ s. (records : List Top) → TablesOf records tables.now → KeptStands records kept
        → SchemaShown records id s) }
    ensures same { id ≡ kept.id → IfOk result (λ s. s ≡ kept.schema) }
    ensures fits { IfOk result SchemaFits }
{
    if id == kept.id {
        return Ok(kept.schema);
    }
    if id == 0 {
        return Ok(None);
    }
    let Some(content) = tables.schemas.find(id) else {
        return Err(Memory);
    };
    let schema = match Schema::parse(content) {
        Ok(schema) => schema,
        Err(_) => return Err(Memory),
    };
    match copied(alloc, &schema) {
        Ok(shown) => return Ok(shown),
        Err(memory) => return Err(memory),
    }
}

/// The channel of that id with its schema, its metadata in order. The channel of a message is always there.
pub fn definition(alloc: Global, tables: &Tables, source: u16) -> Result<ChannelDef, Memory>
    ensures describes { IfOk result (λ d. (records : List Top) → TablesOf records tables.now
        → DeclaresContent records source d) }
    ensures fits { IfOk result DefFits }
{
    match definition_over(alloc, tables, source, no_schema()) {
        Ok(described) => return Ok(described.channel),
        Err(memory) => return Err(memory),
    }
}

/// A channel as it is declared, the id of its schema in the feed, or 0, and whether that schema is known.
#[derive(Drop)]
pub struct Described {
    pub channel: ChannelDef,
    pub schema_id: u16,
    pub known: bool,
}

impl Described {
    /// Its schema, with its id in the feed, and whether it is known now.
    pub fn into_schema(self, known: bool) -> KeptSchema
        ensures { result ≡ record { id = self.schema_id; schema = self.channel.schema; known = known } }
    {
        let Described {
            channel,
            schema_id,
            known: _,
        } = self;
        let ChannelDef {
            topic: _,
            message_encoding: _,
            metadata: _,
            schema,
        } = channel;
        KeptSchema {
            id: schema_id,
            schema,
            known,
        }
    }
}

// Whether the schema of that id is the one that is kept, and known.
fn is_known(kept: &KeptSchema, id: u16) -> bool
    ensures { result ≡ true → (kept.now.known ≡ true) × (id ≡ kept.now.id) }
{
    kept.known && kept.id == id
}

/// The same, without a look at the schema where that is the one that is handed in.
pub fn definition_over(
    alloc: Global,
    tables: &Tables,
    source: u16,
    kept: KeptSchema,
) -> Result<Described, Memory>
    requires { SchemaFits kept.schema }
    ensures describes { IfOk result (λ d. (records : List Top) → TablesOf records tables.now → KeptStands records kept
        → DeclaresContent records source d.channel) }
    ensures shows { IfOk result (λ d. (records : List Top) → TablesOf records tables.now → KeptStands records kept
        → SchemaShown records d.schema_id d.channel.schema) }
    ensures known { IfOk result (λ d. d.known ≡ true → (kept.known ≡ true) × (d.channel.schema ≡ kept.schema)) }
    ensures fits { IfOk result (λ d. DefFits d.channel) }
{
    let Some(content) = tables.channels.find(source) else {
        return Err(Memory);
    };
    let channel = match Channel::parse(content) {
        Ok(channel) => channel,
        Err(_) => return Err(Memory),
    };
    let Ok(topic) = Text::copied(alloc, channel.topic) else {
        return Err(Memory);
    };
    let Ok(message_encoding) = Text::copied(alloc, channel.message_encoding) else {
        return Err(Memory);
    };
    let Ok(metadata) = Pairs::sorted(alloc, &channel.metadata) else {
        return Err(Memory);
    };
    let known = is_known(&kept, channel.schema_id);
    match schema_of(alloc, tables, channel.schema_id, kept) {
        Ok(schema) => return Ok(Described {
            channel: ChannelDef {
                topic,
                message_encoding,
                metadata,
                schema,
            },
            schema_id: channel.schema_id,
            known,
        }),
        Err(memory) => return Err(memory),
    }
}
