//! The channels of all inputs, numbered by content as messages first need them.
ghost use Rattle.std.specs.Prelude.{◌≡◌, ◌≤◌, ◌<◌, ◌*◌, ◌+◌, ◌∷◌, [], ℕ, List, length, Some, IfOk, IfErr};
ghost use Rattle.rec_data.specs.declared.owned.Rec.{Rec};
ghost use Rattle.mcap_model.specs.Places.{At, Each};
ghost use Rattle.mcap_model.specs.ReadBack.{IsReadBack};
ghost use Rattle.mcap_model.specs.Tops.{Top, flat};
ghost use Rattle.mcap_model.specs.Declarations.{TablesOf};
ghost use Rattle.mcap_model.specs.History.{schema_of, channel_of};
ghost use Rattle.rec_data.specs.Owned.{RecFits};
ghost use Rattle.history_ids.specs.DeclarationFields.{fields_of_schema, fields_with};
ghost use Rattle.history_ids.specs.Tables.{HasSchemas};
ghost use Rattle.history_ids.specs.DeclarationFits.{SchemaFits, DefFits};
ghost use Rattle.mcap_model.specs.Merged.{Sent, IsContent};
ghost use Rattle.mcap_merge.specs.Contents.{FitsUnderIds};
ghost use Rattle.mcap_merge.specs.Joining.{JoinerStands, IsChosen, FitsChoice, IsSized, TableIsUsed, IsAskedFor, AfterChoice, declared_records, declaring_records};

use crate::input::Input;
use history_ids::{definition, give_ids, id_of, number_of};
use id_table::{GivenIds, IdRefused, IdTable};
use mcap_model::Tables;
use mcap_wire::Memory;
use rec_data::{ChannelDef, SchemaDef};
use std::alloc::Global;

/// The ids so far, by content, and the id that each channel of each input got, or 0.
#[derive(Drop)]
pub(crate) struct Joiner {
    table: IdTable,
    given: Vec<u16>,
}

/// A channel whose content is new, and the ids that it and its schema got.
#[derive(Drop)]
pub(crate) struct Declared {
    pub content: ChannelDef,
    pub ids: GivenIds,
}

/// The id of a message's channel, and what is declared for it, if its content is new.
#[derive(Drop)]
pub(crate) struct Choice {
    pub id: u16,
    pub declared: Option<Declared>,
}

/// The content of the channel of that id.
pub(crate) fn content_of(alloc: Global, tables: &Tables, source: u16) -> Result<ChannelDef, Memory>
    ensures is { IfOk result (λ d. (records : List Top) → TablesOf records tables.now → IsContent records source d) }
    ensures fits { IfOk result DefFits }
    ensures under { IfOk result FitsUnderIds }
{
    match definition(alloc, tables, source) {
        Ok(content) => {
            let _pairs = content.metadata.as_slice();
            see_content(&content);
            return Ok(content);
        }
        Err(memory) => return Err(memory),
    }
}

// Reads what the types say of a content, whatever ids it gets.
fn see_content(content: &ChannelDef)
    requires { DefFits content.now }
    ensures { FitsUnderIds content.now }
{
    see_channel(content, 0, 0);
    match &content.schema {
        Some(schema) => return see_schema(schema, 0),
        None => return,
    }
}

// Reads what the types say of a Schema of that content: its id fits its field, and its texts are UTF-8.
fn see_schema(schema: &SchemaDef, id: u16)
    requires { SchemaFits (Some schema.now) }
    ensures { RecFits (schema_of id (fields_of_schema schema.now)) }
{
    let _name = schema.name.as_str();
    let _encoding = schema.encoding.as_str();
}

// The same of a Channel of that content; the keys of its metadata differ.
fn see_channel(content: &ChannelDef, id: u16, schema_id: u16)
    requires { DefFits content.now }
    ensures { RecFits (channel_of id (fields_with content.now schema_id)) }
{
    let _topic = content.topic.as_str();
    let _encoding = content.message_encoding.as_str();
    let _metadata = content.metadata.as_slice();
}

// The same of both.
fn see_fields(content: &ChannelDef, ids: &GivenIds)
    requires { DefFits content.now }
    ensures { Each IsReadBack (declaring_records (record { content = content.now; ids = ids.now })) }
{
    let id = number_of(&ids.channel);
    let schema_id = id_of(&ids.schema);
    see_channel(content, id, schema_id);
    match &content.schema {
        Some(schema) => return see_schema(schema, schema_id),
        None => return,
    }
}

// So many places without an id.
fn none_given(alloc: Global, count: usize) -> Result<Vec<u16>, Memory>
    ensures size { IfOk result (λ given. length given.items ≡ count) }
    ensures none { IfOk result (λ given. (k id : ℕ) → At given.items k id → id ≡ 0) }
{
    let mut given = Vec::new(alloc);
    match given.resize(count, 0) {
        Ok(()) => return Ok(given),
        Err(_) => return Err(Memory),
    }
}

impl Joiner {
    /// No id is given yet to a channel of so many inputs.
    pub(crate) fn new(alloc: Global, inputs: usize) -> Result<Joiner, Memory>
        requires { inputs ≤ 64 }
        ensures sized { IfOk result (IsSized inputs) }
        ensures schemas { IfOk result (λ j. HasSchemas j.table) }
        ensures stands { IfOk result (λ j. (inputs : List (List Top)) → JoinerStands inputs [] j) }
        ensures empty { IfOk result (λ j. (j.table.schemas ≡ []) × (j.table.channels ≡ [])) }
    {
        let table = match IdTable::new(alloc) {
            Ok(table) => table,
            Err(memory) => return Err(memory),
        };
        match none_given(alloc, inputs * 65_536) {
            Ok(given) => return Ok(Joiner { table, given }),
            Err(memory) => return Err(memory),
        }
    }

    /// The id of the channel that the input of that number has under that id, for a message on it. Where its content is new,
    /// ids are given to it.
    pub(crate) fn choose(
        &mut self,
        alloc: Global,
        input: &Input,
        number: usize,
        source: u16,
    ) -> Result<Choice, IdRefused>
        requires within { number * 65536 + source < length self.old.given.items }
        requires schemas { HasSchemas self.old.table }
        ensures sized { length self.new.given.items ≡ length self.old.given.items }
        ensures schemas { HasSchemas self.new.table }
        ensures fits { IfOk result (λ c. FitsChoice c.declared) }
        ensures short { IfOk result (λ c. c.id < 65536) }
        ensures back { IfOk result (λ c. Each IsReadBack (declared_records c.declared)) }
        ensures chosen { IfOk result (λ c. (inputs : List (List Top)) (tops : List Top) (history : List Rec)
            → JoinerStands inputs history self.old → At inputs number tops → TablesOf (flat tops) input.now.tables
            → IsChosen inputs tops history source self.new c) }
        ensures used { (inputs : List (List Top)) (m : Sent) → IsAskedFor inputs m source input.now.tables
            → TableIsUsed inputs self.old.table → AfterChoice inputs self.new.table result }
    {
        let place = number * 65_536 + source as usize;
        let id = self.given[place];
        let _channels = self.table.channels();
        let _schemas = self.table.schemas();
        if id != 0 {
            return Ok(Choice { id, declared: None });
        }
        let content = match content_of(alloc, &input.tables, source) {
            Ok(content) => content,
            Err(_) => return Err(IdRefused::Memory),
        };
        match self.table.find(&content) {
            Some(id) => {
                self.given[place] = id;
                return Ok(Choice { id, declared: None });
            }
            None => {}
        }
        match give_ids(&mut self.table, &content) {
            Ok(ids) => {
                let id = number_of(&ids.channel);
                see_fields(&content, &ids);
                self.given[place] = id;
                return Ok(Choice {
                    id,
                    declared: Some(Declared { content, ids }),
                });
            }
            Err(refused) => return Err(refused),
        }
    }

    /// How many schemas and channels have ids.
    pub(crate) fn declared(&self) -> u64
        ensures count { result ≡ length self.now.table.schemas + length self.now.table.channels }
        ensures few { result ≤ 131070 }
    {
        self.table.schemas() as u64 + self.table.channels() as u64
    }
}
