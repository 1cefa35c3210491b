//! Whether more schemas are used than there are ids, where some channel already lacks one: all channels that have messages are gone
//! through for their schemas alone.
ghost use Rattle.std.specs.Prelude.{◌≡◌, ◌≤◌, ◌*◌, List, map, length, IfOk, IfErr, OnOk};
ghost use Rattle.rec_data.specs.declared.channel.ChannelDef.{ChannelDef as Content};
ghost use Rattle.mcap_wire.specs.Limits.{id_limit};
ghost use Rattle.mcap_model.specs.Tops.{Top};
ghost use Rattle.mcap_model.specs.Declarations.{TablesOf};
ghost use Rattle.mcap_model.specs.Merged.{IsContent, SchemaIsUsed, AtMost};
ghost use Rattle.mcap_merge.specs.Inputs.{HoldInputs};
ghost use Rattle.mcap_merge.specs.ReadInputs.{Read, read_tops};
ghost use Rattle.mcap_merge.specs.Schemas.{bare, AreBare, Enters, EntersOf, LacksPlace, LacksPlaceOf, LacksSchemas};

use crate::checking::{ID_COUNT, channel_at};
use crate::input::Input;
use crate::joining::content_of;
use id_table::{IdRefused, IdTable};
use mcap_model::Tables;
use mcap_wire::{Memory, Pairs, PairsRef, Text};
use rec_data::{ChannelDef, SchemaDef};
use std::alloc::Global;

// A channel that has the schema, and nothing else.
fn bare_channel(alloc: Global, schema: SchemaDef) -> Result<ChannelDef, Memory>
    ensures { IfOk result (λ d. d ≡ bare schema) }
{
    let Ok(topic) = Text::copied(alloc, "") else {
        return Err(Memory);
    };
    let Ok(message_encoding) = Text::copied(alloc, "") else {
        return Err(Memory);
    };
    let Ok(metadata) = Pairs::sorted(alloc, &PairsRef::of(&[])) else {
        return Err(Memory);
    };
    return Ok(ChannelDef {
        topic,
        message_encoding,
        metadata,
        schema: Some(schema),
    });
}

// Enters a schema, where it isn't there yet.
fn enter_schema(alloc: Global, table: &mut IdTable, schema: SchemaDef) -> Result<(), IdRefused>
    requires { AreBare table.old }
    ensures bare { AreBare table.new }
    ensures entered { OnOk result (Enters table.old.schemas schema table.new.schemas) }
    ensures refused { IfErr result (LacksPlace table.old.schemas schema) }
{
    let channel = match bare_channel(alloc, schema) {
        Ok(channel) => channel,
        Err(_) => return Err(IdRefused::Memory),
    };
    let _before = table.schemas();
    match table.declare(&channel) {
        Ok(_) => return Ok(()),
        Err(refused) => return Err(refused),
    }
}

// Enters the schema of the channel of that id, if it has one.
fn enter_of(
    alloc: Global,
    table: &mut IdTable,
    tables: &Tables,
    source: u16,
) -> Result<(), IdRefused>
    requires { AreBare table.old }
    ensures bare { AreBare table.new }
    ensures entered { OnOk result ((records : List Top) → TablesOf records tables.now
        → (d : Content) × IsContent records source d × EntersOf table.old.schemas d.schema table.new.schemas) }
    ensures refused { IfErr result (λ why. (records : List Top) → TablesOf records tables.now
        → LacksPlaceOf records source table.old.schemas why) }
{
    let content = match content_of(alloc, tables, source) {
        Ok(content) => content,
        Err(_) => return Err(IdRefused::Memory),
    };
    let ChannelDef {
        topic: _,
        message_encoding: _,
        metadata: _,
        schema,
    } = content;
    match schema {
        Some(schema) => match enter_schema(alloc, table, schema) {
            Ok(()) => return Ok(()),
            Err(refused) => return Err(refused),
        },
        None => return Ok(()),
    }
}

/// Sees that the messages use no more schemas than there are ids.
pub(crate) fn see_schemas(alloc: Global, inputs: &[Input]) -> Result<(), IdRefused>
    requires few { length inputs.now ≤ 64 }
    requires held { (reads : List Read) × HoldInputs reads inputs.now }
    ensures few { OnOk result ((reads : List Read) → HoldInputs reads inputs.now
        → AtMost id_limit (SchemaIsUsed (read_tops reads))) }
    ensures refused { IfErr result (λ why. (reads : List Read) → HoldInputs reads inputs.now
        → LacksSchemas (read_tops reads) why) }
{
    let mut table = match IdTable::new(alloc) {
        Ok(table) => table,
        Err(_) => return Err(IdRefused::Memory),
    };
    'channels: for place in 0..inputs.len() * ID_COUNT {
        let (input, source) = channel_at(inputs, place);
        if input.used[source as usize] {
            match enter_of(alloc, &mut table, &input.tables, source) {
                Ok(()) => {}
                Err(refused) => return Err(refused),
            }
        }
    }
    let _count = table.schemas();
    return Ok(());
}
