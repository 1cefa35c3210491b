//! The Schemas of a summary as JSON.
ghost use Rattle.std.specs.Prelude.{ℕ, List, ◌<◌, length, IfOk, OnOk};
ghost use Rattle.std.specs.List.{AllZip};
ghost use Rattle.json.specs.Tree.{json_tokens};
ghost use Rattle.rec_data.specs.Fields.{SchemaFields};
ghost use Rattle.rec_data.specs.Parsed.{schema_fields};
ghost use Rattle.mcap_model.specs.Fields.{IsSchema};
ghost use Rattle.mcap_model.specs.Places.{Each};
ghost use Rattle.command_read.specs.Firsts.{AreFirsts};
ghost use Rattle.command_read.specs.Json.{schema_value, schemas_value};
ghost use Rattle.command_read.specs.Writing.{AddsTokens, ShowIds, ShownAt};

use crate::firsts::first_places;
use crate::members::{close_array, close_object, open_array, open_object, put_number, put_text};
use json::Writer;
use mcap_wire::Memory;
use rec_data::Schema;
use std::alloc::Global;
use summary_read::Loaded;

// The ids of the Schemas, in their order.
fn schema_ids(alloc: Global, loaded: &Loaded) -> Result<Vec<u16>, Memory>
    ensures { IfOk result (λ ids. ShowIds IsSchema loaded.now.schemas ids.items) }
{
    let mut ids = Vec::new(alloc);
    'schemas: for i in 0..loaded.schemas() {
        match ids.push(loaded.schema(i).id) {
            Ok(()) => {}
            Err(_) => return Err(Memory),
        }
    }
    return Ok(ids);
}

fn put_schema(out: &mut Writer, schema: &Schema<'_>) -> Result<(), Memory>
    ensures { OnOk result (AddsTokens out.old out.new (json_tokens (schema_value
        (schema.now.id, schema_fields schema.now)))) }
{
    open_object(out)?;
    put_text(out, "encoding", schema.encoding)?;
    put_number(out, "id", schema.id as u64)?;
    put_text(out, "name", schema.name)?;
    close_object(out)?;
    return Ok(());
}

// Writes the Schemas at those places as an array.
fn put_places(out: &mut Writer, loaded: &Loaded, places: &[usize]) -> Result<(), Memory>
    requires { Each (λ p. p < length loaded.now.schemas) places.now }
    ensures { OnOk result ((shown : List (ℕ × SchemaFields))
        × AllZip (ShownAt IsSchema loaded.now.schemas) places.now shown
        × AddsTokens out.old out.new (json_tokens (schemas_value shown))) }
{
    open_array(out)?;
    'places: for i in 0..places.len() {
        let schema = loaded.schema(places[i]);
        match put_schema(out, &schema) {
            Ok(()) => {}
            Err(memory) => return Err(memory),
        }
    }
    close_array(out)?;
    return Ok(());
}

/// Writes the first Schema of each id, in the ascending order of the ids.
pub(crate) fn put_schemas(alloc: Global, out: &mut Writer, loaded: &Loaded) -> Result<(), Memory>
    ensures { OnOk result ((shown : List (ℕ × SchemaFields)) × AreFirsts IsSchema loaded.now.schemas shown
        × AddsTokens out.old out.new (json_tokens (schemas_value shown))) }
{
    let ids = schema_ids(alloc, loaded)?;
    let places = first_places(alloc, &ids)?;
    put_places(out, loaded, &places)?;
    return Ok(());
}
