//! Noting the first declaration of each id.
ghost use Rattle.std.specs.Prelude.{◌∷◌, [], OnOk};
ghost use Rattle.mcap_model.specs.Fields.{ChannelFields};
ghost use Rattle.mcap_model.specs.Made.{top};
ghost use Rattle.mcap_model.specs.Tops.{records_in, unchunked};
ghost use Rattle.rec_data.specs.Records.{schema_opcode, channel_opcode, ShowsChannel};
ghost use Rattle.mcap_sort.specs.Declaring.{Notes, NotesAll};

use mcap_model::{ChannelTable, InnerWalk, Table, Tables};
use mcap_wire::Memory;
use rec_data::{CHANNEL, Channel, SCHEMA, Schema};
use rec_index::{CHUNK, Chunk};
use std::alloc::Global;

// Notes the content of a declaration, if it is the first of its id.
fn note(alloc: Global, table: &mut Table, id: u16, content: &[u8]) -> Result<(), Memory>
    ensures { OnOk result (Notes table.old table.new id content.now) }
{
    match table.find(id) {
        Some(_) => return Ok(()),
        None => return table.add(alloc, id, content),
    }
}

// Notes a Channel so.
fn note_first(
    alloc: Global,
    table: &mut ChannelTable,
    id: u16,
    content: &[u8],
) -> Result<(), Memory>
    requires shown { (f : ChannelFields) × ShowsChannel content.now id f }
    ensures { OnOk result (Notes table.old table.new id content.now) }
{
    match table.find(id) {
        Some(_) => return Ok(()),
        None => return table.add(alloc, id, content),
    }
}

// Notes the Schema of that content.
fn note_schema(alloc: Global, tables: &mut Tables, content: &[u8]) -> Result<(), Memory>
    ensures { OnOk result (NotesAll tables.old tables.new (top schema_opcode content.now ∷ [])) }
{
    match Schema::parse(content) {
        Ok(schema) => return note(alloc, &mut tables.schemas, schema.id, content),
        Err(_) => return Ok(()),
    }
}

// Notes the Channel of that content.
fn note_channel(alloc: Global, tables: &mut Tables, content: &[u8]) -> Result<(), Memory>
    ensures { OnOk result (NotesAll tables.old tables.new (top channel_opcode content.now ∷ [])) }
{
    match Channel::parse(content) {
        Ok(channel) => return note_first(alloc, &mut tables.channels, channel.id, content),
        Err(_) => return Ok(()),
    }
}

// Notes what a record declares that is no chunk.
fn note_one(alloc: Global, tables: &mut Tables, op: u8, content: &[u8]) -> Result<(), Memory>
    ensures { OnOk result (NotesAll tables.old tables.new (top op content.now ∷ [])) }
{
    match op {
        SCHEMA => return note_schema(alloc, tables, content),
        CHANNEL => return note_channel(alloc, tables, content),
        _ => return Ok(()),
    }
}

// Notes what the records of a chunk declare.
fn note_inside(alloc: Global, tables: &mut Tables, records: &[u8]) -> Result<(), Memory>
    ensures { OnOk result (NotesAll tables.old tables.new (records_in records.now)) }
{
    let mut walk = InnerWalk::new(records);
    'records: loop {
        match walk.next() {
            Some(inner) => match note_one(alloc, tables, inner.op, inner.content) {
                Ok(()) => {}
                Err(memory) => return Err(memory),
            },
            None => return Ok(()),
        }
    }
}

/// Notes what a record of the top level declares, or those inside it where it is a chunk. A chunk that breaks its rules may be
/// refused as for want of memory.
pub(crate) fn note_declared(
    alloc: Global,
    tables: &mut Tables,
    op: u8,
    content: &[u8],
) -> Result<(), Memory>
    ensures { OnOk result (NotesAll tables.old tables.new (unchunked (top op content.now))) }
{
    if op != CHUNK {
        return note_one(alloc, tables, op, content);
    }
    match Chunk::parse(content) {
        Ok(chunk) => return note_inside(alloc, tables, chunk.records),
        Err(_) => return Err(Memory),
    }
}
