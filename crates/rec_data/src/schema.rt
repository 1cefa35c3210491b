//! The record Schema (MCAP specification, "Schema (op=0x03)").
ghost use Rattle.std.specs.Prelude.{◌≡◌, ◌+◌, ◌^◌, ◌<◌, ◌≤◌, ℕ, List, ◌++◌, length, vec_capacity, IfOk, IfErr, OnOk, OnErr};
ghost use Rattle.mcap_wire.specs.Layout.{framed};
ghost use Rattle.mcap_wire.specs.Writing.{LacksRoom};
ghost use Rattle.rec_data.specs.Fields.{SchemaFields};
ghost use Rattle.rec_data.specs.Parsed.{schema_fields};
ghost use Rattle.rec_data.specs.Records.{schema_opcode, schema_text, ShowsSchema};
ghost use Rattle.rec_data.specs.RecordReading.{SchemaFails};

use crate::opcodes::SCHEMA;
use mcap_wire::{
    Bad, Bytes, HEAD_LENGTH, Memory, Text, add_bytes32, add_head, add_text, add_u16, at_field,
    make_room, take_bytes32, take_text, take_u16,
};
use std::alloc::Global;

/// The definition of the data of messages: its id, which channels name, its name, the encoding of the definition, and the
/// definition itself. That the id isn't 0 is no part of the layout.
#[derive(Clone, Copy, Debug, PartialEq, Eq)]
pub struct Schema<'a> {
    pub id: u16,
    pub name: &'a str,
    pub encoding: &'a str,
    pub payload: &'a [u8],
}

/// A schema that is to be written, without its id.
#[derive(Debug, Drop, PartialEq, Eq, Hash)]
pub struct SchemaDef {
    pub name: Text,
    pub encoding: Text,
    pub payload: Bytes,
}

impl SchemaDef {
    /// A copy of a schema.
    pub fn copied(alloc: Global, schema: &SchemaDef) -> Result<SchemaDef, Memory>
        ensures { IfOk result (λ copy. copy ≡ schema.now) }
    {
        let Ok(name) = Text::copied(alloc, schema.name.as_str()) else {
            return Err(Memory);
        };
        let Ok(encoding) = Text::copied(alloc, schema.encoding.as_str()) else {
            return Err(Memory);
        };
        let Ok(payload) = Bytes::copied(alloc, schema.payload.as_slice()) else {
            return Err(Memory);
        };
        return Ok(SchemaDef {
            name,
            encoding,
            payload,
        });
    }
}

impl<'a> Schema<'a> {
    /// Reads the fields from a content. Bytes after the last field are allowed.
    pub fn parse(content: &'a [u8]) -> Result<Self, Bad>
        ensures shown { IfOk result (λ s. ShowsSchema content.now s.id (schema_fields s)) }
        ensures none { OnErr result ((id : ℕ) (f : SchemaFields) → ShowsSchema content.now id f → ⊥) }
        ensures first_fault { IfErr result (λ bad. SchemaFails content.now bad.field bad.why) }
    {
        let (id, at) = at_field(1, take_u16(content, 0))?;
        let (name, at) = at_field(2, take_text(content, at))?;
        let (encoding, at) = at_field(3, take_text(content, at))?;
        let (payload, _after) = at_field(4, take_bytes32(content, at))?;
        Ok(Schema {
            id,
            name,
            encoding,
            payload,
        })
    }

    /// Appends the whole record. Memory is lacking only where the vector has no room for it, and then the vector keeps its
    /// bytes.
    #[inline(never)]
    pub fn frame(&self, out: &mut Vec<u8>) -> Result<(), Memory>
        requires name_fits { length self.now.name.now < 2 ^ 32 }
        requires encoding_fits { length self.now.encoding.now < 2 ^ 32 }
        requires payload_fits { length self.now.payload.now < 2 ^ 32 }
        ensures ok { OnOk result (out.new.items ≡ out.old.items ++ framed schema_opcode
            (schema_text self.now.id (schema_fields self.now))) }
        ensures err { OnErr result (out.new.items ≡ out.old.items) }
        ensures full { OnErr result (LacksRoom out.old
            (23 + length self.now.name.now
            + length self.now.encoding.now + length self.now.payload.now)) }
        ensures capacity { vec_capacity out.old ≤ vec_capacity out.new }
    {
        let len = 14 + self.name.len() + self.encoding.len() + self.payload.len();
        make_room(out, HEAD_LENGTH as usize + len)?;
        add_head(out, SCHEMA, len as u64);
        add_u16(out, self.id);
        add_text(out, self.name);
        add_text(out, self.encoding);
        add_bytes32(out, self.payload);
        Ok(())
    }
}
