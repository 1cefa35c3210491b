//! The record Metadata Index (MCAP specification, "Metadata Index (op=0x0D)").
ghost use Rattle.std.specs.Prelude.{◌≡◌, ◌+◌, ◌^◌, ◌<◌, ◌≤◌, ℕ, List, ◌++◌, length, vec_capacity, IfOk, IfErr, OnOk, OnErr};
ghost use Rattle.mcap_wire.specs.Layout.{framed};
ghost use Rattle.mcap_wire.specs.Writing.{LacksRoom};
ghost use Rattle.rec_index.specs.Fields.{MetadataIndexFields};
ghost use Rattle.rec_index.specs.Parsed.{metadata_index_fields};
ghost use Rattle.rec_index.specs.Records.{metadata_index_opcode, metadata_index_text, ShowsMetadataIndex};
ghost use Rattle.rec_index.specs.RecordReading.{MetadataIndexFails};

use crate::opcodes::METADATA_INDEX;
use mcap_wire::{
    Bad, HEAD_LENGTH, Memory, add_head, add_text, add_u64, at_field, make_room, take_text, take_u64,
};

/// A Metadata record of the file: where it starts and how long the whole record is, both in bytes, and its name.
#[derive(Clone, Copy, PartialEq, Eq)]
pub struct MetadataIndex<'a> {
    pub offset: u64,
    pub length: u64,
    pub name: &'a str,
}

impl<'a> MetadataIndex<'a> {
    /// Reads the fields from a content. Bytes after the last field are allowed.
    pub fn parse(content: &'a [u8]) -> Result<Self, Bad>
        ensures shown { IfOk result (λ i. ShowsMetadataIndex content.now (metadata_index_fields i)) }
        ensures none { OnErr result ((f : MetadataIndexFields) → ShowsMetadataIndex content.now f → ⊥) }
        ensures first_fault { IfErr result
            (λ bad. MetadataIndexFails content.now bad.field bad.why) }
    {
        let (offset, at) = at_field(1, take_u64(content, 0))?;
        let (length, at) = at_field(2, take_u64(content, at))?;
        let (name, _after) = at_field(3, take_text(content, at))?;
        Ok(MetadataIndex {
            offset,
            length,
            name,
        })
    }

    /// Appends the whole record. Memory is lacking only where the vector has no room for it, and then the vector keeps its
    /// bytes.
    pub fn frame(&self, out: &mut Vec<u8>) -> Result<(), Memory>
        requires { length self.now.name.now < 2 ^ 32 }
        ensures ok { OnOk result (out.new.items ≡ out.old.items ++ framed metadata_index_opcode
            (metadata_index_text (metadata_index_fields self.now))) }
        ensures err { OnErr result (out.new.items ≡ out.old.items) }
        ensures full { OnErr result (LacksRoom out.old (29 + length self.now.name.now)) }
        ensures capacity { vec_capacity out.old ≤ vec_capacity out.new }
    {
        let len = 20 + self.name.len();
        make_room(out, HEAD_LENGTH as usize + len)?;
        add_head(out, METADATA_INDEX, len as u64);
        add_u64(out, self.offset);
        add_u64(out, self.length);
        add_text(out, self.name);
        Ok(())
    }
}
