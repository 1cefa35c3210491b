//! The record Metadata (MCAP specification, "Metadata (op=0x0C)").
ghost use Rattle.std.specs.Prelude.{◌≡◌, ◌+◌, ◌^◌, ◌<◌, ◌≤◌, ℕ, List, ◌++◌, length, vec_capacity, IfOk, IfErr, OnOk, OnErr};
ghost use Rattle.mcap_wire.specs.Layout.{framed};
ghost use Rattle.mcap_wire.specs.Maps.{pair_texts};
ghost use Rattle.mcap_wire.specs.Writing.{LacksRoom};
ghost use Rattle.rec_data.specs.Fields.{MetadataFields};
ghost use Rattle.rec_data.specs.Parsed.{metadata_fields};
ghost use Rattle.rec_data.specs.Records.{metadata_opcode, ShowsMetadata};
ghost use Rattle.rec_data.specs.RecordReading.{metadata_text, MetadataFails};

use crate::opcodes::METADATA;
use mcap_wire::{
    Bad, HEAD_LENGTH, Memory, PairsRef, add_head, add_pairs, add_text, at_field, make_room,
    take_pairs, take_text,
};

/// A map of texts under a name.
#[derive(Drop)]
pub struct Metadata<'a> {
    pub name: &'a str,
    pub metadata: PairsRef<'a>,
}

impl<'a> Metadata<'a> {
    /// Reads the fields from a content. Bytes after the last field are allowed.
    pub fn parse(content: &'a [u8]) -> Result<Self, Bad>
        ensures shown { IfOk result (λ m. ShowsMetadata content.now (metadata_fields m)) }
        ensures none { OnErr result ((f : MetadataFields) → ShowsMetadata content.now f → ⊥) }
        ensures first_fault { IfErr result (λ bad. MetadataFails content.now bad.field bad.why) }
    {
        let (name, at) = at_field(1, take_text(content, 0))?;
        let (metadata, _after) = at_field(2, take_pairs(content, at))?;
        Ok(Metadata { name, metadata })
    }

    /// Appends the whole record. Memory is lacking only where the vector has no room for it, and then the vector keeps its
    /// bytes.
    pub fn frame(&self, out: &mut Vec<u8>) -> Result<(), Memory>
        requires name_fits { length self.now.name.now < 2 ^ 32 }
        requires metadata_fits { length (pair_texts self.now.metadata) < 2 ^ 32 }
        ensures ok { OnOk result (out.new.items ≡ out.old.items
            ++ framed metadata_opcode (metadata_text (metadata_fields self.now))) }
        ensures err { OnErr result (out.new.items ≡ out.old.items) }
        ensures full { OnErr result
            (LacksRoom out.old (17 + length self.now.name.now + length (pair_texts self.now.metadata))) }
        ensures capacity { vec_capacity out.old ≤ vec_capacity out.new }
    {
        let len = 8 + self.name.len() + self.metadata.byte_len();
        make_room(out, HEAD_LENGTH as usize + len)?;
        add_head(out, METADATA, len as u64);
        add_text(out, self.name);
        add_pairs(out, &self.metadata);
        Ok(())
    }
}
