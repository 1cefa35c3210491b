//! The record Summary Offset (MCAP specification, "Summary Offset (op=0x0E)").
ghost use Rattle.std.specs.Prelude.{◌≡◌, ◌≤◌, ℕ, ◌++◌, vec_capacity, IfOk, IfErr, OnOk, OnErr};
ghost use Rattle.mcap_wire.specs.Layout.{framed};
ghost use Rattle.mcap_wire.specs.Writing.{LacksRoom};
ghost use Rattle.rec_index.specs.Fields.{SummaryOffsetFields};
ghost use Rattle.rec_index.specs.Parsed.{summary_offset_fields};
ghost use Rattle.rec_index.specs.Records.{summary_offset_opcode, summary_offset_text, ShowsSummaryOffset};
ghost use Rattle.rec_index.specs.RecordReading.{SummaryOffsetFails};

use crate::opcodes::SUMMARY_OFFSET;
use mcap_wire::{Bad, Memory, add_head, add_u8, add_u64, at_field, make_room, take_u8, take_u64};

/// A group of the summary, of records with one opcode: that opcode, and where the group starts in the file and how long it
/// is, both in bytes.
#[derive(Clone, Copy, PartialEq, Eq)]
pub struct SummaryOffset {
    pub group_opcode: u8,
    pub group_start: u64,
    pub group_length: u64,
}

impl SummaryOffset {
    /// Reads the fields from a content. Bytes after the last field are allowed.
    pub fn parse(content: &[u8]) -> Result<Self, Bad>
        ensures shown { IfOk result (λ o. ShowsSummaryOffset content.now (summary_offset_fields o)) }
        ensures none { OnErr result ((f : SummaryOffsetFields) → ShowsSummaryOffset content.now f → ⊥) }
        ensures first_fault { IfErr result
            (λ bad. SummaryOffsetFails content.now bad.field bad.why) }
    {
        let (group_opcode, at) = at_field(1, take_u8(content, 0))?;
        let (group_start, at) = at_field(2, take_u64(content, at))?;
        let (group_length, _after) = at_field(3, take_u64(content, at))?;
        Ok(SummaryOffset {
            group_opcode,
            group_start,
            group_length,
        })
    }

    /// Appends the whole record. Memory is lacking only where the vector has no room for it, and then the vector keeps its
    /// bytes.
    pub fn frame(&self, out: &mut Vec<u8>) -> Result<(), Memory>
        ensures ok { OnOk result (out.new.items ≡ out.old.items ++ framed summary_offset_opcode
            (summary_offset_text (summary_offset_fields self.now))) }
        ensures err { OnErr result (out.new.items ≡ out.old.items) }
        ensures full { OnErr result (LacksRoom out.old 26) }
        ensures capacity { vec_capacity out.old ≤ vec_capacity out.new }
    {
        make_room(out, 26)?;
        add_head(out, SUMMARY_OFFSET, 17);
        add_u8(out, self.group_opcode);
        add_u64(out, self.group_start);
        add_u64(out, self.group_length);
        Ok(())
    }
}
