//! The record Data End (MCAP specification, "Data End (op=0x0F)").
ghost use Rattle.std.specs.Prelude.{◌≡◌, ◌≤◌, ℕ, ◌++◌, vec_capacity, IfOk, IfErr, OnOk, OnErr};
ghost use Rattle.mcap_wire.specs.Layout.{framed};
ghost use Rattle.mcap_wire.specs.Writing.{LacksRoom};
ghost use Rattle.rec_data.specs.Records.{data_end_opcode, data_end_text, ShowsDataEnd};
ghost use Rattle.rec_data.specs.RecordReading.{DataEndFails};

use crate::opcodes::DATA_END;
use mcap_wire::{Bad, Memory, add_head, add_u32, at_field, make_room, take_u32};

/// The end of the data section: the CRC-32 of all bytes before this record (0 where there is none).
#[derive(Clone, Copy, PartialEq, Eq)]
pub struct DataEnd {
    pub data_section_crc: u32,
}

impl DataEnd {
    /// Reads the field from a content. Bytes after it are allowed.
    pub fn parse(content: &[u8]) -> Result<Self, Bad>
        ensures shown { IfOk result (λ e. ShowsDataEnd content.now e.data_section_crc) }
        ensures none { OnErr result ((crc : ℕ) → ShowsDataEnd content.now crc → ⊥) }
        ensures first_fault { IfErr result (λ bad. DataEndFails content.now bad.field bad.why) }
    {
        let (data_section_crc, _) = at_field(1, take_u32(content, 0))?;
        Ok(DataEnd { data_section_crc })
    }

    /// Appends the whole record. Memory is lacking only where the vector has no room for it, and then the vector keeps its
    /// bytes.
    pub fn frame(&self, out: &mut Vec<u8>) -> Result<(), Memory>
        ensures ok { OnOk result (out.new.items ≡ out.old.items
            ++ framed data_end_opcode (data_end_text self.now.data_section_crc)) }
        ensures err { OnErr result (out.new.items ≡ out.old.items) }
        ensures full { OnErr result (LacksRoom out.old 13) }
        ensures capacity { vec_capacity out.old ≤ vec_capacity out.new }
    {
        make_room(out, 13)?;
        add_head(out, DATA_END, 4);
        add_u32(out, self.data_section_crc);
        Ok(())
    }
}
