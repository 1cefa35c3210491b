//! The record Footer (MCAP specification, "Footer (op=0x02)").
ghost use Rattle.std.specs.Prelude.{◌≡◌, ◌≤◌, ℕ, ◌++◌, vec_capacity, IfOk, IfErr, OnOk, OnErr};
ghost use Rattle.mcap_wire.specs.Layout.{framed};
ghost use Rattle.mcap_wire.specs.Writing.{LacksRoom};
ghost use Rattle.rec_data.specs.Fields.{FooterFields};
ghost use Rattle.rec_data.specs.Parsed.{footer_fields};
ghost use Rattle.rec_data.specs.Records.{footer_opcode, footer_text, ShowsFooter};
ghost use Rattle.rec_data.specs.RecordReading.{FooterFails};

use crate::opcodes::FOOTER;
use mcap_wire::{
    Bad, Memory, Why, add_head, add_u32, add_u64, at_field, make_room, take_u32, take_u64,
};

/// The last record of a file: where its summary and the offsets of the summary start (0 where there is none), and
/// the CRC-32 of the summary (0 where there is none).
#[derive(Clone, Copy, PartialEq, Eq)]
pub struct Footer {
    pub summary_start: u64,
    pub summary_offset_start: u64,
    pub summary_crc: u32,
}

impl Footer {
    /// Reads the fields from a content. Bytes after the last field are refused at field 4.
    pub fn parse(content: &[u8]) -> Result<Self, Bad>
        ensures shown { IfOk result (λ f. ShowsFooter content.now (footer_fields f)) }
        ensures none { OnErr result ((f : FooterFields) → ShowsFooter content.now f → ⊥) }
        ensures first_fault { IfErr result (λ bad. FooterFails content.now bad.field bad.why) }
    {
        let (summary_start, at) = at_field(1, take_u64(content, 0))?;
        let (summary_offset_start, at) = at_field(2, take_u64(content, at))?;
        let (summary_crc, at) = at_field(3, take_u32(content, at))?;
        if at < content.len() {
            return Err(Bad {
                field: 4,
                why: Why::BadLength,
            });
        }
        Ok(Footer {
            summary_start,
            summary_offset_start,
            summary_crc,
        })
    }

    /// Appends the whole record. Memory is lacking only where the vector has no room for it, and then the vector keeps its
    /// bytes.
    pub fn frame(&self, out: &mut Vec<u8>) -> Result<(), Memory>
        ensures ok { OnOk result (out.new.items ≡ out.old.items ++ framed footer_opcode
            (footer_text (footer_fields self.now))) }
        ensures err { OnErr result (out.new.items ≡ out.old.items) }
        ensures full { OnErr result (LacksRoom out.old 29) }
        ensures capacity { vec_capacity out.old ≤ vec_capacity out.new }
    {
        make_room(out, 29)?;
        add_head(out, FOOTER, 20);
        add_u64(out, self.summary_start);
        add_u64(out, self.summary_offset_start);
        add_u32(out, self.summary_crc);
        Ok(())
    }
}
