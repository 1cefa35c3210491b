//! The record Header (MCAP specification, "Header (op=0x01)").
ghost use Rattle.std.specs.Prelude.{◌≡◌, ◌+◌, ◌^◌, ◌<◌, ◌≤◌, ℕ, List, ◌++◌, length, vec_capacity, IfOk, IfErr, OnOk, OnErr};
ghost use Rattle.mcap_wire.specs.Layout.{framed};
ghost use Rattle.mcap_wire.specs.Writing.{LacksRoom};
ghost use Rattle.rec_data.specs.Fields.{HeaderFields};
ghost use Rattle.rec_data.specs.Parsed.{header_fields};
ghost use Rattle.rec_data.specs.Records.{header_opcode, header_text, ShowsHeader};
ghost use Rattle.rec_data.specs.RecordReading.{HeaderFails};

use crate::opcodes::HEADER;
use mcap_wire::{Bad, HEAD_LENGTH, Memory, add_head, add_text, at_field, make_room, take_text};

/// The first record of a file: the profile that its messages follow and the library that wrote it.
#[derive(Clone, Copy, PartialEq, Eq)]
pub struct Header<'a> {
    pub profile: &'a str,
    pub library: &'a str,
}

impl<'a> Header<'a> {
    /// Reads the fields from a content. Bytes after the last field are allowed.
    pub fn parse(content: &'a [u8]) -> Result<Self, Bad>
        ensures shown { IfOk result (λ h. ShowsHeader content.now (header_fields h)) }
        ensures none { OnErr result ((f : HeaderFields) → ShowsHeader content.now f → ⊥) }
        ensures first_fault { IfErr result (λ bad. HeaderFails content.now bad.field bad.why) }
    {
        let (profile, end) = at_field(1, take_text(content, 0))?;
        let (library, _after) = at_field(2, take_text(content, end))?;
        Ok(Header { profile, library })
    }

    /// Appends the whole record. Memory is lacking only where the vector has no room for it, and then the vector keeps its
    /// bytes.
    pub fn frame(&self, out: &mut Vec<u8>) -> Result<(), Memory>
        requires profile_fits { length self.now.profile.now < 2 ^ 32 }
        requires library_fits { length self.now.library.now < 2 ^ 32 }
        ensures ok { OnOk result (out.new.items ≡ out.old.items
            ++ framed header_opcode (header_text (header_fields self.now))) }
        ensures err { OnErr result (out.new.items ≡ out.old.items) }
        ensures full { OnErr result
            (LacksRoom out.old (17 + length self.now.profile.now + length self.now.library.now)) }
        ensures capacity { vec_capacity out.old ≤ vec_capacity out.new }
    {
        let len = 8 + self.profile.len() + self.library.len();
        make_room(out, HEAD_LENGTH as usize + len)?;
        add_head(out, HEADER, len as u64);
        add_text(out, self.profile);
        add_text(out, self.library);
        Ok(())
    }
}
