//! The Schemas and Channels behind a Data End.
ghost use Rattle.std.specs.Prelude.{◌≡◌, List, ℕ, None, IfOk};
ghost use Rattle.mcap_model.specs.Places.{Each};
ghost use Rattle.mcap_model.specs.Tops.{Top, flat};
ghost use Rattle.mcap_model.specs.Declarations.{TablesOf};
ghost use Rattle.mcap_model.specs.Made.{top};
ghost use Rattle.summary_read.specs.PartSteps.{cut_tops, AreInside};
ghost use Rattle.summary_read.specs.Steps.{Judged};
ghost use Rattle.summary_check.specs.Declaring.{DeclarationTaken, DeclarationsTaken};

use crate::records::record_at;
use mcap_model::{Ruling, Tables};
use mcap_wire::{Cut, Memory};
use rec_data::{CHANNEL, SCHEMA};
use std::alloc::Global;

// Whether a record that can be read agrees with those before it. If so, the tables have it too.
fn take_declaration(
    alloc: Global,
    tables: &mut Tables,
    op: u8,
    content: &[u8],
) -> Result<bool, Memory>
    ensures { IfOk result (λ right. (before : List Top) → TablesOf (flat before) tables.old
        → Judged (top op content.now) None → DeclarationTaken before (top op content.now) tables.new right) }
{
    if op == SCHEMA {
        match tables.take_schema(alloc, content) {
            Ruling::Fits => return Ok(true),
            Ruling::Breaks { rule: _ } => return Ok(false),
            Ruling::Memory => return Err(Memory),
        }
    }
    if op == CHANNEL {
        match tables.take_channel(alloc, content) {
            Ruling::Fits => return Ok(true),
            Ruling::Breaks { rule: _ } => return Ok(false),
            Ruling::Memory => return Err(Memory),
        }
    }
    return Ok(true);
}

/// The first Schema or Channel among these records that doesn't agree with the records before it.
pub(crate) fn find_disagreeing(
    alloc: Global,
    tables: &mut Tables,
    bytes: &[u8],
    cuts: &[Cut],
) -> Result<Option<usize>, Memory>
    requires { AreInside bytes.now cuts.now }
    ensures { IfOk result (λ found. (tops : List Top) → TablesOf (flat tops) tables.old
        → Each (λ t. Judged t None) (cut_tops bytes.now cuts.now)
        → DeclarationsTaken tops (cut_tops bytes.now cuts.now) tables.new found) }
{
    'records: for i in 0..cuts.len() {
        let record = record_at(bytes, cuts, i);
        match take_declaration(alloc, tables, record.op, record.content) {
            Ok(true) => {}
            Ok(false) => return Ok(Some(i)),
            Err(memory) => return Err(memory),
        }
    }
    return Ok(None);
}
