//! Taking the next record of a file that lies in memory.
ghost use Rattle.std.specs.Prelude.{◌≡◌, ◌↔◌, ◌≤◌, List, length, drop, true, IsTrue};
ghost use Rattle.mcap_model.specs.Tops.{Top, flat, offset_behind, declared_length};
ghost use Rattle.mcap_model.specs.Rules.{V1, HasDataEnd};
ghost use Rattle.mcap_model.specs.Kept.{reading_limits, is_beyond as passes, HasOpcode};
ghost use Rattle.mcap_model.specs.Declarations.{TablesOf};
ghost use Rattle.mcap_model.specs.Made.{top};
ghost use Rattle.mcap_model.specs.Judging.{JudgedAs};
ghost use Rattle.mcap_model.specs.Plain.{ReadTo, PlainRecordTaken, uncut_rule};

use crate::refusals::ReadingRefused;
use crate::rules::Rule;
use crate::tables::Tables;
use crate::tops::{Judged, judge, judge_first};
use mcap_wire::{
    CONTENT_LIMIT, Cut, CutFault, FILE_LIMIT, HEAD_LENGTH, MAGIC, Text, cut, take_u64,
};
use std::alloc::Global;

/// The offset of the first record.
pub(crate) const FIRST_OFFSET: usize = 8;

// Whether a record of that length at that offset has a content or an end past its limit.
fn is_beyond(offset: u64, len: u64) -> bool
    ensures { result ≡ passes reading_limits offset len }
{
    len > CONTENT_LIMIT || offset.saturating_add(HEAD_LENGTH).saturating_add(len) > FILE_LIMIT
}

// Whether a valid head stands at the offset, and its record passes a limit.
fn passes_limit(bytes: &[u8], at: usize) -> bool
    requires { at ≤ length bytes.now }
    ensures { IsTrue result
        ↔ (HasOpcode (drop at bytes.now) × (passes reading_limits at (declared_length (drop at bytes.now)) ≡ true)) }
{
    if at == bytes.len() {
        return false;
    }
    match take_u64(bytes, at + 1) {
        Ok((len, _)) => {
            if bytes[at] == 0 {
                return false;
            }
            return is_beyond(at as u64, len);
        }
        Err(_) => return false,
    }
}

// The rule that a record breaks which can't be cut.
fn rule_of(fault: CutFault) -> Rule
    ensures { result ≡ uncut_rule fault }
{
    match fault {
        CutFault::ZeroOp => return Rule::V5,
        _ => return Rule::V4,
    }
}

// Judges the record at the offset.
fn judge_at<'a>(
    alloc: Global,
    tables: &mut Tables,
    at: usize,
    op: u8,
    content: &'a [u8],
) -> Judged<'a>
    ensures { (tops : List Top) → (HasDataEnd tops → ⊥) → at ≡ offset_behind tops → TablesOf (flat tops) tables.old
        → JudgedAs tops (top op content.now) tables.new result }
{
    if at == FIRST_OFFSET {
        return judge_first(op, content);
    }
    return judge(alloc, tables, op, content);
}

/// Takes the record at the offset.
pub(crate) fn take_record(
    alloc: Global,
    tables: &mut Tables,
    bytes: &[u8],
    at: usize,
) -> Result<Cut, ReadingRefused>
    requires { at ≤ length bytes.now }
    ensures { (tops : List Top) → ReadTo bytes.now at tables.old tops
        → PlainRecordTaken bytes.now at tops tables.new result }
{
    let offset = at as u64;
    if passes_limit(bytes, at) {
        return Err(ReadingRefused::Limit { offset });
    }
    let cut = match cut(bytes, at) {
        Ok(cut) => cut,
        Err(fault) => {
            return Err(ReadingRefused::Grammar {
                offset,
                rule: rule_of(fault),
            });
        }
    };
    let content = &bytes[cut.from as usize..cut.to as usize];
    match judge_at(alloc, tables, at, cut.op, content) {
        Judged::Fits => return Ok(cut),
        Judged::Breaks { rule } => return Err(ReadingRefused::Grammar { offset, rule }),
        Judged::Compressed { name } => match Text::copied(alloc, name) {
            Ok(name) => return Err(ReadingRefused::Compressed { offset, name }),
            Err(_) => return Err(ReadingRefused::Memory),
        },
        Judged::Memory => return Err(ReadingRefused::Memory),
    }
}

/// Whether the bytes begin with the magic.
pub(crate) fn has_magic(bytes: &[u8]) -> bool
    ensures { IsTrue result ↔ V1 bytes.now }
{
    bytes.starts_with(&MAGIC)
}
