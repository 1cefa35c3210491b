//! Summary Offsets.
ghost use Rattle.std.specs.Prelude.{◌≡◌, ◌↔◌, ◌++◌, ◌∷◌, [], ℕ, List, length as size, IfOk, IsTrue};
ghost use Rattle.mcap_wire.specs.declared.faults.Cut.{Cut as OneCut};
ghost use Rattle.mcap_model.specs.Places.{At};
ghost use Rattle.mcap_model.specs.Tops.{Top};
ghost use Rattle.mcap_model.specs.Whole.{IsGroup, V15};
ghost use Rattle.mcap_model.specs.Made.{top};
ghost use Rattle.summary_read.specs.PartSteps.{cut_tops, AreInside};
ghost use Rattle.summary_check.specs.Body.{RuleJudged};
ghost use Rattle.summary_check.specs.Laid.{all_of, Laid};
ghost use Rattle.summary_check.specs.Offsets.{SpanIs, AreNamedOpcodes, OffsetTaken};

use crate::records::record_at;
use index_check::Ids;
use mcap_wire::{Cut, HEAD_LENGTH, Memory};
use rec_index::{SUMMARY_OFFSET, SummaryOffset};
use std::alloc::Global;

// Where the contents of the first and of the last record of an opcode begin and end, with one record more.
fn with_cut(span: Option<(u64, u64)>, cut: Cut, op: u8) -> Option<(u64, u64)>
    ensures { (front : List OneCut) → SpanIs front op span → SpanIs (front ++ cut ∷ []) op result }
{
    if cut.op != op {
        return span;
    }
    match span {
        None => return Some((cut.from, cut.to)),
        Some((from, _)) => return Some((from, cut.to)),
    }
}

/// Where the contents of the first and of the last record of an opcode begin and end, if there is one.
pub(crate) fn span_of(cuts: &[Cut], op: u8) -> Option<(u64, u64)>
    ensures { SpanIs cuts.now op result }
{
    let mut span = None;
    'records: for i in 0..cuts.len() {
        span = with_cut(span, cuts[i], op);
    }
    return span;
}

// Whether a Summary Offset names the records of its opcode, which were cut from bytes that stand at `start`.
fn names_group(cuts: &[Cut], start: u64, offset: &SummaryOffset) -> bool
    ensures { (tops : List Top) (bytes : List ℕ) (foot : Top) → Laid tops bytes cuts.now start
        → IsTrue result
        ↔ IsGroup (all_of tops (cut_tops bytes cuts.now) foot) offset.now.group_opcode offset.now.group_start
        offset.now.group_length }
{
    match span_of(cuts, offset.group_opcode) {
        None => return false,
        Some((from, to)) => {
            let front = from.saturating_sub(HEAD_LENGTH);
            if offset.group_start != start.saturating_add(front) {
                return false;
            }
            return offset.group_length == to.saturating_sub(front);
        }
    }
}

// Whether a record names a group that no earlier one names, where it is a Summary Offset. If so, the group counts as named.
fn take_offset(
    names: &mut Ids,
    cuts: &[Cut],
    start: u64,
    op: u8,
    content: &[u8],
) -> Result<bool, Memory>
    ensures { IfOk result (λ right. (tops : List Top) (bytes : List ℕ) (foot : Top) (n : ℕ)
        → Laid tops bytes cuts.now start → AreNamedOpcodes (all_of tops (cut_tops bytes cuts.now) foot) n names.old
        → At (all_of tops (cut_tops bytes cuts.now) foot) n (top op content.now)
        → OffsetTaken (all_of tops (cut_tops bytes cuts.now) foot) n (top op content.now) names.new right) }
{
    if op != SUMMARY_OFFSET {
        return Ok(true);
    }
    let offset = match SummaryOffset::parse(content) {
        Ok(offset) => offset,
        Err(_) => return Ok(true),
    };
    if names.has(offset.group_opcode as u16) {
        return Ok(false);
    }
    if !names_group(cuts, start, &offset) {
        return Ok(false);
    }
    match names.add(offset.group_opcode as u16) {
        Ok(()) => return Ok(true),
        Err(memory) => return Err(memory),
    }
}

/// The first Summary Offset among the records of a summary, which starts at `start`, that names no group of it or one that
/// was named.
pub(crate) fn find_misnamed(
    alloc: Global,
    bytes: &[u8],
    cuts: &[Cut],
    start: u64,
) -> Result<Option<usize>, Memory>
    requires { AreInside bytes.now cuts.now }
    ensures { IfOk result (λ found. (tops : List Top) (foot : Top) → Laid tops bytes.now cuts.now start
        → RuleJudged V15 (all_of tops (cut_tops bytes.now cuts.now) foot) (size tops) (cut_tops bytes.now cuts.now)
        found) }
{
    let mut names = Ids::new(alloc);
    'records: for i in 0..cuts.len() {
        let record = record_at(bytes, cuts, i);
        match take_offset(&mut names, cuts, start, record.op, record.content) {
            Ok(true) => {}
            Ok(false) => return Ok(Some(i)),
            Err(memory) => return Err(memory),
        }
    }
    return Ok(None);
}
