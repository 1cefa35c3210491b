//! What the first record that breaks a rule comes to.
ghost use Rattle.std.specs.Prelude.{◌≡◌, ◌+◌, ◌++◌, ℕ, List, length as size, None, IfErr, OnOk};
ghost use Rattle.mcap_wire.specs.declared.faults.Cut.{Cut as OneCut};
ghost use Rattle.mcap_model.specs.Places.{At, Each};
ghost use Rattle.mcap_model.specs.Tops.{Top, flat};
ghost use Rattle.mcap_model.specs.Declarations.{TablesOf};
ghost use Rattle.mcap_model.specs.Whole.{offset_of, V14, V15};
ghost use Rattle.index_check.specs.Tally.{TallyOf};
ghost use Rattle.summary_read.specs.PartSteps.{cut_tops, AreInside};
ghost use Rattle.summary_read.specs.Steps.{Judged};
ghost use Rattle.summary_check.specs.Body.{StandFrom, KeptFrom, OrderJudged};
ghost use Rattle.summary_check.specs.Declaring.{DeclarationsTaken};
ghost use Rattle.summary_check.specs.Files.{spelled_file, flawed_at, FailsThere, IsOfSummary};
ghost use Rattle.summary_check.specs.Filed.{records_of, Filed};
ghost use Rattle.summary_check.specs.Laid.{all_of, Laid};
ghost use Rattle.summary_check.specs.Told.{ToldOf, IndexesTaken};

use crate::declarations::find_disagreeing;
use crate::kinds::find_broken;
use crate::offsets::find_misnamed;
use crate::ordering::find_misplaced;
use crate::records::from_at;
use crate::statistics::find_miscounted;
use crate::told::take_indexes;
use index_check::{Attachments, Chunks, MetadataList, Tally};
use mcap_model::{ReadingRefused, Rule, Tables};
use mcap_wire::{Cut, HEAD_LENGTH};
use std::alloc::Global;

// The rule fails at the record that was cut at that place, in bytes that stand in the file from `start` on.
fn flawed(rule: Rule, cuts: &[Cut], i: usize, start: u64) -> ReadingRefused
    ensures fails { (tops : List Top) (bytes : List ℕ) (foot t : Top) → Laid tops bytes cuts.now start
        → At (cut_tops bytes cuts.now) i t
        → result ≡ flawed_at rule (offset_of (all_of tops (cut_tops bytes cuts.now) foot) (size tops + i)) }
    ensures kind { IsOfSummary result }
{
    if i >= cuts.len() {
        return ReadingRefused::Memory;
    }
    let from = from_at(cuts, i);
    let offset = start.saturating_add(from.saturating_sub(HEAD_LENGTH));
    return ReadingRefused::Grammar { offset, rule };
}

/// Judges which records stand behind a Data End, and their layouts.
pub(crate) fn judge_kinds(bytes: &[u8], cuts: &[Cut], start: u64) -> Result<(), ReadingRefused>
    requires { AreInside bytes.now cuts.now }
    ensures ok { OnOk result (Each (λ t. Judged t None) (cut_tops bytes.now cuts.now)) }
    ensures err { IfErr result (λ why. (tops : List Top) (foot : OneCut) → Filed tops bytes.now cuts.now foot start
        → FailsThere (spelled_file tops bytes.now) why) }
    ensures kind { IfErr result IsOfSummary }
{
    match find_broken(bytes, cuts) {
        None => return Ok(()),
        Some((i, rule)) => return Err(flawed(rule, cuts, i, start)),
    }
}

/// Judges how Schemas and Channels agree with those before them. The tables have them too from then on.
pub(crate) fn judge_declarations(
    alloc: Global,
    tables: &mut Tables,
    bytes: &[u8],
    cuts: &[Cut],
    start: u64,
) -> Result<(), ReadingRefused>
    requires { AreInside bytes.now cuts.now }
    ensures ok { OnOk result ((tops : List Top) → TablesOf (flat tops) tables.old
        → Each (λ t. Judged t None) (cut_tops bytes.now cuts.now)
        → DeclarationsTaken tops (cut_tops bytes.now cuts.now) tables.new None) }
    ensures err { IfErr result (λ why. (tops : List Top) (foot : OneCut) → Filed tops bytes.now cuts.now foot start
        → TablesOf (flat tops) tables.old → Each (λ t. Judged t None) (cut_tops bytes.now cuts.now)
        → FailsThere (spelled_file tops bytes.now) why) }
    ensures kind { IfErr result IsOfSummary }
{
    match find_disagreeing(alloc, tables, bytes, cuts) {
        Ok(None) => return Ok(()),
        Ok(Some(i)) => return Err(flawed(Rule::V7, cuts, i, start)),
        Err(_) => return Err(ReadingRefused::Memory),
    }
}

/// Judges the order of a summary.
pub(crate) fn judge_order(alloc: Global, cuts: &[Cut], start: u64) -> Result<(), ReadingRefused>
    ensures ok { OnOk result ((bytes : List ℕ) → OrderJudged (cut_tops bytes cuts.now) None) }
    ensures err { IfErr result (λ why. (tops : List Top) (bytes : List ℕ) (foot : OneCut)
        → Filed tops bytes cuts.now foot start → FailsThere (spelled_file tops bytes) why) }
    ensures kind { IfErr result IsOfSummary }
{
    match find_misplaced(alloc, cuts) {
        Ok(None) => return Ok(()),
        Ok(Some(i)) => return Err(flawed(Rule::V11, cuts, i, start)),
        Err(_) => return Err(ReadingRefused::Memory),
    }
}

/// Judges indexes. What they tell of counts as named from then on.
pub(crate) fn judge_indexes(
    chunks: &mut Chunks,
    attachments: &mut Attachments,
    metadata: &mut MetadataList,
    bytes: &[u8],
    cuts: &[Cut],
    start: u64,
) -> Result<(), ReadingRefused>
    requires { AreInside bytes.now cuts.now }
    ensures ok { OnOk result ((all : List Top) (base : ℕ) → StandFrom all base (cut_tops bytes.now cuts.now)
        → ToldOf all base chunks.old attachments.old metadata.old
        → IndexesTaken all base (cut_tops bytes.now cuts.now) chunks.new attachments.new metadata.new None) }
    ensures err { IfErr result (λ why. (tops : List Top) (foot : OneCut) → Filed tops bytes.now cuts.now foot start
        → Each (λ t. Judged t None) (cut_tops bytes.now cuts.now)
        → ToldOf (records_of tops bytes.now cuts.now foot) (size tops) chunks.old attachments.old metadata.old
        → FailsThere (spelled_file tops bytes.now) why) }
    ensures kind { IfErr result IsOfSummary }
{
    match take_indexes(chunks, attachments, metadata, bytes, cuts) {
        None => return Ok(()),
        Some((i, rule)) => return Err(flawed(rule, cuts, i, start)),
    }
}

/// Judges Statistics.
pub(crate) fn judge_statistics(
    tally: &Tally,
    bytes: &[u8],
    cuts: &[Cut],
    start: u64,
) -> Result<(), ReadingRefused>
    requires { AreInside bytes.now cuts.now }
    ensures ok { OnOk result ((all section : List Top) (base : ℕ) → TallyOf all section tally.now
        → KeptFrom V14 all base (cut_tops bytes.now cuts.now)) }
    ensures err { IfErr result (λ why. (tops section : List Top) (foot : OneCut)
        → Filed tops bytes.now cuts.now foot start → Each (λ t. Judged t None) (cut_tops bytes.now cuts.now)
        → TallyOf (records_of tops bytes.now cuts.now foot) section tally.now
        → FailsThere (spelled_file tops bytes.now) why) }
    ensures kind { IfErr result IsOfSummary }
{
    match find_miscounted(tally, bytes, cuts) {
        None => return Ok(()),
        Some(i) => return Err(flawed(Rule::V14, cuts, i, start)),
    }
}

/// Judges Summary Offsets.
pub(crate) fn judge_offsets(
    alloc: Global,
    bytes: &[u8],
    cuts: &[Cut],
    start: u64,
) -> Result<(), ReadingRefused>
    requires { AreInside bytes.now cuts.now }
    ensures ok { OnOk result ((tops : List Top) (foot : Top) → Laid tops bytes.now cuts.now start
        → KeptFrom V15 (all_of tops (cut_tops bytes.now cuts.now) foot) (size tops) (cut_tops bytes.now cuts.now)) }
    ensures err { IfErr result (λ why. (tops : List Top) (foot : OneCut) → Filed tops bytes.now cuts.now foot start
        → FailsThere (spelled_file tops bytes.now) why) }
    ensures kind { IfErr result IsOfSummary }
{
    match find_misnamed(alloc, bytes, cuts, start) {
        Ok(None) => return Ok(()),
        Ok(Some(i)) => return Err(flawed(Rule::V15, cuts, i, start)),
        Err(_) => return Err(ReadingRefused::Memory),
    }
}
