//! All rules of the records behind a Data End.
ghost use Rattle.std.specs.Prelude.{◌≤◌, ◌<◌, ◌+◌, ◌^◌, ◌++◌, ◌∷◌, [], List, None, length as size, IfOk, IfErr, OnOk};
ghost use Rattle.mcap_model.specs.Places.{Each};
ghost use Rattle.mcap_model.specs.Tops.{Top};
ghost use Rattle.summary_read.specs.PartSteps.{cut_tops};
ghost use Rattle.summary_read.specs.Steps.{Judged};
ghost use Rattle.summary_check.specs.Closing.{IsOfFooter};
ghost use Rattle.summary_check.specs.Cutting.{AreCutBehind};
ghost use Rattle.summary_check.specs.Files.{spelled_file, FailsThere, IsOfSummary};
ghost use Rattle.summary_check.specs.Judging.{KnownOf, IsJudged};
ghost use Rattle.summary_check.specs.Sectioned.{IsSectioned};

use crate::closing::judge_footer;
use crate::counting::count_ids;
use crate::flaws::{
    judge_declarations, judge_indexes, judge_kinds, judge_offsets, judge_order, judge_statistics,
};
use crate::indexing::is_indexed;
use crate::summary::{Summary, cut_summary};
use index_check::Section;
use mcap_model::ReadingRefused;
use mcap_wire::Cut;
use rec_data::Footer;
use std::alloc::Global;

/// Judges by all rules the records that were cut behind a data section, and the Footer. What was kept of the section has what
/// they tell from then on.
fn judge_cuts(
    alloc: Global,
    section: &mut Section,
    rest: &[u8],
    cuts: &[Cut],
    foot: &Cut,
    footer: &Footer,
) -> Result<(), ReadingRefused>
    requires are { AreCutBehind rest.now (cuts.now ++ foot.now ∷ []) }
    requires footer { IsOfFooter rest.now foot.now footer.now }
    requires room { foot.now.from + 16 ≤ size rest.now }
    requires fits { section.now.behind + size rest.now < 2 ^ 64 }
    ensures ok { OnOk result ((tops : List Top) → IsSectioned tops section.old
        → KnownOf tops rest.now cuts.now foot.now section.new) }
    ensures err { IfErr result (λ why. (tops : List Top) → IsSectioned tops section.old
        → FailsThere (spelled_file tops rest.now) why) }
    ensures judged { OnOk result (Each (λ t. Judged t None) (cut_tops rest.now cuts.now)) }
    ensures kind { IfErr result IsOfSummary }
{
    let behind = section.behind;
    match judge_kinds(rest, cuts, behind) {
        Ok(()) => {}
        Err(why) => return Err(why),
    }
    match judge_declarations(alloc, &mut section.tables, rest, cuts, behind) {
        Ok(()) => {}
        Err(why) => return Err(why),
    }
    match judge_order(alloc, cuts, behind) {
        Ok(()) => {}
        Err(why) => return Err(why),
    }
    match judge_indexes(
        &mut section.chunks,
        &mut section.attachments,
        &mut section.metadata,
        rest,
        cuts,
        behind,
    ) {
        Ok(()) => {}
        Err(why) => return Err(why),
    }
    count_ids(&mut section.tally, &section.tables);
    match judge_statistics(&section.tally, rest, cuts, behind) {
        Ok(()) => {}
        Err(why) => return Err(why),
    }
    match judge_offsets(alloc, rest, cuts, behind) {
        Ok(()) => {}
        Err(why) => return Err(why),
    }
    match judge_footer(rest, cuts, foot, footer, behind) {
        Ok(()) => {}
        Err(why) => return Err(why),
    }
    return Ok(());
}

// The same of all bytes behind a data section, and whether the file is fully indexed.
fn judge_rest(alloc: Global, section: &mut Section, rest: &[u8]) -> Result<bool, ReadingRefused>
    requires { section.now.behind + size rest.now + 8 < 2 ^ 64 }
    ensures ok { IfOk result (λ indexed. (tops : List Top) → IsSectioned tops section.old
        → IsJudged tops rest.now indexed) }
    ensures err { IfErr result (λ why. (tops : List Top) → IsSectioned tops section.old
        → FailsThere (spelled_file tops rest.now) why) }
    ensures kind { IfErr result IsOfSummary }
{
    let Summary { cuts, foot, footer } = match cut_summary(alloc, rest, section.behind) {
        Ok(summary) => summary,
        Err(why) => return Err(why),
    };
    match judge_cuts(alloc, section, rest, &cuts, &foot, &footer) {
        Ok(()) => {}
        Err(why) => return Err(why),
    }
    match is_indexed(alloc, section, rest, &cuts) {
        Ok(indexed) => return Ok(indexed),
        Err(_) => return Err(ReadingRefused::Memory),
    }
}

/// Judges by all rules the bytes that stand in a file between its Data End and its last magic, and says whether the file is
/// fully indexed. What was kept of the data section is used up.
pub fn judge_summary(alloc: Global, section: Section, rest: &[u8]) -> Result<bool, ReadingRefused>
    requires { section.behind + size rest.now + 8 < 2 ^ 64 }
    ensures ok { IfOk result (λ indexed. (tops : List Top) → IsSectioned tops section
        → IsJudged tops rest.now indexed) }
    ensures err { IfErr result (λ why. (tops : List Top) → IsSectioned tops section
        → FailsThere (spelled_file tops rest.now) why) }
    ensures kind { IfErr result IsOfSummary }
{
    let mut kept = section;
    judge_rest(alloc, &mut kept, rest)
}
