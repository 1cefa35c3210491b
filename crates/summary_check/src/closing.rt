//! The Footer of a file.
ghost use Rattle.std.specs.Prelude.{◌≡◌, ◌+◌, ◌-◌, ◌≤◌, ℕ, List, length as size, IfErr, OnOk};
ghost use Rattle.mcap_model.specs.Tops.{Top};
ghost use Rattle.mcap_model.specs.Plain.{cut_top};
ghost use Rattle.mcap_model.specs.Whole.{V11, V16};
ghost use Rattle.summary_read.specs.PartSteps.{cut_tops};
ghost use Rattle.index_check.specs.SummaryPlaces.{FirstStands, PlacesOf};
ghost use Rattle.summary_check.specs.Files.{spelled_file, FailsThere, IsOfSummary};
ghost use Rattle.summary_check.specs.Filed.{records_of, Filed};
ghost use Rattle.summary_check.specs.Laid.{all_of, Laid};
ghost use Rattle.summary_check.specs.Closing.{IsOfFooter};

use crate::offsets::span_of;
use index_check::{SummaryPlaces, is_crc_right};
use mcap_model::{ReadingRefused, Rule};
use mcap_wire::{Cut, HEAD_LENGTH};
use rec_data::Footer;
use rec_index::SUMMARY_OFFSET;

/// The length of a Footer's content in front of its CRC.
const CRC_PLACE: u64 = 16;

// Where the first Summary Offset stands in the file, if there is one.
fn first_offset(cuts: &[Cut], start: u64) -> Option<u64>
    ensures { (tops : List Top) (bytes : List ℕ) (foot : Top) → Laid tops bytes cuts.now start
        → FirstStands (all_of tops (cut_tops bytes cuts.now) foot) result }
{
    match span_of(cuts, SUMMARY_OFFSET) {
        None => return None,
        Some((from, _)) => {
            return Some(start.saturating_add(from.saturating_sub(HEAD_LENGTH)));
        }
    }
}

// Where the parts of a file start.
fn places_of(cuts: &[Cut], foot: &Cut, start: u64) -> SummaryPlaces
    ensures are { (tops : List Top) (bytes : List ℕ) → Filed tops bytes cuts.now foot.now start
        → PlacesOf (records_of tops bytes cuts.now foot.now) (size tops + size (cut_tops bytes cuts.now)) result }
    ensures behind { result.behind ≡ start }
    ensures footer { (tops : List Top) (bytes : List ℕ) → Filed tops bytes cuts.now foot.now start
        → result.footer ≡ start + (foot.now.from - 9) }
{
    let first_offset = first_offset(cuts, start);
    SummaryPlaces {
        behind: start,
        footer: start.saturating_add(foot.from.saturating_sub(HEAD_LENGTH)),
        first_offset,
    }
}

/// Judges the places and the CRC that a Footer names.
pub(crate) fn judge_footer(
    bytes: &[u8],
    cuts: &[Cut],
    foot: &Cut,
    footer: &Footer,
    start: u64,
) -> Result<(), ReadingRefused>
    requires { foot.now.from + 16 ≤ size bytes.now }
    ensures ok { OnOk result ((tops : List Top) → Filed tops bytes.now cuts.now foot.now start
        → IsOfFooter bytes.now foot.now footer.now
        → V11 (records_of tops bytes.now cuts.now foot.now) (size tops + size (cut_tops bytes.now cuts.now))
        (cut_top bytes.now foot.now)
        × V16 (spelled_file tops bytes.now) (records_of tops bytes.now cuts.now foot.now)
        (size tops + size (cut_tops bytes.now cuts.now)) (cut_top bytes.now foot.now)) }
    ensures err { IfErr result (λ why. (tops : List Top) → Filed tops bytes.now cuts.now foot.now start
        → IsOfFooter bytes.now foot.now footer.now → FailsThere (spelled_file tops bytes.now) why) }
    ensures kind { IfErr result IsOfSummary }
{
    let places = places_of(cuts, foot, start);
    let offset = places.footer;
    if !places.are_named(footer) {
        return Err(ReadingRefused::Grammar {
            offset,
            rule: Rule::V11,
        });
    }
    if footer.summary_start == 0 {
        return Ok(());
    }
    if is_crc_right(&bytes[..(foot.from + CRC_PLACE) as usize], footer) {
        return Ok(());
    }
    return Err(ReadingRefused::Grammar {
        offset,
        rule: Rule::V16,
    });
}
