//! The records of a summary and its Footer.
ghost use Rattle.std.specs.Prelude.{◌≡◌, ◌≤◌, ◌<◌, ◌+◌, ◌^◌, List, length, MatchOption, IfOk, IfErr};
ghost use Rattle.mcap_model.specs.Tops.{Top, offset_behind};
ghost use Rattle.mcap_model.specs.Whole.{AreShort};
ghost use Rattle.summary_check.specs.Closing.{IsOfFooter, NoFooter};
ghost use Rattle.summary_check.specs.Files.{spelled_file, FailsThere, IsOfSummary};
ghost use Rattle.summary_check.specs.Laid.{EndsWithDataEnd};
ghost use Rattle.summary_check.specs.Closing.{CutWithFooter};

use crate::cutting::cut_records;
use mcap_model::{ReadingRefused, Rule};
use mcap_wire::Cut;
use rec_data::{FOOTER, Footer};
use std::alloc::Global;

/// The length of the magic, in bytes.
const MAGIC_LENGTH: u64 = 8;

/// The length of a Footer and of the last magic, in bytes.
const END_LENGTH: u64 = 37;

/// The records of a summary, and the Footer behind them.
#[derive(Drop)]
pub(crate) struct Summary {
    pub cuts: Vec<Cut>,
    pub foot: Cut,
    pub footer: Footer,
}

// The Footer that was cut, if the record is one.
fn footer_of(bytes: &[u8], foot: Cut) -> Option<Footer>
    requires begins { foot.from ≤ foot.to }
    requires ends { foot.to ≤ length bytes.now }
    ensures { MatchOption result (NoFooter bytes.now foot) (λ footer. IsOfFooter bytes.now foot footer) }
{
    if foot.op != FOOTER {
        return None;
    }
    match Footer::parse(&bytes[foot.from as usize..foot.to as usize]) {
        Ok(footer) => return Some(footer),
        Err(_) => return None,
    }
}

/// The records behind a Data End, the last of which is to be a Footer, in bytes that stand in the file from `start` on and up
/// to the last magic.
pub(crate) fn cut_summary(
    alloc: Global,
    bytes: &[u8],
    start: u64,
) -> Result<Summary, ReadingRefused>
    requires { start + length bytes.now + 8 < 2 ^ 64 }
    ensures ok { IfOk result (λ s. CutWithFooter bytes.now s) }
    ensures err { IfErr result (λ why. (tops : List Top) → EndsWithDataEnd tops → AreShort tops
        → start ≡ offset_behind tops → FailsThere (spelled_file tops bytes.now) why) }
    ensures kind { IfErr result IsOfSummary }
{
    let mut cuts = match cut_records(alloc, bytes, start) {
        Ok(cuts) => cuts,
        Err(why) => return Err(why),
    };
    let offset = (start + bytes.len() as u64 + MAGIC_LENGTH).saturating_sub(END_LENGTH);
    let foot = match cuts.pop() {
        Some(foot) => foot,
        None => return Err(ReadingRefused::Grammar {
            offset,
            rule: Rule::V17,
        }),
    };
    match footer_of(bytes, foot) {
        Some(footer) => return Ok(Summary { cuts, foot, footer }),
        None => return Err(ReadingRefused::Grammar {
            offset,
            rule: Rule::V17,
        }),
    }
}
