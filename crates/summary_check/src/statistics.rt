//! The Statistics of a summary.
ghost use Rattle.std.specs.Prelude.{◌≡◌, ◌↔◌, List, ℕ, IsTrue};
ghost use Rattle.mcap_model.specs.Tops.{Top};
ghost use Rattle.mcap_model.specs.Whole.{V14};
ghost use Rattle.mcap_model.specs.Made.{top};
ghost use Rattle.index_check.specs.Tally.{TallyOf};
ghost use Rattle.summary_read.specs.PartSteps.{cut_tops, AreInside};
ghost use Rattle.summary_check.specs.Body.{RuleJudged};

use crate::records::record_at;
use index_check::Tally;
use mcap_wire::Cut;
use rec_index::{STATISTICS, Statistics};

// Whether a record counts the data section right, where it is a Statistics.
fn counts_right(tally: &Tally, op: u8, content: &[u8]) -> bool
    ensures { (all section : List Top) (n : ℕ) → TallyOf all section tally.now
        → IsTrue result ↔ V14 all n (top op content.now) }
{
    if op != STATISTICS {
        return true;
    }
    match Statistics::parse(content) {
        Ok(statistics) => return tally.is_right(&statistics),
        Err(_) => return true,
    }
}

/// The first Statistics among these records that doesn't count the data section right.
pub(crate) fn find_miscounted(tally: &Tally, bytes: &[u8], cuts: &[Cut]) -> Option<usize>
    requires { AreInside bytes.now cuts.now }
    ensures { (all section : List Top) (base : ℕ) → TallyOf all section tally.now
        → RuleJudged V14 all base (cut_tops bytes.now cuts.now) result }
{
    'records: for i in 0..cuts.len() {
        let record = record_at(bytes, cuts, i);
        if !counts_right(tally, record.op, record.content) {
            return Some(i);
        }
    }
    return None;
}
