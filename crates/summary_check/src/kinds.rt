//! Which records may stand behind a Data End, and their layouts.
ghost use Rattle.summary_read.specs.PartSteps.{cut_tops, AreInside};
ghost use Rattle.summary_check.specs.Body.{BrokenFound};

use crate::records::record_at;
use mcap_model::Rule;
use mcap_wire::Cut;
use summary_read::breaks;

/// The first record that may not stand in front of a Footer or whose content can't be read, and the rule that it breaks.
pub(crate) fn find_broken(bytes: &[u8], cuts: &[Cut]) -> Option<(usize, Rule)>
    requires { AreInside bytes.now cuts.now }
    ensures { BrokenFound (cut_tops bytes.now cuts.now) result }
{
    'records: for i in 0..cuts.len() {
        let record = record_at(bytes, cuts, i);
        match breaks(record.op, record.content) {
            None => {}
            Some(rule) => return Some((i, rule)),
        }
    }
    return None;
}
