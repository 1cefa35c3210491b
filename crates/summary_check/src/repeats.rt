//! Whether a summary repeats the Channels of a file's messages.
ghost use Rattle.std.specs.Prelude.{◌≡◌, ◌↔◌, List, None, IsTrue};
ghost use Rattle.rec_data.specs.Records.{footer_opcode};
ghost use Rattle.mcap_model.specs.Places.{Has, Each};
ghost use Rattle.mcap_model.specs.Tops.{Top};
ghost use Rattle.index_check.specs.Tally.{TallyOf};
ghost use Rattle.summary_read.specs.Steps.{Judged};
ghost use Rattle.summary_check.specs.Declaring.{AreChannelIds};
ghost use Rattle.summary_check.specs.Laid.{all_of, EndsWithDataEnd};
ghost use Rattle.summary_check.specs.Repeating.{AreRepeated};

use index_check::{Ids, Tally};

// Whether the channel of an entry is among these.
fn has_entry(ids: &Ids, entry: &(u16, u64)) -> bool
    ensures { IsTrue result ↔ Has ids.now entry.now.0 }
{
    ids.has(entry.0)
}

// Whether each channel that has a number is among these.
fn have_entries(ids: &Ids, counts: &[(u16, u64)]) -> bool
    ensures { IsTrue result ↔ Each (λ entry. Has ids.now entry.0) counts.now }
{
    'counts: for i in 0..counts.len() {
        if !has_entry(ids, &counts[i]) {
            return false;
        }
    }
    return true;
}

/// Whether each channel with a Message, for which there is a number, is one of these, which are those of the Channels
/// between the Data End and the Footer.
pub fn are_repeated(tally: &Tally, ids: &Ids) -> bool
    ensures { (tops body : List Top) (foot : Top) (ended : EndsWithDataEnd tops) → Each (λ t. Judged t None) body
        → foot.op ≡ footer_opcode → TallyOf (all_of tops body foot) ended.section tally.now → AreChannelIds body ids.now
        → IsTrue result ↔ AreRepeated (all_of tops body foot) }
{
    have_entries(ids, &tally.counts)
}
