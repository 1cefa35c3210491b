//! What a reading says that was refused.
ghost use Rattle.std.specs.Prelude.{◌≡◌, List, ℕ};
ghost use Rattle.command_base.specs.ComplaintTroubles.{complained};
ghost use Rattle.command_base.specs.OneFile.{refusal_ending, indexed_ending, troubles_in, is_lack};

use crate::complaint::Complaint;
use mcap_model::{IndexedRefused, ReadingRefused};

/// The complaint of why a reading was refused: none of a failure, nor of a want of memory, which are told by themselves.
pub fn reading_complaint<'a>(file: &'a str, why: &'a ReadingRefused) -> Option<Complaint<'a>>
    ensures { complained result ≡ troubles_in (refusal_ending file.now why.now) }
{
    match why {
        ReadingRefused::Grammar { offset, .. } => Some(Complaint::Grammar {
            name: file,
            offset: *offset,
        }),
        ReadingRefused::Compressed { offset, name } => Some(Complaint::Compressed {
            name: file,
            compression: name.as_str(),
            offset: *offset,
        }),
        ReadingRefused::Limit { offset } => Some(Complaint::Limit {
            name: file,
            offset: *offset,
        }),
        ReadingRefused::Fault { .. } => None,
        ReadingRefused::Memory => None,
    }
}

/// Whether a reading was refused for want of memory.
pub fn lacks_memory(why: &ReadingRefused) -> bool
    ensures { (file : List ℕ) → result ≡ is_lack (refusal_ending file why.now) }
{
    match why {
        ReadingRefused::Memory => true,
        ReadingRefused::Fault { .. }
        | ReadingRefused::Grammar { .. }
        | ReadingRefused::Compressed { .. }
        | ReadingRefused::Limit { .. } => false,
    }
}

/// The complaint of why a file wasn't read by its index.
pub fn indexed_complaint<'a>(file: &'a str, why: &'a IndexedRefused) -> Option<Complaint<'a>>
    ensures { complained result ≡ troubles_in (indexed_ending file.now why.now) }
{
    match why {
        IndexedRefused::NotIndexed { why } => {
            return Some(Complaint::NotIndexed {
                name: file,
                why: *why,
            });
        }
        IndexedRefused::Refused { why } => return reading_complaint(file, why),
    }
}

/// Whether a file wasn't read by its index for want of memory.
pub fn index_lacks_memory(why: &IndexedRefused) -> bool
    ensures { (file : List ℕ) → result ≡ is_lack (indexed_ending file why.now) }
{
    match why {
        IndexedRefused::NotIndexed { .. } => return false,
        IndexedRefused::Refused { why } => return lacks_memory(why),
    }
}
