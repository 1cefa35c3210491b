//! Where a Footer says that the summary starts, and its Summary Offsets.
ghost use Rattle.std.specs.Prelude.{◌≡◌, ◌↔◌, ℕ, List, Some, IsTrue};
ghost use Rattle.mcap_model.specs.Tops.{Top};
ghost use Rattle.mcap_model.specs.Whole.{NamesSummary};
ghost use Rattle.index_check.specs.SummaryPlaces.{IsStart, PlacesOf};

use rec_data::Footer;

/// Where parts of a file start, in bytes from its front: what stands behind the Data End, the Footer, and the first Summary
/// Offset of the summary, if it has one.
#[derive(Clone, Copy)]
pub struct SummaryPlaces {
    pub behind: u64,
    pub footer: u64,
    pub first_offset: Option<u64>,
}

impl SummaryPlaces {
    // Whether the summary starts there, or there is none and it is 0.
    fn is_start(&self, start: u64) -> bool
        ensures { IsTrue result ↔ IsStart self.now start }
    {
        if start == self.behind {
            return true;
        }
        return start == 0 && self.footer == self.behind;
    }

    // Whether the first Summary Offset stands there, if there is one.
    fn is_first(&self, offset: u64) -> bool
        ensures { IsTrue result ↔ ((first : ℕ) → self.now.first_offset ≡ Some first → offset ≡ first) }
    {
        match self.first_offset {
            Some(first) => return offset == first,
            None => return true,
        }
    }

    /// Whether a Footer names the start of the summary and its first Summary Offset.
    pub fn are_named(&self, footer: &Footer) -> bool
        ensures { (tops : List Top) (n : ℕ) → PlacesOf tops n self.now
            → IsTrue result ↔ NamesSummary tops n footer.now.summary_start footer.now.summary_offset_start }
    {
        if !self.is_start(footer.summary_start) {
            return false;
        }
        return self.is_first(footer.summary_offset_start);
    }
}
