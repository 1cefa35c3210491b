//! A lane at a record of a feed, of the top level or inside a chunk.
ghost use Rattle.std.specs.Prelude.{◌≡◌, ◌∷◌, [], ℕ, List};
ghost use Rattle.mcap_model.specs.Tops.{Top};
ghost use Rattle.mcap_model.specs.Rules.{V6};
ghost use Rattle.mcap_model.specs.Made.{top};
ghost use Rattle.feed_lane.specs.Pass.{PassState};
ghost use Rattle.feed_lane.specs.Kept.{IsKnown};
ghost use Rattle.feed_lane.specs.Steps.{LaneStands, AreKnown, ThenShows, MessagesWait, RecordHandled, passed_among, Counted, KeepsAs};

use crate::lane::{Lane, Over};
use crate::pass::Pass;
use mcap_model::Tables;
use rec_data::{ATTACHMENT, MESSAGE, METADATA};
use std::alloc::Global;

impl Lane {
    /// Takes a record. Those inside a chunk come behind the chunk's own, of which nothing is taken.
    pub(crate) fn take<P: Pass>(
        &mut self,
        alloc: Global,
        tables: &Tables,
        op: u8,
        content: &[u8],
        pass: &mut P,
    ) -> Result<(), Over>
        requires knows { IsKnown (P.knows pass.old) self.old.ids.kept }
        requires v6 { V6 (top op content.now) }
        ensures knows { IsKnown (P.knows pass.new) self.new.ids.kept }
        ensures taken { (begun : P) (before : PassState) → P.since begun pass.old before
            → ThenShows (P.since begun pass.new) before (λ after. (records more : List Top) (handled : ℕ)
            → LaneStands self.old records handled before → AreKnown records tables.now
            → MessagesWait records handled (top op content.now ∷ more)
            → RecordHandled self.new records handled more after result) }
        ensures passed { Counted self.old.passed self.new.passed (passed_among (top op content.now ∷ [])) result }
        ensures kept { KeepsAs self.old self.new }
    {
        match op {
            MESSAGE => return self.take_message(alloc, tables, content, pass),
            ATTACHMENT | METADATA | 16..=255 => {
                self.passed = self.passed.saturating_add(1);
                return Ok(());
            }
            _ => return Ok(()),
        }
    }
}
