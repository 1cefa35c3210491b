//! Adding the message of a record.
ghost use Rattle.std.specs.Prelude.{◌∷◌, []};
ghost use Rattle.mcap_model.specs.declared.replay.Place.{Place};
ghost use Rattle.mcap_model.specs.Made.{top};
ghost use Rattle.mcap_model.specs.Rules.{V6};
ghost use Rattle.command_generate.specs.SumSteps.{AddsToSums};

use crate::sums::Sums;
use mcap_model::{RecordView, view_record};

/// Adds the record of that content, where it is a Message.
pub(crate) fn add_record(sums: &mut Sums, op: u8, content: &[u8])
    requires { V6 (top op content.now) }
    ensures { (place : Place) → AddsToSums (record { place = place; top = top op content.now } ∷ []) sums.old sums.new }
{
    match view_record(op, content) {
        RecordView::Message(message) => return sums.add(&message),
        _ => return,
    }
}
