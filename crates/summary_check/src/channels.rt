//! The Channels that a summary repeats.
ghost use Rattle.std.specs.Prelude.{◌∷◌, ◌++◌, [], List, None, IfOk, OnOk};
ghost use Rattle.mcap_model.specs.Places.{Each};
ghost use Rattle.mcap_model.specs.Tops.{Top};
ghost use Rattle.mcap_model.specs.Made.{top};
ghost use Rattle.mcap_model.specs.Rules.{V6};
ghost use Rattle.summary_read.specs.PartSteps.{cut_tops, AreInside};
ghost use Rattle.summary_read.specs.Steps.{Judged};
ghost use Rattle.summary_check.specs.Declaring.{AreChannelIds};

use crate::records::record_at;
use index_check::Ids;
use mcap_model::{RecordView, view_record};
use mcap_wire::{Cut, Memory};
use std::alloc::Global;

// Adds the id of a record that is a Channel.
fn add_channel(ids: &mut Ids, op: u8, content: &[u8]) -> Result<(), Memory>
    requires { V6 (top op content.now) }
    ensures { OnOk result ((before : List Top) → AreChannelIds before ids.old
        → AreChannelIds (before ++ top op content.now ∷ []) ids.new) }
{
    match view_record(op, content) {
        RecordView::Channel(channel) => return ids.add_once(channel.id),
        _ => return Ok(()),
    }
}

/// The ids of the Channels among these records, which were judged by kind and layout.
pub(crate) fn channels_of(alloc: Global, bytes: &[u8], cuts: &[Cut]) -> Result<Ids, Memory>
    requires inside { AreInside bytes.now cuts.now }
    requires judged { Each (λ t. Judged t None) (cut_tops bytes.now cuts.now) }
    ensures { IfOk result (λ ids. AreChannelIds (cut_tops bytes.now cuts.now) ids) }
{
    let mut ids = Ids::new(alloc);
    'records: for i in 0..cuts.len() {
        let record = record_at(bytes, cuts, i);
        add_channel(&mut ids, record.op, record.content)?;
    }
    return Ok(ids);
}
