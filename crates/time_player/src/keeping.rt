//! Keeping the messages that are asked for.
ghost use Rattle.std.specs.Prelude.{◌∷◌, [], List, ℕ, OnOk};
ghost use Rattle.rec_data.specs.Records.{message_opcode, ShowsMessage};
ghost use Rattle.rec_data.specs.Parsed.{message_fields};
ghost use Rattle.mcap_model.specs.Made.{top};
ghost use Rattle.mcap_model.specs.Rules.{V6};
ghost use Rattle.mcap_model.specs.Plain.{asked_topic};
ghost use Rattle.mcap_scan.specs.Walking.{flat_content, flat_tables, placed_at};
ghost use Rattle.time_player.specs.Asking.{KeepsAsked};
ghost use Rattle.time_player.specs.Keeping.{kept_in};

use crate::asking::is_on_topic;
use crate::kept::Kept;
use mcap_model::{Place, Range, RecordView, Tables, is_within, view_record};
use mcap_scan::FlatReader;
use mcap_wire::{Memory, Text};
use rec_data::Message;

// Keeps the message, if it is asked for.
fn keep_message(
    kept: &mut Kept,
    tables: &Tables,
    range: Range,
    topic: Option<&Text>,
    place: Place,
    message: &Message,
) -> Result<(), Memory>
    ensures { (content : List ℕ) → ShowsMessage content message.now.channel_id (message_fields message.now)
        → OnOk result (KeepsAsked range (asked_topic topic.entry) tables.now
        (record { place = place; top = top message_opcode content } ∷ []) (kept_in kept.old) (kept_in kept.new)) }
{
    if !is_within(range, message.log_time) {
        return Ok(());
    }
    if !is_on_topic(tables, message.channel_id, topic) {
        return Ok(());
    }
    return kept.add(place, message);
}

/// Keeps the record that was given last, where it is a Message that is asked for.
pub(crate) fn keep_record(
    kept: &mut Kept,
    flat: &FlatReader,
    range: Range,
    topic: Option<&Text>,
    op: u8,
    place: Place,
) -> Result<(), Memory>
    requires { V6 (top op (flat_content flat.now)) }
    ensures { OnOk result (KeepsAsked range (asked_topic topic.entry) (flat_tables flat.now)
        (placed_at place op (flat_content flat.now) ∷ []) (kept_in kept.old) (kept_in kept.new)) }
{
    match view_record(op, flat.content()) {
        RecordView::Message(message) => {
            return keep_message(kept, flat.tables(), range, topic, place, &message);
        }
        _ => return Ok(()),
    }
}
