//! Picking messages of records that are read, in a new file that is being written.
ghost use Rattle.std.specs.Prelude.{◌≡◌, ℕ, Option, List, IfErr, OnOk};
ghost use Rattle.rec_data.specs.Records.{schema_opcode, channel_opcode, message_opcode, ShowsSchema, ShowsChannel, ShowsMessage};
ghost use Rattle.rec_data.specs.Parsed.{schema_fields, channel_fields, message_fields};
ghost use Rattle.mcap_model.specs.declared.replay.Range.{Range as Times};
ghost use Rattle.mcap_model.specs.Made.{top};
ghost use Rattle.mcap_model.specs.Plain.{asked_topic};
ghost use Rattle.mcap_model.specs.Rules.{V6, V10};
ghost use Rattle.chunk_writer.specs.declared.phase.Phase.TheVariants as phases;
ghost use Rattle.chunk_writer.specs.Stops.{Cause};
ghost use Rattle.chunk_writer.specs.Scribes.{KeepsOn, store_of, phase_of};
ghost use Rattle.record_keeping.specs.Keeping.{IsFrame};
ghost use Rattle.mcap_filter.specs.Picked.{Asking, asking};
ghost use Rattle.mcap_filter.specs.Picking.{PicksOne, PicksAnywhere, picking};

use crate::choices::{Asked, Choices, choose};
use crate::needs::{note, put_channel, put_message};
use mcap_io::LiveStore;
use mcap_model::{Range, RecordView, Stop, is_within, view_record};
use mcap_wire::Text;
use rec_data::{Channel, Message, Schema};
use record_keeping::{Keeping, keep_other};
use std::alloc::Global;

// Notes a Schema of that content.
fn note_schema<L: LiveStore>(
    alloc: Global,
    k: &mut Keeping<L>,
    choices: &mut Choices,
    schema: &Schema,
    content: &[u8],
) -> Result<(), Stop>
    requires going { phase_of k.old.scribe ≡ phases.Going }
    requires shown { ShowsSchema content.now schema.now.id (schema_fields schema.now) }
    ensures takes { (a : Asking) → PicksAnywhere L.state a (picking k.old choices.old) (picking k.new choices.new)
        (top schema_opcode content.now) }
    ensures goes_on { OnOk result (phase_of k.new.scribe ≡ phases.Going) }
    ensures stopped { IfErr result (λ stop. phase_of k.new.scribe ≡ phases.Stopped stop) }
    ensures keeps { KeepsOn (L.state (store_of k.old.scribe)).held (L.state (store_of k.new.scribe)).held }
    ensures cause { Cause (L.state (store_of k.old.scribe)).faults (L.state (store_of k.new.scribe)).faults result }
{
    match note(alloc, &mut choices.schemas, schema.id, content) {
        Ok(()) => return Ok(()),
        Err(_) => return Err(k.scribe.stop_for_memory()),
    }
}

// Notes a Channel of that content.
fn note_channel<L: LiveStore>(
    alloc: Global,
    k: &mut Keeping<L>,
    choices: &mut Choices,
    topic: Option<&Text>,
    channel: &Channel,
    content: &[u8],
) -> Result<(), Stop>
    requires going { phase_of k.old.scribe ≡ phases.Going }
    requires shown { ShowsChannel content.now channel.now.id (channel_fields channel.now) }
    ensures takes { (range : Times) → PicksAnywhere L.state (asking range (asked_topic topic.entry))
        (picking k.old choices.old) (picking k.new choices.new) (top channel_opcode content.now) }
    ensures goes_on { OnOk result (phase_of k.new.scribe ≡ phases.Going) }
    ensures stopped { IfErr result (λ stop. phase_of k.new.scribe ≡ phases.Stopped stop) }
    ensures keeps { KeepsOn (L.state (store_of k.old.scribe)).held (L.state (store_of k.new.scribe)).held }
    ensures cause { Cause (L.state (store_of k.old.scribe)).faults (L.state (store_of k.new.scribe)).faults result }
{
    match choose(alloc, choices, topic, channel, content) {
        Ok(()) => return Ok(()),
        Err(_) => return Err(k.scribe.stop_for_memory()),
    }
}

// Puts the Message of that content after what it needs, if its time lies in the range and its channel is wanted.
fn pick_message<L: LiveStore>(
    alloc: Global,
    k: &mut Keeping<L>,
    choices: &Choices,
    range: Range,
    message: &Message,
    content: &[u8],
    frame: Option<&[u8]>,
) -> Result<(), Stop>
    requires going { phase_of k.old.scribe ≡ phases.Going }
    requires v6 { V6 (top message_opcode content.now) }
    requires shown { ShowsMessage content.now message.now.channel_id (message_fields message.now) }
    requires framed { IsFrame message_opcode content.now frame }
    ensures takes { (asked : Option (List ℕ)) → PicksOne L.state (asking range asked) (picking k.old choices.now)
        (picking k.new choices.now) frame.entry (top message_opcode content.now) }
    ensures goes_on { OnOk result (phase_of k.new.scribe ≡ phases.Going) }
    ensures stopped { IfErr result (λ stop. phase_of k.new.scribe ≡ phases.Stopped stop) }
    ensures keeps { KeepsOn (L.state (store_of k.old.scribe)).held (L.state (store_of k.new.scribe)).held }
    ensures cause { Cause (L.state (store_of k.old.scribe)).faults (L.state (store_of k.new.scribe)).faults result }
{
    if !is_within(range, message.log_time) {
        return Ok(());
    }
    let channel = match choices.wanted.find(message.channel_id) {
        Some(channel) => channel,
        None => return Ok(()),
    };
    put_channel(alloc, k, &choices.schemas, message.channel_id, channel)?;
    return put_message(alloc, k, content, frame);
}

/// Notes what a record declares, puts what is asked for of what it shows, and keeps what is an extra. The frame is the record with
/// its head, where it stands inside a chunk; at top level there is none.
pub(crate) fn pick_record<L: LiveStore>(
    alloc: Global,
    k: &mut Keeping<L>,
    choices: &mut Choices,
    asked: &Asked,
    op: u8,
    content: &[u8],
    frame: Option<&[u8]>,
) -> Result<(), Stop>
    requires going { phase_of k.old.scribe ≡ phases.Going }
    requires v6 { V6 (top op content.now) }
    requires v10 { V10 (top op content.now) }
    requires framed { IsFrame op content.now frame }
    ensures takes { PicksOne L.state (asking asked.now.range (asked_topic asked.now.topic)) (picking k.old choices.old)
        (picking k.new choices.new) frame.entry (top op content.now) }
    ensures goes_on { OnOk result (phase_of k.new.scribe ≡ phases.Going) }
    ensures stopped { IfErr result (λ stop. phase_of k.new.scribe ≡ phases.Stopped stop) }
    ensures keeps { KeepsOn (L.state (store_of k.old.scribe)).held (L.state (store_of k.new.scribe)).held }
    ensures cause { Cause (L.state (store_of k.old.scribe)).faults (L.state (store_of k.new.scribe)).faults result }
{
    match view_record(op, content) {
        RecordView::Message(message) => {
            return pick_message(alloc, k, choices, asked.range, &message, content, frame);
        }
        RecordView::Schema(schema) => return note_schema(alloc, k, choices, &schema, content),
        RecordView::Channel(channel) => {
            return note_channel(alloc, k, choices, asked.topic, &channel, content);
        }
        RecordView::Header(_)
        | RecordView::Chunk(_)
        | RecordView::MessageIndex(_)
        | RecordView::Attachment(_)
        | RecordView::Metadata(_)
        | RecordView::Other => return keep_other(k, op, content, frame),
    }
}
