//! Writing the records of a merge.
ghost use Rattle.std.specs.Prelude.{◌≡◌, ◌<◌, ◌*◌, ◌+◌, ◌∷◌, [], List, length, IfErr, OnOk};
ghost use Rattle.rec_data.specs.declared.owned.Rec.{Rec};
ghost use Rattle.rec_data.specs.Parsed.{message_fields};
ghost use Rattle.mcap_model.specs.Tops.{Top};
ghost use Rattle.mcap_model.specs.History.{message_of};
ghost use Rattle.chunk_writer.specs.declared.phase.Phase.TheVariants as phases;
ghost use Rattle.chunk_writer.specs.Stops.{Cause};
ghost use Rattle.history_ids.specs.Tables.{HasSchemas, schema_with};
ghost use Rattle.history_ids.specs.DeclarationFits.{SchemaFits, DefFits};
ghost use Rattle.mcap_merge.specs.Uses.{Use, added_by, with_use};
ghost use Rattle.mcap_merge.specs.Joining.{JoinerStands, declaring_records, declared_records, FitsChoice};
ghost use Rattle.mcap_merge.specs.Writing.{put_on_channel, ComesNext};

use crate::framing::{frame_channel, frame_message, frame_schema};
use crate::input::Input;
use crate::joining::{Declared, Joiner};
use crate::pen::Pen;
use history_ids::{id_of, number_of};
use id_table::Given;
use mcap_model::Stop;
use rec_data::{Message, SchemaDef};
use std::alloc::Global;

// Puts the Schema, where its id is new.
fn put_schema<P: Pen>(
    framed: &mut Vec<u8>,
    schema: &Option<SchemaDef>,
    given: &Option<Given>,
    pen: &mut P,
) -> Result<(), Stop>
    requires fits { SchemaFits schema.now }
    requires going { P.phase pen.old ≡ phases.Going }
    ensures adds { P.adds pen.old pen.new [] (schema_with schema.now given.now) }
    ensures goes_on { OnOk result (P.phase pen.new ≡ phases.Going) }
    ensures stopped { IfErr result (λ stop. P.phase pen.new ≡ phases.Stopped stop) }
    ensures cause { Cause (P.failures pen.old) (P.failures pen.new) result }
{
    match schema {
        None => return Ok(()),
        Some(schema) => match given {
            None => return Ok(()),
            Some(Given::Known(_)) => return Ok(()),
            Some(Given::New(id)) => match frame_schema(framed, schema, *id) {
                Ok(()) => return pen.put(framed.as_slice()),
                Err(_) => return Err(pen.lack()),
            },
        },
    }
}

// Puts the records of a content that is new.
fn put_declared<P: Pen>(framed: &mut Vec<u8>, declared: &Declared, pen: &mut P) -> Result<(), Stop>
    requires fits { DefFits declared.now.content }
    requires going { P.phase pen.old ≡ phases.Going }
    ensures adds { P.adds pen.old pen.new [] (declaring_records declared.now) }
    ensures goes_on { OnOk result (P.phase pen.new ≡ phases.Going) }
    ensures stopped { IfErr result (λ stop. P.phase pen.new ≡ phases.Stopped stop) }
    ensures cause { Cause (P.failures pen.old) (P.failures pen.new) result }
{
    let id = number_of(&declared.ids.channel);
    let schema_id = id_of(&declared.ids.schema);
    match put_schema(framed, &declared.content.schema, &declared.ids.schema, pen) {
        Ok(()) => {}
        Err(stop) => return Err(stop),
    }
    match frame_channel(framed, &declared.content, id, schema_id) {
        Ok(()) => return pen.put(framed.as_slice()),
        Err(_) => return Err(pen.lack()),
    }
}

// Puts what is declared for a message.
fn put_choice<P: Pen>(
    framed: &mut Vec<u8>,
    declared: &Option<Declared>,
    pen: &mut P,
) -> Result<(), Stop>
    requires fits { FitsChoice declared.now }
    requires going { P.phase pen.old ≡ phases.Going }
    ensures adds { P.adds pen.old pen.new [] (declared_records declared.now) }
    ensures goes_on { OnOk result (P.phase pen.new ≡ phases.Going) }
    ensures stopped { IfErr result (λ stop. P.phase pen.new ≡ phases.Stopped stop) }
    ensures cause { Cause (P.failures pen.old) (P.failures pen.new) result }
{
    match declared {
        None => return Ok(()),
        Some(declared) => return put_declared(framed, declared, pen),
    }
}

// Puts a message on the channel of that id.
fn put_message<P: Pen>(
    framed: &mut Vec<u8>,
    id: u16,
    message: &Message<'_>,
    pen: &mut P,
) -> Result<(), Stop>
    requires going { P.phase pen.old ≡ phases.Going }
    ensures adds { P.adds pen.old pen.new [] (message_of id (message_fields message.now) ∷ []) }
    ensures goes_on { OnOk result (P.phase pen.new ≡ phases.Going) }
    ensures stopped { IfErr result (λ stop. P.phase pen.new ≡ phases.Stopped stop) }
    ensures cause { Cause (P.failures pen.old) (P.failures pen.new) result }
{
    match frame_message(framed, id, message) {
        Ok(()) => return pen.put(framed.as_slice()),
        Err(_) => return Err(pen.lack()),
    }
}

/// Puts a message of the input of that number, behind what is declared for it.
pub(crate) fn write_message<P: Pen>(
    alloc: Global,
    joiner: &mut Joiner,
    framed: &mut Vec<u8>,
    input: &Input,
    number: usize,
    message: &Message<'_>,
    pen: &mut P,
) -> Result<(), Stop>
    requires within { number * 65536 + 65535 < length joiner.old.given.items }
    requires schemas { HasSchemas joiner.old.table }
    requires going { P.phase pen.old ≡ phases.Going }
    ensures adds { (inputs : List (List Top)) (history : List Rec) (u : Use)
        → ComesNext inputs history joiner.old input.now number
        (put_on_channel message.now.channel_id (message_fields message.now)) u
        → P.adds pen.old pen.new [] (added_by history u) }
    ensures stands { OnOk result ((inputs : List (List Top)) (history : List Rec) (u : Use)
        → ComesNext inputs history joiner.old input.now number
        (put_on_channel message.now.channel_id (message_fields message.now)) u
        → JoinerStands inputs (with_use history u) joiner.new) }
    ensures schemas { OnOk result (HasSchemas joiner.new.table) }
    ensures sized { OnOk result (length joiner.new.given.items ≡ length joiner.old.given.items) }
    ensures goes_on { OnOk result (P.phase pen.new ≡ phases.Going) }
    ensures stopped { IfErr result (λ stop. P.phase pen.new ≡ phases.Stopped stop) }
    ensures cause { Cause (P.failures pen.old) (P.failures pen.new) result }
{
    let choice = match joiner.choose(alloc, input, number, message.channel_id) {
        Ok(choice) => choice,
        Err(_) => return Err(pen.lack()),
    };
    match put_choice(framed, &choice.declared, pen) {
        Ok(()) => {}
        Err(stop) => return Err(stop),
    }
    let id = choice.id;
    return put_message(framed, id, message, pen);
}
