//! The messages of a record, as they are shown.
ghost use Rattle.std.specs.Prelude.{◌≡◌, ◌∷◌, [], ℕ, List, OnOk, IfOk};
ghost use Rattle.rec_data.specs.Records.{message_opcode};
ghost use Rattle.mcap_model.specs.Places.{Each};
ghost use Rattle.mcap_model.specs.Tops.{records_in, placed_inside, placed_one};
ghost use Rattle.mcap_model.specs.Rules.{V6, V8};
ghost use Rattle.mcap_model.specs.Kept.{NamesCompression};
ghost use Rattle.mcap_model.specs.Made.{top};
ghost use Rattle.mcap_model.specs.Plain.{AddsThose};

use crate::inner::InnerWalk;
use crate::replay::{Place, Shown};
use mcap_wire::{Bytes, Memory};
use rec_data::{MESSAGE, Message};
use rec_index::{CHUNK, Chunk};
use std::alloc::Global;

/// A copy of a message.
pub(crate) fn copy_shown(alloc: Global, shown: &Shown) -> Result<Shown, Memory>
    ensures { IfOk result (λ copy. copy ≡ shown.now) }
{
    match Bytes::copied(alloc, shown.payload.as_slice()) {
        Ok(payload) => {
            return Ok(Shown {
                place: shown.place,
                log_time: shown.log_time,
                publish_time: shown.publish_time,
                channel: shown.channel,
                sequence: shown.sequence,
                payload,
            });
        }
        Err(memory) => return Err(memory),
    }
}

// Adds the Message of that content.
fn add_message(
    alloc: Global,
    shown: &mut Vec<Shown>,
    place: Place,
    content: &[u8],
) -> Result<(), Memory>
    requires { V6 (top message_opcode content.now) }
    ensures { OnOk result (AddsThose (record { place = place; top = top message_opcode content.now } ∷ [])
        shown.old.items shown.new.items) }
{
    let message = match Message::parse(content) {
        Ok(message) => message,
        Err(_) => unreachable!(),
    };
    let payload = Bytes::copied(alloc, message.payload)?;
    match shown.push(Shown {
        place,
        log_time: message.log_time,
        publish_time: message.publish_time,
        channel: message.channel_id,
        sequence: message.sequence,
        payload,
    }) {
        Ok(()) => return Ok(()),
        Err(_) => return Err(Memory),
    }
}

// Adds the Messages among the records of the chunk at that offset.
fn add_inside(
    alloc: Global,
    shown: &mut Vec<Shown>,
    offset: u64,
    records: &[u8],
) -> Result<(), Memory>
    requires { Each V6 (records_in records.now) }
    ensures { OnOk result (AddsThose (placed_inside offset 0 (records_in records.now))
        shown.old.items shown.new.items) }
{
    let mut walk = InnerWalk::new(records);
    'records: while let Some(inner) = walk.next() {
        if inner.op == MESSAGE {
            let place = Place {
                top: offset,
                inner: inner.offset,
            };
            add_message(alloc, shown, place, inner.content)?;
        }
    }
    return Ok(());
}

/// Adds the Messages that the record at that offset is or holds, which keeps the rules on layouts and on chunks, and names no
/// compression.
pub(crate) fn add_messages(
    alloc: Global,
    shown: &mut Vec<Shown>,
    offset: u64,
    op: u8,
    content: &[u8],
) -> Result<(), Memory>
    requires v6 { V6 (top op content.now) }
    requires v8 { V8 (top op content.now) }
    requires plain { (name : List ℕ) → NamesCompression (top op content.now) name → ⊥ }
    ensures { OnOk result (AddsThose (placed_one offset (top op content.now)) shown.old.items shown.new.items) }
{
    match op {
        MESSAGE => {
            let place = Place {
                top: offset,
                inner: 0,
            };
            return add_message(alloc, shown, place, content);
        }
        CHUNK => match Chunk::parse(content) {
            Ok(chunk) => return add_inside(alloc, shown, offset, chunk.records),
            Err(_) => unreachable!(),
        },
        _ => return Ok(()),
    }
}
