//! Records by their framed bytes.
ghost use Rattle.std.specs.Prelude.{◌≡◌, length, IfOk};
ghost use Rattle.rec_data.specs.declared.owned.Rec.{Rec};
ghost use Rattle.rec_data.specs.Owned.{RecFits};
ghost use Rattle.rec_data.specs.OwnedReading.{LengthsFit, ExtraMeets};
ghost use Rattle.chunk_build.specs.Building.{mark_of, IsLong};
ghost use Rattle.chunk_build.specs.Chunker.{AreFramed};

use crate::building::Mark;
use mcap_wire::{Bytes, Memory};
use rec_data::{MESSAGE, Message, Rec};
use std::alloc::Global;

/// The bytes of a whole record.
pub fn framed_of(alloc: Global, r: &Rec) -> Result<Bytes, Memory>
    requires fits { LengthsFit r.now }
    requires extra { ExtraMeets r.now }
    ensures { IfOk result (λ bytes. AreFramed bytes r.now) }
{
    let mut bytes = Vec::new(alloc);
    look(r);
    match r.frame(&mut bytes) {
        Ok(()) => return Ok(Bytes::new(bytes)),
        Err(memory) => return Err(memory),
    }
}

// Reads what the types say of a record: its numbers fit their fields, its texts are UTF-8 and the keys of its map differ.
fn look(r: &Rec)
    requires fits { LengthsFit r.now }
    requires extra { ExtraMeets r.now }
    ensures { RecFits r.now }
{
    match r {
        Rec::Schema { id, schema } => {
            let _id = *id;
            let _name = schema.name.as_str();
            let _encoding = schema.encoding.as_str();
        }
        Rec::Channel {
            id,
            schema_id,
            topic,
            message_encoding,
            metadata,
        } => {
            let _ids = (*id, *schema_id);
            let _topic = topic.as_str();
            let _encoding = message_encoding.as_str();
            let _metadata = metadata.as_slice();
        }
        Rec::Message {
            channel_id,
            sequence,
            log_time,
            publish_time,
            ..
        } => {
            let _ids = (*channel_id, *sequence);
            let _times = (*log_time, *publish_time);
        }
        Rec::Extra { .. } => {}
    }
}

/// The channel and the log time of a framed record that is a message.
pub fn mark_of_bytes(bytes: &[u8]) -> Option<Mark>
    requires { (r : Rec) × AreFramed bytes.now r }
    ensures mark { (r : Rec) → AreFramed bytes.now r → result ≡ mark_of r }
    ensures long { IsLong (length bytes.now) result }
{
    if bytes[0] != MESSAGE {
        return None;
    }
    match Message::parse(&bytes[9..]) {
        Ok(message) => return Some(Mark {
            channel: message.channel_id,
            time: message.log_time,
        }),
        Err(_) => unreachable!(),
    }
}
