//! Records that are borrowed.
ghost use Rattle.std.specs.Prelude.{◌≡◌, ◌≤◌, ◌++◌, length, vec_capacity, OnOk, OnErr};
ghost use Rattle.mcap_wire.specs.Writing.{LacksRoom};
ghost use Rattle.rec_data.specs.Owned.{rec_bytes};
ghost use Rattle.rec_data.specs.OwnedReading.{LengthsFit};
ghost use Rattle.record_cache.specs.Offers.{rec_of};

use byte_region::Encode;
use mcap_wire::Memory;
use rec_data::{Channel, Message, Schema};

/// A record of the data section, borrowed.
#[derive(Drop)]
pub enum RecRef<'a> {
    Schema(Schema<'a>),
    Channel(Channel<'a>),
    Message(Message<'a>),
}

impl<'a> RecRef<'a> {
    // Appends the whole record, unless the vector has no room for it.
    #[inline(always)]
    fn frame(&self, out: &mut Vec<u8>) -> Result<(), Memory>
        requires { LengthsFit (rec_of self.now) }
        ensures ok { OnOk result (out.new.items ≡ out.old.items ++ rec_bytes (rec_of self.now)) }
        ensures full { OnErr result (LacksRoom out.old (length (rec_bytes (rec_of self.now)))) }
        ensures capacity { vec_capacity out.old ≤ vec_capacity out.new }
    {
        match self {
            RecRef::Schema(record) => return record.frame(out),
            RecRef::Channel(record) => return record.frame(out),
            RecRef::Message(record) => return record.frame(out),
        }
    }
}

impl<'a> Encode for RecRef<'a> {
    ghost use Rattle.rec_data.specs.Owned.{rec_bytes};
    ghost use Rattle.rec_data.specs.OwnedReading.{LengthsFit};
    ghost use Rattle.record_cache.specs.Offers.{rec_of};

    ghost is_sound = { λ r. LengthsFit (rec_of r) };

    ghost text = { λ r. rec_bytes (rec_of r) };

    #[inline(always)]
    fn encode(&self, out: &mut Vec<u8>) {
        match self.frame(out) {
            Ok(()) => {}
            Err(_) => unreachable!(),
        }
    }
}
