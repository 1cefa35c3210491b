//! Walks over the records of a buffer, and one that is full.
ghost use Rattle.std.specs.Prelude.{◌≤◌, length};
ghost use Rattle.rec_data.specs.Owned.{rec_bytes};
ghost use Rattle.record_cache.specs.KeptRecords.{IsKept};
ghost use Rattle.record_cache.specs.Offers.{rec_of};

use crate::same::holds;
use mcap_wire::PairsRef;
use rec_data::{Channel, Message, Rec, Schema};
use record_cache::*;
use std::alloc::Global;
use std::test::Fail;

// A Schema of 26 bytes, a Channel of 27 and a Message of 32.
fn three() -> &'static [u8] {
    b"\x03\x11\0\0\0\0\0\0\0\x01\0\x01\0\0\0s\0\0\0\0\x02\0\0\0\x01\x02\
    \x04\x12\0\0\0\0\0\0\0\x01\0\0\0\x02\0\0\0/a\0\0\0\0\0\0\0\0\
    \x05\x17\0\0\0\0\0\0\0\x01\0\x01\0\0\0\x0a\0\0\0\0\0\0\0\x09\0\0\0\0\0\0\0\xaa"
}

// A Schema of 26 bytes.
fn schema() -> RecRef<'static>
    ensures kept { IsKept (rec_of result) }
    ensures short { length (rec_bytes (rec_of result)) ≤ 100 }
{
    RecRef::Schema(Schema {
        id: 1,
        name: "s",
        encoding: "",
        payload: &[1, 2],
    })
}

// A Channel of 27 bytes.
fn channel() -> RecRef<'static>
    ensures kept { IsKept (rec_of result) }
    ensures short { length (rec_bytes (rec_of result)) ≤ 100 }
{
    RecRef::Channel(Channel {
        id: 1,
        schema_id: 0,
        topic: "/a",
        message_encoding: "",
        metadata: PairsRef::of(&[]),
    })
}

// A Message of 32 bytes.
fn message() -> RecRef<'static>
    ensures { IsKept (rec_of result) }
{
    RecRef::Message(Message {
        channel_id: 1,
        sequence: 1,
        log_time: 10,
        publish_time: 9,
        payload: &[0xaa],
    })
}

// The letter of a record's kind.
fn kind_of(rec: &Rec) -> u8 {
    match rec {
        Rec::Schema { .. } => b's',
        Rec::Channel { .. } => b'c',
        Rec::Message { .. } => b'm',
        Rec::Extra { .. } => b'e',
    }
}

// Whether the three stand in the buffer, one behind the other, and each is read back as one of its kind.
fn are_walked(alloc: Global, cache: &Cache) -> Result<bool, Fail> {
    let held = cache.held();
    let mut kinds = b"scm".iter();
    let mut at = 0;
    'records: while at < held {
        let found = cache.record(at);
        let kind = kind_of(&cache.owned(alloc, at)?.rec);
        let bytes = three().get(at as usize..found.next as usize);
        if bytes != Some(found.framed) || kinds.next() != Some(&kind) {
            return Ok(false);
        }
        at = found.next;
    }
    Ok(at == 85 && kinds.next().is_none())
}

// Whether an empty buffer takes the three and is walked so.
fn takes_three(alloc: Global, cache: &mut Cache) -> Result<bool, Fail> {
    let are_taken = cache.offer_two(schema(), channel()) == Ok(())
        && cache.offer(message()) == Ok(());
    Ok(are_taken && are_walked(alloc, cache)?)
}

// Whether an empty buffer with a limit of one byte takes a record, and no second one.
fn takes_one(cache: &mut Cache) -> bool {
    let is_taken = cache.offer(channel()) == Ok(());
    is_taken && cache.offer(message()) == Err(Full { held: 27 }) && cache.count() == 1
}

#[test]
fn a_buffer_that_holds_its_limit_is_full(rt: HostRuntime) -> Result<(), Fail> {
    let mut cache = Cache::new(rt.alloc(), 1)?;
    let is_so = takes_one(&mut cache);
    holds(&rt, is_so);
    Ok(())
}

#[test]
fn records_are_walked_in_the_order_of_their_offers(rt: HostRuntime) -> Result<(), Fail> {
    let mut cache = Cache::new(rt.alloc(), 1000)?;
    let is_so = takes_three(rt.alloc(), &mut cache)?;
    holds(&rt, is_so);
    Ok(())
}
