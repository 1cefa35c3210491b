//! Records that are put as values, and the vectors of blocks.
ghost use Rattle.std.specs.Prelude.{◌≡◌, ◌≤◌, true, IfOk};
ghost use Rattle.rec_data.specs.OwnedReading.{LengthsFit};
ghost use Rattle.mcap_model.specs.History.{is_inner};

use crate::same::holds_at;
use chunk_build::Chunker;
use mcap_model::Block;
use rec_data::Rec;
use std::alloc::Global;
use std::test::Fail;

// Each literal stands in a function, so that no goal of a test holds its bytes.

// The Channel 1, and a Message on it, logged at 10.
fn channel() -> &'static [u8] {
    b"\x04\x12\0\0\0\0\0\0\0\x01\0\0\0\x02\0\0\0/a\0\0\0\0\0\0\0\0"
}

fn message() -> &'static [u8] {
    b"\x05\x17\0\0\0\0\0\0\0\x01\0\x01\0\0\0\x0a\0\0\0\0\0\0\0\x09\0\0\0\0\0\0\0\xaa"
}

// Their block: times, size, CRC (zlib's), no compression, the records' length, the records; and a Message Index with the entry
// (10, 27).
fn block() -> &'static [u8] {
    b"\x06\x63\0\0\0\0\0\0\0\
    \x0a\0\0\0\0\0\0\0\x0a\0\0\0\0\0\0\0\x3b\0\0\0\0\0\0\0\xa8\x91\xbb\xd8\0\0\0\0\x3b\0\0\0\0\0\0\0\
    \x04\x12\0\0\0\0\0\0\0\x01\0\0\0\x02\0\0\0/a\0\0\0\0\0\0\0\0\
    \x05\x17\0\0\0\0\0\0\0\x01\0\x01\0\0\0\x0a\0\0\0\0\0\0\0\x09\0\0\0\0\0\0\0\xaa\
    \x07\x16\0\0\0\0\0\0\0\x01\0\x10\0\0\0\x0a\0\0\0\0\0\0\0\x1b\0\0\0\0\0\0\0"
}

// Whether it is a Schema, a Channel or a Message.
fn stands_inside(r: &Rec) -> bool
    ensures { result ≡ is_inner r.now }
{
    match r {
        Rec::Schema { .. } => true,
        Rec::Channel { .. } => true,
        Rec::Message { .. } => true,
        Rec::Extra { .. } => false,
    }
}

/// The record of these bytes, which is no extra.
pub(crate) fn record_of(alloc: Global, framed: &[u8]) -> Result<Rec, Fail>
    ensures fits { IfOk result LengthsFit }
    ensures inner { IfOk result (λ r. is_inner r ≡ true) }
{
    let Some(record) = Rec::from_framed(alloc, framed)? else {
        return Err(Fail::from("no record"));
    };
    if !stands_inside(&record) {
        return Err(Fail::from("an extra"));
    }
    Ok(record)
}

// Puts a record.
fn put(alloc: Global, chunker: &mut Chunker, framed: &[u8]) -> Result<Option<Block>, Fail> {
    let record = record_of(alloc, framed)?;
    Ok(chunker.put(&record)?)
}

// The vector of the block that waits.
fn last(chunker: &mut Chunker) -> Result<Vec<u8>, Fail> {
    match chunker.finish()? {
        Some(block) => Ok(block.bytes.into_vec()),
        None => Err(Fail::from("no block")),
    }
}

// The vector of their block, put behind a vector that is given back.
fn next_block(alloc: Global, chunker: &mut Chunker, given: usize) -> Result<Vec<u8>, Fail> {
    chunker.give_back(Vec::with_capacity(alloc, given)?);
    let _none = put(alloc, chunker, channel())?;
    match put(alloc, chunker, message())? {
        Some(block) => Ok(block.bytes.into_vec()),
        None => last(chunker),
    }
}

// Whether the chunker puts their block into each of two vectors that are given back.
fn fills_both(alloc: Global, chunker: &mut Chunker) -> Result<bool, Fail> {
    for given in [5000, 6000] {
        let bytes = next_block(alloc, chunker, given)?;
        if bytes.as_slice() != block() || bytes.capacity() != given {
            return Ok(false);
        }
    }
    Ok(true)
}

// The same of a new chunker. Each way out of a function that owns one is proved to drop it, so it has one.
fn new_fills_both(alloc: Global, size: u64) -> Result<bool, Fail>
    requires some { 1 ≤ size }
    requires small { size ≤ 1000 }
{
    let mut chunker = Chunker::new(alloc, size, None)?;
    fills_both(alloc, &mut chunker)
}

#[test]
fn a_vector_given_back_holds_a_later_block(rt: HostRuntime) -> Result<(), Fail> {
    // a block that is full, and one that isn't
    holds_at(&rt, new_fills_both(rt.alloc(), 59)?, &59);
    holds_at(&rt, new_fills_both(rt.alloc(), 60)?, &60);
    Ok(())
}
