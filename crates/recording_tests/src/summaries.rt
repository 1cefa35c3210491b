//! A summary, byte by byte, of ids that stand in another order than their records.
ghost use Rattle.std.specs.Prelude.{◌≡◌, ◌≤◌, ◌+◌, List, length, true, IfOk, IfSome};
ghost use Rattle.rec_data.specs.declared.owned.Rec.{Rec};
ghost use Rattle.rec_data.specs.OwnedReading.{LengthsFit};
ghost use Rattle.mcap_model.specs.Built.{IsBlock};
ghost use Rattle.mcap_model.specs.History.{is_inner};
ghost use Rattle.chunk_build.specs.Chunker.{StandsFor};

use crate::chunkers::record_of;
use crate::same::holds;
use chunk_build::Chunker;
use mcap_model::Block;
use mcap_wire::{Bytes, Memory};
use rec_data::Rec;
use std::alloc::Global;
use std::test::Fail;
use summary_write::Summary;

// Channel 7, two schemas, channel 3 with a schema, a message on each channel at the times 20 and 10, a schema and a channel
// again with other contents, and a message on channel 7 at the time 30.
const MIXED: &[&[u8]] = &[
    b"\x04\x12\0\0\0\0\0\0\0\x07\0\0\0\x02\0\0\0/b\0\0\0\0\0\0\0\0",
    b"\x03\x0f\0\0\0\0\0\0\0\x02\0\x01\0\0\0u\0\0\0\0\0\0\0\0",
    b"\x03\x12\0\0\0\0\0\0\0\x01\0\x01\0\0\0s\x01\0\0\0e\x02\0\0\0\x01\x02",
    b"\x04\x12\0\0\0\0\0\0\0\x03\0\x01\0\x02\0\0\0/a\0\0\0\0\0\0\0\0",
    b"\x05\x16\0\0\0\0\0\0\0\x07\0\x01\0\0\0\x14\0\0\0\0\0\0\0\x14\0\0\0\0\0\0\0",
    b"\x05\x16\0\0\0\0\0\0\0\x03\0\x01\0\0\0\x0a\0\0\0\0\0\0\0\x0a\0\0\0\0\0\0\0",
    b"\x03\x0f\0\0\0\0\0\0\0\x01\0\x01\0\0\0t\0\0\0\0\0\0\0\0",
    b"\x04\x12\0\0\0\0\0\0\0\x07\0\0\0\x02\0\0\0/c\0\0\0\0\0\0\0\0",
    b"\x05\x16\0\0\0\0\0\0\0\x07\0\x02\0\0\0\x1e\0\0\0\0\0\0\0\x1e\0\0\0\0\0\0\0",
];

// Their summary behind one chunk at 34, which has 298 bytes, Message Indexes of 31 and 47 bytes and a Data End, so that it stands
// at 423: each id once, in the order of first records, but counts and offsets by ascending channel. Spelled by hand from the
// layouts; the Footer's CRC is zlib's.
fn of_mixed() -> &'static [u8] {
    b"\x03\x0f\0\0\0\0\0\0\0\x02\0\x01\0\0\0u\0\0\0\0\0\0\0\0\
    \x03\x12\0\0\0\0\0\0\0\x01\0\x01\0\0\0s\x01\0\0\0e\x02\0\0\0\x01\x02\
    \x04\x12\0\0\0\0\0\0\0\x07\0\0\0\x02\0\0\0/b\0\0\0\0\0\0\0\0\
    \x04\x12\0\0\0\0\0\0\0\x03\0\x01\0\x02\0\0\0/a\0\0\0\0\0\0\0\0\
    \x0bB\0\0\0\0\0\0\0\x03\0\0\0\0\0\0\0\x02\0\x02\0\0\0\0\0\0\0\0\0\0\0\x01\0\0\0\x0a\0\0\0\0\0\0\0\x1e\0\0\0\0\0\0\0\x14\0\0\0\x03\0\x01\0\0\0\0\0\0\0\x07\0\x02\0\0\0\0\0\0\0\
    \x08T\0\0\0\0\0\0\0\x0a\0\0\0\0\0\0\0\x1e\0\0\0\0\0\0\0\x22\0\0\0\0\0\0\0*\x01\0\0\0\0\0\0\x14\0\0\0\x03\0L\x01\0\0\0\0\0\0\x07\0k\x01\0\0\0\0\0\0N\0\0\0\0\0\0\0\0\0\0\0\xf9\0\0\0\0\0\0\0\xf9\0\0\0\0\0\0\0\
    \x0e\x11\0\0\0\0\0\0\0\x03\xa7\x01\0\0\0\0\0\0\x33\0\0\0\0\0\0\0\
    \x0e\x11\0\0\0\0\0\0\0\x04\xda\x01\0\0\0\0\0\0\x36\0\0\0\0\0\0\0\
    \x0e\x11\0\0\0\0\0\0\0\x0b\x10\x02\0\0\0\0\0\0K\0\0\0\0\0\0\0\
    \x0e\x11\0\0\0\0\0\0\0\x08[\x02\0\0\0\0\0\0]\0\0\0\0\0\0\0\
    \x02\x14\0\0\0\0\0\0\0\xa7\x01\0\0\0\0\0\0\xb8\x02\0\0\0\0\0\0a\x9f\x95\xf9\
    \x89MCAP0\x0d\x0a"
}

// Puts a record.
fn put(chunker: &mut Chunker, r: &Rec) -> Result<(), Memory>
    requires fits { LengthsFit r.now }
    requires inner { is_inner r.now ≡ true }
    requires stands { (history : List Rec) × StandsFor chunker.old history }
    ensures stands { (history : List Rec) × StandsFor chunker.new history }
{
    match chunker.put(r) {
        Ok(_) => return Ok(()),
        Err(memory) => return Err(memory),
    }
}

// Gives the last block, if there is one.
fn last(chunker: &mut Chunker) -> Result<Option<Block>, Memory>
    requires stands { (history : List Rec) × StandsFor chunker.old history }
    ensures block { IfOk result (λ closed. IfSome closed (λ b. (records : List Rec) × IsBlock b records)) }
{
    chunker.finish()
}

// Notes a record, and puts it.
fn note_and_put(summary: &mut Summary, chunker: &mut Chunker, r: &Rec) -> Result<(), Memory>
    requires fits { LengthsFit r.now }
    requires inner { is_inner r.now ≡ true }
    requires few { summary.old.messages ≤ 10 }
    requires stands { (history : List Rec) × StandsFor chunker.old history }
    ensures messages { summary.new.messages ≤ summary.old.messages + 1 }
    ensures blocks { summary.new.blocks ≡ summary.old.blocks }
    ensures stands { (history : List Rec) × StandsFor chunker.new history }
{
    summary.note_record(r)?;
    put(chunker, r)
}

// Notes records, and gives the block of all, where the chunker stands for none yet.
fn note_each(
    alloc: Global,
    summary: &mut Summary,
    chunker: &mut Chunker,
    records: &[&[u8]],
) -> Result<Block, Fail>
    requires few { length records.now ≤ 10 }
    requires messages { summary.old.messages ≡ 0 }
    requires blocks { summary.old.blocks ≡ 0 }
    requires stands { (history : List Rec) × StandsFor chunker.old history }
    ensures blocks { summary.new.blocks ≡ 0 }
    ensures block { IfOk result (λ b. (records : List Rec) × IsBlock b records) }
{
    for bytes in records {
        let record = record_of(alloc, bytes)?;
        note_and_put(summary, chunker, &record)?;
    }
    match last(chunker)? {
        Some(block) => return Ok(block),
        None => return Err(Memory)?,
    }
}

// The same with a new chunker. Each way out of a function that owns one is proved to drop it, so it has one; so of a summary
// and a block.
fn note_all(alloc: Global, summary: &mut Summary, records: &[&[u8]]) -> Result<Block, Fail>
    requires few { length records.now ≤ 10 }
    requires messages { summary.old.messages ≡ 0 }
    requires blocks { summary.old.blocks ≡ 0 }
    ensures blocks { summary.new.blocks ≡ 0 }
    ensures block { IfOk result (λ b. (records : List Rec) × IsBlock b records) }
{
    let mut chunker = Chunker::new(alloc, 786432, None)?;
    note_each(alloc, summary, &mut chunker, records)
}

// The end of a file with this block, of whose records it knows.
fn text_behind(summary: &mut Summary, block: &Block, at: u64) -> Result<Bytes, Memory>
    requires block { (records : List Rec) × IsBlock block.now records }
    requires blocks { summary.old.blocks ≡ 0 }
    requires at { at ≤ 1000 }
{
    summary.note_block(34, block)?;
    summary.text(at)
}

// The summary of a few records in one chunk, behind magic and a Header of 34 bytes, that and a Data End.
fn text_of(alloc: Global, summary: &mut Summary, records: &[&[u8]], at: u64) -> Result<Bytes, Fail>
    requires few { length records.now ≤ 10 }
    requires messages { summary.old.messages ≡ 0 }
    requires blocks { summary.old.blocks ≡ 0 }
    requires at { at ≤ 1000 }
{
    let block = note_all(alloc, summary, records)?;
    Ok(text_behind(summary, &block, at)?)
}

// The same with a new summary.
fn summary_of(alloc: Global, records: &[&[u8]], at: u64) -> Result<Bytes, Fail>
    requires few { length records.now ≤ 10 }
    requires at { at ≤ 1000 }
{
    let mut summary = Summary::new(alloc)?;
    text_of(alloc, &mut summary, records, at)
}

#[test]
fn ids_are_told_once_and_counts_by_ascending_channel(rt: HostRuntime) -> Result<(), Fail> {
    let text = summary_of(rt.alloc(), MIXED, 423)?;
    holds(&rt, text.as_slice() == of_mixed());
    Ok(())
}
