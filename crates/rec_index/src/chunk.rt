//! The record Chunk (MCAP specification, "Chunk (op=0x06)").
ghost use Rattle.std.specs.Prelude.{◌≡◌, ◌+◌, ◌^◌, ◌<◌, ◌≤◌, ℕ, List, ◌++◌, length, vec_capacity, IfOk, IfErr, OnOk, OnErr};
ghost use Rattle.mcap_wire.specs.Layout.{framed};
ghost use Rattle.mcap_wire.specs.Writing.{LacksRoom};
ghost use Rattle.rec_index.specs.Fields.{ChunkFields};
ghost use Rattle.rec_index.specs.Parsed.{chunk_fields};
ghost use Rattle.rec_index.specs.Records.{chunk_opcode, chunk_text, ShowsChunk};
ghost use Rattle.rec_index.specs.RecordReading.{ChunkFails};

use crate::opcodes::CHUNK;
use mcap_wire::{
    Bad, HEAD_LENGTH, Memory, add_bytes64, add_head, add_text, add_u32, add_u64, at_field,
    make_room, take_bytes64, take_text, take_u32, take_u64,
};

/// A batch of records: the first and the last log time of its messages in nanoseconds (0 where it has none), the size in
/// bytes and the CRC-32 of its records before compression (0 where there is none), the compression (empty where there is
/// none), and the records as they are compressed.
#[derive(Clone, Copy, PartialEq, Eq)]
pub struct Chunk<'a> {
    pub message_start_time: u64,
    pub message_end_time: u64,
    pub uncompressed_size: u64,
    pub uncompressed_crc: u32,
    pub compression: &'a str,
    pub records: &'a [u8],
}

impl<'a> Chunk<'a> {
    /// Reads the fields from a content. Bytes after the last field are allowed.
    pub fn parse(content: &'a [u8]) -> Result<Self, Bad>
        ensures shown { IfOk result (λ c. ShowsChunk content.now (chunk_fields c)) }
        ensures none { OnErr result ((f : ChunkFields) → ShowsChunk content.now f → ⊥) }
        ensures first_fault { IfErr result (λ bad. ChunkFails content.now bad.field bad.why) }
    {
        let (message_start_time, at) = at_field(1, take_u64(content, 0))?;
        let (message_end_time, at) = at_field(2, take_u64(content, at))?;
        let (uncompressed_size, at) = at_field(3, take_u64(content, at))?;
        let (uncompressed_crc, at) = at_field(4, take_u32(content, at))?;
        let (compression, at) = at_field(5, take_text(content, at))?;
        let (records, _after) = at_field(6, take_bytes64(content, at))?;
        Ok(Chunk {
            message_start_time,
            message_end_time,
            uncompressed_size,
            uncompressed_crc,
            compression,
            records,
        })
    }

    /// Appends the whole record. Memory is lacking only where the vector has no room for it, and then the vector keeps its
    /// bytes.
    pub fn frame(&self, out: &mut Vec<u8>) -> Result<(), Memory>
        requires { length self.now.compression.now < 2 ^ 32 }
        ensures ok { OnOk result (out.new.items ≡ out.old.items ++ framed chunk_opcode
            (chunk_text (chunk_fields self.now))) }
        ensures err { OnErr result (out.new.items ≡ out.old.items) }
        ensures full { OnErr result (LacksRoom out.old
            (49 + length self.now.compression.now + length self.now.records.now)) }
        ensures capacity { vec_capacity out.old ≤ vec_capacity out.new }
    {
        let len = 40 + self.compression.len() + self.records.len();
        make_room(out, HEAD_LENGTH as usize + len)?;
        add_head(out, CHUNK, len as u64);
        add_u64(out, self.message_start_time);
        add_u64(out, self.message_end_time);
        add_u64(out, self.uncompressed_size);
        add_u32(out, self.uncompressed_crc);
        add_text(out, self.compression);
        add_bytes64(out, self.records);
        Ok(())
    }
}
