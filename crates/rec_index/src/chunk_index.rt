//! The record Chunk Index (MCAP specification, "Chunk Index (op=0x08)").
ghost use Rattle.std.specs.Prelude.{◌≡◌, ◌+◌, ◌^◌, ◌<◌, ◌≤◌, ℕ, List, ◌++◌, length, vec_capacity, IfOk, IfErr, OnOk, OnErr};
ghost use Rattle.mcap_wire.specs.Arrays.{entry_texts};
ghost use Rattle.mcap_wire.specs.Layout.{framed};
ghost use Rattle.mcap_wire.specs.Writing.{LacksRoom};
ghost use Rattle.rec_index.specs.Fields.{ChunkIndexFields};
ghost use Rattle.rec_index.specs.Parsed.{chunk_index_fields};
ghost use Rattle.rec_index.specs.Records.{chunk_index_opcode, chunk_index_text, ShowsChunkIndex};
ghost use Rattle.rec_index.specs.RecordReading.{ChunkIndexFails};

use crate::opcodes::CHUNK_INDEX;
use mcap_wire::{
    Bad, CountsRef, HEAD_LENGTH, Memory, add_counts, add_head, add_text, add_u64, at_field,
    make_room, take_counts, take_text, take_u64,
};

/// A Chunk of the file: the first and the last log time of its messages in nanoseconds, where the whole record starts and how
/// long it is, where the Message Index of each channel starts, how many bytes these have together, the compression, and the
/// sizes of the chunk's records with and without it. Offsets and sizes are in bytes.
#[derive(Drop)]
pub struct ChunkIndex<'a> {
    pub message_start_time: u64,
    pub message_end_time: u64,
    pub chunk_start_offset: u64,
    pub chunk_length: u64,
    pub message_index_offsets: CountsRef<'a>,
    pub message_index_length: u64,
    pub compression: &'a str,
    pub compressed_size: u64,
    pub uncompressed_size: u64,
}

impl<'a> ChunkIndex<'a> {
    /// Reads the fields from a content. Bytes after the last field are allowed.
    pub fn parse(content: &'a [u8]) -> Result<Self, Bad>
        ensures shown { IfOk result (λ i. ShowsChunkIndex content.now (chunk_index_fields i)) }
        ensures none { OnErr result ((f : ChunkIndexFields) → ShowsChunkIndex content.now f → ⊥) }
        ensures first_fault { IfErr result (λ bad. ChunkIndexFails content.now bad.field bad.why) }
    {
        let (message_start_time, at) = at_field(1, take_u64(content, 0))?;
        let (message_end_time, at) = at_field(2, take_u64(content, at))?;
        let (chunk_start_offset, at) = at_field(3, take_u64(content, at))?;
        let (chunk_length, at) = at_field(4, take_u64(content, at))?;
        let (message_index_offsets, at) = at_field(5, take_counts(content, at))?;
        let (message_index_length, at) = at_field(6, take_u64(content, at))?;
        let (compression, at) = at_field(7, take_text(content, at))?;
        let (compressed_size, at) = at_field(8, take_u64(content, at))?;
        let (uncompressed_size, _after) = at_field(9, take_u64(content, at))?;
        Ok(ChunkIndex {
            message_start_time,
            message_end_time,
            chunk_start_offset,
            chunk_length,
            message_index_offsets,
            message_index_length,
            compression,
            compressed_size,
            uncompressed_size,
        })
    }

    /// Appends the whole record. Memory is lacking only where the vector has no room for it, and then the vector keeps its
    /// bytes.
    pub fn frame(&self, out: &mut Vec<u8>) -> Result<(), Memory>
        requires message_index_offsets_fit { length (entry_texts 2 self.now.message_index_offsets) < 2 ^ 32 }
        requires compression_fits { length self.now.compression.now < 2 ^ 32 }
        ensures ok { OnOk result (out.new.items ≡ out.old.items ++ framed chunk_index_opcode
            (chunk_index_text (chunk_index_fields self.now))) }
        ensures err { OnErr result (out.new.items ≡ out.old.items) }
        ensures full { OnErr result (LacksRoom out.old
            (73 + length (entry_texts 2 self.now.message_index_offsets) + length self.now.compression.now)) }
        ensures capacity { vec_capacity out.old ≤ vec_capacity out.new }
    {
        let len = 64 + self.message_index_offsets.byte_len() + self.compression.len();
        make_room(out, HEAD_LENGTH as usize + len)?;
        add_head(out, CHUNK_INDEX, len as u64);
        add_u64(out, self.message_start_time);
        add_u64(out, self.message_end_time);
        add_u64(out, self.chunk_start_offset);
        add_u64(out, self.chunk_length);
        add_counts(out, &self.message_index_offsets);
        add_u64(out, self.message_index_length);
        add_text(out, self.compression);
        add_u64(out, self.compressed_size);
        add_u64(out, self.uncompressed_size);
        Ok(())
    }
}
