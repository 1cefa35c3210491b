//! The summary as it grows (MCAP specification, "Summary Section").
ghost use Rattle.std.specs.Prelude.{◌≡◌, ◌+◌, ◌^◌, ◌<◌, ◌≤◌, ◌++◌, ◌==◌, Some, List, true, map, min, if◌then◌else◌, All, IfOk, OnOk, OnErr};
ghost use Rattle.mcap_wire.specs.Limits.{record_count_limit};
ghost use Rattle.rec_data.specs.declared.owned.Rec.{Rec};
ghost use Rattle.rec_data.specs.OwnedReading.{LengthsFit};
ghost use Rattle.rec_data.specs.Fields.{AttachmentFields, MetadataFields};
ghost use Rattle.rec_data.specs.Records.{attachment_opcode, metadata_opcode, ShowsAttachment, ShowsMetadata};
ghost use Rattle.chunk_build.specs.Building.{mark_of};
ghost use Rattle.chunk_build.specs.Chunker.{AreInner};
ghost use Rattle.mcap_model.specs.History.{is_inner};
ghost use Rattle.mcap_model.specs.Built.{IsBlock};
ghost use Rattle.mcap_model.specs.Summary.{Noted, summary_text};
ghost use Rattle.summary_write.specs.Tally.{SummaryStandsFor, no_notes, id_in_record, with_record, with_id_once, with_bytes_once, with_noted_record, with_noted_block, with_noted_extra, index_of_block};

use crate::counts::count;
use crate::extras::{add_attachment_index, add_metadata_index};
use crate::text::{Lengths, Numbers, put_end, put_offsets, put_statistics};
use chunk_build::{framed_of, mark_of_bytes};
use indexmap::IndexSet;
use mcap_model::{Block, IndexPart};
use mcap_wire::{Bytes, CountsRef, Memory, put_bytes, take_u16};
use rec_data::{Rec, SCHEMA};
use rec_index::ChunkIndex;
use std::alloc::Global;
use std::marker::Model;

/// The summary of a file, as it grows. Contracts see the ids and the framed records of its schemas and channels, the numbers of its
/// messages, its framed Chunk Indexes, and the numbers and framed indexes of Attachments and Metadata.
#[derive(Drop)]
pub struct Summary {
    alloc: Global,
    schema_ids: IndexSet<u16>,
    schemas: Vec<u8>,
    channel_ids: IndexSet<u16>,
    channels: Vec<u8>,
    messages: u64,
    start: u64,
    end: u64,
    counts: Vec<(u16, u64)>,
    blocks: u64,
    chunk_indexes: Vec<u8>,
    attachments: u32,
    attachment_indexes: Vec<u8>,
    metadata: u32,
    metadata_indexes: Vec<u8>,
}

impl Model for Summary {
    ghost use Rattle.summary_write.specs.Tally.{Tally};

    ghost Value = { Tally };

    ghost use Rattle.summary_write.specs.Fields.{tally_of, HasSoundCounts};

    ghost view = { tally_of };

    ghost invariant = { HasSoundCounts };
}

impl Summary {
    /// A summary in which nothing is noted.
    pub fn new(alloc: Global) -> Result<Summary, Memory>
        ensures new { IfOk result (λ s. SummaryStandsFor s no_notes) }
        ensures none { IfOk result (λ s. (s.messages ≡ 0) × (s.blocks ≡ 0)) }
    {
        Ok(Summary {
            alloc,
            schema_ids: IndexSet::new(alloc),
            schemas: Vec::new(alloc),
            channel_ids: IndexSet::new(alloc),
            channels: Vec::new(alloc),
            messages: 0,
            start: 0,
            end: 0,
            counts: Vec::new(alloc),
            blocks: 0,
            chunk_indexes: Vec::new(alloc),
            attachments: 0,
            attachment_indexes: Vec::new(alloc),
            metadata: 0,
            metadata_indexes: Vec::new(alloc),
        })
    }

    /// Notes a record of the history that is no extra. Of Schemas and of Channels the first of each id is kept. Where memory
    /// lacks nothing changes.
    pub fn note_record(&mut self, r: &Rec) -> Result<(), Memory>
        requires fits { LengthsFit r.now }
        requires inner { is_inner r.now ≡ true }
        requires few { self.old.messages < record_count_limit }
        ensures ok { OnOk result ((n : Noted) → SummaryStandsFor self.old n
            → SummaryStandsFor self.new (with_noted_record n r.now)) }
        ensures err { OnErr result (self.new ≡ self.old) }
        ensures messages { self.new.messages ≤ self.old.messages + 1 }
        ensures blocks { self.new.blocks ≡ self.old.blocks }
    {
        match r {
            Rec::Message {
                channel_id,
                log_time,
                ..
            } => return self.note_message(*channel_id, *log_time),
            _ => match framed_of(self.alloc, r) {
                Ok(bytes) => return self.note_framed(bytes.as_slice()),
                Err(memory) => return Err(memory),
            },
        }
    }

    /// Does the same with a record that is given by its framed bytes.
    pub fn note_framed(&mut self, bytes: &[u8]) -> Result<(), Memory>
        requires framed { (r : Rec) × AreInner bytes.now r }
        requires few { self.old.messages < record_count_limit }
        ensures ok { OnOk result ((r : Rec) → AreInner bytes.now r → (n : Noted) → SummaryStandsFor self.old n
            → SummaryStandsFor self.new (with_noted_record n r)) }
        ensures err { OnErr result (self.new ≡ self.old) }
        ensures messages { self.new.messages ≤ self.old.messages + 1 }
        ensures blocks { self.new.blocks ≡ self.old.blocks }
    {
        match mark_of_bytes(bytes) {
            Some(mark) => return self.note_message(mark.channel, mark.time),
            None => {}
        }
        let id = id_of_bytes(bytes);
        if bytes[0] == SCHEMA {
            match declare(&mut self.schema_ids, &mut self.schemas, id, bytes) {
                Ok(()) => return Ok(()),
                Err(memory) => return Err(memory),
            }
        }
        match declare(&mut self.channel_ids, &mut self.channels, id, bytes) {
            Ok(()) => return Ok(()),
            Err(memory) => return Err(memory),
        }
    }

    // Notes a message.
    fn note_message(&mut self, channel: u16, time: u64) -> Result<(), Memory>
        requires few { self.old.messages < record_count_limit }
        ensures ok { OnOk result ((r : Rec) → mark_of r ≡ Some (record { channel = channel; time = time })
            → self.new ≡ with_record self.old r) }
        ensures err { OnErr result (self.new ≡ self.old) }
        ensures messages { self.new.messages ≤ self.old.messages + 1 }
        ensures blocks { self.new.blocks ≡ self.old.blocks }
    {
        match count(&mut self.counts, channel, self.messages) {
            Ok(()) => {}
            Err(memory) => return Err(memory),
        }
        self.start = first_time(self.messages, self.start, time);
        self.end = self.end.max(time);
        self.messages += 1;
        return Ok(());
    }

    /// Notes a block that starts at that offset of the file, in bytes. Where memory lacks nothing changes.
    pub fn note_block(&mut self, at: u64, b: &Block) -> Result<(), Memory>
        requires within { at ≤ 2 ^ 41 }
        requires block { (records : List Rec) × IsBlock b.now records }
        requires few { self.old.blocks < 2 ^ 48 }
        ensures ok { OnOk result ((records : List Rec) → IsBlock b.now records → (n : Noted)
            → SummaryStandsFor self.old n → SummaryStandsFor self.new (with_noted_block n at records)) }
        ensures err { OnErr result (self.new ≡ self.old) }
        ensures messages { self.new.messages ≡ self.old.messages }
        ensures blocks { self.new.blocks ≤ self.old.blocks + 1 }
    {
        match add_chunk_index(self.alloc, &mut self.chunk_indexes, at, b) {
            Ok(()) => {}
            Err(memory) => return Err(memory),
        }
        self.blocks += 1;
        return Ok(());
    }

    /// Notes an Attachment of that content that starts at that offset of the file, in bytes. Where memory lacks nothing changes.
    pub fn note_attachment(&mut self, at: u64, content: &[u8]) -> Result<(), Memory>
        requires within { at ≤ 2 ^ 41 }
        requires meets { (f : AttachmentFields) × ShowsAttachment content.now f }
        ensures ok { OnOk result ((n : Noted) → SummaryStandsFor self.old n
            → SummaryStandsFor self.new (with_noted_extra n at (record
            { op = attachment_opcode; content = content.now }))) }
        ensures err { OnErr result (self.new ≡ self.old) }
        ensures messages { self.new.messages ≡ self.old.messages }
        ensures blocks { self.new.blocks ≡ self.old.blocks }
    {
        match add_attachment_index(&mut self.attachment_indexes, at, content) {
            Ok(()) => {}
            Err(memory) => return Err(memory),
        }
        self.attachments = self.attachments.saturating_add(1);
        return Ok(());
    }

    /// Does the same with a Metadata.
    pub fn note_metadata(&mut self, at: u64, content: &[u8]) -> Result<(), Memory>
        requires within { at ≤ 2 ^ 41 }
        requires meets { (f : MetadataFields) × ShowsMetadata content.now f }
        ensures ok { OnOk result ((n : Noted) → SummaryStandsFor self.old n
            → SummaryStandsFor self.new (with_noted_extra n at (record
            { op = metadata_opcode; content = content.now }))) }
        ensures err { OnErr result (self.new ≡ self.old) }
        ensures messages { self.new.messages ≡ self.old.messages }
        ensures blocks { self.new.blocks ≡ self.old.blocks }
    {
        match add_metadata_index(&mut self.metadata_indexes, at, content) {
            Ok(()) => {}
            Err(memory) => return Err(memory),
        }
        self.metadata = self.metadata.saturating_add(1);
        return Ok(());
    }

    /// The end of the file behind Data End, where that starts at that offset: the summary of what was noted, its Summary
    /// Offsets, the Footer and the magic.
    pub fn text(&self, at: u64) -> Result<Bytes, Memory>
        requires { at ≤ 2 ^ 41 }
        ensures { IfOk result (λ bytes. (n : Noted) → SummaryStandsFor self.now n → bytes ≡ summary_text n at) }
    {
        let numbers = Numbers {
            messages: self.messages,
            schemas: self.schema_ids.len(),
            channels: self.channel_ids.len(),
            blocks: self.blocks,
            attachments: self.attachments,
            metadata: self.metadata,
            start: self.start,
            end: self.end,
            counts: self.counts.as_slice(),
        };
        let mut out = Vec::new(self.alloc);
        match put_bytes(&mut out, self.schemas.as_slice()) {
            Ok(()) => {}
            Err(memory) => return Err(memory),
        }
        match put_bytes(&mut out, self.channels.as_slice()) {
            Ok(()) => {}
            Err(memory) => return Err(memory),
        }
        let statistics = match put_statistics(&mut out, &numbers) {
            Ok(len) => len,
            Err(memory) => return Err(memory),
        };
        match put_bytes(&mut out, self.chunk_indexes.as_slice()) {
            Ok(()) => {}
            Err(memory) => return Err(memory),
        }
        match put_bytes(&mut out, self.attachment_indexes.as_slice()) {
            Ok(()) => {}
            Err(memory) => return Err(memory),
        }
        match put_bytes(&mut out, self.metadata_indexes.as_slice()) {
            Ok(()) => {}
            Err(memory) => return Err(memory),
        }
        let behind = at + out.len() as u64;
        let lengths = Lengths {
            schemas: self.schemas.len() as u64,
            channels: self.channels.len() as u64,
            statistics,
            chunks: self.chunk_indexes.len() as u64,
            attachments: self.attachment_indexes.len() as u64,
            metadata: self.metadata_indexes.len() as u64,
        };
        match put_offsets(&mut out, at, lengths) {
            Ok(()) => {}
            Err(memory) => return Err(memory),
        }
        match put_end(&mut out, at, behind) {
            Ok(()) => return Ok(Bytes::new(out)),
            Err(memory) => return Err(memory),
        }
    }
}

// The least log time with one more.
fn first_time(messages: u64, start: u64, time: u64) -> u64
    ensures { result ≡ (if messages == 0 then time else min start time) }
{
    if messages == 0 { time } else { start.min(time) }
}

// The id that a framed record declares, or that it is on: the first field of its content.
fn id_of_bytes(bytes: &[u8]) -> u16
    requires { (r : Rec) × AreInner bytes.now r }
    ensures { (r : Rec) → AreInner bytes.now r → result ≡ id_in_record r }
{
    match take_u16(bytes, 9) {
        Ok((id, _)) => return id,
        Err(_) => unreachable!(),
    }
}

// Appends the bytes of a record that declares an id, unless the id was declared before.
fn declare(
    ids: &mut IndexSet<u16>,
    framed: &mut Vec<u8>,
    id: u16,
    bytes: &[u8],
) -> Result<(), Memory>
    ensures ids { OnOk result (ids.new.keys ≡ with_id_once ids.old.keys id) }
    ensures framed { OnOk result (framed.new.items ≡ with_bytes_once ids.old.keys id framed.old.items bytes.now) }
    ensures same_ids { OnErr result (ids.new.keys ≡ ids.old.keys) }
    ensures same_framed { OnErr result (framed.new.items ≡ framed.old.items) }
{
    if ids.contains(&id) {
        return Ok(());
    }
    match ids.reserve(1) {
        Ok(()) => {}
        Err(_) => return Err(Memory),
    }
    match put_bytes(framed, bytes) {
        Ok(()) => {}
        Err(memory) => return Err(memory),
    }
    match ids.insert(id) {
        Ok(_) => return Ok(()),
        Err(_) => unreachable!(),
    }
}

// The offset in the file of each Message Index of a block that stands at that offset.
fn offsets_of(alloc: Global, at: u64, parts: &[IndexPart]) -> Result<Vec<(u16, u64)>, Memory>
    requires within { at ≤ 2 ^ 41 }
    requires small { All (λ p. p.offset ≤ 2 ^ 63) parts.now }
    ensures are { IfOk result (λ offsets. offsets.items ≡ map (λ p. (p.channel, at + p.offset)) parts.now) }
    ensures ids { IfOk result (λ offsets. All (λ o. o.0 < 2 ^ 16) offsets.items) }
{
    let Ok(mut offsets) = Vec::with_capacity(alloc, parts.len()) else {
        return Err(Memory);
    };
    for part in parts {
        match offsets.push(moved(at, part)) {
            Ok(()) => {}
            Err(_) => return Err(Memory),
        }
    }
    return Ok(offsets);
}

// The offset in the file of a Message Index.
fn moved(at: u64, part: &IndexPart) -> (u16, u64)
    requires within { at ≤ 2 ^ 41 }
    requires small { part.now.offset ≤ 2 ^ 63 }
    ensures value { result ≡ (part.now.channel, at + part.now.offset) }
    ensures id { result.0 < 2 ^ 16 }
{
    (part.channel, at + part.offset)
}

// Appends the Chunk Index of a block that stands at that offset.
fn add_chunk_index(alloc: Global, framed: &mut Vec<u8>, at: u64, b: &Block) -> Result<(), Memory>
    requires within { at ≤ 2 ^ 41 }
    requires block { (records : List Rec) × IsBlock b.now records }
    ensures ok { OnOk result ((records : List Rec) → IsBlock b.now records
        → framed.new.items ≡ framed.old.items ++ index_of_block (at, records)) }
    ensures err { OnErr result (framed.new.items ≡ framed.old.items) }
{
    let len = b.bytes.as_slice().len() as u64;
    let offsets = match offsets_of(alloc, at, b.indexes.as_slice()) {
        Ok(offsets) => offsets,
        Err(memory) => return Err(memory),
    };
    let records = b.chunk_length - 49;
    let index = ChunkIndex {
        message_start_time: b.start_time,
        message_end_time: b.end_time,
        chunk_start_offset: at,
        chunk_length: b.chunk_length,
        message_index_offsets: CountsRef::of(offsets.as_slice()),
        message_index_length: len - b.chunk_length,
        compression: "",
        compressed_size: records,
        uncompressed_size: records,
    };
    match index.frame(framed) {
        Ok(()) => return Ok(()),
        Err(memory) => return Err(memory),
    }
}
