//! The chunker takes a history record by record, and gives the blocks into which it is cut.
ghost use Rattle.std.specs.Prelude.{◌≡◌, ◌≤◌, ℕ, List, [], length, true, IfOk, OnErr};
ghost use Rattle.mcap_wire.specs.Limits.{chunk_size_limit};
ghost use Rattle.rec_data.specs.declared.owned.Rec.{Rec};
ghost use Rattle.rec_data.specs.Owned.{rec_bytes};
ghost use Rattle.rec_data.specs.OwnedReading.{LengthsFit};
ghost use Rattle.chunk_build.specs.Building.{mark_of, IsLong};
ghost use Rattle.mcap_model.specs.History.{is_inner};
ghost use Rattle.chunk_build.specs.Chunker.{StandsFor, PutsRecord, AreFramed, AreInner, Finishes};

use crate::building::{
    Building, HEAD, Mark, begin, close, closing_for, keep_room, note, prepare, prepare_open,
    settle, stays_open,
};
use crate::framed::mark_of_bytes;
use mcap_model::Block;
use mcap_wire::{Memory, add_bytes, make_room};
use rec_data::Rec;
use std::alloc::Global;
use std::marker::Model;

/// Cuts a history without extras into blocks of a size. A chunk is closed after the record that brings its records, framed, to
/// at least that many bytes, and, where a span is given, after the message that brings its log times at least that far apart.
/// Its Chunk isn't compressed; a Message Index follows it for each channel with a message, in ascending channel id. Contracts
/// see the size, the span and what the open chunk holds: the chunker stands for each history (`StandsFor`) of which these are
/// the records that wait for their block.
#[derive(Drop)]
pub struct Chunker {
    alloc: Global,
    size: u64,
    span: Option<u64>,
    chunk: Building,
}

impl Model for Chunker {
    ghost use Rattle.chunk_build.specs.Chunking.{Chunking};

    ghost Value = { Chunking };

    ghost use Rattle.chunk_build.specs.Held.{chunking, HasOpenChunk};

    ghost view = { chunking };

    ghost invariant = { HasOpenChunk };
}

impl Chunker {
    /// A chunker that stands for no records yet. The size is in bytes of framed records.
    pub fn new(alloc: Global, size: u64, span: Option<u64>) -> Result<Chunker, Memory>
        requires some { 1 ≤ size }
        requires within { size ≤ chunk_size_limit }
        ensures { IfOk result (λ c. StandsFor c [] × (c.size ≡ size) × (c.span ≡ span)) }
    {
        Ok(Chunker {
            alloc,
            size,
            span,
            chunk: begin(alloc),
        })
    }

    /// Adds a record, and gives the block exactly where this closes one. Where memory lacks nothing changes.
    pub fn put(&mut self, r: &Rec) -> Result<Option<Block>, Memory>
        requires fits { LengthsFit r.now }
        requires inner { is_inner r.now ≡ true }
        ensures put { IfOk result (λ closed. (history : List Rec) → StandsFor self.old history
            → PutsRecord self.old.size self.old.span history r.now closed self.new) }
        ensures err { OnErr result (self.new ≡ self.old) }
    {
        let mark = mark_of_record(r);
        let len = r.framed_len();
        let ready = match prepare(self.alloc, &mut self.chunk, self.size, self.span, len, mark) {
            Ok(ready) => ready,
            Err(memory) => return Err(memory),
        };
        let offset = (self.chunk.bytes.len() - HEAD) as u64;
        match r.frame(&mut self.chunk.bytes) {
            Ok(()) => {}
            Err(_) => unreachable!(),
        }
        return Ok(settle(self.alloc, &mut self.chunk, offset, mark, ready));
    }

    /// Adds a record by its framed bytes, and gives the block exactly where this closes one. The bytes are copied once, to where
    /// they stand in the block. Where memory lacks nothing changes.
    pub fn put_framed(&mut self, bytes: &[u8]) -> Result<Option<Block>, Memory>
        requires { (r : Rec) × AreInner bytes.now r }
        ensures put { IfOk result (λ closed. (r : Rec) → AreInner bytes.now r → (history : List Rec)
            → StandsFor self.old history → PutsRecord self.old.size self.old.span history r closed self.new) }
        ensures err { OnErr result (self.new ≡ self.old) }
    {
        let len = bytes.len() as u64;
        let mark = mark_of_bytes(bytes);
        if !stays_open(&self.chunk, self.size, self.span, len, mark) {
            return self.put_any(bytes);
        }
        let chunk = &mut self.chunk;
        let row = match prepare_open(self.alloc, chunk, len, mark) {
            Ok(row) => row,
            Err(memory) => return Err(memory),
        };
        let offset = (chunk.bytes.len() - HEAD) as u64;
        add_bytes(&mut chunk.bytes, bytes);
        note(chunk, offset, mark, row);
        return Ok(None);
    }

    // Does the same with any record. What waits for a block that closes is kept out of the other way.
    #[inline(never)]
    fn put_any(&mut self, bytes: &[u8]) -> Result<Option<Block>, Memory>
        requires { (r : Rec) × AreInner bytes.now r }
        ensures put { IfOk result (λ closed. (r : Rec) → AreInner bytes.now r → (history : List Rec)
            → StandsFor self.old history → PutsRecord self.old.size self.old.span history r closed self.new) }
        ensures err { OnErr result (self.new ≡ self.old) }
    {
        let mark = mark_of_bytes(bytes);
        let len = bytes.len() as u64;
        let ready = match prepare(self.alloc, &mut self.chunk, self.size, self.span, len, mark) {
            Ok(ready) => ready,
            Err(memory) => return Err(memory),
        };
        let offset = (self.chunk.bytes.len() - HEAD) as u64;
        add_bytes(&mut self.chunk.bytes, bytes);
        return Ok(settle(self.alloc, &mut self.chunk, offset, mark, ready));
    }

    /// Takes the vector of a block that was written, so that its room serves a later block. Its bytes are forgotten.
    pub fn give_back(&mut self, room: Vec<u8>)
        ensures { self.new ≡ self.old }
    {
        keep_room(&mut self.chunk, room);
    }

    /// Gives the last block, exactly where records wait for one. The chunker then stands for no records, as a new one. Where
    /// memory lacks nothing changes.
    pub fn finish(&mut self) -> Result<Option<Block>, Memory>
        ensures last { IfOk result (λ last. (history : List Rec) → StandsFor self.old history
            → Finishes self.old.size self.old.span history last self.new) }
        ensures err { OnErr result (self.new ≡ self.old) }
    {
        if self.chunk.bytes.len() <= HEAD {
            return Ok(None);
        }
        let closing = match closing_for(self.alloc, &self.chunk) {
            Ok(closing) => closing,
            Err(memory) => return Err(memory),
        };
        match make_room(&mut self.chunk.bytes, self.chunk.index as usize) {
            Ok(()) => {}
            Err(memory) => return Err(memory),
        }
        return Ok(Some(close(self.alloc, &mut self.chunk, closing)));
    }
}

// The channel and the log time of a record that is a message.
fn mark_of_record(r: &Rec) -> Option<Mark>
    requires { LengthsFit r.now }
    ensures mark { result ≡ mark_of r.now }
    ensures long { IsLong (length (rec_bytes r.now)) result }
{
    match r {
        Rec::Message {
            channel_id,
            log_time,
            ..
        } => Some(Mark {
            channel: *channel_id,
            time: *log_time,
        }),
        _ => None,
    }
}
