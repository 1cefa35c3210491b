//! Chunk Indexes.
ghost use Rattle.std.specs.Prelude.{◌≡◌, ◌↔◌, ◌<◌, ◌+◌, ◌^◌, ◌++◌, ◌∷◌, [], ℕ, suc, false, List, length as size, true, IsTrue, OnOk};
ghost use Rattle.rec_index.specs.Parsed.{chunk_fields, chunk_index_fields};
ghost use Rattle.rec_index.specs.Records.{chunk_opcode, message_index_opcode, ShowsChunk, ShowsMessageIndex};
ghost use Rattle.mcap_model.specs.Places.{At, Has, Each};
ghost use Rattle.mcap_model.specs.Tops.{Top, inner_tops, top_bytes, offset_behind};
ghost use Rattle.mcap_model.specs.Fields.{IsChunkIndex};
ghost use Rattle.mcap_model.specs.Whole.{offset_of, ChunkIndexIsRight};
ghost use Rattle.mcap_model.specs.Made.{top};
ghost use Rattle.index_check.specs.Spots.{FitsNamed, spot};
ghost use Rattle.index_check.specs.Chunks.{IsNoteAt, IsNotedAt, AreNoted, IsNamedOrEmpty, NamesAllNotes, NamesNoted, IndexMatchesNote, IsOfChunk, HasMessage, ChunksOf, ChunksNamed, AddsIndex, EndsWithChunk};

use crate::spots::{Naming, Spots};
use mcap_wire::{CountsRef, Memory};
use rec_index::{Chunk, ChunkIndex, MessageIndex};
use std::alloc::Global;

/// What is kept of a Message Index: its channel, where it stands in bytes from the file's front, and its number of entries.
#[derive(Clone, Copy)]
pub struct IndexNote {
    pub channel: u16,
    pub offset: u64,
    pub entries: u64,
}

/// What is kept of a chunk: the length of the whole record, its times in nanoseconds and the size of its records, which
/// aren't compressed; whether there is a Message among them; and the Message Indexes behind it, with their length together.
/// Lengths are in bytes.
#[derive(Drop)]
pub struct ChunkNote {
    pub length: u64,
    pub start: u64,
    pub end: u64,
    pub size: u64,
    pub messages: bool,
    pub indexes: Vec<IndexNote>,
    pub indexes_length: u64,
}

/// The chunks of a file, in its order, and which of them have an index so far. The places serve one Chunk Index at a time: where
/// in its map a Message Index is named, by its place behind the chunk. There are as many as a chunk has Message Indexes at most.
#[derive(Drop)]
pub struct Chunks {
    pub spots: Spots,
    pub notes: Vec<ChunkNote>,
    pub places: Vec<usize>,
}

// Whether a Message Index is of that channel and stands at that offset.
fn is_note_at(note: &IndexNote, channel: u16, offset: u64) -> bool
    ensures { IsTrue result ↔ IsNoteAt note.now channel offset }
{
    note.channel == channel && note.offset == offset
}

// Whether one of the Message Indexes is. The guess is looked at first.
fn is_noted(notes: &[IndexNote], guess: usize, channel: u16, offset: u64) -> bool
    ensures { IsTrue result ↔ IsNotedAt notes.now channel offset }
{
    if guess < notes.len() {
        if is_note_at(&notes[guess], channel, offset) {
            return true;
        }
    }
    'notes: for i in 0..notes.len() {
        if is_note_at(&notes[i], channel, offset) {
            return true;
        }
    }
    return false;
}

// Whether a map gives that channel the offset. The guess is looked at first.
fn is_named(map: &CountsRef<'_>, guess: usize, channel: u16, offset: u64) -> bool
    ensures { IsTrue result ↔ Has map.now (channel, offset) }
{
    if guess < map.count() {
        if map.item(guess) == (channel, offset) {
            return true;
        }
    }
    'names: for i in 0..map.count() {
        let (key, value) = map.item(i);
        if key == channel && value == offset {
            return true;
        }
    }
    return false;
}

// Where the Message Index of that offset stands among those, which are in the order of the file: a guess, which is right where
// there is one.
fn guess_place(notes: &[IndexNote], guess: usize, offset: u64) -> usize {
    if guess < notes.len() {
        if notes[guess].offset == offset {
            return guess;
        }
    }
    match notes.binary_search_by_key(&offset, |note| note.offset) {
        Ok(place) => return place,
        Err(place) => return place,
    }
}

// Keeps where in the map a Message Index is named, if there is room for its place.
fn keep_place(places: &mut Vec<usize>, place: usize, i: usize)
    ensures { size places.new.items ≡ size places.old.items }
{
    if place < places.len() {
        places[place] = i;
    }
}

// Where in the map a Message Index is named, as far as that was kept.
fn kept_place(places: &[usize], i: usize) -> usize {
    if i < places.len() {
        return places[i];
    }
    return i;
}

// Whether a map names none but these Message Indexes, in whatever order; it is kept where each is named.
fn are_noted(map: &CountsRef<'_>, notes: &[IndexNote], places: &mut Vec<usize>) -> bool
    ensures { IsTrue result ↔ AreNoted map.now notes.now }
{
    'names: for i in 0..map.count() {
        let (channel, offset) = map.item(i);
        let place = guess_place(notes, i, offset);
        if !is_noted(notes, place, channel, offset) {
            return false;
        }
        keep_place(places, place, i);
    }
    return true;
}

// Whether a Message Index has no entries, or is named by a map.
fn is_named_or_empty(map: &CountsRef<'_>, guess: usize, note: &IndexNote) -> bool
    ensures { IsTrue result ↔ IsNamedOrEmpty map.now note.now }
{
    if note.entries == 0 {
        return true;
    }
    return is_named(map, guess, note.channel, note.offset);
}

// Whether a map names each of these Message Indexes that has an entry. Each is looked for first where it was kept to be named.
fn are_named(map: &CountsRef<'_>, notes: &[IndexNote], places: &[usize]) -> bool
    ensures { IsTrue result ↔ NamesAllNotes map.now notes.now }
{
    'notes: for i in 0..notes.len() {
        let guess = kept_place(places, i);
        if !is_named_or_empty(map, guess, &notes[i]) {
            return false;
        }
    }
    return true;
}

// Whether the map of an index is empty, or names the Message Indexes that were noted and gives their length.
fn names_indexes(note: &ChunkNote, index: &ChunkIndex<'_>, places: &mut Vec<usize>) -> bool
    ensures { IsTrue result ↔ NamesNoted note.now (chunk_index_fields index.now) }
{
    let map = &index.message_index_offsets;
    if map.count() == 0 {
        return true;
    }
    if index.message_index_length != note.indexes_length {
        return false;
    }
    if !are_noted(map, &note.indexes, places) {
        return false;
    }
    return are_named(map, &note.indexes, places);
}

// Whether an index repeats the numbers that were noted.
fn has_numbers(note: &ChunkNote, index: &ChunkIndex<'_>) -> bool
    ensures { IsTrue result ↔ IndexMatchesNote note.now (chunk_index_fields index.now) }
{
    index.chunk_length == note.length
        && index.message_start_time == note.start
        && index.message_end_time == note.end
        && index.compression == ""
        && index.compressed_size == note.size
        && index.uncompressed_size == note.size
}

// Whether an index is of the chunk that was noted.
fn is_of_chunk(note: &ChunkNote, index: &ChunkIndex<'_>, places: &mut Vec<usize>) -> bool
    ensures { IsTrue result ↔ IsOfChunk note.now (chunk_index_fields index.now) }
{
    has_numbers(note, index) && names_indexes(note, index, places)
}

// Whether a chunk that was named first is that of the index.
fn fits_chunk(
    naming: Naming,
    notes: &[ChunkNote],
    index: &ChunkIndex<'_>,
    places: &mut Vec<usize>,
) -> bool
    ensures { IsTrue result ↔ FitsNamed (λ note. IsOfChunk note (chunk_index_fields index.now)) notes.now naming }
{
    match naming {
        Naming::First { place } => {
            if place >= notes.len() {
                return false;
            }
            return is_of_chunk(&notes[place], index, places);
        }
        Naming::Absent => return false,
        Naming::Again => return false,
    }
}

// Makes a place for a Message Index behind so many others.
fn make_place(places: &mut Vec<usize>, indexes: usize) -> Result<(), Memory> {
    if places.len() > indexes {
        return Ok(());
    }
    match places.push(0) {
        Ok(()) => return Ok(()),
        Err(_) => return Err(Memory),
    }
}

impl ChunkNote {
    // Adds a Message Index behind the others.
    fn add(&mut self, offset: u64, length: u64, index: &MessageIndex<'_>) -> Result<(), Memory>
        ensures { OnOk result (AddsIndex self.old self.new
            (record { channel = index.now.channel_id; offset = offset; entries = size index.now.entries }) length) }
    {
        match self.indexes.push(IndexNote {
            channel: index.channel_id,
            offset,
            entries: index.entries.count() as u64,
        }) {
            Ok(()) => {}
            Err(_) => return Err(Memory),
        }
        self.indexes_length = self.indexes_length.saturating_add(length);
        return Ok(());
    }
}

impl Chunks {
    pub fn new(alloc: Global) -> Chunks
        ensures none { ChunksOf [] result }
        ensures empty { result.spots ≡ [] }
    {
        Chunks {
            spots: Spots::new(alloc),
            notes: Vec::new(alloc),
            places: Vec::new(alloc),
        }
    }

    /// Adds the chunk that stands at that offset, behind the others, in a record of that length. It names no compression,
    /// and has the size of its records; it is said whether there is a Message among them. After a want of memory what is kept
    /// is of no use.
    pub fn add(
        &mut self,
        alloc: Global,
        offset: u64,
        length: u64,
        chunk: &Chunk<'_>,
        messages: bool,
    ) -> Result<(), Memory>
        requires { Each (λ s. s.offset < offset) self.old.spots }
        ensures kept { OnOk result ((tops : List Top) (content : List ℕ) → ChunksOf tops self.old
            → offset ≡ offset_behind tops → length ≡ size (top_bytes (top chunk_opcode content))
            → ShowsChunk content (chunk_fields chunk.now) → chunk.now.compression.now ≡ []
            → chunk.now.uncompressed_size ≡ size chunk.now.records.now
            → (messages ≡ true) ↔ HasMessage (inner_tops (top chunk_opcode content))
            → ChunksOf (tops ++ top chunk_opcode content ∷ []) self.new) }
        ensures unnamed { OnOk result (self.new.spots ≡ self.old.spots ++ spot offset false ∷ []) }
    {
        match self.spots.add(offset) {
            Ok(()) => {}
            Err(memory) => return Err(memory),
        }
        match self.notes.push(ChunkNote {
            length,
            start: chunk.message_start_time,
            end: chunk.message_end_time,
            size: chunk.uncompressed_size,
            messages,
            indexes: Vec::new(alloc),
            indexes_length: 0,
        }) {
            Ok(()) => return Ok(()),
            Err(_) => return Err(Memory),
        }
    }

    /// Adds the Message Index that stands at that offset, behind the last chunk and its other Message Indexes, in a record
    /// of that length. After a want of memory what is kept is of no use.
    pub fn add_index(
        &mut self,
        offset: u64,
        length: u64,
        index: &MessageIndex<'_>,
    ) -> Result<(), Memory>
        ensures kept { OnOk result ((tops : List Top) (content : List ℕ) → ChunksOf tops self.old → EndsWithChunk tops
            → offset ≡ offset_behind tops → offset + length < 2 ^ 64
            → length ≡ size (top_bytes (top message_index_opcode content))
            → ShowsMessageIndex content index.now.channel_id index.now.entries
            → ChunksOf (tops ++ top message_index_opcode content ∷ []) self.new) }
        ensures spots { self.new.spots ≡ self.old.spots }
    {
        let count = self.notes.len();
        if count == 0 {
            return Ok(());
        }
        match make_place(&mut self.places, self.notes[count - 1].indexes.len()) {
            Ok(()) => {}
            Err(memory) => return Err(memory),
        }
        match self.notes[count - 1].add(offset, length, index) {
            Ok(()) => return Ok(()),
            Err(memory) => return Err(memory),
        }
    }

    /// Whether a Chunk Index, behind others, has the offset of a chunk that none of them has, and repeats its length, times
    /// and sizes; and whether its map is empty, or names the Message Indexes behind the chunk: none else, all that have
    /// entries, and their length together. It counts as an index of that chunk from then on.
    pub fn take_index(&mut self, index: &ChunkIndex<'_>) -> bool
        ensures right { (tops : List Top) (n : ℕ) → ChunksOf tops self.old → ChunksNamed tops n self.old
            → IsTrue result ↔ ChunkIndexIsRight tops n (chunk_index_fields index.now) }
        ensures kept { (tops : List Top) → ChunksOf tops self.old → ChunksOf tops self.new }
        ensures named { (tops : List Top) (n : ℕ) (t : Top) → ChunksNamed tops n self.old → At tops n t
            → IsChunkIndex t (chunk_index_fields index.now) → ChunksNamed tops (suc n) self.new }
    {
        let naming = self.spots.name(index.chunk_start_offset);
        fits_chunk(naming, &self.notes, index, &mut self.places)
    }

    /// Whether the chunk at that offset holds a Message.
    pub fn holds_messages(&self, offset: u64) -> bool
        ensures { (tops : List Top) (n : ℕ) (t : Top) → ChunksOf tops self.now → At tops n t → t.op ≡ chunk_opcode
            → offset ≡ offset_of tops n → IsTrue result ↔ HasMessage (inner_tops t) }
    {
        match self.spots.place_of(offset) {
            None => return false,
            Some(place) => {
                if place >= self.notes.len() {
                    return false;
                }
                return self.notes[place].messages;
            }
        }
    }
}
