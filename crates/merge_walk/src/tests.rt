//! Walks through small files.
ghost use Rattle.std.specs.Prelude.{◌≡◌, ◌+◌, ◌^◌, ◌<◌, ◌≤◌, IsTrue, length, map};
ghost use Rattle.io_files.specs.Files.{nothing};
ghost use Rattle.mcap_model.specs.Places.{Each};
ghost use Rattle.merge_walk.specs.Stores.{files_of, StoresFit};
ghost use Rattle.merge_walk.specs.Walks.{pieces_in, StandsBehindSome};

use crate::{Piece, Span, Survey, Turn, Walk, pieces_of, survey_source};
use io_memory::QuietStore;
use mcap_io::{Failed, Store, StoreSource};
use mcap_model::Inner;
use mcap_wire::{MAGIC, PairsRef};
use rec_data::{Channel, DataEnd, Header, Message};
use rec_index::Chunk;
use std::alloc::Global;
use std::test::Fail;

// A store of these bytes that tells nothing, as that of a file doesn't, and takes every place for one of its own.
#[derive(Drop)]
struct SilentStore {
    bytes: Vec<u8>,
    asked: u128,
    faults: u64,
}

impl Store for SilentStore {
    ghost state = { λ s. record { bytes = nothing; known = 2 ^ 64; faults = s.faults; asked = s.asked } };

    fn len(&mut self) -> Result<u64, Failed> {
        self.faults = self.faults.saturating_add(1);
        return Err(Failed);
    }

    fn read_at(&mut self, at: u64, out: &mut [u8]) -> Result<(), Failed> {
        self.asked = self.asked.saturating_add(out.len() as u128);
        let at = at as usize;
        if at <= self.bytes.len() && out.len() <= self.bytes.len() - at {
            out.copy_from_slice(&self.bytes[at..at + out.len()]);
            return Ok(());
        }
        self.faults = self.faults.saturating_add(1);
        return Err(Failed);
    }

    fn asked(&self) -> u128 {
        self.asked
    }

    fn faults(&self) -> u64 {
        self.faults
    }

    ghost within = { λ s bytes told. Prim.cc };
}

// Messages of these times, one behind the other.
fn messages(alloc: Global, times: &[u64]) -> Result<Vec<u8>, Fail> {
    let mut out = Vec::new(alloc);
    for time in times {
        Message {
            channel_id: 1,
            sequence: 0,
            log_time: *time,
            publish_time: 0,
            payload: b"\xaa",
        }
        .frame(&mut out)?;
    }
    Ok(out)
}

// A chunk of messages of these times.
fn chunk(alloc: Global, out: &mut Vec<u8>, times: &[u64]) -> Result<(), Fail> {
    let records = messages(alloc, times)?;
    let mut least = u64::MAX;
    let mut greatest = 0;
    for time in times {
        least = least.min(*time);
        greatest = greatest.max(*time);
    }
    Chunk {
        message_start_time: least,
        message_end_time: greatest,
        uncompressed_size: records.len() as u64,
        uncompressed_crc: 0,
        compression: "",
        records: records.as_slice(),
    }
    .frame(out)?;
    Ok(())
}

// A file: each list is a chunk, or, where its first number is 0, messages of the top level.
fn file(alloc: Global, parts: &[&[u64]]) -> Result<Vec<u8>, Fail> {
    let mut out = Vec::new(alloc);
    out.extend_from_slice(&MAGIC)?;
    Header {
        profile: "",
        library: "",
    }
    .frame(&mut out)?;
    Channel {
        id: 1,
        schema_id: 0,
        topic: "/a",
        message_encoding: "",
        metadata: PairsRef::of(&[]),
    }
    .frame(&mut out)?;
    for part in parts {
        match *part {
            [0, rest @ ..] => {
                let records = messages(alloc, rest)?;
                out.extend_from_slice(records.as_slice())?;
            }
            times => chunk(alloc, &mut out, times)?,
        }
    }
    DataEnd {
        data_section_crc: 0,
    }
    .frame(&mut out)?;
    Ok(out)
}

// Where the messages of a file stand.
fn spans(alloc: Global, bytes: &[u8]) -> Result<Vec<Span>, Fail> {
    let mut store = QuietStore::new(Vec::from_slice(alloc, bytes)?);
    let len = match store.len() {
        Ok(len) => len,
        Err(Failed) => return Err(Fail::from("length")),
    };
    let mut source = StoreSource::new(&mut store, len);
    match survey_source(alloc, &mut source) {
        Ok(survey) => {
            let Survey { tables: _, spans } = survey;
            return Ok(spans);
        }
        Err(_) => return Err(Fail::from("survey")),
    }
}

// Whether each piece is of one of so many inputs.
fn are_placed(pieces: &[Piece], count: usize) -> bool
    ensures { IsTrue result → Each (λ p. (p.input < count) × (p.span.at + p.span.length ≤ 2 ^ 64)) pieces.now }
{
    'pieces: for i in 0..pieces.len() {
        let piece = pieces[i];
        if piece.input as usize >= count {
            return false;
        }
        match piece.span.at.checked_add(piece.span.length) {
            Some(_) => {}
            None => return false,
        }
    }
    return true;
}

// Whether the record is the Message of the turn.
fn is_of(inner: Inner<'_>, turn: Turn) -> bool {
    match Message::parse(inner.content) {
        Ok(message) => inner.op == 5 && message.log_time == turn.log_time,
        Err(_) => false,
    }
}

// Gives all that a walk has left.
fn give_all<T: Store>(
    walk: &mut Walk,
    stores: &mut Vec<T>,
    turns: &mut Vec<Turn>,
) -> Result<(), Fail>
    requires stands { StandsBehindSome (files_of (map (λ s. T.state s) stores.old.items)) walk.old }
    requires fits { StoresFit (map (λ s. T.state s) stores.old.items) (pieces_in walk.old) }
{
    'turns: for _ in 0..2_000u32 {
        match walk.advance(stores) {
            Ok(Some(turn)) => {
                if !is_of(walk.message(&turn), turn) {
                    return Err(Fail::from("another message"));
                }
                turns.push(turn)?;
            }
            Ok(None) => return Ok(()),
            Err(_) => return Err(Fail::from("refused")),
        }
    }
    return Err(Fail::from("no end"));
}

// What a walk came to.
#[derive(Drop)]
struct Outcome {
    turns: Vec<Turn>,
    peak: u64,
    asked: u128,
}

// Walks through the files.
fn walked(alloc: Global, files: &[Vec<u8>]) -> Result<Outcome, Fail> {
    let mut pieces: Vec<Piece> = Vec::new(alloc);
    let mut stores: Vec<SilentStore> = Vec::new(alloc);
    let mut input: u32 = 0;
    for bytes in files {
        let found = spans(alloc, bytes.as_slice())?;
        pieces_of(&mut pieces, input, found.as_slice())?;
        stores.push(SilentStore {
            bytes: Vec::from_slice(alloc, bytes.as_slice())?,
            asked: 0,
            faults: 0,
        })?;
        input = input.wrapping_add(1);
    }
    if !are_placed(&pieces, stores.len()) {
        return Err(Fail::from("no such input"));
    }
    let mut walk = Walk::new(alloc, pieces);
    let mut turns = Vec::new(alloc);
    give_all(&mut walk, &mut stores, &mut turns)?;
    let mut asked: u128 = 0;
    for store in &stores {
        asked = asked.wrapping_add(store.asked);
    }
    Ok(Outcome {
        turns,
        peak: walk.peak(),
        asked,
    })
}

// Whether each message stands behind the one before it.
fn stand_in_order(turns: &[Turn]) -> bool {
    let mut last = 0;
    for turn in turns {
        if turn.at <= last {
            return false;
        }
        last = turn.at;
    }
    true
}

fn times(alloc: Global, turns: &[Turn]) -> Result<Vec<(u64, u32)>, Fail> {
    let mut out = Vec::new(alloc);
    for turn in turns {
        out.push((turn.log_time, turn.input))?;
    }
    Ok(out)
}

#[test]
fn chunks_that_follow_one_another_are_loaded_one_by_one(rt: HostRuntime) -> Result<(), Fail> {
    let alloc = rt.alloc();
    let mut files = Vec::new(alloc);
    files.push(file(alloc, &[&[1, 2], &[3, 4], &[5, 6]])?)?;
    let found = walked(alloc, files.as_slice())?;
    assert!(rt; found.peak == 64);
    assert!(rt; found.asked == 192);
    let given = times(alloc, found.turns.as_slice())?;
    let wanted: [(u64, u32); 6] = [(1, 0), (2, 0), (3, 0), (4, 0), (5, 0), (6, 0)];
    assert!(rt; given.as_slice() == wanted.as_slice());
    Ok(())
}

#[test]
fn inputs_are_merged_by_time_input_and_place(rt: HostRuntime) -> Result<(), Fail> {
    let alloc = rt.alloc();
    let mut files = Vec::new(alloc);
    files.push(file(alloc, &[&[5, 1, 3], &[0, 3, 2], &[7, 7]])?)?;
    files.push(file(alloc, &[&[3, 3], &[0, 3, 9], &[2, 8]])?)?;
    let found = walked(alloc, files.as_slice())?;
    let given = times(alloc, found.turns.as_slice())?;
    let wanted: [(u64, u32); 13] = [
        (1, 0),
        (2, 0),
        (2, 1),
        (3, 0),
        (3, 0),
        (3, 1),
        (3, 1),
        (3, 1),
        (5, 0),
        (7, 0),
        (7, 0),
        (8, 1),
        (9, 1),
    ];
    assert!(rt; given.as_slice() == wanted.as_slice());
    assert!(rt; found.peak == 3 * 32 + 2 * 32 + 2 * 32);
    Ok(())
}

#[test]
fn messages_of_one_time_are_loaded_one_by_one(rt: HostRuntime) -> Result<(), Fail> {
    let alloc = rt.alloc();
    let mut part: Vec<u64> = Vec::new(alloc);
    part.push(0)?;
    for _ in 0..1_000u32 {
        part.push(7)?;
    }
    let mut files = Vec::new(alloc);
    files.push(file(alloc, &[part.as_slice()])?)?;
    let found = walked(alloc, files.as_slice())?;
    assert!(rt; found.turns.len() == 1_000);
    assert!(rt; stand_in_order(found.turns.as_slice()));
    assert!(rt; found.peak == 32);
    assert!(rt; found.asked == 32_000);
    Ok(())
}

#[test]
fn messages_of_one_time_of_two_inputs_are_loaded_one_by_one(rt: HostRuntime) -> Result<(), Fail> {
    let alloc = rt.alloc();
    let mut files = Vec::new(alloc);
    files.push(file(alloc, &[&[0, 5, 5, 6, 6]])?)?;
    files.push(file(alloc, &[&[0, 6, 5, 6, 5]])?)?;
    let found = walked(alloc, files.as_slice())?;
    let given = times(alloc, found.turns.as_slice())?;
    let wanted: [(u64, u32); 8] = [
        (5, 0),
        (5, 0),
        (5, 1),
        (5, 1),
        (6, 0),
        (6, 0),
        (6, 1),
        (6, 1),
    ];
    assert!(rt; given.as_slice() == wanted.as_slice());
    assert!(rt; found.peak == 32);
    Ok(())
}
