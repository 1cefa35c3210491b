//! The plan of a file: which piece is to be appended next, and how many blocks and bytes there are with it.
ghost use Rattle.std.specs.Prelude.{◌≡◌, ◌<◌, ◌≤◌, ◌+◌, ◌^◌, ℕ, List, Option, [], ◌∷◌, ◌++◌, length, drop, true, false, Some, None, IfOk, IfErr, OnOk, OnErr};
ghost use Rattle.mcap_wire.specs.Limits.{block_limit, file_limit};
ghost use Rattle.rec_data.specs.declared.owned.Rec.{Rec};
ghost use Rattle.chunk_build.specs.Chunker.{AreFramed, AreInner};
ghost use Rattle.mcap_model.specs.declared.options.FileOptions.{FileOptions};
ghost use Rattle.mcap_model.specs.Built.{IsBlock};
ghost use Rattle.mcap_model.specs.Summary.{Noted};
ghost use Rattle.mcap_model.specs.History.{is_inner, history_bytes};
ghost use Rattle.mcap_model.specs.Tops.{Top, top_bytes};
ghost use Rattle.mcap_model.specs.File.{front};
ghost use Rattle.mcap_model.specs.Pieces.{back_of};
ghost use Rattle.summary_write.specs.Tally.{SummaryStandsFor, with_noted_block, with_noted_extra};
ghost use Rattle.chunk_writer.specs.declared.next.Next.TheVariants as nexts;
ghost use Rattle.chunk_writer.specs.declared.phase.Phase.TheVariants as phases;
ghost use Rattle.chunk_writer.specs.Limits.{Holds, HeaderFits, ChunkSizeFits};
ghost use Rattle.chunk_writer.specs.LimitSteps.{HoldsOrStops, BlockFits, IsNoFault};
ghost use Rattle.chunk_writer.specs.Bodies.{BodyFor, SummaryFor, StandsSo, NextBlock, LastBlock};
ghost use Rattle.chunk_writer.specs.Waiting.{AreExtra, AreAside};
ghost use Rattle.chunk_writer.specs.Plans.{Plans, counted_on, IsPlanned, PutStopped, IsLastBlock, LastStopped, IsFilled, ExtraStopped, BackStopped, HoldsBlock, HoldsNext, CountsNext, StandsAlone, CountsBlock, StoppedBefore};

use crate::body::{Body, begin, take, take_last};
use crate::limits::keep_limit;
use crate::next::Next;
use crate::phase::Phase;
use crate::pieces::back_piece;
use mcap_model::{Block, FileOptions, Stop};
use mcap_wire::{Bytes, CONTENT_LIMIT, FILE_LIMIT, HEAD_LENGTH, Memory};
use rec_data::{ATTACHMENT, MESSAGE, METADATA};
use std::alloc::Global;
use std::marker::Model;
use summary_write::Summary;

/// Which pieces of a file are sure, and what waits. Contracts see the body, the numbers of blocks and bytes, and the phase.
#[derive(Drop)]
pub(crate) struct Plan {
    alloc: Global,
    body: Option<Body>,
    blocks: u64,
    bytes: u64,
    phase: Phase,
}

impl Model for Plan {
    ghost use Rattle.chunk_writer.specs.Planning.{Planning};

    ghost Value = { Planning };

    ghost use Rattle.chunk_writer.specs.Held.{planning, HasSoundPlan};

    ghost view = { planning };

    ghost invariant = { HasSoundPlan };
}

// The body of a file in chunks of that size, if there is one.
fn body_for(alloc: Global, size: Option<u64>, span: Option<u64>) -> Result<Option<Body>, Memory>
    requires { ChunkSizeFits size }
    ensures { IfOk result (λ body. (at : ℕ) → BodyFor size span at [] body) }
{
    match size {
        None => return Ok(None),
        Some(size) => match begin(alloc, size, span) {
            Ok(body) => return Ok(Some(body)),
            Err(memory) => return Err(memory),
        },
    }
}

// Notes a block behind so many blocks and bytes, where a file may hold it.
fn note(summary: &mut Summary, blocks: u64, bytes: u64, block: &Block) -> Result<(), Stop>
    requires within { Holds blocks bytes }
    requires few { summary.old.blocks < 2 ^ 48 }
    requires built { (records : List Rec) × IsBlock block.now records }
    ensures ok { OnOk result ((records : List Rec) → IsBlock block.now records → (n : Noted)
        → SummaryStandsFor summary.old n → SummaryStandsFor summary.new (with_noted_block n bytes records)) }
    ensures limit { HoldsOrStops blocks bytes (BlockFits blocks bytes block.now) result }
{
    if block.chunk_length > HEAD_LENGTH + CONTENT_LIMIT {
        return Err(Stop::Limit { blocks, bytes });
    }
    match keep_limit(blocks, bytes, 1, block.bytes.as_slice()) {
        Ok(()) => {}
        Err(stop) => return Err(stop),
    }
    match summary.note_block(bytes, block) {
        Ok(()) => return Ok(()),
        Err(_) => return Err(Stop::Memory),
    }
}

// The block that a framed record that is no extra closes behind so many blocks and bytes, if it does so, noted.
fn next_block(
    body: &mut Body,
    blocks: u64,
    bytes: u64,
    framed: &[u8],
) -> Result<Option<Block>, Stop>
    requires framed { (r : Rec) × AreInner framed.now r }
    requires within { Holds blocks bytes }
    requires stands { (size : ℕ) × (span : Option ℕ) × (at : ℕ) × (history : List Rec)
        × StandsSo size span at history body.old blocks bytes }
    ensures ok { IfOk result (λ closed. (r : Rec) → AreInner framed.now r
        → (size : ℕ) (span : Option ℕ) (at : ℕ) (history : List Rec)
        → StandsSo size span at history body.old blocks bytes → NextBlock size span at history r closed body.new) }
    ensures room { IfOk result (λ closed. HoldsBlock blocks bytes closed) }
    ensures err { IfErr result (λ stop. (r : Rec) → AreInner framed.now r
        → (size : ℕ) (span : Option ℕ) (at : ℕ) (history : List Rec)
        → StandsSo size span at history body.old blocks bytes
        → PutStopped (Some size) span history r blocks bytes stop) }
    ensures no_fault { IfErr result (λ stop. IsNoFault stop) }
{
    match take(body, framed) {
        Err(_) => return Err(Stop::Memory),
        Ok(None) => return Ok(None),
        Ok(Some(block)) => match note(&mut body.summary, blocks, bytes, &block) {
            Ok(()) => return Ok(Some(block)),
            Err(stop) => return Err(stop),
        },
    }
}

// The last block behind so many blocks and bytes, if records wait for one, noted.
fn last_block(body: &mut Body, blocks: u64, bytes: u64) -> Result<Option<Block>, Stop>
    requires within { Holds blocks bytes }
    requires stands { (size : ℕ) × (span : Option ℕ) × (at : ℕ) × (history : List Rec)
        × StandsSo size span at history body.old blocks bytes }
    ensures ok { IfOk result (λ last. (size : ℕ) (span : Option ℕ) (at : ℕ) (history : List Rec)
        → StandsSo size span at history body.old blocks bytes → LastBlock size span at history last body.new) }
    ensures room { IfOk result (λ last. HoldsBlock blocks bytes last) }
    ensures err { IfErr result (λ stop. (size : ℕ) (span : Option ℕ) (at : ℕ) (history : List Rec)
        → StandsSo size span at history body.old blocks bytes
        → LastStopped (Some size) span history blocks bytes stop) }
    ensures no_fault { IfErr result (λ stop. IsNoFault stop) }
{
    match take_last(body) {
        Err(_) => return Err(Stop::Memory),
        Ok(None) => return Ok(None),
        Ok(Some(block)) => match note(&mut body.summary, blocks, bytes, &block) {
            Ok(()) => return Ok(Some(block)),
            Err(stop) => return Err(stop),
        },
    }
}

// What stands behind the nine bytes of a record's head.
fn content_of(framed: &[u8]) -> &[u8]
    requires { 9 ≤ length framed.now }
    ensures { result.now ≡ drop 9 framed.now }
{
    &framed[9..]
}

// Notes an extra that stands at that offset.
fn note_in(summary: &mut Summary, at: u64, framed: &[u8]) -> Result<(), Memory>
    requires within { at ≤ 2 ^ 41 }
    requires extra { AreAside framed.now }
    ensures { OnOk result ((t : Top) → framed.now ≡ top_bytes t → (n : Noted) → SummaryStandsFor summary.old n
        → SummaryStandsFor summary.new (with_noted_extra n at t)) }
{
    let content = content_of(framed);
    if framed[0] == ATTACHMENT {
        return summary.note_attachment(at, content);
    }
    if framed[0] == METADATA {
        return summary.note_metadata(at, content);
    }
    return Ok(());
}

// Notes an extra that is to stand behind so many blocks and bytes, where the limit has room for it.
fn note_aside(summary: &mut Summary, blocks: u64, bytes: u64, framed: &[u8]) -> Result<(), Stop>
    requires extra { AreAside framed.now }
    requires within { Holds blocks bytes }
    ensures ok { OnOk result ((t : Top) → framed.now ≡ top_bytes t → (n : Noted) → SummaryStandsFor summary.old n
        → SummaryStandsFor summary.new (with_noted_extra n bytes t)) }
    ensures limit { HoldsOrStops blocks bytes (Holds (blocks + 0) (bytes + length framed.now)) result }
{
    match keep_limit(blocks, bytes, 0, framed) {
        Ok(()) => {}
        Err(stop) => return Err(stop),
    }
    match note_in(summary, bytes, framed) {
        Ok(()) => return Ok(()),
        Err(_) => return Err(Stop::Memory),
    }
}

// Whether a framed record is no extra.
fn stands_inside(framed: &[u8]) -> bool
    requires { (r : Rec) × AreFramed framed.now r }
    ensures { (r : Rec) → AreFramed framed.now r → result ≡ is_inner r }
{
    framed[0] <= MESSAGE
}

// Notes it where there is a summary.
fn note_behind(body: &mut Option<Body>, at: u64, framed: &[u8]) -> Result<(), Memory>
    requires within { at ≤ 2 ^ 41 }
    requires extra { AreAside framed.now }
    ensures { OnOk result ((t : Top) → framed.now ≡ top_bytes t → (size : Option ℕ) (n : Noted)
        → SummaryFor size n body.old → SummaryFor size (with_noted_extra n at t) body.new) }
{
    match body {
        Some(body) => return note_in(&mut body.summary, at, framed),
        None => return Ok(()),
    }
}

impl Plan {
    /// The plan of a file of these options, whose front has so many bytes.
    pub(crate) fn new(alloc: Global, options: &FileOptions, bytes: u64) -> Result<Plan, Memory>
        requires size { ChunkSizeFits options.now.chunk }
        requires front { bytes ≡ length (front options.now.profile) }
        requires header { HeaderFits options.now.profile }
        requires small { bytes ≤ file_limit }
        ensures stands { IfOk result (λ p. Plans options.now [] p) }
        ensures goes_on { IfOk result (λ p. p.phase ≡ phases.Going) }
    {
        match body_for(alloc, options.chunk, options.span) {
            Ok(body) => return Ok(Plan {
                alloc,
                body,
                blocks: 0,
                bytes,
                phase: Phase::Going,
            }),
            Err(memory) => return Err(memory),
        }
    }

    pub(crate) fn alloc(&self) -> Global {
        self.alloc
    }

    pub(crate) fn blocks(&self) -> u64
        ensures value { result ≡ self.now.blocks }
        ensures few { result ≤ block_limit }
    {
        self.blocks
    }

    pub(crate) fn bytes(&self) -> u64
        ensures value { result ≡ self.now.bytes }
        ensures small { result ≤ file_limit }
    {
        self.bytes
    }

    pub(crate) fn phase(&self) -> Phase
        ensures { result ≡ self.now.phase }
    {
        self.phase
    }

    /// Says what is to be appended for a framed record more, and counts it.
    pub(crate) fn add(&mut self, framed: &[u8]) -> Result<Next, Stop>
        requires framed { (r : Rec) × AreFramed framed.now r }
        requires goes_on { self.old.phase ≡ phases.Going }
        ensures ok { IfOk result (λ next. (r : Rec) → AreFramed framed.now r
            → (options : FileOptions) (history : List Rec) → Plans options history self.old
            → IsPlanned options history r next self.new) }
        ensures going { OnOk result (self.new.phase ≡ phases.Going) }
        ensures within { OnOk result (Holds self.new.blocks self.new.bytes) }
        ensures room { IfOk result (λ next. HoldsNext self.old.blocks self.old.bytes framed.now next) }
        ensures counted { IfOk result (λ next. CountsNext self.old.blocks self.new.blocks next) }
        ensures plain { IfOk result (λ next. next ≡ nexts.Record → self.old.body ≡ None) }
        ensures alone { IfOk result (λ next. (r : Rec) → AreFramed framed.now r → is_inner r ≡ false
            → StandsAlone next) }
        ensures err { IfErr result (λ stop. (r : Rec) → AreFramed framed.now r
            → (options : FileOptions) (history : List Rec) → Plans options history self.old
            → PutStopped options.chunk options.span history r self.old.blocks self.old.bytes stop) }
        ensures no_fault { IfErr result (λ stop. IsNoFault stop) }
        ensures stopped { IfErr result (λ stop. StoppedBefore self.old.blocks self.old.bytes stop self.new) }
    {
        match &mut self.body {
            Some(body) => {
                if !stands_inside(framed) {
                    match note_aside(&mut body.summary, self.blocks, self.bytes, framed) {
                        Ok(()) => {
                            self.bytes += framed.len() as u64;
                            return Ok(Next::Aside);
                        }
                        Err(stop) => {
                            self.phase = Phase::Stopped { stop };
                            return Err(stop);
                        }
                    }
                }
                match next_block(body, self.blocks, self.bytes, framed) {
                    Ok(None) => return Ok(Next::Waits),
                    Ok(Some(block)) => {
                        self.blocks += 1;
                        self.bytes += block.bytes.as_slice().len() as u64;
                        return Ok(Next::Block { block });
                    }
                    Err(stop) => {
                        self.phase = Phase::Stopped { stop };
                        return Err(stop);
                    }
                }
            }
            None => match keep_limit(self.blocks, self.bytes, 0, framed) {
                Ok(()) => {
                    self.bytes += framed.len() as u64;
                    return Ok(Next::Record);
                }
                Err(stop) => {
                    self.phase = Phase::Stopped { stop };
                    return Err(stop);
                }
            },
        }
    }

    /// Whether records stand at top level, and a file may hold so many bytes of them more.
    pub(crate) fn has_room_for(&self, len: u64) -> bool
        ensures room { result ≡ true → (self.now.body ≡ None) × (self.now.bytes + len ≤ file_limit) }
        ensures none { result ≡ false → self.now.body ≡ None → file_limit < self.now.bytes + len }
    {
        match &self.body {
            Some(_) => return false,
            None => return len <= FILE_LIMIT - self.bytes,
        }
    }

    /// Counts so many bytes of records that stand at top level.
    pub(crate) fn count(&mut self, len: u64)
        requires plain { self.old.body ≡ None }
        requires whole { (records : List Rec) × (len ≡ length (history_bytes records)) }
        requires within { self.old.bytes + len ≤ file_limit }
        ensures { self.new ≡ counted_on self.old len }
    {
        self.bytes += len;
    }

    /// Says which block is last, if records wait for one, and counts it. No more records come.
    pub(crate) fn last(&mut self) -> Result<Option<Block>, Stop>
        requires goes_on { self.old.phase ≡ phases.Going }
        ensures ok { IfOk result (λ last. (options : FileOptions) (history : List Rec) → Plans options history self.old
            → IsLastBlock options history last self.new) }
        ensures ended { OnOk result (self.new.phase ≡ phases.Ended) }
        ensures room { IfOk result (λ last. HoldsBlock self.old.blocks self.old.bytes last) }
        ensures counted { IfOk result (λ last. CountsBlock self.old last self.new) }
        ensures err { IfErr result (λ stop. (options : FileOptions) (history : List Rec)
            → Plans options history self.old
            → LastStopped options.chunk options.span history self.old.blocks self.old.bytes stop) }
        ensures no_fault { IfErr result (λ stop. IsNoFault stop) }
        ensures stopped { IfErr result (λ stop. StoppedBefore self.old.blocks self.old.bytes stop self.new) }
    {
        match &mut self.body {
            None => {
                self.phase = Phase::Ended;
                return Ok(None);
            }
            Some(body) => match last_block(body, self.blocks, self.bytes) {
                Ok(None) => {
                    self.phase = Phase::Ended;
                    return Ok(None);
                }
                Ok(Some(block)) => {
                    self.blocks += 1;
                    self.bytes += block.bytes.as_slice().len() as u64;
                    self.phase = Phase::Ended;
                    return Ok(Some(block));
                }
                Err(stop) => {
                    self.phase = Phase::Stopped { stop };
                    return Err(stop);
                }
            },
        }
    }

    /// Counts an extra that waited for the end, which stands after all pieces of the history, and notes it for the summary.
    pub(crate) fn note_extra(&mut self, framed: &[u8]) -> Result<(), Stop>
        requires ended { self.old.phase ≡ phases.Ended }
        requires extra { AreExtra framed.now }
        ensures ok { OnOk result ((t : Top) → framed.now ≡ top_bytes t
            → (options : FileOptions) (extras : List Top) (history : List Rec)
            → IsFilled options extras history self.old → IsFilled options (extras ++ t ∷ []) history self.new) }
        ensures counted { OnOk result (self.new.bytes ≡ self.old.bytes + length framed.now) }
        ensures same { OnOk result ((self.new.blocks ≡ self.old.blocks) × (self.new.phase ≡ phases.Ended)) }
        ensures room { OnOk result (Holds self.old.blocks (self.old.bytes + length framed.now)) }
        ensures err { IfErr result (λ stop. ExtraStopped self.old.blocks self.old.bytes framed.now stop) }
        ensures no_fault { IfErr result (λ stop. IsNoFault stop) }
        ensures stopped { IfErr result (λ stop. StoppedBefore self.old.blocks self.old.bytes stop self.new) }
    {
        match keep_limit(self.blocks, self.bytes, 0, framed) {
            Ok(()) => {}
            Err(stop) => {
                self.phase = Phase::Stopped { stop };
                return Err(stop);
            }
        }
        match note_behind(&mut self.body, self.bytes, framed) {
            Ok(()) => {}
            Err(_) => {
                self.phase = Phase::Stopped { stop: Stop::Memory };
                return Err(Stop::Memory);
            }
        }
        self.bytes += framed.len() as u64;
        return Ok(());
    }

    /// The Data End and all behind it, which it counts.
    pub(crate) fn back(&mut self) -> Result<Bytes, Stop>
        requires { self.old.phase ≡ phases.Ended }
        ensures ok { IfOk result (λ piece. (options : FileOptions) (extras : List Top) (history : List Rec)
            → IsFilled options extras history self.old → piece ≡ back_of options extras history) }
        ensures counted { IfOk result (λ piece. self.new.bytes ≡ self.old.bytes + length piece) }
        ensures same { OnOk result ((self.new.blocks ≡ self.old.blocks) × (self.new.phase ≡ phases.Ended)) }
        ensures room { IfOk result (λ piece. Holds self.old.blocks (self.old.bytes + length piece)) }
        ensures err { IfErr result (λ stop. (options : FileOptions) (extras : List Top) (history : List Rec)
            → IsFilled options extras history self.old
            → BackStopped options extras history self.old.blocks self.old.bytes stop) }
        ensures no_fault { IfErr result (λ stop. IsNoFault stop) }
        ensures stopped { IfErr result (λ stop. StoppedBefore self.old.blocks self.old.bytes stop self.new) }
    {
        let piece = match back_piece(self.alloc, &self.body, self.bytes) {
            Ok(piece) => piece,
            Err(_) => {
                self.phase = Phase::Stopped { stop: Stop::Memory };
                return Err(Stop::Memory);
            }
        };
        match keep_limit(self.blocks, self.bytes, 0, piece.as_slice()) {
            Ok(()) => {
                self.bytes += piece.as_slice().len() as u64;
                return Ok(piece);
            }
            Err(stop) => {
                self.phase = Phase::Stopped { stop };
                return Err(stop);
            }
        }
    }

    /// The piece that was counted last wasn't appended, for that reason; there were so many blocks and bytes before it.
    pub(crate) fn stop(&mut self, stop: Stop, blocks: u64, bytes: u64)
        requires { Holds blocks bytes }
        ensures { StoppedBefore blocks bytes stop self.new }
    {
        self.phase = Phase::Stopped { stop };
        self.blocks = blocks;
        self.bytes = bytes;
    }

    /// Takes the vector of a block that was appended, so that its room serves a later one. Its bytes are forgotten.
    pub(crate) fn give_back(&mut self, room: Vec<u8>)
        ensures { self.new ≡ self.old }
    {
        match &mut self.body {
            Some(body) => body.chunker.give_back(room),
            None => {}
        }
    }
}
