//! Reading the records of a source, those inside chunks in their places.
ghost use Rattle.std.specs.Prelude.{◌≡◌, ◌≤◌, true, length};
ghost use Rattle.mcap_scan.specs.Scanning.{content_of};

use crate::inside::inside_of;
use crate::{Reader, Step};
use mcap_io::Source;
use mcap_model::{InnerWalk, Place, ReadingRefused, Tables};
use mcap_wire::{HEAD_LENGTH, Memory};
use std::alloc::Global;

/// What comes next in a file. Offsets are in bytes from the file's front; the reader lends the content of a record.
#[derive(Clone, Copy)]
pub enum FlatStep {
    /// The next record: its opcode, and where it stands. Behind a Chunk come those inside it.
    Record { op: u8, place: Place },
    /// The Data End was given, and this is the offset behind it.
    End { offset: u64 },
    /// The reading was refused, now or before.
    Refused,
}

/// A reader, and what it still holds of the records of a chunk: they begin at `from` in the chunk's content, and those from `at` to
/// `to` weren't given. The content of the record that was given last lies from `lo` to `hi`.
#[derive(Drop)]
pub struct FlatReader {
    reader: Reader,
    top: u64,
    from: usize,
    at: usize,
    to: usize,
    lo: usize,
    hi: usize,
    inside: bool,
    ghost begins: { from ≤ at },
    ghost goes_on: { at ≤ to },
    ghost within: { to ≤ length (content_of reader) },
    ghost content: { lo ≤ hi },
    ghost content_within: { hi ≤ length (content_of reader) },
    ghost framed: { inside ≡ true → 9 ≤ lo },
}

impl FlatReader {
    ghost use Rattle.std.specs.Prelude.{ℕ, List, [], IfOk};
    ghost use Rattle.mcap_model.specs.Tops.{Top, Placed};
    ghost use Rattle.mcap_io.specs.Outside.{SourceState};
    ghost use Rattle.mcap_scan.specs.Scanning.{KeptBy, HandsOut, IsDone};
    ghost use Rattle.mcap_scan.specs.Walking.{flat_content, flat_frame, flat_tables, flat_left, FlatStands, FlatAdvanced, FlatMoves, IsFlatDone, IsFlatLast, IsHeldFrame, ahead_of, StepsInside, IsCleared};

    /// A reader of which nothing was asked yet.
    pub fn new(alloc: Global) -> Result<FlatReader, Memory>
        ensures { IfOk result (λ flat. (source : SourceState) → FlatStands flat source source [] []) }
    {
        match Reader::new(alloc) {
            Ok(reader) => return Ok(FlatReader {
                reader,
                top: 0,
                from: 0,
                at: 0,
                to: 0,
                lo: 0,
                hi: 0,
                inside: false,
            }),
            Err(memory) => return Err(memory),
        }
    }

    /// The content of the record, until the next step, where the last step gave one.
    pub fn content(&self) -> &[u8]
        ensures { result.now ≡ flat_content self.now }
    {
        &self.reader.content()[self.lo..self.hi]
    }

    /// The whole record with its head, until the next step. There is one exactly where the last step gave a record that stands
    /// inside a chunk.
    pub fn frame(&self) -> Option<&[u8]>
        ensures { IsHeldFrame self.now result }
    {
        if !self.inside {
            return None;
        }
        return Some(&self.reader.content()[self.lo - HEAD_LENGTH as usize..self.hi]);
    }

    /// The declarations of the records that were read: behind a Chunk those of all the records inside it.
    pub fn tables(&self) -> &Tables
        ensures { result.now ≡ flat_tables self.now }
    {
        self.reader.tables()
    }

    /// The same, handed out at the reading's end.
    pub fn into_tables(self) -> Tables
        ensures { result ≡ flat_tables self }
    {
        let FlatReader {
            reader,
            top: _,
            from: _,
            at: _,
            to: _,
            lo: _,
            hi: _,
            inside: _,
        } = self;
        reader.into_tables()
    }

    /// Why the reading was refused, where it was.
    pub fn refusal(&self) -> Option<&ReadingRefused>
        ensures { KeptBy self.now.reader result }
    {
        self.reader.refusal()
    }

    /// Why the reading was refused, where it was, handed out at its end.
    pub fn into_refusal(self) -> Option<ReadingRefused>
        ensures { HandsOut self.reader result }
    {
        let FlatReader {
            reader,
            top: _,
            from: _,
            at: _,
            to: _,
            lo: _,
            hi: _,
            inside: _,
        } = self;
        reader.into_refusal()
    }

    // The next record inside the chunk that was read last, if one is left. It and `advance` are inlined, so that a step isn't copied
    // through memory on its way to whoever looks at it.
    #[inline(always)]
    fn next_inside(&mut self) -> Option<FlatStep>
        ensures { StepsInside self.old self.new result }
    {
        // Behind a record that is no chunk, the walk needn't be begun.
        if self.at == self.to {
            return None;
        }
        let content = self.reader.content();
        let mut walk = InnerWalk::new(&content[self.at..self.to]);
        match walk.next() {
            Some(inner) => {
                let place = Place {
                    top: self.top,
                    inner: (self.at - self.from) as u64,
                };
                let op = inner.op;
                let lo = self.at + HEAD_LENGTH as usize;
                let hi = lo + inner.content.len();
                self.lo = lo;
                self.hi = hi;
                self.at = hi;
                self.inside = true;
                return Some(FlatStep::Record { op, place });
            }
            None => return None,
        }
    }

    // Forgets the record that was given last, and those that are due.
    fn clear(&mut self)
        ensures { IsCleared self.old self.new }
    {
        self.top = 0;
        self.from = 0;
        self.at = 0;
        self.to = 0;
        self.lo = 0;
        self.hi = 0;
        self.inside = false;
    }

    // Reads the next record of the source, where none is due.
    fn read<S: Source>(&mut self, source: &mut S) -> FlatStep
        ensures steps { (before : SourceState) (tops : List Top) (given : List Placed)
            → FlatStands self.old before (S.state source.old) tops given → ahead_of self.old ≡ []
            → FlatAdvanced self.new before (S.state source.new) tops given result }
        ensures moves { FlatMoves (flat_left self.old) (flat_left self.new) result }
        ensures over { IsDone self.old.reader
            → (self.new.reader ≡ self.old.reader) × (source.new ≡ source.old) × IsFlatLast result }
        ensures stays { S.stays source.old source.new }
    {
        self.clear();
        match self.reader.advance(source) {
            Step::Record { op, offset } => {
                let content = self.reader.content();
                let hi = content.len();
                let (from, to) = inside_of(op, content);
                self.top = offset;
                self.from = from;
                self.at = from;
                self.to = to;
                self.hi = hi;
                let place = Place {
                    top: offset,
                    inner: 0,
                };
                return FlatStep::Record { op, place };
            }
            Step::End { offset } => return FlatStep::End { offset },
            Step::Refused => return FlatStep::Refused,
        }
    }

    /// Reads the next record of the source (MCAP specification: Records), or goes on to the next one inside the chunk that was read
    /// last; the first call reads the magic too. A Chunk is judged whole before it is given. Nothing behind the Data End is read,
    /// and nothing more after a refusal: each later call gives the same answer.
    #[inline(always)]
    pub fn advance<S: Source>(&mut self, source: &mut S) -> FlatStep
        ensures steps { (before : SourceState) (tops : List Top) (given : List Placed)
            → FlatStands self.old before (S.state source.old) tops given
            → FlatAdvanced self.new before (S.state source.new) tops given result }
        ensures moves { FlatMoves (flat_left self.old) (flat_left self.new) result }
        ensures over { IsFlatDone self.old
            → (self.new.reader ≡ self.old.reader) × (source.new ≡ source.old) × IsFlatLast result }
        ensures stays { S.stays source.old source.new }
    {
        match self.next_inside() {
            Some(step) => return step,
            None => return self.read(source),
        }
    }
}
