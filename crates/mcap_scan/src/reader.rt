//! Reading the records of a file from a source that is handed in at each call.
ghost use Rattle.mcap_scan.specs.Scanning.{RefusedAt};

use crate::answers::Step;
use crate::heads::{take_magic, take_record};
use mcap_io::{Room, Source};
use mcap_model::{Judged, ReadingRefused, Tables, judge, judge_first};
use mcap_wire::{Memory, Text};
use rec_data::DATA_END;
use std::alloc::Global;

/// How far a reading is.
#[derive(Drop)]
pub(crate) enum Stage {
    /// Nothing was read.
    Fresh,
    /// The Header was given, and no Data End.
    Inside,
    /// The Data End was given.
    Ended,
    /// The reading was refused.
    Stopped { why: ReadingRefused },
}

// What the judging of a record at that offset refuses.
#[inline(always)]
fn refused_at(alloc: Global, offset: u64, judged: Judged<'_>) -> Option<ReadingRefused>
    ensures { RefusedAt offset judged.entry result }
{
    match judged {
        Judged::Fits => return None,
        Judged::Breaks { rule } => return Some(ReadingRefused::Grammar { offset, rule }),
        Judged::Compressed { name } => match Text::copied(alloc, name) {
            Ok(name) => return Some(ReadingRefused::Compressed { offset, name }),
            Err(_) => return Some(ReadingRefused::Memory),
        },
        Judged::Memory => return Some(ReadingRefused::Memory),
    }
}

/// What is kept of a file between two records: the declarations so far, and where the next record stands.
#[derive(Drop)]
pub struct Reader {
    alloc: Global,
    head: Vec<u8>,
    room: Room,
    tables: Tables,
    offset: u64,
    stage: Stage,
}

impl Reader {
    ghost use Rattle.std.specs.Prelude.{◌≡◌, ◌+◌, ◌==◌, if◌then◌else◌, min, ◌^◌, ◌-◌, ℕ, List, [], Option, Some, length, IfOk};
    ghost use Rattle.mcap_model.specs.Tops.{Top};
    ghost use Rattle.mcap_io.specs.Outside.{SourceState};
    ghost use Rattle.mcap_io.specs.Rooms.{held_in};
    ghost use Rattle.mcap_scan.specs.declared.reader.Reader.{Reader as Whole};
    ghost use Rattle.mcap_scan.specs.Scanning.{content_of, tables_of, next_offset, KeptBy, HandsOut, Moves, Stands, IsFresh, IsInside, Advanced, Given, IsDone, IsLast};

    /// A reader of which nothing was asked yet.
    pub fn new(alloc: Global) -> Result<Reader, Memory>
        ensures begins { IfOk result (λ reader. next_offset reader ≡ 8) }
        ensures stands { IfOk result (λ reader. (source : SourceState) → Stands reader source source []) }
    {
        match Vec::with_capacity(alloc, 9) {
            Ok(head) => {
                return Ok(Reader {
                    alloc,
                    head,
                    room: Room::new(alloc),
                    tables: Tables::new(alloc),
                    offset: 8,
                    stage: Stage::Fresh,
                });
            }
            Err(_) => return Err(Memory),
        }
    }

    /// The content of the record, until the next step, where the last step gave one.
    pub fn content(&self) -> &[u8]
        ensures { result.now ≡ content_of self.now }
    {
        self.room.as_slice()
    }

    /// The declarations of the records that were given, those in chunks too.
    pub fn tables(&self) -> &Tables
        ensures { result.now ≡ tables_of self.now }
    {
        &self.tables
    }

    /// The declarations of the records that were given, handed out at the reading's end.
    pub fn into_tables(self) -> Tables
        ensures { result ≡ tables_of self }
    {
        let Reader {
            alloc: _,
            head: _,
            room: _,
            tables,
            offset: _,
            stage: _,
        } = self;
        tables
    }

    /// Why the reading was refused, where it was.
    pub fn refusal(&self) -> Option<&ReadingRefused>
        ensures { KeptBy self.now result }
    {
        match &self.stage {
            Stage::Stopped { why } => return Some(why),
            _ => return None,
        }
    }

    /// Why the reading was refused, where it was, handed out at its end.
    pub fn into_refusal(self) -> Option<ReadingRefused>
        ensures { HandsOut self result }
    {
        let Reader {
            alloc: _,
            head: _,
            room: _,
            tables: _,
            offset: _,
            stage,
        } = self;
        Reader::refusal_in(stage)
    }

    // The refusal in a stage. A reader has more to let go, which is done at one place so.
    fn refusal_in(stage: Stage) -> Option<ReadingRefused>
        ensures { (reader : Whole) → reader.stage ≡ stage → HandsOut reader result }
    {
        match stage {
            Stage::Stopped { why } => return Some(why),
            _ => return None,
        }
    }

    // Keeps the refusal.
    #[inline(never)]
    pub(crate) fn stop(&mut self, why: ReadingRefused) -> Step
        ensures step { result ≡ Step.Refused }
        ensures stage { self.new.stage ≡ Stage.Stopped why }
        ensures room { self.new.room ≡ self.old.room }
        ensures tables { self.new.tables ≡ self.old.tables }
    {
        self.stage = Stage::Stopped { why };
        return Step::Refused;
    }

    // Sets the stage behind a record that isn't the last. Mostly it stands already.
    #[inline(always)]
    fn stay_inside(&mut self)
        ensures stage { self.new.stage ≡ Stage.Inside }
        ensures offset { self.new.offset ≡ self.old.offset }
        ensures room { self.new.room ≡ self.old.room }
        ensures tables { self.new.tables ≡ self.old.tables }
    {
        match &self.stage {
            Stage::Inside => return,
            _ => {}
        }
        self.stage = Stage::Inside;
    }

    // Gives the record that was read and judged, or refuses it.
    #[inline(always)]
    fn give(&mut self, op: u8, refused: Option<ReadingRefused>) -> Step
        ensures given { Given self.old.offset (length (held_in self.old.room)) self.new.offset self.new.stage op refused
            result }
        ensures room { self.new.room ≡ self.old.room }
        ensures tables { self.new.tables ≡ self.old.tables }
    {
        let offset = self.offset;
        match refused {
            None => {
                self.offset = offset.saturating_add(9).saturating_add(self.room.len());
                if op == DATA_END {
                    self.stage = Stage::Ended;
                } else {
                    self.stay_inside();
                }
                return Step::Record { op, offset };
            }
            Some(why) => return self.stop(why),
        }
    }

    // Reads the magic and the first record.
    #[inline(never)]
    fn begin<S: Source>(&mut self, source: &mut S) -> Step
        ensures moves { Moves self.old.offset self.new.offset result }
        ensures steps { (before : SourceState) (tops : List Top)
            → IsFresh self.old.tables self.old.offset before (S.state source.old) tops
            → Advanced self.new before (S.state source.new) tops result }
        ensures stays { S.stays source.old source.new }
    {
        match take_magic(source, &mut self.head) {
            Ok(()) => {}
            Err(why) => return self.stop(why),
        }
        match take_record(source, &mut self.head, &mut self.room, self.offset) {
            Ok(op) => {
                let judged = judge_first(op, self.room.as_slice());
                let refused = refused_at(self.alloc, self.offset, judged);
                return self.give(op, refused);
            }
            Err(why) => return self.stop(why),
        }
    }

    // Reads the next record behind the Header.
    fn go_on<S: Source>(&mut self, source: &mut S) -> Step
        ensures moves { Moves self.old.offset self.new.offset result }
        ensures steps { (before : SourceState) (tops : List Top)
            → IsInside self.old.tables self.old.offset before (S.state source.old) tops
            → Advanced self.new before (S.state source.new) tops result }
        ensures stays { S.stays source.old source.new }
    {
        match take_record(source, &mut self.head, &mut self.room, self.offset) {
            Ok(op) => {
                let judged = judge(self.alloc, &mut self.tables, op, self.room.as_slice());
                let refused = refused_at(self.alloc, self.offset, judged);
                return self.give(op, refused);
            }
            Err(why) => return self.stop(why),
        }
    }

    /// Reads the next record of the source (MCAP specification: Records); the first call reads the magic too. Nothing
    /// behind the Data End is read, and nothing more after a refusal: each later call gives the same answer.
    pub fn advance<S: Source>(&mut self, source: &mut S) -> Step
        ensures steps { (before : SourceState) (tops : List Top) → Stands self.old before (S.state source.old) tops
            → Advanced self.new before (S.state source.new) tops result }
        ensures moves { Moves (next_offset self.old) (next_offset self.new) result }
        ensures over { IsDone self.old → (self.new ≡ self.old) × (source.new ≡ source.old) × IsLast result }
        ensures stays { S.stays source.old source.new }
    {
        match &self.stage {
            Stage::Fresh => return self.begin(source),
            Stage::Inside => return self.go_on(source),
            Stage::Ended => {
                return Step::End {
                    offset: self.offset,
                };
            }
            Stage::Stopped { .. } => return Step::Refused,
        }
    }
}
