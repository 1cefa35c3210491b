//! A scanner: a reader with its source.
ghost use Rattle.std.specs.Prelude.{◌≡◌, ℕ, List, [], Option, IfOk, IfErr};
ghost use Rattle.mcap_model.specs.Tops.{Top as Record};
ghost use Rattle.mcap_model.specs.declared.refusals.ReadingRefused.{ReadingRefused as Refusal};
ghost use Rattle.mcap_scan.specs.declared.reader.Stage.TheVariants as stages;
ghost use Rattle.mcap_scan.specs.Scanning.{IsLast, Moves, content_of};
ghost use Rattle.mcap_io.specs.Outside.{SourceState};
ghost use Rattle.mcap_scan.specs.Scanners.{Scans, Steps, TellsAgain, Copies, step_of, IsScanOver, KeptIn, source_of, scanned_content, scanned_offset};

use crate::answers::{Step, Top};
use crate::reader::Reader;
use mcap_io::Source;
use mcap_model::ReadingRefused;
use mcap_wire::{Bytes, Memory, Text};
use std::alloc::Global;

/// Gives the records of a source in their order, and then where and why it halted.
#[derive(Drop)]
pub struct Scanner<S> {
    alloc: Global,
    source: S,
    reader: Reader,
}

// The same refusal once more.
fn again(alloc: Global, why: &ReadingRefused) -> ReadingRefused
    ensures { TellsAgain why.now result }
{
    match why {
        ReadingRefused::Fault { faults } => return ReadingRefused::Fault { faults: *faults },
        ReadingRefused::Grammar { offset, rule } => {
            return ReadingRefused::Grammar {
                offset: *offset,
                rule: *rule,
            };
        }
        ReadingRefused::Compressed { offset, name } => match Text::copied(alloc, name.as_str()) {
            Ok(name) => {
                return ReadingRefused::Compressed {
                    offset: *offset,
                    name,
                };
            }
            Err(_) => return ReadingRefused::Memory,
        },
        ReadingRefused::Limit { offset } => return ReadingRefused::Limit { offset: *offset },
        ReadingRefused::Memory => return ReadingRefused::Memory,
    }
}

// The refusal that a reader keeps, once more.
fn refusal_of(alloc: Global, reader: &Reader) -> ReadingRefused
    ensures { (kept : Refusal) → reader.now.stage ≡ stages.Stopped kept → TellsAgain kept result }
{
    match reader.refusal() {
        Some(why) => return again(alloc, why),
        None => return ReadingRefused::Memory,
    }
}

// The record that a reader gave, with a copy of its content.
fn copied(alloc: Global, reader: &Reader, op: u8, offset: u64) -> Result<Top, Memory>
    ensures { IfOk result (λ it. it ≡ Top.Record op offset (content_of reader.now)) }
{
    match Bytes::copied(alloc, reader.content()) {
        Ok(content) => {
            return Ok(Top::Record {
                op,
                offset,
                content,
            });
        }
        Err(memory) => return Err(memory),
    }
}

impl<S: Source> Scanner<S> {
    /// A scanner of that source, of which nothing is read yet. Where memory lacks, the source is given back.
    pub fn new(alloc: Global, source: S) -> Result<Scanner<S>, (S, Memory)>
        ensures stands { IfOk result (λ scanner. Scans S.state scanner (S.state source) []) }
        ensures begins { IfOk result (λ scanner. (source_of scanner ≡ source) × (scanned_offset scanner ≡ 8)) }
        ensures unread { IfErr result (λ back. back.0 ≡ source) }
    {
        match Reader::new(alloc) {
            Ok(reader) => {
                return Ok(Scanner {
                    alloc,
                    source,
                    reader,
                });
            }
            Err(memory) => return Err((source, memory)),
        }
    }

    /// Reads the next record into the scanner's own room: `content` lends it, and no memory is taken for a copy. After the
    /// Data End or a refusal nothing more is read, and each later call gives the same answer.
    pub fn advance(&mut self) -> Step
        ensures steps { (before : SourceState) (tops : List Record) → Scans S.state self.old before tops
            → Steps S.state self.new before tops result }
        ensures moves { Moves (scanned_offset self.old) (scanned_offset self.new) result }
        ensures over { IsScanOver self.old → (self.new ≡ self.old) × IsLast result }
        ensures stays { S.stays (source_of self.old) (source_of self.new) }
    {
        self.reader.advance(&mut self.source)
    }

    /// The content of the record, until the next step, where the last step gave one.
    pub fn content(&self) -> &[u8]
        ensures { result.now ≡ scanned_content self.now }
    {
        self.reader.content()
    }

    /// Why the reading was refused, where it was.
    pub fn refusal(&self) -> Option<&ReadingRefused>
        ensures { KeptIn self.now result }
    {
        self.reader.refusal()
    }

    /// Reads the next record as `advance` does, and copies its content. Where memory lacks for the copy the reading is
    /// refused for good.
    pub fn next(&mut self) -> Result<Top, ReadingRefused>
        ensures steps { (before : SourceState) (tops : List Record) → Scans S.state self.old before tops
            → Steps S.state self.new before tops (step_of result) × Copies self.new result }
        ensures moves { Moves (scanned_offset self.old) (scanned_offset self.new) (step_of result) }
        ensures over { IsScanOver self.old → (self.new ≡ self.old) × IsLast (step_of result) }
        ensures stays { S.stays (source_of self.old) (source_of self.new) }
    {
        match self.advance() {
            Step::Record { op, offset } => match copied(self.alloc, &self.reader, op, offset) {
                Ok(record) => return Ok(record),
                Err(_) => {
                    let _ = self.reader.stop(ReadingRefused::Memory);
                    return Err(ReadingRefused::Memory);
                }
            },
            Step::End { offset } => return Ok(Top::End { offset }),
            Step::Refused => return Err(refusal_of(self.alloc, &self.reader)),
        }
    }

    /// The source, with all that was not read.
    pub fn into_source(self) -> S
        ensures { result ≡ source_of self }
    {
        let Scanner {
            alloc: _,
            source,
            reader: _,
        } = self;
        source
    }
}
