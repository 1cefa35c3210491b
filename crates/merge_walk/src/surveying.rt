//! The survey of an input.
ghost use Rattle.std.specs.Prelude.{◌≡◌};
ghost use Rattle.mcap_model.specs.declared.refusals.ReadingRefused.{ReadingRefused as Refusal};
ghost use Rattle.mcap_scan.specs.declared.reader.Stage.TheVariants as stages;
ghost use Rattle.merge_walk.specs.Surveys.{Surveys};

use crate::noting::note_spans;
use crate::spans::Span;
use mcap_io::Source;
use mcap_model::{ReadingRefused, Tables};
use mcap_scan::{Reader, Step};
use std::alloc::Global;

/// What is known of an input that was read to its Data End: its declarations, and where its messages stand, in the order of
/// the records.
#[derive(Drop)]
pub struct Survey {
    pub tables: Tables,
    pub spans: Vec<Span>,
}

// Why a reading was refused.
fn refusal_of(reader: Reader) -> ReadingRefused
    ensures { (why : Refusal) → reader.stage ≡ stages.Stopped why → result ≡ why }
{
    match reader.into_refusal() {
        Some(why) => return why,
        None => return ReadingRefused::Memory,
    }
}

/// Reads a source to its Data End, and notes what it holds. No message is kept: what is held afterwards grows with the
/// declarations and the records of the top level alone.
pub fn survey_source<S: Source>(alloc: Global, source: &mut S) -> Result<Survey, ReadingRefused>
    ensures surveys { Surveys (S.state source.old) (S.state source.new) result }
    ensures stays { S.stays source.old source.new }
{
    let mut reader = match Reader::new(alloc) {
        Ok(reader) => reader,
        Err(_) => return Err(ReadingRefused::Memory),
    };
    let mut spans = Vec::new(alloc);
    let mut heads = Vec::new(alloc);
    'records: loop {
        match reader.advance(source) {
            Step::Record { op, offset } => {
                match note_spans(&mut spans, &mut heads, op, offset, reader.content()) {
                    Ok(()) => {}
                    Err(_) => return Err(ReadingRefused::Memory),
                }
            }
            Step::End { offset: _ } => return Ok(Survey {
                tables: reader.into_tables(),
                spans,
            }),
            Step::Refused => return Err(refusal_of(reader)),
        }
    }
}
