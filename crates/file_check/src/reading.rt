//! Reading a data section.
ghost use Rattle.std.specs.Prelude.{◌≡◌, List, IfOk};
ghost use Rattle.mcap_model.specs.Tops.{Top};
ghost use Rattle.mcap_model.specs.declared.refusals.ReadingRefused.{ReadingRefused as Refusal};
ghost use Rattle.mcap_scan.specs.declared.reader.Stage.TheVariants as stages;
ghost use Rattle.index_check.specs.Section.{SectionOf};
ghost use Rattle.file_check.specs.Reading.{IsTakenToEnd, ReadsSection};

use crate::flaws::FailedRule;
use crate::gathering::{DataEnd, Gathering};
use index_check::Section;
use mcap_io::Source;
use mcap_model::{ReadingRefused, Rule, Tables};
use mcap_scan::{FlatReader, FlatStep};
use mcap_wire::Memory;
use std::alloc::Global;

// Why a reading was refused.
fn refusal_of(reader: FlatReader) -> ReadingRefused
    ensures { (why : Refusal) → reader.reader.stage ≡ stages.Stopped why → result ≡ why }
{
    match reader.into_refusal() {
        Some(why) => return why,
        None => return ReadingRefused::Memory,
    }
}

// What is kept of a section whose records were taken up to the Data End, behind which this is the offset.
fn section_of(
    alloc: Global,
    gathering: Gathering,
    tables: Tables,
    behind: u64,
) -> Result<Section, Memory>
    ensures { IfOk result (λ section. (tops : List Top) → IsTakenToEnd tops gathering tables behind
        → SectionOf tops section) }
{
    let tally = match gathering.tally(alloc) {
        Ok(tally) => tally,
        Err(memory) => return Err(memory),
    };
    return Ok(gathering.finish(DataEnd {
        tables,
        tally,
        behind,
    }));
}

/// Reads a data section up to and with its Data End (MCAP specification: Data Section), and keeps of it what the rules of the
/// whole file ask for; or tells where V9 fails, as soon as a record settles it: at a Message Index that is wrong, or at a chunk
/// that lacks one. Each record is checked behind those before it. Of the contents one chunk is held beside the record at hand.
pub(crate) fn read_section<S: Source>(
    alloc: Global,
    source: &mut S,
) -> Result<Result<Section, FailedRule>, ReadingRefused>
    ensures reads { ReadsSection (S.state source.old) (S.state source.new) result }
    ensures stays { S.stays source.old source.new }
{
    let mut reader = match FlatReader::new(alloc) {
        Ok(reader) => reader,
        Err(_) => return Err(ReadingRefused::Memory),
    };
    let mut gathering = Gathering::new(alloc);
    'records: loop {
        match reader.advance(source) {
            FlatStep::Record { op, place } => {
                match gathering.take(alloc, op, place, reader.content()) {
                    Ok(None) => {}
                    Ok(Some(offset)) => return Ok(Err(FailedRule {
                        rule: Rule::V9,
                        offset,
                    })),
                    Err(_) => return Err(ReadingRefused::Memory),
                }
            }
            FlatStep::End { offset } => {
                match section_of(alloc, gathering, reader.into_tables(), offset) {
                    Ok(section) => return Ok(Ok(section)),
                    Err(_) => return Err(ReadingRefused::Memory),
                }
            }
            FlatStep::Refused => return Err(refusal_of(reader)),
        }
    }
}
