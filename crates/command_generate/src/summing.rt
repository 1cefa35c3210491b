//! The sums of the messages of a source that is read once, from its front.
ghost use Rattle.std.specs.Prelude.{◌≡◌};
ghost use Rattle.mcap_model.specs.declared.refusals.ReadingRefused.{ReadingRefused as Refusal};
ghost use Rattle.mcap_scan.specs.declared.reader.Stage.TheVariants as stages;
ghost use Rattle.command_generate.specs.SumSteps.{SumsUp};

use crate::adding::add_record;
use crate::sums::Sums;
use mcap_io::Source;
use mcap_model::ReadingRefused;
use mcap_scan::{FlatReader, FlatStep};
use std::alloc::Global;

// Why a reading was refused.
fn refusal_of(flat: FlatReader) -> ReadingRefused
    ensures { (why : Refusal) → flat.reader.stage ≡ stages.Stopped why → result ≡ why }
{
    match flat.into_refusal() {
        Some(why) => return why,
        None => return ReadingRefused::Memory,
    }
}

/// The sums of all messages of the source, which is read to its Data End; where the reading is refused, this is, for the same
/// reason. No message is kept.
pub fn sum_messages<S: Source>(alloc: Global, source: &mut S) -> Result<Sums, ReadingRefused>
    ensures sums { SumsUp (S.state source.old) (S.state source.new) result }
    ensures stays { S.stays source.old source.new }
{
    let mut flat = match FlatReader::new(alloc) {
        Ok(flat) => flat,
        Err(_) => return Err(ReadingRefused::Memory),
    };
    let mut sums = Sums::none();
    'records: loop {
        match flat.advance(source) {
            FlatStep::Record { op, place: _ } => add_record(&mut sums, op, flat.content()),
            FlatStep::End { offset: _ } => return Ok(sums),
            FlatStep::Refused => return Err(refusal_of(flat)),
        }
    }
}
