//! What is held of the input that is sorted.
ghost use Rattle.std.specs.Prelude.{OnOk, ◌≡◌, length};
ghost use Rattle.mcap_model.specs.Made.{top};
ghost use Rattle.mcap_model.specs.Tops.{unchunked};
ghost use Rattle.mcap_model.specs.declared.refusals.ReadingRefused.{ReadingRefused as Refusal};
ghost use Rattle.mcap_scan.specs.declared.reader.Stage.TheVariants as stages;
ghost use Rattle.mcap_scan.specs.Scanning.{content_of};
ghost use Rattle.mcap_merge.specs.Inputs.{HoldsRecord};
ghost use Rattle.mcap_sort.specs.Declaring.{NotesAll};
ghost use Rattle.mcap_sort.specs.Gathering.{GathersInput};

use crate::declaring::note_declared;
use mcap_io::Source;
use mcap_merge::{Holding, Input, hold, hold_nothing, input_of};
use mcap_model::{ReadingRefused, Tables};
use mcap_scan::{Reader, Step};
use mcap_wire::Memory;
use std::alloc::Global;

/// What is held of an input that was read to its Data End, and the first declaration of each id.
#[derive(Drop)]
pub struct Gathered {
    pub input: Input,
    pub declared: Tables,
}

// Why a reading was refused.
fn refusal_of(reader: Reader) -> ReadingRefused
    ensures { (why : Refusal) → reader.stage ≡ stages.Stopped why → result ≡ why }
{
    match reader.into_refusal() {
        Some(why) => return why,
        None => return ReadingRefused::Memory,
    }
}

// Holds what there is of the record that was read last, which stands at that offset, and notes what it declares.
fn hold_more(
    alloc: Global,
    held: &mut Holding,
    declared: &mut Tables,
    reader: &Reader,
    op: u8,
    offset: u64,
) -> Result<(), Memory>
    requires { length held.old.used.items ≡ 65536 }
    ensures holds { OnOk result (HoldsRecord offset (top op (content_of reader.now)) held.old held.new) }
    ensures notes { OnOk result (NotesAll declared.old declared.new (unchunked (top op (content_of reader.now)))) }
{
    match note_declared(alloc, declared, op, reader.content()) {
        Ok(()) => {}
        Err(memory) => return Err(memory),
    }
    return hold(alloc, held, reader, op, offset);
}

/// Reads a source to its Data End, and holds what is sorted of it, but for the messages.
pub(crate) fn gather<S: Source>(alloc: Global, source: &mut S) -> Result<Gathered, ReadingRefused>
    ensures reads { GathersInput (S.state source.old) (S.state source.new) result }
    ensures stays { S.stays source.old source.new }
{
    let mut reader = match Reader::new(alloc) {
        Ok(reader) => reader,
        Err(_) => return Err(ReadingRefused::Memory),
    };
    let mut held = match hold_nothing(alloc) {
        Ok(held) => held,
        Err(_) => return Err(ReadingRefused::Memory),
    };
    let mut declared = Tables::new(alloc);
    'records: loop {
        match reader.advance(source) {
            Step::Record { op, offset } => {
                match hold_more(alloc, &mut held, &mut declared, &reader, op, offset) {
                    Ok(()) => {}
                    Err(_) => return Err(ReadingRefused::Memory),
                }
            }
            Step::End { offset: _ } => {
                let input = input_of(held, reader);
                return Ok(Gathered { input, declared });
            }
            Step::Refused => return Err(refusal_of(reader)),
        }
    }
}
