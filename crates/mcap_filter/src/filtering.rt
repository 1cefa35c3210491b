//! Filtering, from a source to a live store.
ghost use Rattle.std.specs.Prelude.{◌≡◌, ◌≤◌, OnOk};
ghost use Rattle.mcap_wire.specs.Limits.{chunk_size_limit};
ghost use Rattle.mcap_io.specs.Outside.{SourceState, LiveState};
ghost use Rattle.mcap_model.specs.declared.options.FileOptions.{FileOptions as Options};
ghost use Rattle.mcap_model.specs.declared.refusals.ReadingRefused.{ReadingRefused as Refusal};
ghost use Rattle.mcap_model.specs.Plain.{asked_topic};
ghost use Rattle.mcap_scan.specs.declared.reader.Stage.TheVariants as stages;
ghost use Rattle.chunk_writer.specs.declared.phase.Phase.TheVariants as phases;
ghost use Rattle.chunk_writer.specs.Stops.{Cause};
ghost use Rattle.chunk_writer.specs.Scribes.{store_of, phase_of};
ghost use Rattle.mcap_filter.specs.Picked.{asking};
ghost use Rattle.mcap_filter.specs.Picking.{FinishesPicked, PicksOn, PicksSoFar, start};
ghost use Rattle.mcap_filter.specs.Filtering.{Filters};

use crate::answers::{PickRefused, Picked};
use crate::choices::{Asked, Choices, no_choices};
use crate::picking::pick_record;
use chunk_writer::Scribe;
use mcap_io::{LiveStore, Source};
use mcap_model::{FileOptions, Range, ReadingRefused, Stop};
use mcap_scan::{FlatReader, FlatStep};
use mcap_wire::Text;
use record_keeping::{Keeping, KeptCounts, Over, end_file, keeping_of, profile_in};
use std::alloc::Global;

// Memory lacked beside the writer's own.
fn lacked() -> PickRefused
    ensures { result ≡ PickRefused.Refused ReadingRefused.Memory }
{
    PickRefused::Refused {
        why: ReadingRefused::Memory,
    }
}

// Why the reading was refused.
fn refusal_of(reader: FlatReader) -> ReadingRefused
    requires refused { (why : Refusal) × (reader.reader.stage ≡ stages.Stopped why) }
    ensures { (why : Refusal) → reader.reader.stage ≡ stages.Stopped why → result ≡ why }
{
    match reader.into_refusal() {
        Some(why) => return why,
        None => unreachable!(),
    }
}

// Reads a source on to where its reading ends, and picks of its records what is asked for.
fn pick_on<S: Source, L: LiveStore>(
    alloc: Global,
    source: &mut S,
    reader: &mut FlatReader,
    k: &mut Keeping<L>,
    choices: &mut Choices,
    asked: &Asked,
) -> Result<Over, Stop>
    requires going { phase_of k.old.scribe ≡ phases.Going }
    requires some { (options : Options) × (before : SourceState) × (opened : LiveState)
        × PicksSoFar L.state (start (asking asked.now.range (asked_topic asked.now.topic)) options before opened)
        (S.state source.old) reader.old k.old choices.old }
    ensures picks { (options : Options) (before : SourceState) (opened : LiveState)
        → PicksSoFar L.state (start (asking asked.now.range (asked_topic asked.now.topic)) options before opened)
        (S.state source.old) reader.old k.old choices.old
        → PicksOn L.state (start (asking asked.now.range (asked_topic asked.now.topic)) options before opened)
        (S.state source.new) reader.new k.new choices.new result }
    ensures goes_on { OnOk result (phase_of k.new.scribe ≡ phases.Going) }
    ensures cause { Cause (L.state (store_of k.old.scribe)).faults (L.state (store_of k.new.scribe)).faults result }
    ensures stays { S.stays source.old source.new }
{
    'records: loop {
        match reader.advance(source) {
            FlatStep::Record { op, place: _ } => {
                match pick_record(
                    alloc,
                    k,
                    choices,
                    asked,
                    op,
                    reader.content(),
                    reader.frame(),
                ) {
                    Ok(()) => {}
                    Err(stop) => return Err(stop),
                }
            }
            FlatStep::End { offset } => return Ok(Over::Ended { at: offset }),
            FlatStep::Refused => return Ok(Over::Refused),
        }
    }
}

// Ends the new file, and says how much was picked.
fn finish<L: LiveStore>(k: Keeping<L>) -> (L, Result<Picked, PickRefused>)
    requires going { phase_of k.scribe ≡ phases.Going }
    ensures ends { FinishesPicked L.state k (L.state result.0) result.1 }
{
    let (store, ended) = end_file(k);
    match ended {
        Ok(
            KeptCounts {
                messages,
                records,
                extras: _,
            },
        ) => return (store, Ok(Picked { messages, records })),
        Err(stop) => return (store, Err(PickRefused::Stopped { stop })),
    }
}

/// Writes those messages of the source that lie in the range, and on the topic if one is given, as a new file into the store, which
/// is empty where the file is to be read back: in the order of the source, each after its Channel and that one's Schema as the
/// source declares them first, ids and metadata as they were, in chunks of that size, in bytes; and after them its extras, contents
/// unchanged, which wait in memory until all chunks stand. These are the Attachments, Metadata and records of applications (opcodes
/// from 0x80) at top level, whatever the range says. The profile is that of its Header. The source is read once, to its Data End;
/// where that reading is refused, this is, for the same reason, and the store holds the Header and all blocks that what is written of
/// the records up to there fills, unless memory lacked for the Header or before; so it does where the writer stops, of the records
/// before the last one that was read.
pub fn filter<S: Source, L: LiveStore>(
    alloc: Global,
    source: &mut S,
    store: L,
    range: Range,
    topic: Option<&Text>,
    chunk: u64,
) -> (L, Result<Picked, PickRefused>)
    requires some { 1 ≤ chunk }
    requires within { chunk ≤ chunk_size_limit }
    ensures filters { Filters (asking range (asked_topic topic.entry)) chunk (S.state source.old) (S.state source.new)
        (L.state store) (L.state result.0) result.1 }
    ensures stays { S.stays source.old source.new }
{
    let mut reader = match FlatReader::new(alloc) {
        Ok(reader) => reader,
        Err(_) => return (store, Err(lacked())),
    };
    match reader.advance(source) {
        FlatStep::Record { .. } => {}
        FlatStep::End { .. } => unreachable!(),
        FlatStep::Refused => {
            let why = refusal_of(reader);
            return (store, Err(PickRefused::Refused { why }));
        }
    }
    let profile = match profile_in(alloc, reader.content()) {
        Ok(profile) => profile,
        Err(_) => return (store, Err(lacked())),
    };
    let options = FileOptions {
        profile,
        chunk: Some(chunk),
        span: None,
    };
    let scribe = match Scribe::open(alloc, store, &options) {
        Ok(scribe) => scribe,
        Err((store, stop)) => return (store, Err(PickRefused::Stopped { stop })),
    };
    let mut k = keeping_of(alloc, scribe);
    let mut choices = no_choices(alloc);
    let asked = Asked { range, topic };
    match pick_on(alloc, source, &mut reader, &mut k, &mut choices, &asked) {
        Ok(Over::Ended { at: _ }) => return finish(k),
        Ok(Over::Refused) => {
            let why = refusal_of(reader);
            return (k.scribe.into_store(), Err(PickRefused::Refused { why }));
        }
        Err(stop) => return (k.scribe.into_store(), Err(PickRefused::Stopped { stop })),
    }
}
