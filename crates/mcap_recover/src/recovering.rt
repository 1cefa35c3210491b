//! Recovery, from a source to a live store.
ghost use Rattle.std.specs.Prelude.{◌≡◌, ◌≤◌, ℕ, [], IfOk, OnOk};
ghost use Rattle.mcap_wire.specs.Limits.{chunk_size_limit};
ghost use Rattle.mcap_io.specs.Outside.{SourceState, LiveState};
ghost use Rattle.mcap_scan.specs.Walking.{FlatAdvanced};
ghost use Rattle.chunk_writer.specs.declared.phase.Phase.TheVariants as phases;
ghost use Rattle.chunk_writer.specs.Stops.{Cause};
ghost use Rattle.chunk_writer.specs.Scribes.{store_of, phase_of};
ghost use Rattle.mcap_recover.specs.Recovering.{Recovers, lacks};
ghost use Rattle.mcap_recover.specs.Readings.{BeginsReading, StartsSo, GrammarTold, HaltTold, Repairing, origin, ReadsOn};
ghost use Rattle.mcap_recover.specs.RecoverySteps.{FinishesFile};
ghost use Rattle.mcap_model.specs.declared.options.FileOptions.{FileOptions as Options};

use crate::answers::{RecoverRefused, Recovered, Why};
use chunk_writer::Scribe;
use mcap_io::{LiveStore, Source};
use mcap_model::{FileOptions, ReadingRefused, Rule, Stop};
use mcap_scan::{FlatReader, FlatStep};
use mcap_wire::Text;
use record_keeping::{Keeping, KeptCounts, Over, end_file, keep_record, keeping_of, profile_in};
use std::alloc::Global;

// Memory lacked beside the writer's own.
fn lacked() -> RecoverRefused
    ensures { result ≡ lacks }
{
    RecoverRefused::Refused {
        why: ReadingRefused::Memory,
    }
}

// Where and why the reading halted, or that it failed.
fn ending_of(reader: FlatReader, over: Over) -> Result<(u64, Why), RecoverRefused>
    ensures { HaltTold reader.reader over result }
{
    match over {
        Over::Ended { at } => return Ok((at, Why::Complete)),
        Over::Refused => {}
    }
    match reader.into_refusal() {
        Some(ReadingRefused::Fault { faults }) => {
            return Err(RecoverRefused::Refused {
                why: ReadingRefused::Fault { faults },
            });
        }
        Some(ReadingRefused::Grammar { offset, rule }) => return Ok((offset, why_of(rule))),
        Some(ReadingRefused::Compressed { offset, name: _ }) => return Ok((
            offset,
            Why::Compressed,
        )),
        Some(ReadingRefused::Limit { offset }) => return Ok((offset, Why::Limit)),
        Some(ReadingRefused::Memory) => return Err(lacked()),
        None => return Err(lacked()),
    }
}

// Whether the bytes are cut short, where that rule is broken.
fn why_of(rule: Rule) -> Why
    ensures { GrammarTold rule result }
{
    if rule.is(Rule::V4) {
        return Why::Short;
    }
    return Why::Grammar;
}

// Reads a source on to where its reading ends, and keeps what its records show.
fn read_on<S: Source, L: LiveStore>(
    alloc: Global,
    source: &mut S,
    reader: &mut FlatReader,
    k: &mut Keeping<L>,
) -> Result<Over, Stop>
    requires going { phase_of k.old.scribe ≡ phases.Going }
    requires some { (options : Options) × (before : SourceState) × (opened : LiveState)
        × Repairing L.state options before (S.state source.old) opened reader.old k.old }
    ensures reads { (options : Options) (before : SourceState) (opened : LiveState)
        → Repairing L.state options before (S.state source.old) opened reader.old k.old
        → ReadsOn L.state (origin options before opened) (S.state source.new) reader.new k.new result }
    ensures goes_on { OnOk result (phase_of k.new.scribe ≡ phases.Going) }
    ensures cause { Cause (L.state (store_of k.old.scribe)).faults (L.state (store_of k.new.scribe)).faults result }
    ensures stays { S.stays source.old source.new }
{
    'records: loop {
        match reader.advance(source) {
            FlatStep::Record { op, place: _ } => {
                match keep_record(alloc, k, op, reader.content(), reader.frame()) {
                    Ok(()) => {}
                    Err(stop) => return Err(stop),
                }
            }
            FlatStep::End { offset } => return Ok(Over::Ended { at: offset }),
            FlatStep::Refused => return Ok(Over::Refused),
        }
    }
}

// The profile of the new file: that of the Header, or an empty one; or why there is no new file.
fn profile_of(alloc: Global, reader: &FlatReader, first: FlatStep) -> Result<Text, RecoverRefused>
    ensures { (before now : SourceState) → FlatAdvanced reader.now before now [] [] first
        → BeginsReading before now reader.now result }
{
    match first {
        FlatStep::Record { .. } => match profile_in(alloc, reader.content()) {
            Ok(profile) => return Ok(profile),
            Err(_) => return Err(lacked()),
        },
        FlatStep::End { .. } => return Err(lacked()),
        FlatStep::Refused => match reader.refusal() {
            Some(why) => return profile_behind(alloc, why),
            None => return Err(lacked()),
        },
    }
}

// An empty profile, where the reading was refused at the first record; or why there is no new file.
fn profile_behind(alloc: Global, why: &ReadingRefused) -> Result<Text, RecoverRefused>
    ensures { StartsSo why.now result }
{
    match why {
        ReadingRefused::Fault { faults } => {
            return Err(RecoverRefused::Refused {
                why: ReadingRefused::Fault { faults: *faults },
            });
        }
        ReadingRefused::Grammar { offset, rule: _ } => {
            if *offset == 0 {
                return Err(RecoverRefused::NoMagic);
            }
            return Ok(no_profile(alloc));
        }
        ReadingRefused::Compressed { .. } => return Ok(no_profile(alloc)),
        ReadingRefused::Limit { .. } => return Ok(no_profile(alloc)),
        ReadingRefused::Memory => return Err(lacked()),
    }
}

// An empty profile.
fn no_profile(alloc: Global) -> Text
    ensures { result ≡ [] }
{
    Text::new(String::new(alloc))
}

// Ends the new file, and says what was recovered.
fn finish<L: LiveStore>(k: Keeping<L>, at: u64, why: Why) -> (L, Result<Recovered, RecoverRefused>)
    requires going { phase_of k.scribe ≡ phases.Going }
    ensures ends { FinishesFile L.state k (L.state result.0) at why result.1 }
{
    let (store, ended) = end_file(k);
    match ended {
        Ok(
            KeptCounts {
                messages,
                records,
                extras,
            },
        ) => {
            let recovered = Recovered {
                messages,
                records,
                extras,
                at,
                why,
            };
            return (store, Ok(recovered));
        }
        Err(stop) => return (store, Err(RecoverRefused::Stopped { stop })),
    }
}

/// Writes the records that a reading of the source keeps as a new file into the store, which is empty where the file is to be read
/// back: its Schemas, Channels and Messages in chunks of that size, in bytes, but for what declares an id again, and after them its
/// extras, contents unchanged, in the order of the source. These are the Attachments, Metadata and records of applications (opcodes
/// from 0x80) at top level; they wait in memory until all chunks stand. The other records are dropped, and those of applications
/// inside chunks. The source is read once. A source that doesn't begin with the magic is refused, and the store is as it was; after
/// other refusals the store holds a first part of the file: where the source fails, or memory lacks, the Header and all blocks that
/// the records up to there fill; and where the writer stops, those of the records before the last one that was read.
pub fn recover<S: Source, L: LiveStore>(
    alloc: Global,
    source: &mut S,
    store: L,
    chunk: u64,
) -> (L, Result<Recovered, RecoverRefused>)
    requires some { 1 ≤ chunk }
    requires within { chunk ≤ chunk_size_limit }
    ensures recovers { Recovers chunk (S.state source.old) (S.state source.new) (L.state store) (L.state result.0)
        result.1 }
    ensures stays { S.stays source.old source.new }
{
    let mut reader = match FlatReader::new(alloc) {
        Ok(reader) => reader,
        Err(_) => return (store, Err(lacked())),
    };
    let first = reader.advance(source);
    let profile = match profile_of(alloc, &reader, first) {
        Ok(profile) => profile,
        Err(refusal) => return (store, Err(refusal)),
    };
    let options = FileOptions {
        profile,
        chunk: Some(chunk),
        span: None,
    };
    let scribe = match Scribe::open(alloc, store, &options) {
        Ok(scribe) => scribe,
        Err((store, stop)) => return (store, Err(RecoverRefused::Stopped { stop })),
    };
    let mut k = keeping_of(alloc, scribe);
    match read_on(alloc, source, &mut reader, &mut k) {
        Ok(over) => match ending_of(reader, over) {
            Ok((at, why)) => return finish(k, at, why),
            Err(refusal) => return (k.scribe.into_store(), Err(refusal)),
        },
        Err(stop) => return (k.scribe.into_store(), Err(RecoverRefused::Stopped { stop })),
    }
}
