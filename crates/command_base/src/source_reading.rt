//! A file that a command reads once, from its front.
ghost use Rattle.std.specs.Prelude.{◌≡◌, ◌<◌, ◌^◌, ℕ, List, Result, Err};
ghost use Rattle.mcap_io.specs.Outside.{SourceState};
ghost use Rattle.mcap_io.specs.declared.outside.ObjectKind.{ObjectKind};
ghost use Rattle.command_base.specs.Scenes.{scene};
ghost use Rattle.command_base.specs.OneFile.{failing};
ghost use Rattle.command_base.specs.Readings.{ending_of, IsSourceRead, ReadsFile};
ghost use Rattle.command_base.specs.ReadingSteps.{NameEnds};

use crate::faults::{Counts, has_failed, is_failure};
use crate::file_reading::{FileReading, ReadName, Reading, answer_reading};
use crate::statuses::Status;
use mcap_io::{Sink, Source, World};

/// What a command reads of a source.
pub trait SourceReading: FileReading {
    /// What the reading of a source comes to.
    ghost comes: { Self → SourceState → SourceState → Result Self.Read Self.Refused → Type 0 };

    /// Reads a source.
    fn read_source<S: Source>(&self, source: &mut S) -> Result<Self::Read, Self::Refused>
        ensures { comes self.now (S.state source.old) (S.state source.new) result };

    /// A reading that failed has a source that failed.
    ghost fails: { (s : Self) (before now : SourceState) (file : List ℕ) (why : Self.Refused)
        → comes s before now (Err why) → before.faults ≡ 0 → Self.ending s file why ≡ failing → now.faults ≡ 0 → ⊥ };
}

/// Opens the name as a source, reads it, and keeps it.
pub fn read_source_name<K: SourceReading, W: World>(
    what: &K,
    file: &str,
    world: &mut W,
) -> ReadName<K::Read, K::Refused>
    requires world_fits { (W.state world.old).faults < 2 ^ 64 }
    requires inputs_fit { (W.state world.old).input_faults < 2 ^ 64 }
    requires outputs_fit { (W.state world.old).output_faults < 2 ^ 64 }
    ensures { NameEnds ObjectKind.Source file.now (W.state world.old) (W.state world.new)
        (λ entries. IsSourceRead (K.comes what.now) file.now (W.state world.old) entries result.reading)
        (ending_of (K.text what.now) (K.ending what.now file.now) result.reading) result.failed }
{
    let mut source = match world.source(file) {
        Ok(source) => source,
        Err(why) => {
            return ReadName {
                reading: Reading::Unopened { why },
                failed: is_failure(why),
            };
        }
    };
    let came = what.read_source(&mut source);
    let faults = source.faults();
    let kept = world.keep_source(file, source);
    ReadName {
        reading: Reading::Opened { came },
        failed: has_failed(faults, kept),
    }
}

/// Reads the name as a source, prints what was read of it, complains, and answers the status that this asks for.
pub fn answer_source<K: SourceReading, W: World, O: Sink, E: Sink>(
    what: &K,
    file: &str,
    world: &mut W,
    out: &mut O,
    err: &mut E,
) -> Status
    ensures { ReadsFile (IsSourceRead (K.comes what.now) file.now) ObjectKind.Source file.now
        (ending_of (K.text what.now) (K.ending what.now file.now))
        (scene (W.state world.old) (O.state out.old) (E.state err.old))
        (scene (W.state world.new) (O.state out.new) (E.state err.new))
        result }
{
    let before = Counts::of(world, out);
    let mut read = read_source_name(what, file, world);
    answer_reading(what, file, &before, &mut read, world, out, err)
}
