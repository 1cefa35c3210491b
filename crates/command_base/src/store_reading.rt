//! A file that a command reads at any of its places.
ghost use Rattle.std.specs.Prelude.{◌≡◌, ◌<◌, ◌^◌, ℕ, List, Result, Err};
ghost use Rattle.mcap_io.specs.Stores.{StoreState};
ghost use Rattle.mcap_io.specs.declared.outside.ObjectKind.{ObjectKind};
ghost use Rattle.command_base.specs.Scenes.{scene};
ghost use Rattle.command_base.specs.OneFile.{failing};
ghost use Rattle.command_base.specs.Readings.{ending_of, StoreUse, IsStoreRead, ReadsFile};
ghost use Rattle.command_base.specs.ReadingSteps.{use_of, NameEnds};

use crate::faults::{Counts, has_failed, is_failure};
use crate::file_reading::{FileReading, ReadName, Reading, answer_reading};
use crate::statuses::Status;
use mcap_io::{Sink, Store, World};

/// What a command reads of a store.
pub trait StoreReading: FileReading {
    /// What the reading of a store comes to.
    ghost comes: { Self → StoreState → StoreUse → Result Self.Read Self.Refused → Type 0 };

    /// Reads a store.
    fn read_store<T: Store>(&self, store: &mut T) -> Result<Self::Read, Self::Refused>
        ensures { comes self.now (T.state store.old) (use_of (T.state store.new)) result };

    /// A reading that failed has a store that failed.
    ghost fails: { (s : Self) (before : StoreState) (now : StoreUse) (file : List ℕ) (why : Self.Refused)
        → comes s before now (Err why) → before.faults ≡ 0 → Self.ending s file why ≡ failing → now.faults ≡ 0 → ⊥ };
}

/// Opens the name as a store, reads it, and keeps it.
pub fn read_store_name<K: StoreReading, W: World>(
    what: &K,
    file: &str,
    world: &mut W,
) -> ReadName<K::Read, K::Refused>
    requires world_fits { (W.state world.old).faults < 2 ^ 64 }
    requires inputs_fit { (W.state world.old).input_faults < 2 ^ 64 }
    requires outputs_fit { (W.state world.old).output_faults < 2 ^ 64 }
    ensures { NameEnds ObjectKind.Store file.now (W.state world.old) (W.state world.new)
        (λ entries. IsStoreRead (K.comes what.now) file.now (W.state world.old) entries result.reading)
        (ending_of (K.text what.now) (K.ending what.now file.now) result.reading) result.failed }
{
    let mut store = match world.store(file) {
        Ok(store) => store,
        Err(why) => {
            return ReadName {
                reading: Reading::Unopened { why },
                failed: is_failure(why),
            };
        }
    };
    let came = what.read_store(&mut store);
    let faults = store.faults();
    let kept = world.keep_store(file, store);
    ReadName {
        reading: Reading::Opened { came },
        failed: has_failed(faults, kept),
    }
}

/// Reads the name as a store, prints what was read of it, complains, and answers the status that this asks for.
pub fn answer_store<K: StoreReading, W: World, O: Sink, E: Sink>(
    what: &K,
    file: &str,
    world: &mut W,
    out: &mut O,
    err: &mut E,
) -> Status
    ensures { ReadsFile (IsStoreRead (K.comes what.now) file.now) ObjectKind.Store file.now
        (ending_of (K.text what.now) (K.ending what.now file.now))
        (scene (W.state world.old) (O.state out.old) (E.state err.old))
        (scene (W.state world.new) (O.state out.new) (E.state err.new))
        result }
{
    let before = Counts::of(world, out);
    let mut read = read_store_name(what, file, world);
    answer_reading(what, file, &before, &mut read, world, out, err)
}
