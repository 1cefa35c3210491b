//! The inputs of a command that reads several files: opened in their order, and taken back.
ghost use Rattle.std.specs.Prelude.{◌≡◌, ◌≤◌, ◌<◌, ℕ, List, Bool, [], length, true, false, vec_len, vec_capacity, IfOk, IfErr, OnOk, OnErr};
ghost use Rattle.mcap_io.specs.Outside.{WorldState, Keeping};
ghost use Rattle.mcap_io.specs.OutsideCalls.{Opens, OpenCause, CountsStand};
ghost use Rattle.mcap_io.specs.declared.outside.ObjectKind.{ObjectKind};
ghost use Rattle.command_base.specs.InputKinds.{IsInput, source_input, store_input};
ghost use Rattle.command_base.specs.Inputs.{store_keeping};
ghost use Rattle.command_base.specs.InputsSteps.{source_keeping, SourceSeen, StoreSeen, SeenBefore, source_before, store_before, InputsOpened, InputOpeningRefused, OneKept, InputsKept, flags_with};

use crate::has_failed;
use mcap_io::{OutsideRefused, Source, Store, World};
use mcap_wire::{Memory, Text};
use std::alloc::Global;

/// As what a command opens its inputs.
pub trait InputKind<W: World> {
    /// What is opened.
    type Object;

    ghost kind: { Self → ObjectKind };

    /// What is seen of one that was opened under a name.
    ghost seen: { Self → WorldState → List ℕ → Self.Object → Type 0 };

    /// What a world notes of one that is taken back, which went well or not.
    ghost keeping: { Self → Self.Object → Bool → Keeping };

    /// Opens what stands under the name.
    fn open(&self, world: &mut W, name: &str) -> Result<Self::Object, OutsideRefused>
        ensures opens { Opens (W.state world.old) (W.state world.new) (kind self.now) name.now result }
        ensures seen { IfOk result (λ it. seen self.now (W.state world.old) name.now it) }
        ensures counts { CountsStand (W.state world.old) (W.state world.new) }
        ensures cause { OpenCause (W.state world.old).faults (W.state world.new).faults result };

    /// Keeps one, and says whether it or that failed.
    fn keep(&self, world: &mut W, name: &str, it: Self::Object) -> bool
        ensures { OneKept (kind self.now) (keeping self.now) (W.state world.old) (W.state world.new) name.now it
            result };

    ghost reads: { (s : Self) → IsInput (kind s) };

    ghost before: { (s : Self) → SeenBefore (seen s) };
}

/// Inputs that are read from their fronts.
#[derive(Clone, Copy)]
pub struct AsSources;

impl<W: World> InputKind<W> for AsSources {
    type Object = W::Source;

    ghost kind = { λ s. ObjectKind.Source };

    ghost seen = { λ s world name it. SourceSeen world name (W.Source.state it) };

    ghost keeping = { λ s it well. source_keeping (W.Source.state it) well };

    fn open(&self, world: &mut W, name: &str) -> Result<W::Source, OutsideRefused> {
        world.source(name)
    }

    fn keep(&self, world: &mut W, name: &str, it: W::Source) -> bool {
        let faults = it.faults();
        let kept = world.keep_source(name, it);
        has_failed(faults, kept)
    }

    ghost reads = { λ s. source_input };

    ghost before = { λ s old new name it on seen. source_before old new name (W.Source.state it) on seen };
}

/// Inputs that are read at any of their places.
#[derive(Clone, Copy)]
pub struct AsStores;

impl<W: World> InputKind<W> for AsStores {
    type Object = W::Store;

    ghost kind = { λ s. ObjectKind.Store };

    ghost seen = { λ s world name it. StoreSeen world name (W.Store.state it) };

    ghost keeping = { λ s it well. store_keeping (W.Store.state it) well };

    fn open(&self, world: &mut W, name: &str) -> Result<W::Store, OutsideRefused> {
        world.store(name)
    }

    fn keep(&self, world: &mut W, name: &str, it: W::Store) -> bool {
        let faults = it.faults();
        let kept = world.keep_store(name, it);
        has_failed(faults, kept)
    }

    ghost reads = { λ s. store_input };

    ghost before = { λ s old new name it on seen. store_before old new name (W.Store.state it) on seen };
}

/// Whether an opening was refused since the outside failed.
pub fn is_failed(why: OutsideRefused) -> bool
    ensures failed { result ≡ true → why ≡ OutsideRefused.Failed }
    ensures memory { result ≡ false → why ≡ OutsideRefused.Memory }
{
    match why {
        OutsideRefused::Failed => true,
        OutsideRefused::Memory => false,
    }
}

/// Room for the objects of inputs, and for which of them failed.
pub struct Room<T> {
    pub objects: Vec<T>,
    pub failed: Vec<bool>,
}

/// Makes room for so many inputs.
pub fn make_room<T>(alloc: Global, many: usize) -> Result<Room<T>, Memory>
    ensures objects { IfOk result (λ room. (room.objects.items ≡ []) × (many ≤ vec_capacity room.objects)) }
    ensures failed { IfOk result (λ room. (room.failed.items ≡ []) × (many ≤ vec_capacity room.failed)) }
{
    let mut objects = Vec::new(alloc);
    let mut failed = Vec::new(alloc);
    match (objects.reserve(many), failed.reserve(many)) {
        (Ok(()), Ok(())) => return Ok(Room { objects, failed }),
        _ => {
            objects.destroy_empty();
            return Err(Memory);
        }
    }
}

/// Opens the inputs in their order, up to one that is refused.
pub fn open_inputs<W: World, K: InputKind<W>>(
    what: &K,
    world: &mut W,
    inputs: &[Text],
    objects: &mut Vec<K::Object>,
) -> Result<(), OutsideRefused>
    requires none { objects.old.items ≡ [] }
    requires room { length inputs.now ≤ vec_capacity objects.old }
    ensures all { OnOk result (InputsOpened (K.kind what.now) (K.seen what.now) (W.state world.old) (W.state world.new)
        inputs.now objects.new.items) }
    ensures many { OnOk result (vec_len objects.new ≡ length inputs.now) }
    ensures fewer { OnErr result (vec_len objects.new < length inputs.now) }
    ensures some { IfErr result (InputOpeningRefused (K.kind what.now) (K.seen what.now) (W.state world.old)
        (W.state world.new) inputs.now objects.new.items) }
{
    'inputs: for input in inputs {
        match what.open(world, input.as_str()) {
            Ok(object) => objects.push_reserved(object),
            Err(why) => return Err(why),
        }
    }
    return Ok(());
}

/// Keeps the objects of inputs in the reverse order of their opening, since a keeping is noted in the newest opening of its name,
/// and says which of them failed.
pub fn keep_inputs<W: World, K: InputKind<W>>(
    what: &K,
    world: &mut W,
    inputs: &[Text],
    objects: Vec<K::Object>,
    failed: &mut Vec<bool>,
)
    requires many { vec_len objects ≡ length inputs.now }
    requires none { failed.old.items ≡ [] }
    requires room { vec_len objects ≤ vec_capacity failed.old }
    ensures kept { InputsKept (K.kind what.now) (K.keeping what.now) (W.state world.old) (W.state world.new) inputs.now
        objects.items failed.new.items }
    ensures count { vec_len failed.new ≡ vec_len objects }
    ensures room { vec_capacity failed.new ≡ vec_capacity failed.old }
{
    let mut objects = objects;
    'objects: while let Some(object) = objects.pop() {
        let input_failed = what.keep(world, inputs[objects.len()].as_str(), object);
        failed.push_reserved(input_failed);
    }
    objects.destroy_empty();
    failed.reverse();
}

/// Adds that the input failed whose opening was refused so.
pub fn add_refused(failed: &mut Vec<bool>, why_failed: bool)
    requires room { vec_len failed.old < vec_capacity failed.old }
    ensures { failed.new.items ≡ flags_with failed.old.items why_failed }
{
    if why_failed {
        failed.push_reserved(true);
    }
}
