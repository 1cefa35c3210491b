//! The counts of faults that decide whether the outside failed.
ghost use Rattle.std.specs.Prelude.{◌≡◌, ◌<◌, ◌^◌, ◌↔◌, IsTrue};
ghost use Rattle.mcap_io.specs.Outside.{Rose};
ghost use Rattle.mcap_io.specs.OutsideCalls.{went_well};
ghost use Rattle.command_base.specs.Ran.{counted_faults, failed_so};
ghost use Rattle.command_base.specs.ReadingSteps.{is_failure as failed_to_open};

use mcap_io::{Failed, OutsideRefused, Sink, World};

/// How often the world, its kept inputs and outputs, and standard output have failed.
#[derive(Clone, Copy)]
pub struct Counts {
    pub world: u64,
    pub inputs: u64,
    pub outputs: u64,
    pub printing: u64,
}

impl Counts {
    /// The counts as they stand.
    pub fn of<W: World, O: Sink>(world: &W, out: &O) -> Counts
        ensures are { result ≡ counted_faults (W.state world.now) (O.state out.now) }
        ensures world_fits { (W.state world.now).faults < 2 ^ 64 }
        ensures inputs_fit { (W.state world.now).input_faults < 2 ^ 64 }
        ensures outputs_fit { (W.state world.now).output_faults < 2 ^ 64 }
    {
        Counts {
            world: world.faults(),
            inputs: world.input_faults(),
            outputs: world.output_faults(),
            printing: out.faults(),
        }
    }
}

/// Whether a count has risen, or stands at the end of its type.
pub fn rose(before: u64, now: u64) -> bool
    ensures { IsTrue result ↔ Rose before now }
{
    now >= before.saturating_add(1)
}

/// Whether an object failed so often, or its keeping did.
pub fn has_failed(faults: u64, kept: Result<(), Failed>) -> bool
    ensures { result ≡ failed_so (went_well kept) faults }
{
    match kept {
        Ok(()) => return faults != 0,
        Err(Failed) => return true,
    }
}

/// Whether an opening was refused because the world failed.
pub(crate) fn is_failure(why: OutsideRefused) -> bool
    ensures { result ≡ failed_to_open why }
{
    match why {
        OutsideRefused::Failed => true,
        OutsideRefused::Memory => false,
    }
}
