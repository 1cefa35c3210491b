//! One run over a world in memory.
use crate::building::Pieces;
use crate::cases::{Case, Failing};
use crate::halt::Halt;
use io_memory::{MemorySink, MemoryWorld};
use mcap_app::{Exit, RecordingReport, run};
use mcap_wire::Text;
use std::alloc::AllocGlobal;
use std::mem;
use std::sync::Wait;
use std::thread::Threads;

/// What a run left.
#[derive(Drop)]
pub(crate) struct Ran {
    pub status: u8,
    pub report: Option<RecordingReport>,
    pub world: MemoryWorld,
    pub out: MemorySink,
    pub err: MemorySink,
}

// Puts copies of what is given into the world.
fn fill(world: &mut MemoryWorld, given: &Pieces) -> Result<(), Halt> {
    for (name, bytes) in given.iter() {
        world.put(name.as_str(), bytes)?;
    }
    Ok(())
}

/// Runs the words over copies of what is given, and has a recording's messages listed. What was planned to fail fails in this run,
/// and in no later one.
pub(crate) fn run_once(
    rt: &(impl AllocGlobal + Threads + Wait + Sync),
    case: &mut Case,
    words: &[Text],
) -> Result<Ran, Halt> {
    let alloc = rt.alloc();
    let Failing { plan, out, err } = mem::replace(&mut case.failing, Failing::nothing(alloc));
    let mut world = MemoryWorld::new(alloc, plan);
    fill(&mut world, &case.given)?;
    let mut out = MemorySink::new(alloc, out);
    let mut err = MemorySink::new(alloc, err);
    let Exit {
        number: status,
        report,
    } = run(rt, words, &mut world, &mut out, &mut err, true);
    Ok(Ran {
        status,
        report,
        world,
        out,
        err,
    })
}
