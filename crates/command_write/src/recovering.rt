//! Recovering what a file holds that may be cut or broken.
ghost use Rattle.std.specs.Prelude.{◌≡◌, ◌≤◌, ◌<◌, ◌^◌, List, ℕ, true, false};
ghost use Rattle.mcap_wire.specs.Limits.{chunk_size_limit};
ghost use Rattle.command_base.specs.Printing.{Takes};
ghost use Rattle.command_base.specs.Scenes.{scene};
ghost use Rattle.command_write.specs.Halting.{name_at};
ghost use Rattle.command_write.specs.HaltingSteps.{halted_lists};
ghost use Rattle.command_write.specs.Recover.{recovery_of as came_to, ending_of_recovery, RecoversFile};
ghost use Rattle.command_write.specs.RecoverSteps.{unopened_recovery, NamesRecovered};

use crate::halting::{Halted, complaint_at, name_of};
use crate::recovered_line::line_of_recovered;
use command_base::{
    Complaint, Counts, FailedNames, FileWriting, Status, answer_writing, has_failed, is_failed,
};
use mcap_io::{LiveStore, Sink, Source, World, write_all_of};
use mcap_model::{ReadingRefused, Stop};
use mcap_recover::{RecoverRefused, Recovered, recover};
use mcap_wire::Text;
use std::alloc::Global;
use std::slice::from_ref;

/// What the recovery of a file came to.
#[derive(Drop)]
pub enum Recovery {
    /// The world failed to open one of both names.
    Unopened,
    /// The output was written.
    Made { recovered: Recovered },
    /// It was refused; or memory lacked for an opening.
    Refused { why: RecoverRefused },
}

/// What became of both names: the recovery, and for each whether its opening, its object or the keeping failed.
#[derive(Drop)]
pub struct Restored {
    pub recovery: Recovery,
    pub input_failed: bool,
    pub out_failed: bool,
}

// A recovery by its answer.
fn recovery_of(answer: Result<Recovered, RecoverRefused>) -> Recovery
    ensures { result ≡ came_to answer }
{
    match answer {
        Ok(recovered) => Recovery::Made { recovered },
        Err(why) => Recovery::Refused { why },
    }
}

// Nothing was recovered, since an opening failed, or else for want of memory.
fn unopened(failed: bool) -> Recovery
    ensures { result ≡ unopened_recovery failed }
{
    if failed {
        return Recovery::Unopened;
    }
    return Recovery::Refused {
        why: RecoverRefused::Refused {
            why: ReadingRefused::Memory,
        },
    };
}

// Opens both names, recovers the one into the other, and keeps both.
fn recover_names<W: World>(
    alloc: Global,
    chunk: u64,
    input: &str,
    out: &str,
    world: &mut W,
) -> Restored
    requires some { 1 ≤ chunk }
    requires within { chunk ≤ chunk_size_limit }
    requires world_fits { (W.state world.old).faults < 2 ^ 64 }
    requires inputs_fit { (W.state world.old).input_faults < 2 ^ 64 }
    requires outputs_fit { (W.state world.old).output_faults < 2 ^ 64 }
    ensures { NamesRecovered chunk input.now out.now (W.state world.old) (W.state world.new) result }
{
    let mut source = match world.source(input) {
        Ok(source) => source,
        Err(why) => {
            let failed = is_failed(why);
            return Restored {
                recovery: unopened(failed),
                input_failed: failed,
                out_failed: false,
            };
        }
    };
    let live = match world.live(out) {
        Ok(live) => live,
        Err(why) => {
            let failed = is_failed(why);
            let faults = source.faults();
            let kept = world.keep_source(input, source);
            return Restored {
                recovery: unopened(failed),
                input_failed: has_failed(faults, kept),
                out_failed: failed,
            };
        }
    };
    let (live, answer) = recover(alloc, &mut source, live, chunk);
    let (source_faults, live_faults) = (source.faults(), live.faults());
    let source_kept = world.keep_source(input, source);
    let live_kept = world.keep_live(out, live);
    Restored {
        recovery: recovery_of(answer),
        input_failed: has_failed(source_faults, source_kept),
        out_failed: has_failed(live_faults, live_kept),
    }
}

// Prints the line of what was recovered, if something was. It takes no memory.
fn print_recovery<O: Sink>(out: &mut O, recovery: &Recovery)
    ensures { (input : List ℕ)
        → Takes (O.state out.old) (O.state out.new) (ending_of_recovery input recovery.now).text }
{
    match recovery {
        Recovery::Made { recovered } => {
            let line = line_of_recovered(*recovered);
            match write_all_of(out, line.as_bytes()) {
                Ok(()) => return,
                Err(_) => return,
            }
        }
        Recovery::Unopened => return,
        Recovery::Refused { .. } => return,
    }
}

// The input is told where it doesn't begin with the magic.
fn halted_in<'a>(inputs: &'a [Text], recovery: &Recovery) -> Option<Halted<'a>>
    ensures { halted_lists result ≡ (ending_of_recovery (name_at inputs.now 0) recovery.now).halts }
{
    match recovery {
        Recovery::Refused {
            why: RecoverRefused::NoMagic,
        } => Some(Halted {
            input: 0,
            complaint: Complaint::Grammar {
                name: name_of(inputs, 0),
                offset: 0,
            },
        }),
        Recovery::Refused {
            why: RecoverRefused::Refused { .. } | RecoverRefused::Stopped { .. },
        } => None,
        Recovery::Unopened | Recovery::Made { .. } => None,
    }
}

// Whether the output would pass a limit.
fn is_at_limit(recovery: &Recovery) -> bool
    ensures { (input : List ℕ) → result ≡ (ending_of_recovery input recovery.now).passes_limit }
{
    match recovery {
        Recovery::Refused {
            why: RecoverRefused::Stopped {
                stop: Stop::Limit { .. },
            },
        } => true,
        Recovery::Refused { .. } | Recovery::Unopened | Recovery::Made { .. } => false,
    }
}

// Whether memory lacked.
fn has_lacked(recovery: &Recovery) -> bool
    ensures { (input : List ℕ) → result ≡ (ending_of_recovery input recovery.now).lacks_memory }
{
    match recovery {
        Recovery::Refused {
            why: RecoverRefused::Refused {
                why: ReadingRefused::Memory,
            },
        } => true,
        Recovery::Refused {
            why: RecoverRefused::Stopped { stop: Stop::Memory },
        } => true,
        Recovery::Refused { .. } | Recovery::Unopened | Recovery::Made { .. } => false,
    }
}

impl FileWriting for Recovery {
    ghost ending = { λ recovery inputs some. ending_of_recovery (name_at inputs 0) recovery };

    fn print<O: Sink>(&self, _inputs: &[Text], out: &mut O) {
        print_recovery(out, self);
    }

    fn halt<'a>(&'a self, inputs: &'a [Text], index: usize) -> Option<Complaint<'a>> {
        complaint_at(halted_in(inputs, self), index)
    }

    fn passes_limit(&self) -> bool {
        is_at_limit(self)
    }

    fn lacks_memory(&self, _some_failed: bool) -> bool {
        has_lacked(self)
    }
}

/// Writes what a reading of the file under the one name keeps as a new file under the other, in chunks of that size in bytes,
/// prints on `out` what was recovered and why the reading stopped, and answers the status: done also where it stopped early,
/// refused where the file doesn't begin with the magic, and a limit where the new file would pass one.
pub fn recover_file<W: World, O: Sink, E: Sink>(
    alloc: Global,
    chunk: u64,
    input: &Text,
    out_name: &str,
    world: &mut W,
    out: &mut O,
    err: &mut E,
) -> Status
    requires some { 1 ≤ chunk }
    requires within { chunk ≤ chunk_size_limit }
    ensures { RecoversFile chunk input.now out_name.now
        (scene (W.state world.old) (O.state out.old) (E.state err.old))
        (scene (W.state world.new) (O.state out.new) (E.state err.new))
        result }
{
    let before = Counts::of(world, out);
    let restored = recover_names(alloc, chunk, input.as_str(), out_name, world);
    let flags = from_ref(&restored.input_failed);
    let inputs = from_ref(input);
    let failed = FailedNames {
        inputs: flags,
        out: restored.out_failed,
    };
    let recovery = &restored.recovery;
    answer_writing(recovery, inputs, out_name, &before, failed, world, out, err)
}
