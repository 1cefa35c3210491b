//! Filtering messages of a file into another.
ghost use Rattle.std.specs.Prelude.{◌≡◌, ◌≤◌, ◌<◌, ◌^◌, List, ℕ};
ghost use Rattle.mcap_wire.specs.Limits.{chunk_size_limit};
ghost use Rattle.mcap_model.specs.Plain.{asked_topic};
ghost use Rattle.mcap_filter.specs.Picked.{asking};
ghost use Rattle.command_base.specs.Printing.{Takes};
ghost use Rattle.command_base.specs.Scenes.{scene};
ghost use Rattle.command_write.specs.Halting.{name_at};
ghost use Rattle.command_write.specs.HaltingSteps.{halted_lists};
ghost use Rattle.command_write.specs.Filter.{filter_request, filtering_of as came_to, ending_of_filtering, FiltersFile};
ghost use Rattle.command_write.specs.FilterSteps.{unopened_filtering, NamesFiltered};

use crate::filtered_line::line_of_filtered;
use crate::halting::{Halted, complaint_at, name_of};
use crate::merging::{halted_at, stops_at_limit, stops_for_memory};
use command_base::{
    Complaint, Counts, FailedNames, FileWriting, Status, answer_writing, has_failed, is_failed,
    lacks_memory, reading_complaint,
};
use mcap_filter::{PickRefused, Picked, filter};
use mcap_io::{LiveStore, Sink, Source, World, write_all_of};
use mcap_model::{Range, ReadingRefused};
use mcap_wire::Text;
use std::alloc::Global;
use std::slice::from_ref;

/// Which messages are wanted, those of a range of log times and on a topic if one is given, and in chunks of which size in bytes.
#[derive(Drop)]
pub struct Wanted<'a> {
    pub range: Range,
    pub topic: Option<&'a Text>,
    pub chunk: u64,
}

/// What the filtering of a file came to.
#[derive(Drop)]
pub enum Filtering {
    /// The world failed to open one of both names.
    Unopened,
    /// The output was written.
    Made { picked: Picked },
    /// It was refused; or memory lacked for an opening.
    Refused { why: PickRefused },
}

/// What became of both names: the filtering, and for each whether its opening, its object or the keeping failed.
#[derive(Drop)]
pub struct Sifted {
    pub filtering: Filtering,
    pub input_failed: bool,
    pub out_failed: bool,
}

// A filtering by its answer.
fn filtering_of(answer: Result<Picked, PickRefused>) -> Filtering
    ensures { result ≡ came_to answer }
{
    match answer {
        Ok(picked) => Filtering::Made { picked },
        Err(why) => Filtering::Refused { why },
    }
}

// Nothing was filtered, since an opening failed, or else for want of memory.
fn unopened(failed: bool) -> Filtering
    ensures { result ≡ unopened_filtering failed }
{
    if failed {
        return Filtering::Unopened;
    }
    return Filtering::Refused {
        why: PickRefused::Refused {
            why: ReadingRefused::Memory,
        },
    };
}

// Opens both names, filters the one into the other, and keeps both.
fn filter_names<W: World>(
    alloc: Global,
    wanted: &Wanted,
    input: &str,
    out: &str,
    world: &mut W,
) -> Sifted
    requires some { 1 ≤ wanted.now.chunk }
    requires within { wanted.now.chunk ≤ chunk_size_limit }
    requires world_fits { (W.state world.old).faults < 2 ^ 64 }
    requires inputs_fit { (W.state world.old).input_faults < 2 ^ 64 }
    requires outputs_fit { (W.state world.old).output_faults < 2 ^ 64 }
    ensures { NamesFiltered (filter_request (asking wanted.now.range (asked_topic wanted.now.topic)) wanted.now.chunk)
        input.now out.now (W.state world.old) (W.state world.new) result }
{
    let mut source = match world.source(input) {
        Ok(source) => source,
        Err(why) => {
            let failed = is_failed(why);
            return Sifted {
                filtering: unopened(failed),
                input_failed: failed,
                out_failed: false,
            };
        }
    };
    let live = match world.live(out) {
        Ok(live) => live,
        Err(why) => {
            let failed = is_failed(why);
            let faults = source.faults();
            let kept = world.keep_source(input, source);
            return Sifted {
                filtering: unopened(failed),
                input_failed: has_failed(faults, kept),
                out_failed: failed,
            };
        }
    };
    let (live, answer) = filter(
        alloc,
        &mut source,
        live,
        wanted.range,
        wanted.topic,
        wanted.chunk,
    );
    let (source_faults, live_faults) = (source.faults(), live.faults());
    let source_kept = world.keep_source(input, source);
    let live_kept = world.keep_live(out, live);
    Sifted {
        filtering: filtering_of(answer),
        input_failed: has_failed(source_faults, source_kept),
        out_failed: has_failed(live_faults, live_kept),
    }
}

// Prints the line of what was filtered, if something was. It takes no memory.
fn print_filtering<O: Sink>(out: &mut O, filtering: &Filtering)
    ensures { (input : List ℕ)
        → Takes (O.state out.old) (O.state out.new) (ending_of_filtering input filtering.now).text }
{
    match filtering {
        Filtering::Made { picked } => {
            let line = line_of_filtered(*picked);
            match write_all_of(out, line.as_bytes()) {
                Ok(()) => return,
                Err(_) => return,
            }
        }
        Filtering::Unopened => return,
        Filtering::Refused { .. } => return,
    }
}

// The input is told where its reading came to a halt.
fn halted_in<'a>(inputs: &'a [Text], filtering: &'a Filtering) -> Option<Halted<'a>>
    ensures { halted_lists result ≡ (ending_of_filtering (name_at inputs.now 0) filtering.now).halts }
{
    match filtering {
        Filtering::Refused {
            why: PickRefused::Refused { why },
        } => return halted_at(0, reading_complaint(name_of(inputs, 0), why)),
        Filtering::Refused {
            why: PickRefused::Stopped { .. },
        } => return None,
        Filtering::Unopened | Filtering::Made { .. } => return None,
    }
}

// Whether the output would pass a limit.
#[tactic(auto, using(crate::proofs::RefusedReadings::halted_unlimited))]
fn is_at_limit(filtering: &Filtering) -> bool
    ensures { (input : List ℕ) → result ≡ (ending_of_filtering input filtering.now).passes_limit }
{
    match filtering {
        Filtering::Refused {
            why: PickRefused::Stopped { stop },
        } => return stops_at_limit(stop),
        Filtering::Refused {
            why: PickRefused::Refused { .. },
        } => return false,
        Filtering::Unopened | Filtering::Made { .. } => return false,
    }
}

// Whether memory lacked.
#[tactic(auto, using(crate::proofs::RefusedReadings::halted_lack))]
fn has_lacked(filtering: &Filtering) -> bool
    ensures { (input : List ℕ) → result ≡ (ending_of_filtering input filtering.now).lacks_memory }
{
    match filtering {
        Filtering::Refused {
            why: PickRefused::Refused { why },
        } => return lacks_memory(why),
        Filtering::Refused {
            why: PickRefused::Stopped { stop },
        } => return stops_for_memory(stop),
        Filtering::Unopened | Filtering::Made { .. } => return false,
    }
}

impl FileWriting for Filtering {
    ghost ending = { λ filtering inputs some. ending_of_filtering (name_at inputs 0) filtering };

    fn print<O: Sink>(&self, _inputs: &[Text], out: &mut O) {
        print_filtering(out, self);
    }

    fn halt<'a>(&'a self, inputs: &'a [Text], index: usize) -> Option<Complaint<'a>> {
        complaint_at(halted_in(inputs, self), index)
    }

    fn passes_limit(&self) -> bool {
        is_at_limit(self)
    }

    fn lacks_memory(&self, _some_failed: bool) -> bool {
        has_lacked(self)
    }
}

/// Writes the messages of the file under the one name that are wanted as a new file under the other, each after its Channel and
/// Schema, and after them its Attachments, Metadata and records of applications; prints on `out` how many messages and records,
/// extras aside, that were, and answers the status: refused where the file breaks a rule or is compressed, and a limit where
/// it passes one or the new file would.
pub fn filter_file<W: World, O: Sink, E: Sink>(
    alloc: Global,
    wanted: &Wanted,
    input: &Text,
    out_name: &str,
    world: &mut W,
    out: &mut O,
    err: &mut E,
) -> Status
    requires some { 1 ≤ wanted.now.chunk }
    requires within { wanted.now.chunk ≤ chunk_size_limit }
    ensures { FiltersFile (filter_request (asking wanted.now.range (asked_topic wanted.now.topic)) wanted.now.chunk)
        input.now out_name.now (scene (W.state world.old) (O.state out.old) (E.state err.old))
        (scene (W.state world.new) (O.state out.new) (E.state err.new))
        result }
{
    let before = Counts::of(world, out);
    let sifted = filter_names(alloc, wanted, input.as_str(), out_name, world);
    let flags = from_ref(&sifted.input_failed);
    let inputs = from_ref(input);
    let failed = FailedNames {
        inputs: flags,
        out: sifted.out_failed,
    };
    let filtering = &sifted.filtering;
    answer_writing(
        filtering, inputs, out_name, &before, failed, world, out, err,
    )
}
