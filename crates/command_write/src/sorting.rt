//! Sorting the messages of a file into another.
ghost use Rattle.std.specs.Prelude.{◌≡◌, ◌≤◌, ◌<◌, ◌^◌, ℕ, List, [], length, map, vec_len, vec_capacity};
ghost use Rattle.mcap_io.specs.Outside.{WorldState};
ghost use Rattle.mcap_io.specs.declared.outside.ObjectKind.{ObjectKind};
ghost use Rattle.mcap_wire.specs.Limits.{chunk_size_limit};
ghost use Rattle.command_base.specs.Printing.{Takes};
ghost use Rattle.command_base.specs.Scenes.{scene};
ghost use Rattle.command_base.specs.InputsSteps.{StoreSeen, InputsOpened};
ghost use Rattle.command_write.specs.Halting.{name_at};
ghost use Rattle.command_write.specs.HaltingSteps.{halted_lists};
ghost use Rattle.command_write.specs.Sort.{sorting_of as came_to, unopened_sorting, unsorted_ending, ending_of_sorting, SortsFile};
ghost use Rattle.command_write.specs.SortingSteps.{NamesSorted};

use crate::halting::{Halted, complaint_at, name_of};
use crate::merging::{halted_at, stops_at_limit, stops_for_memory};
use crate::sorted_line::line_of_sorted;
use command_base::{
    AsStores, Complaint, Counts, FailedNames, FileWriting, Room, Status, add_refused,
    answer_writing, has_failed, is_failed, keep_inputs, lacks_memory, make_room, open_inputs,
    reading_complaint,
};
use mcap_io::{LiveStore, Sink, World, write_all_of};
use mcap_model::Stop;
use mcap_sort::{SortCounts, SortRefused, sort};
use mcap_wire::Text;
use std::alloc::Global;
use std::slice::from_ref;

/// What the sorting of a file came to.
#[derive(Drop)]
pub enum Sorting {
    /// The world failed to open one of both names.
    Unopened,
    /// The output was written.
    Made { counts: SortCounts },
    /// It was refused; or memory lacked for an opening.
    Refused { why: SortRefused },
}

/// What became of both names: the sorting, and for each whether its opening, its object or the keeping failed. Of the input that
/// is one answer, or none where it wasn't reached.
#[derive(Drop)]
pub struct Ordered {
    pub sorting: Sorting,
    pub inputs_failed: Vec<bool>,
    pub out_failed: bool,
}

// A sorting by its answer.
fn sorting_of(answer: Result<SortCounts, SortRefused>) -> Sorting
    ensures { result ≡ came_to answer }
{
    match answer {
        Ok(counts) => Sorting::Made { counts },
        Err(why) => Sorting::Refused { why },
    }
}

// Nothing was sorted, since an opening failed, or else for want of memory.
fn unopened(failed: bool) -> Sorting
    ensures { result ≡ unopened_sorting failed }
{
    if failed {
        return Sorting::Unopened;
    }
    return Sorting::Refused {
        why: SortRefused::Stopped { stop: Stop::Memory },
    };
}

// Opens the output, sorts the input that was opened into it, and keeps both.
fn sort_opened<W: World>(
    alloc: Global,
    chunk: u64,
    inputs: &[Text],
    out: &str,
    room: Room<W::Store>,
    world: &mut W,
) -> Ordered
    requires some { 1 ≤ chunk }
    requires within { chunk ≤ chunk_size_limit }
    requires one { length inputs.now ≡ 1 }
    requires many { vec_len room.objects ≡ length inputs.now }
    requires none { room.failed.items ≡ [] }
    requires room { length inputs.now ≤ vec_capacity room.failed }
    ensures { (before : WorldState)
        → InputsOpened ObjectKind.Store StoreSeen before (W.state world.old) inputs.now
        (map W.Store.state room.objects.items) → before.faults < 2 ^ 64 → before.input_faults < 2 ^ 64
        → before.output_faults < 2 ^ 64 → NamesSorted chunk inputs.now out.now before (W.state world.new) result }
{
    let Room {
        objects: mut stores,
        mut failed,
    } = room;
    let live = match world.live(out) {
        Ok(live) => live,
        Err(why) => {
            let out_failed = is_failed(why);
            keep_inputs(&AsStores, world, inputs, stores, &mut failed);
            return Ordered {
                sorting: unopened(out_failed),
                inputs_failed: failed,
                out_failed,
            };
        }
    };
    let (live, answer) = sort(alloc, &mut stores, live, chunk);
    let live_faults = live.faults();
    keep_inputs(&AsStores, world, inputs, stores, &mut failed);
    let live_kept = world.keep_live(out, live);
    Ordered {
        sorting: sorting_of(answer),
        inputs_failed: failed,
        out_failed: has_failed(live_faults, live_kept),
    }
}

// Opens both names, sorts the one into the other, and keeps both.
fn sort_names<W: World>(
    alloc: Global,
    chunk: u64,
    inputs: &[Text],
    out: &str,
    world: &mut W,
) -> Ordered
    requires some { 1 ≤ chunk }
    requires within { chunk ≤ chunk_size_limit }
    requires one { length inputs.now ≡ 1 }
    requires world_fits { (W.state world.old).faults < 2 ^ 64 }
    requires inputs_fit { (W.state world.old).input_faults < 2 ^ 64 }
    requires outputs_fit { (W.state world.old).output_faults < 2 ^ 64 }
    ensures { NamesSorted chunk inputs.now out.now (W.state world.old) (W.state world.new) result }
{
    let Room {
        objects: mut stores,
        mut failed,
    } = match make_room(alloc, inputs.len()) {
        Ok(room) => room,
        Err(_) => {
            return Ordered {
                sorting: unopened(false),
                inputs_failed: Vec::new(alloc),
                out_failed: false,
            };
        }
    };
    match open_inputs(&AsStores, world, inputs, &mut stores) {
        Ok(()) => {
            let room = Room {
                objects: stores,
                failed,
            };
            return sort_opened(alloc, chunk, inputs, out, room, world);
        }
        Err(why) => {
            let input_failed = is_failed(why);
            keep_inputs(
                &AsStores,
                world,
                &inputs[..stores.len()],
                stores,
                &mut failed,
            );
            add_refused(&mut failed, input_failed);
            return Ordered {
                sorting: unopened(input_failed),
                inputs_failed: failed,
                out_failed: false,
            };
        }
    }
}

// Prints the line of what was sorted, if something was. It takes no memory.
fn print_sorting<O: Sink>(out: &mut O, sorting: &Sorting)
    ensures { (input : List ℕ)
        → Takes (O.state out.old) (O.state out.new) (ending_of_sorting input sorting.now).text }
{
    match sorting {
        Sorting::Made { counts } => {
            let line = line_of_sorted(*counts);
            match write_all_of(out, line.as_bytes()) {
                Ok(()) => return,
                Err(_) => return,
            }
        }
        Sorting::Unopened => return,
        Sorting::Refused { .. } => return,
    }
}

// The input is told where its reading came to a halt, or where it had changed.
fn halted_by<'a>(inputs: &'a [Text], why: &'a SortRefused) -> Option<Halted<'a>>
    ensures { halted_lists result ≡ (unsorted_ending (name_at inputs.now 0) why.now).halts }
{
    match why {
        SortRefused::Halted { why } => {
            return halted_at(0, reading_complaint(name_of(inputs, 0), why));
        }
        SortRefused::Changed { offset } => return Some(Halted {
            input: 0,
            complaint: Complaint::Grammar {
                name: name_of(inputs, 0),
                offset: *offset,
            },
        }),
        SortRefused::Stopped { .. } => return None,
    }
}

// The same of what a sorting came to.
fn halted_in<'a>(inputs: &'a [Text], sorting: &'a Sorting) -> Option<Halted<'a>>
    ensures { halted_lists result ≡ (ending_of_sorting (name_at inputs.now 0) sorting.now).halts }
{
    match sorting {
        Sorting::Refused { why } => halted_by(inputs, why),
        Sorting::Unopened | Sorting::Made { .. } => None,
    }
}

// Whether the output would pass a limit.
#[tactic(auto, using(crate::proofs::RefusedReadings::halted_unlimited))]
fn is_at_limit(sorting: &Sorting) -> bool
    ensures { (input : List ℕ) → result ≡ (ending_of_sorting input sorting.now).passes_limit }
{
    match sorting {
        Sorting::Refused {
            why: SortRefused::Stopped { stop },
        } => return stops_at_limit(stop),
        Sorting::Refused {
            why: SortRefused::Halted { .. },
        } => return false,
        Sorting::Refused {
            why: SortRefused::Changed { .. },
        } => return false,
        Sorting::Unopened | Sorting::Made { .. } => return false,
    }
}

// Whether memory lacked.
#[tactic(auto, using(crate::proofs::RefusedReadings::halted_lack))]
fn has_lacked(sorting: &Sorting) -> bool
    ensures { (input : List ℕ) → result ≡ (ending_of_sorting input sorting.now).lacks_memory }
{
    match sorting {
        Sorting::Refused {
            why: SortRefused::Halted { why },
        } => return lacks_memory(why),
        Sorting::Refused {
            why: SortRefused::Stopped { stop },
        } => return stops_for_memory(stop),
        Sorting::Refused {
            why: SortRefused::Changed { .. },
        } => return false,
        Sorting::Unopened | Sorting::Made { .. } => return false,
    }
}

impl FileWriting for Sorting {
    ghost ending = { λ sorting inputs some. ending_of_sorting (name_at inputs 0) sorting };

    fn print<O: Sink>(&self, _inputs: &[Text], out: &mut O) {
        print_sorting(out, self);
    }

    fn halt<'a>(&'a self, inputs: &'a [Text], index: usize) -> Option<Complaint<'a>> {
        complaint_at(halted_in(inputs, self), index)
    }

    fn passes_limit(&self) -> bool {
        is_at_limit(self)
    }

    fn lacks_memory(&self, _some_failed: bool) -> bool {
        has_lacked(self)
    }
}

/// Writes the messages of the file under the one name as a new file under the other, in chunks of that size in bytes: by log
/// time, those of one time by their place, each after its Channel and Schema; after them the Attachments, the Metadata and the
/// records of applications (opcodes from 0x80 on) of the top level. Prints on `out` how many messages and records, extras aside,
/// that were, and answers the status: refused where the file breaks a rule, is compressed or was changed meanwhile, and a limit
/// where it passes one or the new file would.
pub fn sort_file<W: World, O: Sink, E: Sink>(
    alloc: Global,
    chunk: u64,
    input: &Text,
    out_name: &str,
    world: &mut W,
    out: &mut O,
    err: &mut E,
) -> Status
    requires some { 1 ≤ chunk }
    requires within { chunk ≤ chunk_size_limit }
    ensures { SortsFile chunk input.now out_name.now
        (scene (W.state world.old) (O.state out.old) (E.state err.old))
        (scene (W.state world.new) (O.state out.new) (E.state err.new))
        result }
{
    let before = Counts::of(world, out);
    let inputs = from_ref(input);
    let ordered = sort_names(alloc, chunk, inputs, out_name, world);
    let failed = FailedNames {
        inputs: ordered.inputs_failed.as_slice(),
        out: ordered.out_failed,
    };
    let sorting = &ordered.sorting;
    answer_writing(sorting, inputs, out_name, &before, failed, world, out, err)
}
