//! Merging files under their names into a file under another.
ghost use Rattle.std.specs.Prelude.{◌≡◌, ◌≤◌, ◌<◌, ◌^◌, ℕ, List, [], length, map, vec_len, vec_capacity};
ghost use Rattle.mcap_io.specs.Outside.{WorldState};
ghost use Rattle.mcap_wire.specs.Limits.{chunk_size_limit};
ghost use Rattle.command_base.specs.Printing.{Takes};
ghost use Rattle.command_base.specs.Scenes.{scene};
ghost use Rattle.mcap_io.specs.declared.outside.ObjectKind.{ObjectKind};
ghost use Rattle.command_base.specs.InputsSteps.{StoreSeen, InputsOpened};
ghost use Rattle.command_base.specs.OutputSteps.{InputsAreFew};
ghost use Rattle.command_write.specs.HaltingSteps.{halted_lists};
ghost use Rattle.command_base.specs.ComplaintTroubles.{complained};
ghost use Rattle.command_base.specs.OneFile.{Ending as OneEnding, troubles_in};
ghost use Rattle.command_write.specs.Merge.{merging_of as came_to, unopened_so, ending_at, stop_ending, merge_ending, ending_of_merging, MergesFiles};
ghost use Rattle.command_write.specs.MergeSteps.{NamesMerged};

use crate::halting::{Halted, complaint_at, name_of};
use crate::merged_line::line_of_merged;
use command_base::{
    AsStores, Complaint, Counts, FailedNames, FileWriting, Room, Status, add_refused,
    answer_writing, has_failed, is_failed, keep_inputs, lacks_memory, make_room, open_inputs,
    reading_complaint,
};
use mcap_io::{LiveStore, Sink, World, write_all_of};
use mcap_merge::{MergeRefused, Merged, merge};
use mcap_model::Stop;
use mcap_wire::Text;
use std::alloc::Global;

/// What the merging of files came to.
#[derive(Drop)]
pub enum Merging {
    /// The world failed to open one of the names.
    Unopened,
    /// The output was written.
    Made { merged: Merged },
    /// It was refused; or memory lacked for an opening.
    Refused { why: MergeRefused },
}

/// What became of all names: the merging, and for each whether its opening, its object or the keeping failed. Of the inputs these
/// are the answers for those that were reached, in their order.
#[derive(Drop)]
pub struct Outcome {
    pub merging: Merging,
    pub inputs_failed: Vec<bool>,
    pub out_failed: bool,
}

// A merging by its answer.
fn merging_of(answer: Result<Merged, MergeRefused>) -> Merging
    ensures { result ≡ came_to answer }
{
    match answer {
        Ok(merged) => Merging::Made { merged },
        Err(why) => Merging::Refused { why },
    }
}

// Nothing was merged, since an opening failed, or else for want of memory.
fn unopened(failed: bool) -> Merging
    ensures { result ≡ unopened_so failed }
{
    if failed {
        return Merging::Unopened;
    }
    return Merging::Refused {
        why: MergeRefused::Stopped { stop: Stop::Memory },
    };
}

// Opens the output, merges the inputs that were opened into it, and keeps all.
fn merge_opened<W: World>(
    alloc: Global,
    chunk: u64,
    inputs: &[Text],
    out: &str,
    room: Room<W::Store>,
    world: &mut W,
) -> Outcome
    requires some { 1 ≤ chunk }
    requires within { chunk ≤ chunk_size_limit }
    requires few { InputsAreFew inputs.now }
    requires many { vec_len room.objects ≡ length inputs.now }
    requires none { room.failed.items ≡ [] }
    requires room { length inputs.now ≤ vec_capacity room.failed }
    ensures { (before : WorldState)
        → InputsOpened ObjectKind.Store StoreSeen before (W.state world.old) inputs.now
        (map W.Store.state room.objects.items) → before.faults < 2 ^ 64 → before.input_faults < 2 ^ 64
        → before.output_faults < 2 ^ 64 → NamesMerged chunk inputs.now out.now before (W.state world.new) result }
{
    let Room {
        objects: mut stores,
        mut failed,
    } = room;
    let live = match world.live(out) {
        Ok(live) => live,
        Err(why) => {
            let out_failed = is_failed(why);
            keep_inputs(&AsStores, world, inputs, stores, &mut failed);
            return Outcome {
                merging: unopened(out_failed),
                inputs_failed: failed,
                out_failed,
            };
        }
    };
    let (live, answer) = merge(alloc, &mut stores, live, chunk);
    let live_faults = live.faults();
    keep_inputs(&AsStores, world, inputs, stores, &mut failed);
    let live_kept = world.keep_live(out, live);
    Outcome {
        merging: merging_of(answer),
        inputs_failed: failed,
        out_failed: has_failed(live_faults, live_kept),
    }
}

// Opens all names, merges the inputs into the output, and keeps all.
fn merge_names<W: World>(
    alloc: Global,
    chunk: u64,
    inputs: &[Text],
    out: &str,
    world: &mut W,
) -> Outcome
    requires some { 1 ≤ chunk }
    requires within { chunk ≤ chunk_size_limit }
    requires few { InputsAreFew inputs.now }
    requires world_fits { (W.state world.old).faults < 2 ^ 64 }
    requires inputs_fit { (W.state world.old).input_faults < 2 ^ 64 }
    requires outputs_fit { (W.state world.old).output_faults < 2 ^ 64 }
    ensures { NamesMerged chunk inputs.now out.now (W.state world.old) (W.state world.new) result }
{
    let Room {
        objects: mut stores,
        mut failed,
    } = match make_room(alloc, inputs.len()) {
        Ok(room) => room,
        Err(_) => {
            return Outcome {
                merging: unopened(false),
                inputs_failed: Vec::new(alloc),
                out_failed: false,
            };
        }
    };
    match open_inputs(&AsStores, world, inputs, &mut stores) {
        Ok(()) => {
            let room = Room {
                objects: stores,
                failed,
            };
            return merge_opened(alloc, chunk, inputs, out, room, world);
        }
        Err(why) => {
            let input_failed = is_failed(why);
            keep_inputs(
                &AsStores,
                world,
                &inputs[..stores.len()],
                stores,
                &mut failed,
            );
            add_refused(&mut failed, input_failed);
            return Outcome {
                merging: unopened(input_failed),
                inputs_failed: failed,
                out_failed: false,
            };
        }
    }
}

// Prints the line of what was merged, if something was. It takes no memory.
fn print_merging<O: Sink>(out: &mut O, inputs: &[Text], merging: &Merging)
    ensures { Takes (O.state out.old) (O.state out.new) (ending_of_merging inputs.now merging.now).text }
{
    match merging {
        Merging::Made { merged } => {
            let line = line_of_merged(inputs.len() as u64, *merged);
            match write_all_of(out, line.as_bytes()) {
                Ok(()) => return,
                Err(_) => return,
            }
        }
        Merging::Unopened => return,
        Merging::Refused { .. } => return,
    }
}

/// The input that was halted, and the complaint of it, if there is one.
#[tactic(auto, using(crate::proofs::RefusedReadings::halted_some, crate::proofs::RefusedReadings::halted_none))]
pub(crate) fn halted_at(input: u32, complaint: Option<Complaint<'_>>) -> Option<Halted<'_>>
    ensures { (ending : OneEnding) → complained complaint.entry ≡ troubles_in ending
        → halted_lists result ≡ (ending_at input ending).halts }
{
    match complaint {
        Some(complaint) => Some(Halted {
            input: input as usize,
            complaint,
        }),
        None => None,
    }
}

// The input that couldn't be read, and the complaint of it, where a merge was refused for that.
fn halted_by<'a>(inputs: &'a [Text], why: &'a MergeRefused) -> Option<Halted<'a>>
    ensures { halted_lists result ≡ (merge_ending inputs.now why.now).halts }
{
    match why {
        MergeRefused::Halted { input, why } => {
            return halted_at(
                *input,
                reading_complaint(name_of(inputs, *input as usize), why),
            );
        }
        MergeRefused::Changed { input, offset } => return Some(Halted {
            input: *input as usize,
            complaint: Complaint::Grammar {
                name: name_of(inputs, *input as usize),
                offset: *offset,
            },
        }),
        MergeRefused::TooManySchemas | MergeRefused::TooManyChannels => return None,
        MergeRefused::Stopped { .. } => return None,
    }
}

// The same of what a merging came to.
fn halted_in<'a>(inputs: &'a [Text], merging: &'a Merging) -> Option<Halted<'a>>
    ensures { halted_lists result ≡ (ending_of_merging inputs.now merging.now).halts }
{
    match merging {
        Merging::Refused { why } => halted_by(inputs, why),
        Merging::Unopened | Merging::Made { .. } => None,
    }
}

/// Whether the writing stopped at a limit.
pub(crate) fn stops_at_limit(stop: &Stop) -> bool
    ensures { result ≡ (stop_ending stop.now).passes_limit }
{
    match stop {
        Stop::Limit { .. } => true,
        Stop::Fault { .. } | Stop::Memory => false,
    }
}

/// Whether it stopped for want of memory.
pub(crate) fn stops_for_memory(stop: &Stop) -> bool
    ensures { result ≡ (stop_ending stop.now).lacks_memory }
{
    match stop {
        Stop::Memory => true,
        Stop::Fault { .. } | Stop::Limit { .. } => false,
    }
}

// Whether a merge was refused since the output would pass a limit.
#[tactic(auto, using(crate::proofs::RefusedReadings::halted_unlimited))]
fn is_refused_at_limit(why: &MergeRefused) -> bool
    ensures { (inputs : List (List ℕ)) → result ≡ (merge_ending inputs why.now).passes_limit }
{
    match why {
        MergeRefused::TooManySchemas | MergeRefused::TooManyChannels => return true,
        MergeRefused::Stopped { stop } => return stops_at_limit(stop),
        MergeRefused::Halted { .. } => return false,
        MergeRefused::Changed { .. } => return false,
    }
}

// Whether it was for want of memory.
#[tactic(auto, using(crate::proofs::RefusedReadings::halted_lack))]
fn is_refused_for_memory(why: &MergeRefused) -> bool
    ensures { (inputs : List (List ℕ)) → result ≡ (merge_ending inputs why.now).lacks_memory }
{
    match why {
        MergeRefused::Halted { input: _, why } => return lacks_memory(why),
        MergeRefused::Stopped { stop } => return stops_for_memory(stop),
        MergeRefused::TooManySchemas | MergeRefused::TooManyChannels => return false,
        MergeRefused::Changed { .. } => return false,
    }
}

// Whether the output would pass a limit.
fn is_at_limit(merging: &Merging) -> bool
    ensures { (inputs : List (List ℕ)) → result ≡ (ending_of_merging inputs merging.now).passes_limit }
{
    match merging {
        Merging::Refused { why } => is_refused_at_limit(why),
        Merging::Unopened | Merging::Made { .. } => false,
    }
}

// Whether memory lacked.
fn has_lacked(merging: &Merging) -> bool
    ensures { (inputs : List (List ℕ)) → result ≡ (ending_of_merging inputs merging.now).lacks_memory }
{
    match merging {
        Merging::Refused { why } => is_refused_for_memory(why),
        Merging::Unopened | Merging::Made { .. } => false,
    }
}

impl FileWriting for Merging {
    ghost ending = { λ merging inputs some. ending_of_merging inputs merging };

    fn print<O: Sink>(&self, inputs: &[Text], out: &mut O) {
        print_merging(out, inputs, self);
    }

    fn halt<'a>(&'a self, inputs: &'a [Text], index: usize) -> Option<Complaint<'a>> {
        complaint_at(halted_in(inputs, self), index)
    }

    fn passes_limit(&self) -> bool {
        is_at_limit(self)
    }

    fn lacks_memory(&self, _some_failed: bool) -> bool {
        has_lacked(self)
    }
}

/// Merges 1 to 64 files under their names into a new file under another, in chunks of that size in bytes: their messages by
/// log time, and of one time by the order of the inputs and the place in them, on channels that are numbered by content;
/// after these the Attachments, the Metadata and the records of applications (opcodes from 0x80 on) that stand at their top
/// level, by input and place. Prints on `out` how many inputs, messages and records, extras aside, that were, and answers the
/// status: refused where an input breaks a rule or is compressed, and a limit where an input passes one or the new file
/// would.
pub fn merge_file<W: World, O: Sink, E: Sink>(
    alloc: Global,
    chunk: u64,
    inputs: &[Text],
    out_name: &str,
    world: &mut W,
    out: &mut O,
    err: &mut E,
) -> Status
    requires some { 1 ≤ chunk }
    requires within { chunk ≤ chunk_size_limit }
    requires few { InputsAreFew inputs.now }
    ensures { MergesFiles chunk inputs.now out_name.now
        (scene (W.state world.old) (O.state out.old) (E.state err.old))
        (scene (W.state world.new) (O.state out.new) (E.state err.new))
        result }
{
    let before = Counts::of(world, out);
    let outcome = merge_names(alloc, chunk, inputs, out_name, world);
    let failed = FailedNames {
        inputs: outcome.inputs_failed.as_slice(),
        out: outcome.out_failed,
    };
    let merging = &outcome.merging;
    answer_writing(merging, inputs, out_name, &before, failed, world, out, err)
}
