//! What a command says of some files that it read and of the one that it wrote, and how it is answered.
ghost use Rattle.std.specs.List.{flat_map};
ghost use Rattle.std.specs.Prelude.{◌≡◌, ◌≤◌, ◌+◌, ◌*◌, ℕ, [], List, Bool, drop, length};
ghost use Rattle.arrayvec.specs.ArrayVec.{array_vec_len};
ghost use Rattle.mcap_io.specs.Outside.{WorldState, Opening};
ghost use Rattle.mcap_io.specs.declared.outside.ObjectKind.{ObjectKind};
ghost use Rattle.command_base.specs.ComplaintTroubles.{complained};
ghost use Rattle.command_base.specs.Printing.{Takes};
ghost use Rattle.command_base.specs.Ran.{counted_faults, first_failed, first_halts, told_of};
ghost use Rattle.command_base.specs.Scenes.{scene};
ghost use Rattle.command_base.specs.Endings.{WritingEnding};
ghost use Rattle.command_base.specs.Outputs.{inputs_and_output, WritesOutput};
ghost use Rattle.command_base.specs.OutputSteps.{input_limit, InputsAreFew, flags_of, Answers, NamesEnd};

use crate::blaming::{FailedParts, failed_parts, is_part_failed};
use crate::{Complaint, Counts, Status, complain_of, due_when};
use arrayvec::ArrayVec;
use mcap_io::{Sink, World};
use mcap_wire::Text;

/// The most complaints of a command: two of each of 64 inputs and of 16 other names, and four of the output, of standard output
/// and of memory.
pub const MOST_COMPLAINTS: usize = 164;

/// Which names failed: of the inputs that were reached, in their order, and of the output.
#[derive(Clone, Copy)]
pub struct FailedNames<'a> {
    pub inputs: &'a [bool],
    pub out: bool,
}

/// What a command says of some files that it read and of the one that it wrote.
pub trait FileWriting {
    /// How it ended, where these are the names of its inputs, by whether some part of the outside failed.
    ghost ending: { Self → List (List ℕ) → Bool → WritingEnding };

    /// Prints its text.
    fn print<O: Sink>(&self, inputs: &[Text], out: &mut O)
        ensures { (some : Bool) → Takes (O.state out.old) (O.state out.new) (ending self.now inputs.now some).text };

    /// The complaint of where the input of that number, from 0, halts, if it does.
    fn halt<'a>(&'a self, inputs: &'a [Text], index: usize) -> Option<Complaint<'a>>
        ensures { (some : Bool)
            → complained result ≡ first_halts (drop index (ending self.now inputs.now some).halts) };

    /// Whether the output would pass a limit.
    fn passes_limit(&self) -> bool
        ensures { (inputs : List (List ℕ)) (some : Bool) → result ≡ (ending self.now inputs some).passes_limit };

    /// Whether memory lacked.
    fn lacks_memory(&self, some_failed: bool) -> bool
        ensures { (inputs : List (List ℕ)) → result ≡ (ending self.now inputs some_failed).lacks_memory };
}

// Whether the input at the index failed.
fn is_blamed(failed: FailedParts<'_>, index: usize) -> bool
    ensures { (names : List (List ℕ)) → index + 1 ≤ length names
        → result ≡ first_failed (drop index (flags_of names failed.entry)) }
{
    if failed.every_input {
        return true;
    }
    if index < failed.inputs.len() {
        return failed.inputs[index];
    }
    return false;
}

/// The complaints of the inputs, in their order: of each where it halts, and then that it failed.
pub fn input_complaints<'a, K: FileWriting>(
    what: &'a K,
    inputs: &'a [Text],
    failed: FailedParts<'_>,
) -> ArrayVec<Option<Complaint<'a>>, MOST_COMPLAINTS>
    requires few { length inputs.now ≤ input_limit }
    ensures troubles { (some : Bool)
        → flat_map complained result.items
        ≡ told_of inputs.now (K.ending what.now inputs.now some).halts (flags_of inputs.now failed.entry) [] }
    ensures many { array_vec_len result ≡ 2 * length inputs.now }
{
    let mut complaints = ArrayVec::new();
    'inputs: for (i, input) in inputs.iter().enumerate() {
        let name = input.as_str();
        complaints.push(what.halt(inputs, i));
        complaints.push(due_when(is_blamed(failed, i), Complaint::Fault { name }));
    }
    complaints
}

/// Complains of where the inputs halt, of what failed, of a limit of the output and of a want of memory, and answers the status
/// that this asks for.
pub fn complain_of_writing<'a, K: FileWriting, E: Sink>(
    what: &'a K,
    inputs: &'a [Text],
    out_name: &'a str,
    failed: FailedParts<'_>,
    err: &mut E,
) -> Status
    requires few { length inputs.now ≤ input_limit }
    ensures { (kind : ObjectKind)
        → Answers (inputs_and_output kind inputs.now out_name.now) (K.ending what.now inputs.now) failed.entry
        (E.state err.old) (E.state err.new) result }
{
    let some_failed = is_part_failed(failed);
    let mut complaints = input_complaints(what, inputs, failed);
    complaints.push(due_when(failed.out, Complaint::Fault { name: out_name }));
    complaints.push(due_when(
        what.passes_limit(),
        Complaint::OutputLimit { name: out_name },
    ));
    complaints.push(due_when(failed.printing, Complaint::OutputFault));
    complaints.push(due_when(what.lacks_memory(some_failed), Complaint::NoMemory));
    complain_of(err, complaints.as_slice())
}

/// Prints what a command says of its writing, complains of what went wrong since those counts, and answers the status that this
/// asks for.
pub fn answer_writing<K: FileWriting, W: World, O: Sink, E: Sink>(
    what: &K,
    inputs: &[Text],
    out_name: &str,
    before: &Counts,
    failed_names: FailedNames<'_>,
    world: &W,
    out: &mut O,
    err: &mut E,
) -> Status
    requires few { InputsAreFew inputs.now }
    ensures { (kind : ObjectKind) (old : WorldState) (entries : List Opening)
        → before.now ≡ counted_faults old (O.state out.old)
        → NamesEnd (inputs_and_output kind inputs.now out_name.now) old (W.state world.now) entries
        failed_names.entry.inputs.now failed_names.entry.out (K.ending what.now inputs.now)
        → WritesOutput (inputs_and_output kind inputs.now out_name.now) (scene old (O.state out.old) (E.state err.old))
        (scene (W.state world.now) (O.state out.new) (E.state err.new)) entries (K.ending what.now inputs.now) result }
{
    what.print(inputs, out);
    let now = Counts::of(world, out);
    let failed = failed_parts(before, &now, failed_names.inputs, failed_names.out);
    complain_of_writing(what, inputs, out_name, failed, err)
}
