//! What a command says that reads a file and then another.
ghost use Rattle.std.specs.Prelude.{◌≡◌, List, ℕ, Bool};
ghost use Rattle.mcap_io.specs.Outside.{Opening};
ghost use Rattle.command_base.specs.ComplaintTroubles.{complained};
ghost use Rattle.command_base.specs.Ran.{Scene, counts_in, Complains};
ghost use Rattle.command_base.specs.OneFile.{Ending};
ghost use Rattle.command_base.specs.Scenes.{scene};
ghost use Rattle.command_read.specs.TwoFiles.{ReadsTwo};
ghost use Rattle.command_read.specs.TwoFilesSteps.{ShowsTwoFaults, FindsTwo, due_of_two};

use command_base::{
    Complaint, Counts, Status, any_holds, complain_of, due_when, holds_alone, rose,
};
use mcap_io::{Sink, World};

/// The names of two files.
#[derive(Clone, Copy)]
pub(crate) struct TwoNames<'a> {
    pub file: &'a str,
    pub other: &'a str,
}

/// Which parts of the outside failed: the files, or standard output.
#[derive(Clone, Copy)]
pub(crate) struct TwoFaults {
    pub file: bool,
    pub other: bool,
    pub printing: bool,
}

/// What a command found of two files: what halted their reading, whether memory lacked, whether they failed, and whether a write
/// to standard output did.
#[derive(Clone, Copy)]
pub(crate) struct Found<'a> {
    pub file_halt: Option<Complaint<'a>>,
    pub other_halt: Option<Complaint<'a>>,
    pub lacked: bool,
    pub file_failed: bool,
    pub other_failed: bool,
    pub broke: bool,
}

// Which parts failed between the two counts: those that told it; the first file, where neither did and a count rose or stands at
// the end of its type; and standard output, where its count did.
fn two_faults(
    before: &Counts,
    now: &Counts,
    file_failed: bool,
    other_failed: bool,
    broke: bool,
) -> TwoFaults
    ensures { ShowsTwoFaults before.now now.now file_failed other_failed broke result }
{
    let world = rose(before.world, now.world);
    let inputs = rose(before.inputs, now.inputs);
    let printing = rose(before.printing, now.printing);
    let world_alone = holds_alone(world, other_failed);
    let inputs_alone = holds_alone(inputs, other_failed);
    TwoFaults {
        file: any_holds(file_failed, world_alone, inputs_alone),
        other: other_failed,
        printing: any_holds(broke, printing, false),
    }
}

// Complains of what was found, where these parts failed, and answers the status that this asks for.
fn complain_of_two<'a, E: Sink>(
    names: TwoNames<'a>,
    found: Found<'a>,
    faults: TwoFaults,
    err: &mut E,
) -> Status
    ensures { Complains (due_of_two names.entry.file.now names.entry.other.now
        (complained found.entry.file_halt) (complained found.entry.other_halt) faults found.entry.lacked)
        (E.state err.old) (E.state err.new) result }
{
    let complaints = [
        found.file_halt,
        due_when(faults.file, Complaint::Fault { name: names.file }),
        found.other_halt,
        due_when(faults.other, Complaint::Fault { name: names.other }),
        due_when(faults.printing, Complaint::OutputFault),
        due_when(found.lacked, Complaint::NoMemory),
    ];
    complain_of(err, &complaints)
}

/// Complains of what was found and of what failed since those counts, and answers the status that this asks for.
pub(crate) fn answer_two<'a, W: World, O: Sink, E: Sink>(
    names: TwoNames<'a>,
    before: &Counts,
    found: Found<'a>,
    world: &W,
    out: &O,
    err: &mut E,
) -> Status
    ensures { (old : Scene) (entries : List Opening) (second : Bool) (ending : Ending)
        → before.now ≡ counts_in old → E.state err.old ≡ old.err
        → FindsTwo names.entry.file.now names.entry.other.now old (W.state world.now) (O.state out.now) entries second
        ending found.entry
        → ReadsTwo names.entry.file.now names.entry.other.now old
        (scene (W.state world.now) (O.state out.now) (E.state err.new)) entries second ending result }
{
    let now = Counts::of(world, out);
    let faults = two_faults(
        before,
        &now,
        found.file_failed,
        found.other_failed,
        found.broke,
    );
    complain_of_two(names, found, faults, err)
}
