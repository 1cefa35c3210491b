//! What the commands share that read one file and print of it.
ghost use Rattle.std.specs.Prelude.{◌≡◌};
ghost use Rattle.command_base.specs.ComplaintTroubles.{complained};
ghost use Rattle.command_base.specs.Ran.{Complains};
ghost use Rattle.command_base.specs.OneFile.{Ending, troubles_in, is_lack};
ghost use Rattle.command_base.specs.OneFileSteps.{one_troubles, ShowsFaults};

use crate::complaining::{complain_of, due_when};
use crate::complaint::Complaint;
use crate::faults::{Counts, rose};
use crate::statuses::Status;
use mcap_io::Sink;

/// Which parts of the outside failed: the file, or standard output.
#[derive(Clone, Copy)]
pub struct Faults {
    pub file: bool,
    pub printing: bool,
}

/// Which parts failed between the two counts: those that told it, and those of a count that rose or stands at the end of
/// its type.
pub fn faults_of(before: &Counts, now: &Counts, failed: bool, broke: bool) -> Faults
    ensures { ShowsFaults before.now now.now failed broke result }
{
    Faults {
        file: failed || rose(before.world, now.world) || rose(before.inputs, now.inputs),
        printing: broke || rose(before.printing, now.printing),
    }
}

/// Complains of what halted the reading of a file, of what failed and of a want of memory, and answers the status that
/// this asks for.
pub fn answer_file<'a, E: Sink>(
    err: &mut E,
    file: &'a str,
    halt: Option<Complaint<'a>>,
    lacked: bool,
    faults: Faults,
) -> Status
    ensures { (ending : Ending) → complained halt.entry ≡ troubles_in ending → lacked ≡ is_lack ending
        → Complains (one_troubles file.now ending faults.file faults.printing) (E.state err.old) (E.state err.new)
        result }
{
    let complaints = [
        halt,
        due_when(faults.file, Complaint::Fault { name: file }),
        due_when(faults.printing, Complaint::OutputFault),
        due_when(lacked, Complaint::NoMemory),
    ];
    complain_of(err, &complaints)
}
