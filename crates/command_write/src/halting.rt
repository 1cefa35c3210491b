//! The input that couldn't be read, where at most one is told.
ghost use Rattle.std.specs.Prelude.{◌≡◌, drop};
ghost use Rattle.command_base.specs.ComplaintTroubles.{complained};
ghost use Rattle.command_base.specs.Ran.{first_halts};
ghost use Rattle.command_write.specs.Halting.{name_at};
ghost use Rattle.command_write.specs.HaltingSteps.{halted_lists};

use command_base::Complaint;
use mcap_wire::Text;

/// The input that couldn't be read, by its number, from 0, and the complaint of it.
#[derive(Clone, Copy)]
pub struct Halted<'a> {
    pub input: usize,
    pub complaint: Complaint<'a>,
}

/// The name of the input of that number, from 0.
pub(crate) fn name_of(inputs: &[Text], number: usize) -> &str
    ensures { result.now ≡ name_at inputs.now number }
{
    if number >= inputs.len() {
        return "";
    }
    return inputs[number].as_str();
}

/// The complaint of the input at the index, if it is the one that couldn't be read.
pub(crate) fn complaint_at(halted: Option<Halted<'_>>, index: usize) -> Option<Complaint<'_>>
    ensures { complained result ≡ first_halts (drop index (halted_lists halted.entry)) }
{
    match halted {
        Some(halted) => {
            if halted.input == index {
                return Some(halted.complaint);
            }
            return None;
        }
        None => return None,
    }
}
