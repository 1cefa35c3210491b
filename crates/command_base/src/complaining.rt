//! Telling standard error of the troubles of a command, and the status that they give. It takes no memory.
ghost use Rattle.std.specs.Prelude.{◌≡◌, ◌∷◌, ◌++◌, []};
ghost use Rattle.std.specs.List.{flat_map};
ghost use Rattle.command_base.specs.Texts.{no_memory, said};
ghost use Rattle.command_base.specs.ComplaintTroubles.{trouble_of, complained, bad_words_line};
ghost use Rattle.command_base.specs.Printing.{Takes};
ghost use Rattle.command_base.specs.Putting.{PutsText};
ghost use Rattle.command_base.specs.Ran.{when, Complains};

use crate::complaint::{BAD_WORDS, Complaint, NO_MEMORY, put_line, status};
use crate::statuses::Status;
use crate::waiting::Waiting;
use mcap_io::Sink;

/// The complaint, where it is due.
pub fn due_when(due: bool, complaint: Complaint<'_>) -> Option<Complaint<'_>>
    ensures { complained result ≡ when due (trouble_of complaint.entry) }
{
    if due { Some(complaint) } else { None }
}

// Puts the line of a complaint, if there is one.
fn put_some<E: Sink>(waiting: &mut Waiting, err: &mut E, complaint: &Option<Complaint<'_>>)
    ensures { PutsText (E.state err.old) waiting.old (E.state err.new) waiting.new (said (complained complaint.now)) }
{
    match complaint {
        Some(complaint) => put_line(waiting, err, complaint),
        None => {}
    }
}

// Puts the lines of the complaints that there are, in their order.
fn put_lines<E: Sink>(waiting: &mut Waiting, err: &mut E, complaints: &[Option<Complaint<'_>>])
    ensures { PutsText (E.state err.old) waiting.old (E.state err.new) waiting.new
        (flat_map (λ c. said (complained c)) complaints.now) }
{
    'complaints: for complaint in complaints {
        put_some(waiting, err, complaint);
    }
}

/// Tells standard error of the complaints that there are, in their order, and answers the status. That standard error fails
/// changes nothing but that.
pub fn complain_of<E: Sink>(err: &mut E, complaints: &[Option<Complaint<'_>>]) -> Status
    ensures { Complains (flat_map complained complaints.now) (E.state err.old) (E.state err.new) result }
{
    let mut waiting = Waiting::new();
    put_lines(&mut waiting, err, complaints);
    waiting.write_out(err);
    status(complaints)
}

// Tells standard error a text.
fn tell<E: Sink>(err: &mut E, text: &str)
    ensures { Takes (E.state err.old) (E.state err.new) text.now }
{
    let mut waiting = Waiting::new();
    waiting.put_text(err, text);
    waiting.write_out(err);
}

/// Complains of words that are no command, and shows the usage behind that.
pub fn refuse_words<E: Sink>(err: &mut E, usage: &str)
    ensures { Takes (E.state err.old) (E.state err.new) (bad_words_line ++ usage.now) }
{
    let mut waiting = Waiting::new();
    waiting.put_text(err, BAD_WORDS);
    waiting.put_text(err, usage);
    waiting.write_out(err);
}

/// Complains of a want of memory for reading the words.
pub fn refuse_for_memory<E: Sink>(err: &mut E)
    ensures { Takes (E.state err.old) (E.state err.new) (said (no_memory ∷ [])) }
{
    tell(err, NO_MEMORY);
}
