//! Printing the messages of a file to which its indexes lead.
ghost use Rattle.std.specs.Prelude.{◌≡◌, List, ℕ};
ghost use Rattle.mcap_model.specs.Plain.{asked_topic};
ghost use Rattle.command_base.specs.ComplaintTroubles.{complained};
ghost use Rattle.command_base.specs.Scenes.{scene};
ghost use Rattle.command_base.specs.OneFile.{troubles_in, is_lack};
ghost use Rattle.command_read.specs.Cat.{selection};
ghost use Rattle.command_read.specs.Indexed.{IndexedComesTo, broken_ending, led_ending, IndexedCats};
ghost use Rattle.command_read.specs.Failing.{led_is, led_fails};

use command_base::{Complaint, FileReading, Status, StoreReading, answer_store, reading_complaint};
use indexed_replay::replay_kept;
use mcap_io::{Sink, Store, World};
use mcap_model::{IndexedRefused, Range, ReadingRefused};
use mcap_wire::Text;
use std::alloc::Global;
use time_player::Printer;

/// The messages to which a file's indexes lead: those of these log times, and on that topic, if one is given.
#[derive(Clone, Copy)]
pub struct Following<'a> {
    pub alloc: Global,
    pub range: Range,
    pub topic: Option<&'a Text>,
}

// The complaint of why what the index leads to isn't read. A rule that is broken is told by its number.
fn broken_complaint<'a>(file: &'a str, why: &'a ReadingRefused) -> Option<Complaint<'a>>
    ensures { complained result ≡ troubles_in (broken_ending file.now why.now) }
{
    match why {
        ReadingRefused::Grammar { offset, rule } => Some(Complaint::Flaw {
            name: file,
            rule: *rule,
            offset: *offset,
        }),
        ReadingRefused::Compressed { .. } => reading_complaint(file, why),
        ReadingRefused::Limit { .. } => reading_complaint(file, why),
        ReadingRefused::Fault { .. } | ReadingRefused::Memory => None,
    }
}

// Whether memory lacked for what the index leads to.
fn lacks_so(why: &ReadingRefused) -> bool
    ensures { (file : List ℕ) → result ≡ is_lack (broken_ending file why.now) }
{
    match why {
        ReadingRefused::Memory => true,
        ReadingRefused::Fault { .. }
        | ReadingRefused::Grammar { .. }
        | ReadingRefused::Compressed { .. }
        | ReadingRefused::Limit { .. } => false,
    }
}

impl FileReading for Following<'_> {
    type Read = Printer;

    type Refused = IndexedRefused;

    ghost text = { λ s text. text };

    ghost ending = { λ s file why. led_ending file why };

    fn print<O: Sink>(&self, out: &mut O, read: &mut Printer) -> bool {
        match read.print(self.alloc, out) {
            Ok(()) => return false,
            Err(_) => return true,
        }
    }

    fn complaint<'a>(&self, file: &'a str, why: &'a IndexedRefused) -> Option<Complaint<'a>> {
        match why {
            IndexedRefused::NotIndexed { why } => {
                return Some(Complaint::NotIndexed {
                    name: file,
                    why: *why,
                });
            }
            IndexedRefused::Refused { why } => return broken_complaint(file, why),
        }
    }

    fn lacks_memory(&self, why: &IndexedRefused) -> bool {
        match why {
            IndexedRefused::NotIndexed { .. } => return false,
            IndexedRefused::Refused { why } => return lacks_so(why),
        }
    }

    ghost refuses = { λ s file why. led_is file why };
}

impl StoreReading for Following<'_> {
    ghost comes = { λ s before now came. IndexedComesTo (selection s.range (asked_topic s.topic)) before now came };

    // Takes all the memory that the lines of the messages want.
    fn read_store<T: Store>(&self, store: &mut T) -> Result<Printer, IndexedRefused> {
        let replayed = match replay_kept(self.alloc, store, self.range, self.topic) {
            Ok(replayed) => replayed,
            Err(why) => return Err(why),
        };
        match Printer::of_kept(self.alloc, replayed) {
            Ok(text) => return Ok(text),
            Err(_) => {
                return Err(IndexedRefused::Refused {
                    why: ReadingRefused::Memory,
                });
            }
        }
    }

    ghost fails = { λ s before now file why comes unused e. led_fails (selection s.range (asked_topic s.topic)) before
        now file why comes unused e };
}

/// Prints on `out` the messages to which the indexes of the file under the name lead, that lie in the range and on the
/// topic, if one is given, in the order of log time and place, and answers the status: refused where the file isn't
/// indexed, breaks a rule where it is read, or has a compressed chunk there.
pub fn print_indexed<W: World, O: Sink, E: Sink>(
    alloc: Global,
    file: &str,
    range: Range,
    topic: Option<&Text>,
    world: &mut W,
    out: &mut O,
    err: &mut E,
) -> Status
    ensures { IndexedCats (selection range (asked_topic topic.entry)) file.now
        (scene (W.state world.old) (O.state out.old) (E.state err.old))
        (scene (W.state world.new) (O.state out.new) (E.state err.new))
        result }
{
    let what = Following {
        alloc,
        range,
        topic,
    };
    answer_store(&what, file, world, out, err)
}
