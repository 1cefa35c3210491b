//! Printing the messages of a file in the order of their log times.
ghost use Rattle.mcap_model.specs.Plain.{asked_topic};
ghost use Rattle.command_base.specs.Scenes.{scene};
ghost use Rattle.command_base.specs.OneFile.{refusal_ending};
ghost use Rattle.command_base.proofs.Refusals.{refusal_is};
ghost use Rattle.command_read.specs.Cat.{selection, ComesTo, Cats};
ghost use Rattle.command_read.specs.Failing.{cat_fails};

use command_base::{
    Complaint, FileReading, SourceReading, Status, answer_source, lacks_memory, reading_complaint,
};
use mcap_io::{Sink, Source, World};
use mcap_model::{Range, ReadingRefused};
use mcap_wire::Text;
use std::alloc::Global;
use time_player::{Printer, replay_lines};

/// The messages of a file that is scanned: those of these log times, and on that topic, if one is given.
#[derive(Clone, Copy)]
pub struct Scanning<'a> {
    pub alloc: Global,
    pub range: Range,
    pub topic: Option<&'a Text>,
}

impl FileReading for Scanning<'_> {
    type Read = Printer;

    type Refused = ReadingRefused;

    ghost text = { λ s text. text };

    ghost ending = { λ s file why. refusal_ending file why };

    fn print<O: Sink>(&self, out: &mut O, read: &mut Printer) -> bool {
        match read.print(self.alloc, out) {
            Ok(()) => return false,
            Err(_) => return true,
        }
    }

    fn complaint<'a>(&self, file: &'a str, why: &'a ReadingRefused) -> Option<Complaint<'a>> {
        reading_complaint(file, why)
    }

    fn lacks_memory(&self, why: &ReadingRefused) -> bool {
        lacks_memory(why)
    }

    ghost refuses = { λ s file why. refusal_is file why };
}

impl SourceReading for Scanning<'_> {
    ghost comes = { λ s before now came. ComesTo (selection s.range (asked_topic s.topic)) before now came };

    // Reads to the Data End, and takes all the memory that the lines of the messages want.
    fn read_source<S: Source>(&self, source: &mut S) -> Result<Printer, ReadingRefused> {
        replay_lines(self.alloc, source, self.range, self.topic)
    }

    ghost fails = { λ s before now file why comes unused e. cat_fails (selection s.range (asked_topic s.topic)) before
        now file why comes unused e };
}

/// Prints on `out` the messages of the file under the name that lie in the range and on the topic, if one is given, in
/// the order of log time and place, and answers the status: refused where the file breaks a rule or is
/// compressed.
pub fn print_file<W: World, O: Sink, E: Sink>(
    alloc: Global,
    file: &str,
    range: Range,
    topic: Option<&Text>,
    world: &mut W,
    out: &mut O,
    err: &mut E,
) -> Status
    ensures { Cats (selection range (asked_topic topic.entry)) file.now
        (scene (W.state world.old) (O.state out.old) (E.state err.old))
        (scene (W.state world.new) (O.state out.new) (E.state err.new))
        result }
{
    let what = Scanning {
        alloc,
        range,
        topic,
    };
    answer_source(&what, file, world, out, err)
}
