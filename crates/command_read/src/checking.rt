//! Checking a file by all rules of the format.
ghost use Rattle.std.specs.Prelude.{◌≡◌};
ghost use Rattle.command_base.specs.Scenes.{scene};
ghost use Rattle.command_base.specs.OneFile.{refusal_ending};
ghost use Rattle.command_base.proofs.Refusals.{refusal_is};
ghost use Rattle.command_read.specs.Check.{HasAnswer, verdict_line, reading_status, final_status, FileChecks};
ghost use Rattle.command_read.specs.Failing.{check_fails};

use crate::verdict::line_of_verdict;
use command_base::{
    Complaint, Counts, FileReading, Reading, Status, StoreReading, answer_reading, lacks_memory,
    read_store_name, reading_complaint,
};
use file_check::check;
use mcap_io::{Sink, Store, World, write_all_of};
use mcap_model::{ReadingRefused, Verdict};
use std::alloc::Global;

/// The verdict on a file.
#[derive(Clone, Copy)]
pub struct Checking {
    pub alloc: Global,
}

impl FileReading for Checking {
    type Read = Verdict;

    type Refused = ReadingRefused;

    ghost text = { λ s verdict. verdict_line verdict };

    ghost ending = { λ s file why. refusal_ending file why };

    // It takes no memory.
    fn print<O: Sink>(&self, out: &mut O, read: &mut Verdict) -> bool {
        let line = line_of_verdict(*read);
        match write_all_of(out, line.as_bytes()) {
            Ok(()) => return false,
            Err(_) => return true,
        }
    }

    fn complaint<'a>(&self, file: &'a str, why: &'a ReadingRefused) -> Option<Complaint<'a>> {
        reading_complaint(file, why)
    }

    fn lacks_memory(&self, why: &ReadingRefused) -> bool {
        lacks_memory(why)
    }

    ghost refuses = { λ s file why. refusal_is file why };
}

impl StoreReading for Checking {
    ghost comes = { λ s before now came. HasAnswer before now came };

    fn read_store<T: Store>(&self, store: &mut T) -> Result<Verdict, ReadingRefused> {
        check(self.alloc, store)
    }

    ghost fails = { λ s before now file why comes unused e. check_fails before now file why comes unused e };
}

// The status that a verdict asks for where there is nothing to complain of.
fn own_status(reading: &Reading<Verdict, ReadingRefused>) -> Status
    ensures { result ≡ reading_status reading.now }
{
    match reading {
        Reading::Opened {
            came: Ok(Verdict::Flawed { .. }),
        } => Status::Refused,
        Reading::Opened {
            came: Ok(Verdict::Indexed { .. } | Verdict::Plain { .. }),
        } => Status::Done,
        Reading::Opened { came: Err(_) } => Status::Done,
        Reading::Unopened { .. } => Status::Done,
    }
}

// The status of a check whose complaints ask for this one.
fn status_of(complained: Status, own: Status) -> Status
    ensures { result ≡ final_status complained own }
{
    match complained {
        Status::Done => own,
        Status::Refused | Status::Fault | Status::Limit | Status::Memory => complained,
    }
}

/// Checks the file under the name by all rules of the format, prints the verdict on `out`, and answers the status: refused
/// also where the file breaks a rule.
pub fn check_file<W: World, O: Sink, E: Sink>(
    alloc: Global,
    file: &str,
    world: &mut W,
    out: &mut O,
    err: &mut E,
) -> Status
    ensures { FileChecks file.now
        (scene (W.state world.old) (O.state out.old) (E.state err.old))
        (scene (W.state world.new) (O.state out.new) (E.state err.new))
        result }
{
    let what = Checking { alloc };
    let before = Counts::of(world, out);
    let mut read = read_store_name(&what, file, world);
    let own = own_status(&read.reading);
    let complained = answer_reading(&what, file, &before, &mut read, world, out, err);
    status_of(complained, own)
}
