//! What a command reads of one file, and what it says of that.
ghost use Rattle.std.specs.Prelude.{◌≡◌, List, ℕ, true};
ghost use Rattle.mcap_io.specs.declared.outside.ObjectKind.{ObjectKind};
ghost use Rattle.mcap_io.specs.Outside.{Opening, WorldState};
ghost use Rattle.command_base.specs.ComplaintTroubles.{complained};
ghost use Rattle.command_base.specs.Printing.{Takes};
ghost use Rattle.command_base.specs.Ran.{counted_faults};
ghost use Rattle.command_base.specs.Scenes.{scene};
ghost use Rattle.command_base.specs.OneFile.{Ending, was_read, failing, text_of, troubles_in, is_lack, NameRead, ReadsOne};
ghost use Rattle.command_base.specs.OneFileSteps.{PrintsEnding};
ghost use Rattle.command_base.specs.Readings.{ending_of};
ghost use Rattle.command_base.specs.ReadingSteps.{IsRefusal};

use crate::complaint::Complaint;
use crate::faults::Counts;
use crate::one_file::{answer_file, faults_of};
use crate::statuses::Status;
use mcap_io::{OutsideRefused, Sink, World};

/// What the reading of a file under a name came to.
#[derive(Drop)]
pub enum Reading<T, R> {
    /// The world didn't open it.
    Unopened { why: OutsideRefused },
    /// It was opened, and this came of its reading.
    Opened { came: Result<T, R> },
}

/// What became of a file's name: its reading, and whether the opening, the object or the keeping failed.
#[derive(Drop)]
pub struct ReadName<T, R> {
    pub reading: Reading<T, R>,
    pub failed: bool,
}

/// What a command reads of a file, prints of it and complains of.
pub trait FileReading {
    /// What is read.
    type Read: Drop;
    /// Why nothing is.
    type Refused: Drop;

    /// The text of what was read.
    ghost text: { Self → Self.Read → List ℕ };

    /// How a refusal ends the reading of the file under a name.
    ghost ending: { Self → List ℕ → Self.Refused → Ending };

    /// Prints the text of what was read, and says whether the output failed.
    fn print<O: Sink>(&self, out: &mut O, read: &mut Self::Read) -> bool
        ensures prints { PrintsEnding (O.state out.old) (O.state out.new) (was_read (text self.now read.old)) result }
        ensures takes { Takes (O.state out.old) (O.state out.new) (text self.now read.old) };

    /// The complaint of a refusal: none of a failure, nor of a want of memory, which are told by themselves.
    fn complaint<'a>(&self, file: &'a str, why: &'a Self::Refused) -> Option<Complaint<'a>>
        ensures { complained result ≡ troubles_in (ending self.now file.now why.now) };

    /// Whether it is one for want of memory.
    fn lacks_memory(&self, why: &Self::Refused) -> bool
        ensures { (file : List ℕ) → result ≡ is_lack (ending self.now file why.now) };

    /// A refusal is one whatever the name.
    ghost refuses: { (s : Self) (file : List ℕ) (why : Self.Refused) → IsRefusal (ending s file why) };
}

/// Prints what was read, if something was, and says whether the output failed.
pub fn print_reading<K: FileReading, O: Sink>(
    what: &K,
    out: &mut O,
    reading: &mut Reading<K::Read, K::Refused>,
) -> bool
    ensures prints { (file : List ℕ)
        → PrintsEnding (O.state out.old) (O.state out.new)
        (ending_of (K.text what.now) (K.ending what.now file) reading.old) result }
    ensures takes { (file : List ℕ)
        → Takes (O.state out.old) (O.state out.new) (text_of (ending_of (K.text what.now) (K.ending what.now file)
        reading.old)) }
    ensures halts { (file : List ℕ)
        → troubles_in (ending_of (K.text what.now) (K.ending what.now file) reading.new)
        ≡ troubles_in (ending_of (K.text what.now) (K.ending what.now file) reading.old) }
    ensures lacks { (file : List ℕ)
        → is_lack (ending_of (K.text what.now) (K.ending what.now file) reading.new)
        ≡ is_lack (ending_of (K.text what.now) (K.ending what.now file) reading.old) }
{
    match reading {
        Reading::Opened { came: Ok(read) } => return what.print(out, read),
        Reading::Opened { came: Err(_) } => return false,
        Reading::Unopened { .. } => return false,
    }
}

/// The complaint of why nothing was read, if it is one by itself.
pub fn halt_of<'a, K: FileReading>(
    what: &K,
    file: &'a str,
    reading: &'a Reading<K::Read, K::Refused>,
) -> Option<Complaint<'a>>
    ensures { complained result ≡ troubles_in (ending_of (K.text what.now) (K.ending what.now file.now) reading.now) }
{
    match reading {
        Reading::Opened { came: Err(why) } => return what.complaint(file, why),
        Reading::Opened { came: Ok(_) } => return None,
        Reading::Unopened { .. } => return None,
    }
}

/// Whether memory lacked for a reading, or for the opening.
pub fn has_lacked<K: FileReading>(what: &K, reading: &Reading<K::Read, K::Refused>) -> bool
    ensures { (file : List ℕ) → result ≡ is_lack (ending_of (K.text what.now) (K.ending what.now file) reading.now) }
{
    match reading {
        Reading::Opened { came: Err(why) } => return what.lacks_memory(why),
        Reading::Opened { came: Ok(_) } => return false,
        Reading::Unopened {
            why: OutsideRefused::Memory,
        } => return true,
        Reading::Unopened {
            why: OutsideRefused::Failed,
        } => return false,
    }
}

/// Prints what was read of a file, complains of what halted its reading, of what failed since those counts and of a want of
/// memory, and answers the status that this asks for.
pub fn answer_reading<K: FileReading, W: World, O: Sink, E: Sink>(
    what: &K,
    file: &str,
    before: &Counts,
    read: &mut ReadName<K::Read, K::Refused>,
    world: &W,
    out: &mut O,
    err: &mut E,
) -> Status
    ensures { (kind : ObjectKind) (old : WorldState) (entries : List Opening)
        → before.now ≡ counted_faults old (O.state out.old)
        → NameRead kind file.now old (W.state world.now) entries read.old.failed
        → (ending_of (K.text what.now) (K.ending what.now file.now) read.old.reading ≡ failing → read.old.failed ≡ true)
        → ReadsOne kind file.now (scene old (O.state out.old) (E.state err.old))
        (scene (W.state world.now) (O.state out.new) (E.state err.new)) entries
        (ending_of (K.text what.now) (K.ending what.now file.now) read.old.reading) result }
{
    let broke = print_reading(what, out, &mut read.reading);
    let now = Counts::of(world, out);
    let faults = faults_of(before, &now, read.failed, broke);
    let halt = halt_of(what, file, &read.reading);
    let lacked = has_lacked(what, &read.reading);
    answer_file(err, file, halt, lacked, faults)
}
