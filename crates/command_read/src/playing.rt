//! Playing the messages of a file by a script of moments.
ghost use Rattle.std.specs.Prelude.{◌≡◌, ◌<◌, ◌^◌, [], List, ℕ, false, None};
ghost use Rattle.mcap_io.specs.Outside.{Opening};
ghost use Rattle.mcap_io.specs.declared.outside.ObjectKind.{ObjectKind};
ghost use Rattle.mcap_model.specs.Plain.{asked_topic};
ghost use Rattle.mcap_model.specs.Scan.{Seen};
ghost use Rattle.time_player.specs.Stretches.{timed_lines};
ghost use Rattle.play_clock.specs.Times.{TimesRise};
ghost use Rattle.command_base.specs.Printing.{Takes};
ghost use Rattle.command_base.specs.Ran.{Scene, counts_in};
ghost use Rattle.command_base.specs.Scenes.{scene};
ghost use Rattle.command_base.specs.OneFile.{refusal_ending, text_of, NameRead};
ghost use Rattle.command_base.specs.OneFileSteps.{PrintsEnding};
ghost use Rattle.command_base.proofs.Refusals.{refusal_is};
ghost use Rattle.command_read.specs.Cat.{selection};
ghost use Rattle.command_read.specs.Failing.{cat_fails};
ghost use Rattle.command_read.specs.Play.{PlaysByScript, PlaysFile};
ghost use Rattle.command_read.specs.PlaySteps.{times_of_lines, played_ending, LinesComeTo, LieAmong, IsTakenBack};

use crate::scripting::{ScriptUnread, Scripting, script_halt};
use crate::two_files::{Found, TwoNames, answer_two};
use command_base::{
    Complaint, Counts, FileReading, ReadName, Reading, SourceReading, Status, has_lacked,
    is_failed, lacks_memory, read_source_name, reading_complaint,
};
use mcap_io::{Sink, Source, World};
use mcap_model::{Range, ReadingRefused};
use mcap_wire::Text;
use std::alloc::Global;
use time_player::{Stretch, TimedLines, replay_timed};

/// The messages of a file that is scanned, to be played: those of these log times, and on that topic, if one is given.
#[derive(Clone, Copy)]
pub(crate) struct Replaying<'a> {
    alloc: Global,
    range: Range,
    topic: Option<&'a Text>,
}

impl FileReading for Replaying<'_> {
    type Read = TimedLines;

    type Refused = ReadingRefused;

    // By itself nothing is printed of them.
    ghost text = { λ s lines. [] };

    ghost ending = { λ s file why. refusal_ending file why };

    fn print<O: Sink>(&self, _out: &mut O, _read: &mut TimedLines) -> bool {
        return false;
    }

    fn complaint<'a>(&self, file: &'a str, why: &'a ReadingRefused) -> Option<Complaint<'a>> {
        reading_complaint(file, why)
    }

    fn lacks_memory(&self, why: &ReadingRefused) -> bool {
        lacks_memory(why)
    }

    ghost refuses = { λ s file why. refusal_is file why };
}

impl SourceReading for Replaying<'_> {
    ghost comes = { λ s before now came. LinesComeTo (selection s.range (asked_topic s.topic)) before now came };

    // Reads to the Data End, and takes the memory that printing the lines of the messages takes.
    fn read_source<S: Source>(&self, source: &mut S) -> Result<TimedLines, ReadingRefused> {
        replay_timed(self.alloc, source, self.range, self.topic)
    }

    ghost fails = { λ s before now file why comes unused e. cat_fails (selection s.range (asked_topic s.topic)) before
        now file why comes unused e };
}

// Prints what a script shows of the lines, if it was read, and says whether the output failed.
fn print_played<O: Sink>(
    out: &mut O,
    lines: TimedLines,
    reading: &Reading<Vec<Stretch>, ScriptUnread>,
) -> bool
    requires { LieAmong lines reading.now }
    ensures prints { (script : List ℕ) → PrintsEnding (O.state out.old) (O.state out.new)
        (played_ending lines script reading.now) result }
    ensures takes { (script : List ℕ) → Takes (O.state out.old) (O.state out.new)
        (text_of (played_ending lines script reading.now)) }
{
    match reading {
        Reading::Opened {
            came: Ok(stretches),
        } => match lines.print(out, stretches) {
            Ok(()) => return false,
            Err(_) => return true,
        },
        Reading::Opened { came: Err(_) } => return false,
        Reading::Unopened { .. } => return false,
    }
}

// Reads the script and plays the lines by it; `failed` says whether the file failed that they are of.
fn play_lines<W: World, O: Sink, E: Sink>(
    alloc: Global,
    names: TwoNames<'_>,
    before: &Counts,
    failed: bool,
    lines: TimedLines,
    world: &mut W,
    out: &mut O,
    err: &mut E,
) -> Status
    requires rise { TimesRise (times_of_lines lines) }
    requires world_fits { (W.state world.old).faults < 2 ^ 64 }
    requires inputs_fit { (W.state world.old).input_faults < 2 ^ 64 }
    requires outputs_fit { (W.state world.old).output_faults < 2 ^ 64 }
    ensures { (old : Scene) (entries : List Opening) (shown : List Seen) → before.now ≡ counts_in old
        → O.state out.old ≡ old.out → E.state err.old ≡ old.err → lines ≡ timed_lines shown
        → IsTakenBack names.entry.file.now entries
        → NameRead ObjectKind.Source names.entry.file.now old.world (W.state world.old) entries failed
        → PlaysByScript shown names.entry.file.now names.entry.other.now old
        (scene (W.state world.new) (O.state out.new) (E.state err.new)) entries result }
{
    let what = Scripting::of(alloc, &lines);
    let read = read_source_name(&what, names.other, world);
    let halt = script_halt(names.other, &read.reading);
    let lacked = has_lacked(&what, &read.reading);
    let broke = print_played(out, lines, &read.reading);
    let found = Found {
        file_halt: None,
        other_halt: halt,
        lacked,
        file_failed: failed,
        other_failed: read.failed,
        broke,
    };
    answer_two(names, before, found, world, out, err)
}

// What was found of a file that isn't read: `halt` is why, or it failed, or memory lacked.
fn unread<'a>(halt: Option<Complaint<'a>>, lacked: bool, failed: bool) -> Found<'a>
    ensures file { result.file_halt ≡ halt.entry }
    ensures other { result.other_halt ≡ None }
    ensures lacked { result.lacked ≡ lacked }
    ensures failed { result.file_failed ≡ failed }
    ensures other_failed { result.other_failed ≡ false }
    ensures broke { result.broke ≡ false }
{
    Found {
        file_halt: halt,
        other_halt: None,
        lacked,
        file_failed: failed,
        other_failed: false,
        broke: false,
    }
}

/// Plays the messages of the file that lie in the range and on the topic, if one is given, by the script: for each of its lines
/// `out` takes `moment M COUNT` and the lines of the messages that are due at it. Answers the status: refused where the file
/// breaks a rule or is compressed, or where a line of the script isn't one; a limit where the script is too long. The script is
/// read after the file.
pub fn play_file<W: World, O: Sink, E: Sink>(
    alloc: Global,
    file: &str,
    script: &str,
    range: Range,
    topic: Option<&Text>,
    world: &mut W,
    out: &mut O,
    err: &mut E,
) -> Status
    ensures { PlaysFile (selection range (asked_topic topic.entry)) file.now script.now
        (scene (W.state world.old) (O.state out.old) (E.state err.old))
        (scene (W.state world.new) (O.state out.new) (E.state err.new))
        result }
{
    let what = Replaying {
        alloc,
        range,
        topic,
    };
    let names = TwoNames {
        file,
        other: script,
    };
    let before = Counts::of(world, out);
    let ReadName { reading, failed } = read_source_name(&what, file, world);
    match reading {
        Reading::Opened { came: Ok(lines) } => {
            return play_lines(alloc, names, &before, failed, lines, world, out, err);
        }
        Reading::Opened { came: Err(why) } => {
            let found = unread(reading_complaint(file, &why), lacks_memory(&why), failed);
            return answer_two(names, &before, found, world, out, err);
        }
        Reading::Unopened { why } => {
            let found = unread(None, !is_failed(why), failed);
            return answer_two(names, &before, found, world, out, err);
        }
    }
}
