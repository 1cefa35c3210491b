//! Reading a script, and what it shows of messages.
ghost use Rattle.std.specs.Prelude.{◌≡◌, [], List, ℕ, map, IfOk, IfErr};
ghost use Rattle.play_clock.specs.Times.{TimesRise};
ghost use Rattle.time_player.specs.Stretches.{TimedLine};
ghost use Rattle.command_base.specs.ComplaintTroubles.{complained};
ghost use Rattle.command_base.specs.OneFile.{troubles_in, is_lack};
ghost use Rattle.command_read.specs.Play.{IsScriptRead, IsScriptUnread, script_ending};
ghost use Rattle.command_read.specs.PlaySteps.{times_of_lines, played_ending, Fronts, Unfronts, Shows, Refuses, script_is, script_fails};

use command_base::{Complaint, FileReading, Reading, SourceReading};
use mcap_io::{OutsideRefused, Sink, Source, read_up_to};
use play_clock::{ScriptRefused, play, read_script};
use std::alloc::Global;
use time_player::{Stretch, TimedLines};

/// The most bytes of a script.
const SCRIPT_BYTES: u64 = 67_108_864;

/// For so many bytes memory is taken before one is read.
const SCRIPT_FRONT: u64 = 65_536;

/// Why a script isn't read.
#[derive(Drop)]
pub enum ScriptUnread {
    /// A read failed; the source has failed so often.
    Fault { faults: u64 },
    /// It has more than 67,108,864 bytes.
    TooLong,
    /// The line of that number, from 1, is none, has no newline after it, or comes before the one in front of it.
    BadLine { line: u64 },
    /// It has more than 1,000,000 lines.
    TooMany,
    /// Memory lacked for it. If it has less than 65,536 bytes, either none was read or no line is bad.
    Memory,
}

/// What a script shows of lines whose log times rise.
#[derive(Clone, Copy)]
pub(crate) struct Scripting<'a> {
    alloc: Global,
    lines: &'a TimedLines,
    ghost rise: { TimesRise (times_of_lines lines.now) },
}

// Reads up to `len` bytes.
fn read_front<S: Source>(alloc: Global, source: &mut S, len: u64) -> Result<Vec<u8>, ScriptUnread>
    ensures read { IfOk result (λ bytes. Fronts (S.state source.old) (S.state source.new) len bytes.items) }
    ensures unread { IfErr result (λ why. Unfronts (S.state source.old) (S.state source.new) len why) }
{
    let mut bytes = Vec::new(alloc);
    match read_up_to(source, &mut bytes, len) {
        Ok(()) => return Ok(bytes),
        Err(OutsideRefused::Failed) => return Err(ScriptUnread::Fault {
            faults: source.faults(),
        }),
        Err(OutsideRefused::Memory) => return Err(ScriptUnread::Memory),
    }
}

// Reads a source to its end.
fn read_bytes<S: Source>(alloc: Global, source: &mut S) -> Result<Vec<u8>, ScriptUnread>
    ensures read { IfOk result (λ bytes. IsScriptRead (S.state source.old) (S.state source.new) bytes.items) }
    ensures unread { IfErr result (λ why. IsScriptUnread (S.state source.old) (S.state source.new) why) }
{
    let mut bytes = match read_front(alloc, source, SCRIPT_FRONT) {
        Ok(bytes) => bytes,
        Err(why) => return Err(why),
    };
    if (bytes.len() as u64) < SCRIPT_FRONT {
        return Ok(bytes);
    }
    let more = match read_front(alloc, source, SCRIPT_BYTES + 1 - SCRIPT_FRONT) {
        Ok(more) => more,
        Err(why) => return Err(why),
    };
    if more.len() as u64 > SCRIPT_BYTES - SCRIPT_FRONT {
        return Err(ScriptUnread::TooLong);
    }
    match bytes.extend_from_slice(&more) {
        Ok(()) => return Ok(bytes),
        Err(_) => return Err(ScriptUnread::Memory),
    }
}

impl<'a> Scripting<'a> {
    /// Of these lines.
    pub(crate) fn of(alloc: Global, lines: &'a TimedLines) -> Scripting<'a>
        requires { TimesRise (times_of_lines lines.now) }
        ensures { result.lines.now ≡ lines.now }
    {
        Scripting { alloc, lines }
    }

    // The stretches that the bytes show, where they are a script.
    fn show(&self, bytes: &[u8]) -> Result<Vec<Stretch>, ScriptUnread>
        ensures shows { IfOk result (λ stretches. Shows self.now.lines.now bytes.now stretches.items) }
        ensures refused { IfErr result (λ why. Refuses bytes.now why) }
    {
        let script = match read_script(self.alloc, bytes) {
            Ok(script) => script,
            Err(ScriptRefused::BadLine { line }) => return Err(ScriptUnread::BadLine { line }),
            Err(ScriptRefused::TooMany) => return Err(ScriptUnread::TooMany),
            Err(ScriptRefused::Memory) => return Err(ScriptUnread::Memory),
        };
        match play(self.alloc, self.lines, &script) {
            Ok(stretches) => return Ok(stretches),
            Err(_) => return Err(ScriptUnread::Memory),
        }
    }
}

/// The complaint of why a script isn't read: none of a failure, nor of a lack of memory, which are told by themselves.
pub(crate) fn script_complaint<'a>(script: &'a str, why: &ScriptUnread) -> Option<Complaint<'a>>
    ensures { complained result ≡ troubles_in (script_ending script.now why.now) }
{
    match why {
        ScriptUnread::Fault { .. } => None,
        ScriptUnread::TooLong => Some(Complaint::Limit {
            name: script,
            offset: SCRIPT_BYTES,
        }),
        ScriptUnread::BadLine { line } => Some(Complaint::BadLine {
            name: script,
            line: *line,
        }),
        ScriptUnread::TooMany => Some(Complaint::OutputLimit { name: script }),
        ScriptUnread::Memory => None,
    }
}

/// Whether memory lacked for a script.
pub(crate) fn script_lacks_memory(why: &ScriptUnread) -> bool
    ensures { (script : List ℕ) → result ≡ is_lack (script_ending script why.now) }
{
    match why {
        ScriptUnread::Memory => true,
        ScriptUnread::Fault { .. }
        | ScriptUnread::TooLong
        | ScriptUnread::BadLine { .. }
        | ScriptUnread::TooMany => false,
    }
}

/// The complaint of why a script wasn't read, if it is one by itself.
pub(crate) fn script_halt<'a>(
    script: &'a str,
    reading: &Reading<Vec<Stretch>, ScriptUnread>,
) -> Option<Complaint<'a>>
    ensures { (lines : List TimedLine)
        → complained result ≡ troubles_in (played_ending lines script.now reading.now) }
{
    match reading {
        Reading::Opened { came: Err(why) } => return script_complaint(script, why),
        Reading::Opened { came: Ok(_) } => return None,
        Reading::Unopened { .. } => return None,
    }
}

impl FileReading for Scripting<'_> {
    type Read = Vec<Stretch>;

    type Refused = ScriptUnread;

    // The stretches are printed by the lines that they are of.
    ghost text = { λ s stretches. [] };

    ghost ending = { λ s script why. script_ending script why };

    fn print<O: Sink>(&self, _out: &mut O, _read: &mut Vec<Stretch>) -> bool {
        return false;
    }

    fn complaint<'b>(&self, script: &'b str, why: &'b ScriptUnread) -> Option<Complaint<'b>> {
        script_complaint(script, why)
    }

    fn lacks_memory(&self, why: &ScriptUnread) -> bool {
        script_lacks_memory(why)
    }

    ghost refuses = { λ s script why. script_is script why };
}

impl SourceReading for Scripting<'_> {
    ghost use Rattle.command_read.specs.PlaySteps.{ScriptShows};

    ghost comes = { λ s before now came. ScriptShows s.lines.now before now came };

    // Reads to the end, and takes the memory for the stretches.
    fn read_source<S: Source>(&self, source: &mut S) -> Result<Vec<Stretch>, ScriptUnread> {
        match read_bytes(self.alloc, source) {
            Ok(bytes) => return self.show(&bytes),
            Err(why) => return Err(why),
        }
    }

    ghost fails = { λ s before now script why comes unused e. script_fails s.lines.now before now script why comes unused e };
}
