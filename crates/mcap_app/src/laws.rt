//! Laws of the commands, each as the contract of a function that does nothing.
ghost use Rattle.mcap_app.specs.Completeness.{PrintingsSucceed, IndexedPrintingsSucceed, TellingsSucceed, ChecksSucceed, PlaysSucceed, RecoveriesSucceed, FiltersSucceed, MergesSucceed, RecordingLimitsAreReal, RecordingsSucceed, GenerationsSucceed};
ghost use Rattle.mcap_app.specs.Readable.{RecoveriesArePrinted, MergesArePrinted};
ghost use Rattle.mcap_app.specs.Laws.{RecordingsArePrinted, RecordingsAreSound, RecoveriesAreSound, MergesAreSound, RecordingsLeaveFirstParts, RecordingsAreRecovered, WatchFilesHoldMessages};

use mcap_laws::{parts_are_repaired, repairs_can_be_written, repairs_keep_rules};
use play_clock::scripts_have_no_bad_line;

/// What was recorded, where all was done, is printed, unless a count rises or memory lacks.
pub fn recordings_are_printed()
    ensures { RecordingsArePrinted }
{}

/// What was recorded, where all was done, is checked as fully indexed where it is in chunks, and else as valid, unless a count
/// rises or memory lacks.
pub fn recordings_are_sound()
    ensures { RecordingsAreSound }
{}

/// What is recovered, where all was done, is a valid and fully indexed file, where it has fewer than 2^32 Attachments and fewer
/// than 2^32 Metadata.
pub fn recoveries_are_sound()
    ensures { RecoveriesAreSound }
{
    repairs_can_be_written();
}

/// What is merged, where all was done, is a valid and fully indexed file of all messages of the inputs, where these have fewer than
/// 2^32 Attachments and fewer than 2^32 Metadata.
pub fn merges_are_sound()
    ensures { MergesAreSound }
{}

/// What is recovered, where all was done, is printed, unless a count rises or memory lacks.
pub fn recoveries_are_printed()
    ensures { RecoveriesArePrinted }
{
    repairs_keep_rules();
}

/// What is merged, where all was done, is printed, unless a count rises or memory lacks.
pub fn merges_are_printed()
    ensures { MergesArePrinted }
{}

/// A recording whose output was kept leaves a first part of its file, with the magic where it accepted a record.
pub fn recordings_leave_first_parts()
    ensures { RecordingsLeaveFirstParts }
{}

/// Of a first part of a recording's file, whatever stopped its writer, just the records that are whole there are recovered, and
/// checked as fully indexed, unless a count rises, a limit is passed or memory lacks; and a part without the magic is refused.
pub fn recordings_are_recovered()
    ensures { RecordingsAreRecovered }
{
    parts_are_repaired();
}

/// Where all was done each watch file ends with the line of the end and the lines of all recorded messages of the range.
pub fn watch_files_hold_messages()
    ensures { WatchFilesHoldMessages }
{}

// ---- where nothing fails all is done

/// A file that is read to its Data End is printed, unless a count rises or the program runs out of memory.
pub fn printings_succeed()
    ensures { PrintingsSucceed }
{}

/// A fully indexed one is printed by its indexes, unless a count rises, a limit is passed or the program runs out of memory.
pub fn indexed_printings_succeed()
    ensures { IndexedPrintingsSucceed }
{}

/// A file in which no rule fails and whose summary has Statistics is told of, unless a count rises, a limit is passed or the
/// program runs out of memory.
pub fn tellings_succeed()
    ensures { TellingsSucceed }
{}

/// A valid file is found so, unless a count rises, a limit is passed or the program runs out of memory.
pub fn checks_succeed()
    ensures { ChecksSucceed }
{}

/// A file that is read to its Data End is played by a script, unless a count rises or the program runs out of memory.
pub fn plays_succeed()
    ensures { PlaysSucceed }
{
    scripts_have_no_bad_line();
}

/// Of a file that begins with the magic what is whole is recovered, unless a count rises, a limit is passed or the program runs
/// out of memory.
pub fn recoveries_succeed()
    ensures { RecoveriesSucceed }
{}

/// A file that is read to its Data End is filtered, unless a count rises, a limit is passed or the program runs out of memory.
pub fn filters_succeed()
    ensures { FiltersSucceed }
{}

/// Files that are read to their Data Ends are merged, unless a count rises, a limit is passed or the program runs out of memory.
pub fn merges_succeed()
    ensures { MergesSucceed }
{}

/// A report tells of a limit only where the file, a message, a declaration, the ids or the number of records would pass one.
pub fn recording_limits_are_real()
    ensures { RecordingLimitsAreReal }
{}

/// Feeds that are read to their Data Ends are recorded, beside any number of watchers, unless a count rises, a limit is passed or
/// the program runs out of memory.
pub fn recordings_succeed()
    ensures { RecordingsSucceed }
{}

/// Feeds that are generated are recorded and read back, unless a count rises, a limit is passed or the program runs out of memory.
pub fn generations_succeed()
    ensures { GenerationsSucceed }
{}
