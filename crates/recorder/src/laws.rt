//! Laws of recordings, each as the contract of a function that does nothing.
ghost use Rattle.recorder.specs.Laws.{RecordingsAreReadBack, RecordingsAreValid, HistoriesAreGiven, RecordingsAreGiven, FullBuffersAreNeeded, FullBuffersWereFull, IdsHadRunOut, LosslessRefusesNoneAsFull};
ghost use Rattle.recorder.specs.Entries.{RecordedEntriesFollow, FrontsAreTold, EntriesAreGathered};

use mcap_io::Extent;

/// The file of a recording that was closed is read back as its history.
pub fn recordings_are_read_back()
    ensures { RecordingsAreReadBack }
{}

/// The file of a recording that was closed is valid, fully indexed where chunks were asked for, and within the limits of
/// reading.
pub fn recordings_are_valid()
    ensures { RecordingsAreValid }
{}

/// What the lanes read and the lists of their reports decide the history.
pub fn histories_are_given()
    ensures { HistoriesAreGiven }
{}

/// The bytes of the feeds and the reports on them decide the history.
pub fn recordings_are_given()
    ensures { RecordingsAreGiven }
{}

/// A message is refused for a full buffer only where what was recorded could fill one.
pub fn full_buffers_are_needed()
    ensures { FullBuffersAreNeeded }
{}

/// A message is refused for a full buffer only where the buffer was full when it came.
pub fn full_buffers_were_full()
    ensures { FullBuffersWereFull }
{}

/// A message is refused for want of ids only where they had run out when it came.
pub fn ids_had_run_out()
    ensures { IdsHadRunOut }
{}

/// Where lanes wait for room, no message is refused for a full buffer.
pub fn lossless_refuses_none_as_full()
    ensures { LosslessRefusesNoneAsFull }
{}

/// The entries of the first blocks of a recording follow one another.
pub fn recorded_entries_follow<X: Extent>()
    ensures { RecordedEntriesFollow X.tells }
{}

/// What the entries of first blocks tell has the messages of the file's front that ends with these blocks.
pub fn fronts_are_told<X: Extent>()
    ensures { FrontsAreTold X.tells }
{}

/// The entries that a Scribe gives, one call after another, are those of the blocks of its history.
pub fn entries_are_gathered<X: Extent>()
    ensures { EntriesAreGathered X.tells X.size }
{}
