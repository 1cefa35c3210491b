//! A law of recordings, as the contract of a function that does nothing.
ghost use Rattle.command_record.specs.Unwatched.{UnwatchedRecordings};

/// A recording without watchers writes its output as every command does that reads some files and writes one, and looks at no count
/// of watchers.
pub fn unwatched_recordings_write_one_file()
    ensures { UnwatchedRecordings }
{}
