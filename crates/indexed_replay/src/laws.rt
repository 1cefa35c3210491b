//! What holds of the definitions, each law as the contract of a function that does nothing.
ghost use Rattle.indexed_replay.specs.Laws.{FlawlessFilesAreLoaded, FullFilesHaveRoom, LoadsTellFlaws, ReplaysTellFlaws, ValidFilesAreFlawless};

/// A rule for which a summary isn't loaded fails in the file, where its records are whole and in order.
pub fn loads_tell_flaws()
    ensures { LoadsTellFlaws }
{}

/// In a valid file no rule fails.
pub fn valid_files_are_flawless()
    ensures { ValidFilesAreFlawless }
{}

/// A file in which no rule fails and whose Footer names a summary is loaded, unless the store fails, a limit is passed or
/// memory lacks.
pub fn flawless_files_are_loaded()
    ensures { FlawlessFilesAreLoaded }
{}

/// A rule for which a file isn't replayed by its index fails in the file, where its records are whole and in order, its
/// contents and chunks right, and each Chunk Index leads to a record.
pub fn replays_tell_flaws()
    ensures { ReplaysTellFlaws }
{}

/// The messages of a fully indexed file that is read to its Data End have no more data than the file, so the limit on them
/// isn't passed there.
pub fn full_files_have_room()
    ensures { FullFilesHaveRoom }
{}
