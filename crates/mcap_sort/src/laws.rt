//! What holds of what is written, each law as the contract of a function that does nothing.
ghost use Rattle.mcap_sort.specs.Laws.{MessagesAreReplayed, SortedFilesStaySo};

/// The messages that are written are those of the replay of the whole file, in its order.
pub fn messages_are_replayed()
    ensures { MessagesAreReplayed }
{}

/// The messages of a file that is sorted already are written in its own order.
pub fn sorted_files_stay_so()
    ensures { SortedFilesStaySo }
{}
