//! Laws of checking, each as the contract of a function that does nothing.
ghost use Rattle.file_check.specs.HaltFlaws.{HaltsAreFlaws, CutsAreFlaws};
ghost use Rattle.file_check.specs.Laws.{LimitsAreReal, ShortFilesMeetNoLimit, WrittenFilesMeetNoLimit, CompressionsExcludeValidity};

/// Where a reading of the bytes in front of the last magic halts, a rule of the file fails.
pub fn halts_are_flaws()
    ensures { HaltsAreFlaws }
{}

/// Where a reading of a file without the last magic halts, a rule of the file fails.
pub fn cuts_are_flaws()
    ensures { CutsAreFlaws }
{}

/// In a file of whole records a check meets a limit only at a record whose content, or whose end, is past a limit of reading.
pub fn limits_are_real()
    ensures { LimitsAreReal }
{}

/// A check of a file of whole records meets no limit where no content is above 256 MiB and the file not above 1 TiB.
pub fn short_files_meet_no_limit()
    ensures { ShortFilesMeetNoLimit }
{}

/// So it is of what is written of a history, with its extras.
pub fn written_files_meet_no_limit()
    ensures { WrittenFilesMeetNoLimit }
{}

/// A file whose reading halts for a compression isn't valid.
pub fn compressions_exclude_validity()
    ensures { CompressionsExcludeValidity }
{}
