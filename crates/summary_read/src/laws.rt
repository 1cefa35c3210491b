//! What holds of the definitions, as the contract of a function that does nothing.
ghost use Rattle.summary_read.specs.Laws.{EndsAreFlaws};

/// A rule that fails on the ends of a file by the few bytes that a loading looks at fails there in the whole file.
pub fn ends_are_flaws()
    ensures { EndsAreFlaws }
{}
