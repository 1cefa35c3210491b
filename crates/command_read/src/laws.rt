//! What holds of the line itself, as the contract of a function that does nothing.
ghost use Rattle.command_read.specs.Laws.{OneText};

/// What is told of a file is one text.
pub fn one_text()
    ensures { OneText }
{}
