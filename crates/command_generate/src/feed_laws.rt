//! A law of generated feeds, as the contract of a function that does nothing.
ghost use Rattle.command_generate.specs.FeedLaws.{FeedsAreRead};

/// A generated feed is read to its Data End, and its records are those that its numbers say.
pub fn generated_feeds_are_read()
    ensures { FeedsAreRead }
{}
