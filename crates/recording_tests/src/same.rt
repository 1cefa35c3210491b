//! The end of a test that doesn't find what it wants. It stands in functions, so that the text of a failure is made, and proved,
//! once and not in each test.
ghost use Rattle.std.specs.Prelude.{◌≡◌, true};

use std::fmt::Debug;
use std::process::Abort;

/// Ends the test where this doesn't hold.
pub(crate) fn holds(rt: &impl Abort, holds: bool)
    ensures { holds ≡ true }
{
    assert!(rt; holds);
}

/// The same, saying at which row.
pub(crate) fn holds_at(rt: &impl Abort, holds: bool, at: &impl Debug) {
    assert!(rt; holds, "at {at:?}");
}
