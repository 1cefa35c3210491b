//! What holds of the layout itself, each law as the contract of a function that does nothing.
ghost use Rattle.std.specs.Prelude.{◌≡◌, List};
ghost use Rattle.mcap_wire.specs.Contents.{Kind};
ghost use Rattle.mcap_wire.specs.ContentReading.{RowReadsBack};
ghost use Rattle.mcap_wire.specs.Layout.{magic};
ghost use Rattle.mcap_wire.specs.Laws.{NumbersReadBack, TextsAreApart, RecordsAreApart};

use crate::faults::MAGIC;

/// A number and its bytes give each other back.
pub fn numbers_read_back()
    ensures { NumbersReadBack }
{}

/// No text begins another, so a text that stands somewhere ends at one place.
pub fn texts_are_apart()
    ensures { TextsAreApart }
{}

/// No record begins another, so a file is cut into records in one way.
pub fn records_are_apart()
    ensures { RecordsAreApart }
{}

/// A row of fields that is written is read back. A content shows one row at most, and where its first fault is told it shows
/// none and has no other.
pub fn rows_read_back()
    ensures { (kinds : List Kind) → RowReadsBack kinds }
{}

/// The magic is the eight bytes of the format.
pub fn magic_is_known()
    ensures { MAGIC ≡ magic }
{}
