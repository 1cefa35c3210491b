//! The two copies of the shelf: their readers and their writer, under the rule of visits.
ghost use Rattle.std.specs.Prelude.{◌≡◌, ◌≤◌, ◌<◌, ◌^◌, ◌++◌, [], drop, IfOk, MatchResult};
ghost use Rattle.left_right.specs.Sides.{view};
ghost use Rattle.live_directory.specs.Visits.{no_visits, one_visit};

use crate::naming::Naming;
use crate::note::Note;
use crate::shelf::{Shelf, Shelved};
use crate::visit::{Enter, Show, Visiting, Visits};
use core::mem::replace_with;
use left_right::reader::{Reader, Reading};
use left_right::writer::Writer;
use mcap_io::Extent;
use mcap_wire::Memory;
use std::alloc::{AllocError, Global};
use std::sync::Wait;

pub type ShelfReader<X, J> = Reader<Shelf<X, J>, Visits<X>, Visiting>;

pub type ShelfReading<X, J> = Reading<Shelf<X, J>, Visits<X>, Visiting>;

pub type ShelfWriter<X, J> = Writer<Shelf<X, J>, Shelved<X, J>, Visits<X>, Visiting>;

// Two empty copies, with room for so many readers.
pub(crate) fn empty_shelf<X: Extent, J: Naming>(
    alloc: Global,
    none: &Note<X, J>,
    readers: usize,
) -> Result<ShelfWriter<X, J>, Memory>
    requires none { none.now ≡ [] }
    requires few { (0 < readers) × (readers < 2 ^ 32) }
    ensures { IfOk result (λ w. (w.desk.shown.value ≡ []) × (drop w.behind w.log.items ≡ [])) }
{
    match Writer::new(
        alloc,
        Shelf::empty(alloc, none),
        Shelf::empty(alloc, none),
        readers,
    ) {
        Ok(writer) => return Ok(writer),
        Err(_) => return Err(Memory),
    }
}

// A reader that never entered.
pub(crate) fn new_place<X: Extent, J: Naming>(
    writer: &ShelfWriter<X, J>,
) -> Result<ShelfReader<X, J>, Memory>
    ensures { IfOk result (λ r. view r.place ≡ no_visits) }
{
    match writer.factory().reader() {
        Ok(reader) => return Ok(reader),
        Err(_) => return Err(Memory),
    }
}

// Tries once to enter. It isn't let in where the writer is gone.
pub(crate) fn enter<X: Extent, J: Naming>(
    reader: ShelfReader<X, J>,
) -> Result<ShelfReading<X, J>, ShelfReader<X, J>>
    ensures { MatchResult result
        (λ r. view r.place ≡ one_visit (view reader.place) r.part.value)
        (λ r. view r.place ≡ view reader.place) }
{
    reader.enter_as::<Enter>()
}

// Shows what is pending, all at once.
pub(crate) fn shown<X: Extent, J: Naming, R: Wait>(
    writer: ShelfWriter<X, J>,
    rt: &R,
) -> (ShelfWriter<X, J>, Result<(), AllocError>)
    ensures { MatchResult result.1
        (λ _. (result.0.desk.shown.value ≡ writer.desk.shown.value ++ drop writer.behind writer.log.items)
        × (drop result.0.behind result.0.log.items ≡ []))
        (λ _. (result.0.desk.shown.value ≡ writer.desk.shown.value)
        × (drop result.0.behind result.0.log.items ≡ drop writer.behind writer.log.items)) }
{
    writer.publish_as::<Show, R>(rt)
}

// The same, in place.
pub(crate) fn show<X: Extent, J: Naming, R: Wait>(
    writer: &mut ShelfWriter<X, J>,
    rt: &R,
) -> Result<(), AllocError>
    ensures { MatchResult result
        (λ _. (writer.new.desk.shown.value ≡ writer.old.desk.shown.value ++ drop writer.old.behind writer.old.log.items)
        × (drop writer.new.behind writer.new.log.items ≡ []))
        (λ _. (writer.new.desk.shown.value ≡ writer.old.desk.shown.value)
        × (drop writer.new.behind writer.new.log.items ≡ drop writer.old.behind writer.old.log.items)) }
{
    replace_with(writer, rt, |writer, rt| shown::<X, J, R>(writer, rt))
}
