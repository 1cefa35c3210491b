//! Which directory it is.
ghost use Rattle.std.specs.Prelude.{◌≡◌, []};
ghost use Rattle.live_directory.specs.Rules.{named_book};

use crate::front::{Added, Front};
use crate::note::{Law, Note, Pages};
use logbook::{Seen, Start, Word};
use mcap_io::Extent;
use std::marker::{Brand, PhantomData};

/// A name for a directory, by which its readers and notes are known for its own. Each call of a program picks it: `Brand`.
pub trait Naming {
    ghost use Rattle.logbook.specs.Pages.{Book};

    ghost book: { Book };
}

impl Naming for Brand {
    ghost book = { record { number = 0; log_name = 0; cells_name = 0 } };
}

/// An empty history that has no name yet.
pub struct Opened<X: Extent> {
    head: Word<Added<X>, u64, Law>,
    /// What is seen of it, which is nothing yet, and its book.
    pub seen: Seen<Added<X>, u64, Law>,
    ghost empty: { seen.log ≡ [] },
    ghost head_is: { head ≡ named_book seen.book },
}

impl<X: Extent> Opened<X> {
    /// A history of its own. The name of a directory that is opened over it has the book of `seen`.
    pub fn new() -> Opened<X> {
        let (seen, mut first, _second) = Seen::open(Start::alone(), 0, 0);
        Opened {
            head: Word::tracked(0, &mut first),
            seen,
        }
    }

    pub(crate) fn named<J: Naming>(self) -> (Pages<X, J>, Note<X, J>)
        requires { self.seen.book ≡ J.book }
        ensures { result.1 ≡ [] }
    {
        let Opened { head, seen } = self;
        (Pages::new(head), Note::none(seen))
    }
}
