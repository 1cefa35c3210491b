//! How often a reader entered, and what it found the last time. The rule of the shelf says nothing else: that what is found is
//! a beginning of one history, the notes on the shelf show.
ghost use Rattle.live_directory.specs.Visits.{no_visits, one_visit};

use crate::front::Added;
use crate::naming::Naming;
use crate::shelf::Shelf;
use crossbeam_utils::rule::{Outcome, Protocol};
use mcap_io::Extent;
use std::collections::LinkedList;

/// What is known of enterings. No value of it is made.
pub struct Visits<X> {
    pub entered: u64,
    pub found: LinkedList<Added<X>>,
}

pub struct Visiting;

impl<X: Extent, J: Naming> Protocol<Shelf<X, J>, Visits<X>> for Visiting {
    ghost use Rattle.live_directory.specs.Visits.{no_visits};

    ghost holds = { λ shelf views. Unit {0} };

    ghost first = { no_visits };
}

/// A reader enters.
pub struct Enter;

impl<X: Extent, J: Naming> Outcome<Shelf<X, J>, Visits<X>> for Enter {
    ghost use Rattle.std.specs.Prelude.{◌≡◌};
    ghost use Rattle.live_directory.specs.Visits.{one_visit};

    ghost then = { λ before shelf same now. now ≡ one_visit before shelf };
}

/// The writer shows what it published.
pub struct Show;

impl<X: Extent, J: Naming> Outcome<Shelf<X, J>, Visits<X>> for Show {
    ghost then = { λ before old new now. Unit {0} };
}
