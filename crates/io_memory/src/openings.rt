//! The log of a memory world: its openings, and how each object was taken back.
ghost use Rattle.std.specs.Prelude.{◌≡◌, ◌+◌, ◌≤◌, ◌++◌, ◌∷◌, ◌↔◌, [], length, map, vec_capacity, string_bytes, None, IfOk, IsTrue};
ghost use Rattle.mcap_io.specs.OutsideCalls.{IsOut, Notes};
ghost use Rattle.io_memory.specs.Standing.{shown, shown_keeping, NewestAt};

use crate::memory::QuietSource;
use mcap_io::ObjectKind;
use std::alloc::{AllocError, Global};

/// How an object was taken back: whether that went well, how often the object had failed, what is left of it, if it is a
/// source, and how many bytes it was asked for, if it is a store; 0 of others.
#[derive(Drop)]
pub struct Kept {
    pub well: bool,
    pub faults: u64,
    pub rest: Option<QuietSource>,
    pub asked: u128,
}

/// An opening: of what, under which name, whether it gave an object, and how that was taken back, once it was.
#[derive(Drop)]
pub struct Opened {
    pub kind: ObjectKind,
    pub name: String,
    pub given: bool,
    pub kept: Option<Kept>,
}

impl Opened {
    // Whether an object of that kind is out, under that name.
    fn is_out(&self, kind: ObjectKind, name: &str) -> bool
        ensures { IsTrue result ↔ IsOut kind name.now (shown self.now) }
    {
        self.kind == kind && self.given && self.kept.is_none() && self.name.as_str() == name
    }
}

// Makes room for one more opening, of this name, and gives a copy of the name.
pub(crate) fn make_room(
    alloc: Global,
    log: &mut Vec<Opened>,
    name: &str,
) -> Result<String, AllocError>
    ensures items { log.new.items ≡ log.old.items }
    ensures room { IfOk result (λ copy. length log.new.items + 1 ≤ vec_capacity log.new) }
    ensures name { IfOk result (λ copy. string_bytes copy ≡ name.now) }
{
    let copy = String::from_str(alloc, name)?;
    log.reserve(1)?;
    Ok(copy)
}

// Lists an opening in the room that there is.
pub(crate) fn list(log: &mut Vec<Opened>, kind: ObjectKind, name: String, given: bool)
    requires room { length log.old.items + 1 ≤ vec_capacity log.old }
    ensures { log.new.items ≡ log.old.items ++ record { kind = kind; name = name; given = given; kept = None } ∷ [] }
{
    log.push(Opened {
        kind,
        name,
        given,
        kept: None,
    })
    .unwrap();
}

// The place of the newest opening whose object is out.
fn newest_out(log: &[Opened], kind: ObjectKind, name: &str) -> Option<usize>
    ensures { NewestAt log.now kind name.now result }
{
    let mut at = log.len();
    'walk: while 0 < at {
        at -= 1;
        if log[at].is_out(kind, name) {
            return Some(at);
        }
    }
    None
}

// Notes how an object was taken back. It takes no memory.
pub(crate) fn note(log: &mut Vec<Opened>, kind: ObjectKind, name: &str, kept: Kept)
    ensures { Notes (map shown log.old.items) (map shown log.new.items) kind name.now (shown_keeping kept) }
{
    if let Some(at) = newest_out(log, kind, name) {
        log[at].kept = Some(kept);
    }
}
