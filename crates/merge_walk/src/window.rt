//! The window: what is loaded, and how many bytes that is.
ghost use Rattle.std.specs.Prelude.{◌≡◌, ◌↔◌, ◌+◌, ◌≤◌, IsTrue};
ghost use Rattle.mcap_io.specs.StoreAnswers.{ReadsPart};
ghost use Rattle.merge_walk.specs.Parts.{bytes_in, IsPartAt, FillsRoom, FindsLoaded};

use crate::parts::Loadable;
use mcap_io::{Failed, Store};
use mcap_model::ReadingRefused;
use mcap_wire::Bytes;
use std::alloc::Global;
use std::mem;

/// A part that is loaded: of which input, where it stands there, and its bytes.
#[derive(Drop)]
pub(crate) struct Loaded {
    input: u32,
    offset: u64,
    bytes: Bytes,
}

/// Parts of inputs that are loaded, in the order in which they were. The room of the part that was let go last is kept for
/// the next one, so that parts which come one after the other cost no new memory, and no zeros where they are of one length.
#[derive(Drop)]
pub struct Window {
    alloc: Global,
    loaded: Vec<Loaded>,
    held: u64,
    spare: Vec<u8>,
    ghost within: { held ≡ bytes_in loaded.items },
}

// Reads a part into a room, which is as long as the part then.
fn fill_room<T: Store>(
    store: &mut T,
    at: Loadable,
    room: &mut Vec<u8>,
) -> Result<(), ReadingRefused>
    requires { at.offset + at.length ≤ (T.state store.old).known }
    ensures { FillsRoom (T.state store.old) (T.state store.new) at room.new.items result }
{
    match room.resize(at.length as usize, 0) {
        Ok(()) => {}
        Err(_) => return Err(ReadingRefused::Memory),
    }
    match store.read_at(at.offset, room.as_mut_slice()) {
        Ok(()) => return Ok(()),
        Err(Failed) => return Err(ReadingRefused::Fault {
            faults: store.faults(),
        }),
    }
}

// Whether a part is that of the input which begins at the offset.
fn begins_at(part: &Loaded, input: u32, offset: u64) -> bool
    ensures { IsTrue result ↔ IsPartAt input offset part.now }
{
    part.offset == offset && part.input == input
}

// At which place among the loaded parts that one stands, if it is loaded.
fn place_of(loaded: &[Loaded], input: u32, offset: u64) -> Option<usize>
    ensures { FindsLoaded loaded.now input offset result }
{
    'parts: for i in 0..loaded.len() {
        if begins_at(&loaded[i], input, offset) {
            return Some(i);
        }
    }
    return None;
}

impl Window {
    ghost use Rattle.std.specs.Prelude.{[]};
    ghost use Rattle.mcap_model.specs.Places.{Has};
    ghost use Rattle.merge_walk.specs.Parts.{loaded_part, IsPartLoaded, LoadsPart, Releases, LoadsFrom};
    ghost use Rattle.merge_walk.specs.Windows.{loaded_in};

    /// A window in which nothing is loaded.
    pub fn new(alloc: Global) -> Window
        ensures { loaded_in result ≡ [] }
    {
        Window {
            alloc,
            loaded: Vec::new(alloc),
            held: 0,
            spare: Vec::new(alloc),
        }
    }

    /// Loads a part of a store, which isn't loaded yet and lies within the length that the store has answered. Where it is
    /// refused, for a fault of the store or a want of memory, what is loaded stays. No more than the part is asked of the store,
    /// and nothing where memory lacks before.
    pub fn load<T: Store>(&mut self, store: &mut T, at: Loadable) -> Result<(), ReadingRefused>
        requires within { at.offset + at.length ≤ (T.state store.old).known }
        requires unloaded { IsPartLoaded (loaded_in self.old) at.input at.offset → ⊥ }
        ensures loads { LoadsPart (T.state store.old).bytes at (loaded_in self.old) (loaded_in self.new) result }
        ensures store { LoadsFrom (T.state store.old) (T.state store.new) at.length result }
    {
        let held = match self.held.checked_add(at.length) {
            Some(held) => held,
            None => return Err(ReadingRefused::Memory),
        };
        let mut room = mem::replace(&mut self.spare, Vec::new(self.alloc));
        match fill_room(store, at, &mut room) {
            Ok(()) => {}
            Err(why) => {
                self.spare = room;
                return Err(why);
            }
        }
        let part = Loaded {
            input: at.input,
            offset: at.offset,
            bytes: Bytes::new(room),
        };
        match self.loaded.push(part) {
            Ok(()) => {
                self.held = held;
                return Ok(());
            }
            Err(_) => return Err(ReadingRefused::Memory),
        }
    }

    /// Whether a part is loaded.
    pub fn is_loaded(&self, input: u32, offset: u64) -> bool
        ensures { IsTrue result ↔ IsPartLoaded (loaded_in self.now) input offset }
    {
        match place_of(&self.loaded, input, offset) {
            Some(_) => return true,
            None => return false,
        }
    }

    /// The bytes of a part that is loaded.
    pub fn bytes(&self, input: u32, offset: u64) -> &[u8]
        requires { IsPartLoaded (loaded_in self.now) input offset }
        ensures { Has (loaded_in self.now) (loaded_part input offset result.now) }
    {
        match place_of(&self.loaded, input, offset) {
            Some(i) => return self.loaded[i].bytes.as_slice(),
            None => return &[],
        }
    }

    /// Lets a part go that is loaded.
    pub fn release(&mut self, input: u32, offset: u64)
        requires { IsPartLoaded (loaded_in self.old) input offset }
        ensures { Releases input offset (loaded_in self.old) (loaded_in self.new) }
    {
        let i = match place_of(&self.loaded, input, offset) {
            Some(i) => i,
            None => return,
        };
        let part = self.loaded.remove(i);
        let room = part.bytes.into_vec();
        self.held -= room.len() as u64;
        self.spare = room;
    }

    /// How many bytes are loaded.
    pub fn held(&self) -> u64
        ensures { result ≡ bytes_in (loaded_in self.now) }
    {
        return self.held;
    }
}
