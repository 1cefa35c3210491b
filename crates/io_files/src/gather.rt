//! Gathering small pieces before they are written.
ghost use Rattle.std.specs.Prelude.{◌≡◌, ◌+◌, ◌≤◌, [], length, false, IsTrue, IsErr, OnOk, OnErr, IfErr, ◌↔◌};
ghost use Rattle.mcap_io.specs.Outside.{Adds, AddsPart, RisesOnce};
ghost use Rattle.io_files.specs.Gathered.{Puts};

use mcap_io::{Short, Sink, write_all_of};

// The pieces that wait go to the sink before any later one. Once the sink has failed, nothing more goes to it.
#[derive(Drop)]
pub(crate) struct Gather<K> {
    sink: K,
    waiting: Vec<u8>,
    broken: bool,
}

impl<K: Sink + Drop> Gather<K> {
    // `room` is an empty buffer, whose capacity says how much may wait.
    pub(crate) fn new(sink: K, room: Vec<u8>) -> Self
        requires { room.items ≡ [] }
        ensures sink { result.sink ≡ sink }
        ensures room { result.waiting ≡ room }
        ensures broken { result.broken ≡ false }
    {
        Gather {
            sink,
            waiting: room,
            broken: false,
        }
    }

    // Writes all that waits.
    pub(crate) fn flush(&mut self) -> Result<(), Short>
        ensures written { OnOk result (Adds (K.state self.old.sink).took (K.state self.new.sink).took
            self.old.waiting.items) }
        ensures none_waits { OnOk result (self.new.waiting.items ≡ []) }
        ensures unchanged { OnErr result (self.new.waiting.items ≡ self.old.waiting.items) }
        ensures part { OnErr result (AddsPart (K.state self.old.sink).took (K.state self.new.sink).took 0
            self.old.waiting.items) }
        ensures none_taken { IfErr result (λ short. short.taken ≡ 0) }
        ensures cause { self.old.broken ≡ false
            → OnErr result (RisesOnce (K.state self.old.sink).faults (K.state self.new.sink).faults) }
        ensures still { OnOk result ((K.state self.new.sink).faults ≡ (K.state self.old.sink).faults) }
        ensures broken { IsTrue self.new.broken ↔ IsErr result }
        ensures stays { IsTrue self.old.broken
            → IsErr result × ((K.state self.new.sink).took ≡ (K.state self.old.sink).took) }
    {
        if self.broken {
            return Err(Short { taken: 0 });
        }
        match write_all_of(&mut self.sink, &self.waiting) {
            Ok(()) => {
                self.waiting.clear();
                return Ok(());
            }
            Err(_) => {
                self.broken = true;
                return Err(Short { taken: 0 });
            }
        }
    }

    // Puts the piece behind what waits. Where there is no room for it, all that waits is written first.
    pub(crate) fn put(&mut self, bytes: &[u8]) -> Result<(), Short>
        ensures puts { Puts (K.state self.old.sink).took self.old.waiting.items (K.state self.new.sink).took
            self.new.waiting.items bytes.now result }
        ensures waits { length self.new.waiting.items ≤ length self.old.waiting.items + length bytes.now }
        ensures cause { self.old.broken ≡ false
            → OnErr result (RisesOnce (K.state self.old.sink).faults (K.state self.new.sink).faults) }
        ensures still { OnOk result ((K.state self.new.sink).faults ≡ (K.state self.old.sink).faults) }
        ensures broken { IsTrue self.new.broken ↔ IsErr result }
        ensures stays { IsTrue self.old.broken
            → IsErr result × ((K.state self.new.sink).took ≡ (K.state self.old.sink).took) }
    {
        if !self.broken && bytes.len() <= self.waiting.capacity() - self.waiting.len() {
            self.waiting.extend_from_slice(bytes).unwrap();
            return Ok(());
        }
        match self.flush() {
            Ok(()) => return self.put_first(bytes),
            Err(short) => return Err(short),
        }
    }

    // Writes all that waits, and then the piece.
    pub(crate) fn put_through(&mut self, bytes: &[u8]) -> Result<(), Short>
        ensures puts { Puts (K.state self.old.sink).took self.old.waiting.items (K.state self.new.sink).took
            self.new.waiting.items bytes.now result }
        ensures waits { length self.new.waiting.items ≤ length self.old.waiting.items + length bytes.now }
        ensures none_waits { OnOk result (self.new.waiting.items ≡ []) }
        ensures cause { self.old.broken ≡ false
            → OnErr result (RisesOnce (K.state self.old.sink).faults (K.state self.new.sink).faults) }
        ensures still { OnOk result ((K.state self.new.sink).faults ≡ (K.state self.old.sink).faults) }
        ensures broken { IsTrue self.new.broken ↔ IsErr result }
        ensures stays { IsTrue self.old.broken
            → IsErr result × ((K.state self.new.sink).took ≡ (K.state self.old.sink).took) }
    {
        match self.flush() {
            Ok(()) => return self.write_past(bytes),
            Err(short) => return Err(short),
        }
    }

    // Puts the piece where nothing waits. One that is larger than the room goes past it.
    fn put_first(&mut self, bytes: &[u8]) -> Result<(), Short>
        requires none_waits { self.old.waiting.items ≡ [] }
        requires whole { self.old.broken ≡ false }
        ensures puts { Puts (K.state self.old.sink).took [] (K.state self.new.sink).took self.new.waiting.items
            bytes.now result }
        ensures long { length self.new.waiting.items ≤ length bytes.now }
        ensures cause { OnErr result (RisesOnce (K.state self.old.sink).faults (K.state self.new.sink).faults) }
        ensures still { OnOk result ((K.state self.new.sink).faults ≡ (K.state self.old.sink).faults) }
        ensures broken { IsTrue self.new.broken ↔ IsErr result }
    {
        if bytes.len() <= self.waiting.capacity() - self.waiting.len() {
            self.waiting.extend_from_slice(bytes).unwrap();
            return Ok(());
        }
        self.write_past(bytes)
    }

    // Writes the piece where nothing waits.
    fn write_past(&mut self, bytes: &[u8]) -> Result<(), Short>
        requires none_waits { self.old.waiting.items ≡ [] }
        requires whole { self.old.broken ≡ false }
        ensures puts { Puts (K.state self.old.sink).took [] (K.state self.new.sink).took self.new.waiting.items
            bytes.now result }
        ensures waits { self.new.waiting.items ≡ [] }
        ensures cause { OnErr result (RisesOnce (K.state self.old.sink).faults (K.state self.new.sink).faults) }
        ensures still { OnOk result ((K.state self.new.sink).faults ≡ (K.state self.old.sink).faults) }
        ensures broken { IsTrue self.new.broken ↔ IsErr result }
    {
        match write_all_of(&mut self.sink, bytes) {
            Ok(()) => return Ok(()),
            Err(short) => {
                self.broken = true;
                return Err(short);
            }
        }
    }
}
