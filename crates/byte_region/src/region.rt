//! A region: bytes in room that was reserved when it was made.
ghost use Rattle.std.specs.Prelude.{◌≡◌, ◌≤◌, [], length, IfOk};
ghost use Rattle.byte_region.specs.Regions.{empty_region, pushed, spare};

use crate::encode::Encode;
use mcap_wire::Memory;
use std::alloc::Global;
use std::marker::Model;

/// Bytes in room for so many of them, which is reserved once: no other call than the one that makes it takes memory.
/// Contracts see the room and the bytes.
#[derive(Drop)]
pub struct Region {
    room: u64,
    bytes: Vec<u8>,
}

impl Model for Region {
    ghost use Rattle.byte_region.specs.Regions.{RegionView, view_of, IsRegion};

    ghost Value = { RegionView };

    ghost view = { λ r. view_of r.room r.bytes };

    ghost invariant = { λ r. IsRegion r.room r.bytes };
}

impl Region {
    /// An empty region with room for so many bytes.
    pub fn with_room(alloc: Global, room: u64) -> Result<Region, Memory>
        ensures { IfOk result (λ region. region ≡ empty_region room) }
    {
        match Vec::with_capacity(alloc, room as usize) {
            Ok(bytes) => return Ok(Region { room, bytes }),
            Err(_) => return Err(Memory),
        }
    }

    /// Adds bytes that fit.
    #[inline(always)]
    pub fn push(&mut self, bytes: &[u8])
        requires { length bytes.now ≤ spare self.old }
        ensures { self.new ≡ pushed self.old bytes.now }
    {
        match self.bytes.extend_from_slice(bytes) {
            Ok(()) => {}
            Err(_) => unreachable!(),
        }
    }

    /// Adds what fits, in place.
    #[inline(always)]
    pub fn push_encoded<E: Encode>(&mut self, what: &E)
        requires sound { E.is_sound what.now }
        requires fits { length (E.text what.now) ≤ spare self.old }
        ensures { self.new ≡ pushed self.old (E.text what.now) }
    {
        what.encode(&mut self.bytes);
    }

    /// The bytes.
    pub fn bytes(&self) -> &[u8]
        ensures bytes { result.now ≡ self.now.bytes }
        ensures within { length self.now.bytes ≤ self.now.room }
    {
        self.bytes.as_slice()
    }

    /// How many bytes there are.
    pub fn len(&self) -> u64
        ensures len { result ≡ length self.now.bytes }
        ensures within { result ≤ self.now.room }
    {
        self.bytes.len() as u64
    }

    /// For how many bytes more there is room.
    pub fn spare(&self) -> u64
        ensures { result ≡ spare self.now }
    {
        self.room - self.bytes.len() as u64
    }

    /// Drops all bytes. The room stays.
    pub fn clear(&mut self)
        ensures { self.new ≡ empty_region self.old.room }
    {
        self.bytes.clear();
    }
}
