//! CRC-32 as MCAP files carry it in Chunk, Attachment, Data End and Footer, proved to be what is
//! left of a long division of bits.
//!
//! It is zlib's CRC-32: the lowest bit of a byte comes first, and 32 bits are inverted before the
//! division and after it.
#![tactic(auto)]

ghost use Rattle.std.specs.Prelude.{◌≡◌, ℕ, List, [], ◌++◌};
ghost use Rattle.mcap_crc.specs.Remainder.{remainder};
ghost use Rattle.mcap_crc.specs.Checksums.{IsChecksumOf};

mod bytewise;
mod folded;
mod gathered;
pub mod laws;
mod sliced;
mod tables;

use std::marker::Model;

/// The checksum of a message that comes in pieces, however it is cut.
#[derive(Clone, Copy, Debug)]
pub struct Crc {
    value: u32,
}

impl Model for Crc {
    ghost Value = { ℕ };

    ghost view = { λ crc. crc.value };

    ghost inverse = { λ n. record { value = n } };
}

impl Crc {
    /// The checksum before the first byte.
    pub fn new() -> Self
        ensures { IsChecksumOf result [] }
    {
        Crc { value: 0 }
    }

    /// Takes the next piece of the message.
    pub fn update(&mut self, bytes: &[u8])
        ensures { (before : List ℕ) → IsChecksumOf self.old before → IsChecksumOf self.new (before ++ bytes.now) }
    {
        self.value = gathered::after(self.value ^ u32::MAX, bytes) ^ u32::MAX;
    }

    /// The CRC-32 of what came so far.
    pub fn value(&self) -> u32
        ensures number { result ≡ self.now }
        ensures remainder { (bytes : List ℕ) → IsChecksumOf self.now bytes → result ≡ remainder bytes }
    {
        self.value
    }
}

impl Default for Crc {
    ghost is_default = { λ crc. IsChecksumOf crc [] };

    fn default() -> Self {
        Crc::new()
    }
}

/// The CRC-32 of `bytes`.
pub fn crc_of(bytes: &[u8]) -> u32
    ensures { result ≡ remainder bytes.now }
{
    gathered::after(u32::MAX, bytes) ^ u32::MAX
}

/// The same, a byte at a time: the plain side, which the fast one is compared with.
pub fn crc_plain(bytes: &[u8]) -> u32
    ensures { result ≡ remainder bytes.now }
{
    bytewise::after(u32::MAX, bytes) ^ u32::MAX
}
