//! The register, sixteen bytes at a time: one look-up for each byte, and none waits for another.
ghost use Rattle.std.specs.Prelude.{◌≡◌, ◌≤◌, ◌+◌, ◌*◌};
ghost use Rattle.mcap_crc.specs.Register.{shifted_by, register_after};

use crate::bytewise::{self, entry};

/// The register after the four bytes that it holds and `table` zero bytes.
#[inline(always)]
fn after_word(word: u32, table: usize) -> u32
    requires { table + 4 ≤ 16 }
    ensures { result ≡ shifted_by (8 * table + 32) word }
{
    entry(table + 3, word & 0xff)
        ^ entry(table + 2, (word >> 8) & 0xff)
        ^ entry(table + 1, (word >> 16) & 0xff)
        ^ entry(table, word >> 24)
}

/// The register after a block.
#[inline(always)]
pub(crate) fn after_block(register: u32, block: &[u8; 16]) -> u32
    ensures { result ≡ register_after register block.now }
{
    let bits = u128::from_le_bytes(*block) ^ u128::from(register);
    after_word((bits & 0xffff_ffff) as u32, 12)
        ^ after_word(((bits >> 32) & 0xffff_ffff) as u32, 8)
        ^ after_word(((bits >> 64) & 0xffff_ffff) as u32, 4)
        ^ after_word((bits >> 96) as u32, 0)
}

/// The register after `bytes`.
pub(crate) fn after(start: u32, bytes: &[u8]) -> u32
    ensures { result ≡ register_after start bytes.now }
{
    let mut register = start;
    let mut rest = bytes;
    while let Some((block, tail)) = rest.split_first_chunk::<16>() {
        register = after_block(register, block);
        rest = tail;
    }
    bytewise::after(register, rest)
}
