//! The register, a byte at a time.
ghost use Rattle.std.specs.Prelude.{◌≡◌, ◌<◌, ◌+◌, ◌*◌};
ghost use Rattle.mcap_crc.specs.Register.{shifted_by, register_after};

use crate::tables::TABLES;

/// The register after a byte and `table` zero bytes, from an empty register.
#[inline(always)]
pub(crate) fn entry(table: usize, byte: u32) -> u32
    requires in_tables { table < 16 }
    requires in_table { byte < 256 }
    ensures { result ≡ shifted_by (8 * table + 8) byte }
{
    TABLES[table][byte as usize]
}

/// The register after eight bits of 0.
fn shift_byte(register: u32) -> u32
    ensures { result ≡ shifted_by 8 register }
{
    (register >> 8) ^ entry(0, register & 0xff)
}

/// The register after `bytes`.
pub(crate) fn after(start: u32, bytes: &[u8]) -> u32
    ensures { result ≡ register_after start bytes.now }
{
    let mut register = start;
    for byte in bytes {
        register = shift_byte(register ^ u32::from(*byte));
    }
    register
}
