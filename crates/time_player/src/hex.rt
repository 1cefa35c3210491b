//! Bytes as hexadecimal digits, in lower case.
ghost use Rattle.std.specs.Prelude.{◌≡◌, ◌+◌, ◌*◌, ◌<◌, ◌≤◌, ◌++◌, length, vec_len, vec_capacity};
ghost use Rattle.std.specs.List.{flat_map};
ghost use Rattle.mcap_wire.specs.Writing.{HasRoom};
ghost use Rattle.time_player.specs.Text.{hex_digit, hex_byte};

use mcap_wire::add_bytes;
use std::simd::prelude::*;

// The digits of the numbers below 16.
const DIGITS: [u8; 16] = *b"0123456789abcdef";

// Two digits of each byte of a block.
#[inline(always)]
fn digits_of(block: u8x16) -> u8x32
    ensures { result ≡ flat_map hex_byte block }
{
    let high = u8x16::from_array(DIGITS).swizzle_dyn_within::<16>(block >> u8x16::splat(4));
    let low = u8x16::from_array(DIGITS).swizzle_dyn_within::<16>(block & u8x16::splat(15));
    high.shuffle::<32>(
        low,
        [
            0, 16, 1, 17, 2, 18, 3, 19, 4, 20, 5, 21, 6, 22, 7, 23, 8, 24, 9, 25, 10, 26, 11, 27,
            12, 28, 13, 29, 14, 30, 15, 31,
        ],
    )
}

// A digit of a number below 16.
fn digit(n: u8) -> u8
    requires { n < 16 }
    ensures { result ≡ hex_digit n }
{
    if n < 10 {
        return b'0' + n;
    }
    return b'a' - 10 + n;
}

// Appends two digits of each byte, byte by byte.
fn add_few(out: &mut Vec<u8>, bytes: &[u8])
    requires { HasRoom out.old (2 * length bytes.now) }
    ensures items { out.new.items ≡ out.old.items ++ flat_map hex_byte bytes.now }
    ensures len { vec_len out.new ≡ vec_len out.old + 2 * length bytes.now }
    ensures capacity { vec_capacity out.old ≤ vec_capacity out.new }
{
    'bytes: for i in 0..bytes.len() {
        let byte = bytes[i];
        add_bytes(out, &[digit(byte >> 4), digit(byte & 15)]);
    }
}

/// Appends two digits of each byte, block by block.
pub(crate) fn add_hex(out: &mut Vec<u8>, bytes: &[u8])
    requires { HasRoom out.old (2 * length bytes.now) }
    ensures items { out.new.items ≡ out.old.items ++ flat_map hex_byte bytes.now }
    ensures len { vec_len out.new ≡ vec_len out.old + 2 * length bytes.now }
    ensures capacity { vec_capacity out.old ≤ vec_capacity out.new }
{
    let mut rest = bytes;
    'pieces: while let Some((block, tail)) = rest.split_first_chunk::<16>() {
        add_bytes(out, &digits_of(u8x16::from_array(*block)).to_array());
        rest = tail;
    }
    add_few(out, rest);
}
