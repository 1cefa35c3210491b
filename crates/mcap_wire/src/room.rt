//! Room in a vector, and numbers, texts, bytes and the heads of records that are written into it. A caller that makes room for a
//! whole record first writes its fields with no further refusal.
ghost use Rattle.std.specs.Prelude.{◌≡◌, ◌+◌, ◌^◌, ◌<◌, ◌≤◌, ◌∷◌, ◌++◌, length, vec_len, vec_capacity, OnOk, OnErr};
ghost use Rattle.mcap_wire.specs.Layout.{le, string, prefixed};
ghost use Rattle.mcap_wire.specs.Writing.{HasRoom, LacksRoom};

use crate::faults::Memory;
use byteorder::{ByteOrder, LittleEndian};

/// Makes room for some bytes more. The bytes stay; the capacity never shrinks.
pub fn make_room(out: &mut Vec<u8>, more: usize) -> Result<(), Memory>
    ensures items { out.new.items ≡ out.old.items }
    ensures len { vec_len out.new ≡ vec_len out.old }
    ensures ok { OnOk result (HasRoom out.new more) }
    ensures full { OnErr result (LacksRoom out.old more) }
    ensures capacity { vec_capacity out.old ≤ vec_capacity out.new }
{
    match out.reserve(more) {
        Ok(()) => Ok(()),
        Err(_) => Err(Memory),
    }
}

/// Appends these bytes.
pub fn add_bytes(out: &mut Vec<u8>, bytes: &[u8])
    requires { HasRoom out.old (length bytes.now) }
    ensures items { out.new.items ≡ out.old.items ++ bytes.now }
    ensures len { vec_len out.new ≡ vec_len out.old + length bytes.now }
    ensures capacity { vec_capacity out.old ≤ vec_capacity out.new }
{
    out.extend_from_slice(bytes).unwrap();
}

/// Appends a byte.
pub fn add_u8(out: &mut Vec<u8>, value: u8)
    requires { HasRoom out.old 1 }
    ensures items { out.new.items ≡ out.old.items ++ le 1 value }
    ensures len { vec_len out.new ≡ vec_len out.old + 1 }
    ensures capacity { vec_capacity out.old ≤ vec_capacity out.new }
{
    add_bytes(out, &[value]);
}

/// Appends a number in two bytes.
pub fn add_u16(out: &mut Vec<u8>, value: u16)
    requires { HasRoom out.old 2 }
    ensures items { out.new.items ≡ out.old.items ++ le 2 value }
    ensures len { vec_len out.new ≡ vec_len out.old + 2 }
    ensures capacity { vec_capacity out.old ≤ vec_capacity out.new }
{
    let mut bytes = [0; 2];
    LittleEndian::write_u16(&mut bytes, value);
    add_bytes(out, &bytes);
}

/// Appends a number in four bytes.
pub fn add_u32(out: &mut Vec<u8>, value: u32)
    requires { HasRoom out.old 4 }
    ensures items { out.new.items ≡ out.old.items ++ le 4 value }
    ensures len { vec_len out.new ≡ vec_len out.old + 4 }
    ensures capacity { vec_capacity out.old ≤ vec_capacity out.new }
{
    let mut bytes = [0; 4];
    LittleEndian::write_u32(&mut bytes, value);
    add_bytes(out, &bytes);
}

/// Appends a number in eight bytes.
pub fn add_u64(out: &mut Vec<u8>, value: u64)
    requires { HasRoom out.old 8 }
    ensures items { out.new.items ≡ out.old.items ++ le 8 value }
    ensures len { vec_len out.new ≡ vec_len out.old + 8 }
    ensures capacity { vec_capacity out.old ≤ vec_capacity out.new }
{
    let mut bytes = [0; 8];
    LittleEndian::write_u64(&mut bytes, value);
    add_bytes(out, &bytes);
}

/// Appends a text with its length in front.
pub fn add_text(out: &mut Vec<u8>, value: &str)
    requires fits { length value.now < 2 ^ 32 }
    requires room { HasRoom out.old (4 + length value.now) }
    ensures items { out.new.items ≡ out.old.items ++ string value.now }
    ensures len { vec_len out.new ≡ vec_len out.old + (4 + length value.now) }
    ensures capacity { vec_capacity out.old ≤ vec_capacity out.new }
{
    add_u32(out, value.len() as u32);
    add_bytes(out, value.as_bytes());
}

/// Appends bytes with their length in four bytes in front.
pub fn add_bytes32(out: &mut Vec<u8>, bytes: &[u8])
    requires fits { length bytes.now < 2 ^ 32 }
    requires room { HasRoom out.old (4 + length bytes.now) }
    ensures items { out.new.items ≡ out.old.items ++ prefixed 4 bytes.now }
    ensures len { vec_len out.new ≡ vec_len out.old + (4 + length bytes.now) }
    ensures capacity { vec_capacity out.old ≤ vec_capacity out.new }
{
    add_u32(out, bytes.len() as u32);
    add_bytes(out, bytes);
}

/// Appends bytes with their length in eight bytes in front.
pub fn add_bytes64(out: &mut Vec<u8>, bytes: &[u8])
    requires { HasRoom out.old (8 + length bytes.now) }
    ensures items { out.new.items ≡ out.old.items ++ prefixed 8 bytes.now }
    ensures len { vec_len out.new ≡ vec_len out.old + (8 + length bytes.now) }
    ensures capacity { vec_capacity out.old ≤ vec_capacity out.new }
{
    add_u64(out, bytes.len() as u64);
    add_bytes(out, bytes);
}

/// Appends the head of a record: its opcode and the length of its content.
pub fn add_head(out: &mut Vec<u8>, op: u8, len: u64)
    requires { HasRoom out.old 9 }
    ensures items { out.new.items ≡ out.old.items ++ op ∷ le 8 len }
    ensures len { vec_len out.new ≡ vec_len out.old + 9 }
    ensures capacity { vec_capacity out.old ≤ vec_capacity out.new }
{
    add_u8(out, op);
    add_u64(out, len);
}
