//! Numbers, texts, bytes and the heads of records, written to the end of a vector. Memory is lacking only where the vector has no
//! room for what is written, and then the vector keeps its bytes; its capacity never shrinks.
ghost use Rattle.std.specs.Prelude.{◌≡◌, ◌+◌, ◌^◌, ◌<◌, ◌≤◌, ◌∷◌, ◌++◌, length, vec_capacity, OnOk, OnErr};
ghost use Rattle.mcap_wire.specs.Layout.{le, string, prefixed};
ghost use Rattle.mcap_wire.specs.Writing.{LacksRoom};

use crate::faults::Memory;
use crate::room::{
    add_bytes, add_bytes32, add_bytes64, add_head, add_text, add_u8, add_u16, add_u32, add_u64,
    make_room,
};

/// Appends these bytes.
pub fn put_bytes(out: &mut Vec<u8>, bytes: &[u8]) -> Result<(), Memory>
    ensures ok { OnOk result (out.new.items ≡ out.old.items ++ bytes.now) }
    ensures err { OnErr result (out.new.items ≡ out.old.items) }
    ensures full { OnErr result (LacksRoom out.old (length bytes.now)) }
    ensures capacity { vec_capacity out.old ≤ vec_capacity out.new }
{
    make_room(out, bytes.len())?;
    add_bytes(out, bytes);
    Ok(())
}

/// Appends a byte.
pub fn put_u8(out: &mut Vec<u8>, value: u8) -> Result<(), Memory>
    ensures ok { OnOk result (out.new.items ≡ out.old.items ++ le 1 value) }
    ensures err { OnErr result (out.new.items ≡ out.old.items) }
    ensures full { OnErr result (LacksRoom out.old 1) }
    ensures capacity { vec_capacity out.old ≤ vec_capacity out.new }
{
    make_room(out, 1)?;
    add_u8(out, value);
    Ok(())
}

/// Appends a number in two bytes.
pub fn put_u16(out: &mut Vec<u8>, value: u16) -> Result<(), Memory>
    ensures ok { OnOk result (out.new.items ≡ out.old.items ++ le 2 value) }
    ensures err { OnErr result (out.new.items ≡ out.old.items) }
    ensures full { OnErr result (LacksRoom out.old 2) }
    ensures capacity { vec_capacity out.old ≤ vec_capacity out.new }
{
    make_room(out, 2)?;
    add_u16(out, value);
    Ok(())
}

/// Appends a number in four bytes.
pub fn put_u32(out: &mut Vec<u8>, value: u32) -> Result<(), Memory>
    ensures ok { OnOk result (out.new.items ≡ out.old.items ++ le 4 value) }
    ensures err { OnErr result (out.new.items ≡ out.old.items) }
    ensures full { OnErr result (LacksRoom out.old 4) }
    ensures capacity { vec_capacity out.old ≤ vec_capacity out.new }
{
    make_room(out, 4)?;
    add_u32(out, value);
    Ok(())
}

/// Appends a number in eight bytes.
pub fn put_u64(out: &mut Vec<u8>, value: u64) -> Result<(), Memory>
    ensures ok { OnOk result (out.new.items ≡ out.old.items ++ le 8 value) }
    ensures err { OnErr result (out.new.items ≡ out.old.items) }
    ensures full { OnErr result (LacksRoom out.old 8) }
    ensures capacity { vec_capacity out.old ≤ vec_capacity out.new }
{
    make_room(out, 8)?;
    add_u64(out, value);
    Ok(())
}

/// Appends a text with its length in front.
pub fn put_text(out: &mut Vec<u8>, value: &str) -> Result<(), Memory>
    requires { length value.now < 2 ^ 32 }
    ensures ok { OnOk result (out.new.items ≡ out.old.items ++ string value.now) }
    ensures err { OnErr result (out.new.items ≡ out.old.items) }
    ensures full { OnErr result (LacksRoom out.old (4 + length value.now)) }
    ensures capacity { vec_capacity out.old ≤ vec_capacity out.new }
{
    make_room(out, 4 + value.len())?;
    add_text(out, value);
    Ok(())
}

/// Appends bytes with their length in four bytes in front.
pub fn put_bytes32(out: &mut Vec<u8>, bytes: &[u8]) -> Result<(), Memory>
    requires { length bytes.now < 2 ^ 32 }
    ensures ok { OnOk result (out.new.items ≡ out.old.items ++ prefixed 4 bytes.now) }
    ensures err { OnErr result (out.new.items ≡ out.old.items) }
    ensures full { OnErr result (LacksRoom out.old (4 + length bytes.now)) }
    ensures capacity { vec_capacity out.old ≤ vec_capacity out.new }
{
    make_room(out, 4 + bytes.len())?;
    add_bytes32(out, bytes);
    Ok(())
}

/// Appends bytes with their length in eight bytes in front.
pub fn put_bytes64(out: &mut Vec<u8>, bytes: &[u8]) -> Result<(), Memory>
    ensures ok { OnOk result (out.new.items ≡ out.old.items ++ prefixed 8 bytes.now) }
    ensures err { OnErr result (out.new.items ≡ out.old.items) }
    ensures full { OnErr result (LacksRoom out.old (8 + length bytes.now)) }
    ensures capacity { vec_capacity out.old ≤ vec_capacity out.new }
{
    make_room(out, 8 + bytes.len())?;
    add_bytes64(out, bytes);
    Ok(())
}

/// Appends the head of a record: its opcode and the length of its content.
pub fn put_head(out: &mut Vec<u8>, op: u8, len: u64) -> Result<(), Memory>
    ensures ok { OnOk result (out.new.items ≡ out.old.items ++ op ∷ le 8 len) }
    ensures err { OnErr result (out.new.items ≡ out.old.items) }
    ensures full { OnErr result (LacksRoom out.old 9) }
    ensures capacity { vec_capacity out.old ≤ vec_capacity out.new }
{
    make_room(out, 9)?;
    add_head(out, op, len);
    Ok(())
}
