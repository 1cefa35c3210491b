//! Numbers, texts and bytes, read at an offset (MCAP specification, "Serialization").
ghost use Rattle.std.specs.Prelude.{◌≡◌, ◌+◌, ◌<◌, ◌≤◌, take, drop, length, IfOk, IfErr};
ghost use Rattle.mcap_wire.specs.Reading.{ReadsNumber, ReadsText, ReadsBytes};

use crate::faults::Why;
use byteorder::{ByteOrder, LittleEndian};
use std::str;

// The bytes from an offset on.
pub(crate) fn rest_from(bytes: &[u8], at: usize) -> &[u8]
    requires { at ≤ length bytes.now }
    ensures { result.now ≡ drop at bytes.now }
{
    &bytes[at..]
}

/// Reads a byte, and says where it ends.
pub fn take_u8(content: &[u8], at: usize) -> Result<(u8, usize), Why>
    requires { at ≤ length content.now }
    ensures { ReadsNumber 1 content.now at result }
{
    match rest_from(content, at) {
        [byte, ..] => Ok((*byte, at + 1)),
        [] => Err(Why::Short),
    }
}

/// Reads a number of two bytes, and says where it ends.
pub fn take_u16(content: &[u8], at: usize) -> Result<(u16, usize), Why>
    requires { at ≤ length content.now }
    ensures { ReadsNumber 2 content.now at result }
{
    let rest = rest_from(content, at);
    if rest.len() < 2 {
        return Err(Why::Short);
    }
    Ok((LittleEndian::read_u16(rest), at + 2))
}

/// Reads a number of four bytes, and says where it ends.
pub fn take_u32(content: &[u8], at: usize) -> Result<(u32, usize), Why>
    requires { at ≤ length content.now }
    ensures { ReadsNumber 4 content.now at result }
{
    let rest = rest_from(content, at);
    if rest.len() < 4 {
        return Err(Why::Short);
    }
    Ok((LittleEndian::read_u32(rest), at + 4))
}

/// Reads a number of eight bytes, and says where it ends.
pub fn take_u64(content: &[u8], at: usize) -> Result<(u64, usize), Why>
    requires { at ≤ length content.now }
    ensures { ReadsNumber 8 content.now at result }
{
    let rest = rest_from(content, at);
    if rest.len() < 8 {
        return Err(Why::Short);
    }
    Ok((LittleEndian::read_u64(rest), at + 8))
}

/// Reads a text, and says where it ends.
pub fn take_text(content: &[u8], at: usize) -> Result<(&str, usize), Why>
    requires { at ≤ length content.now }
    ensures { ReadsText content.now at result }
{
    let (len, from) = match take_u32(content, at) {
        Ok(read) => read,
        Err(_) => return Err(Why::Short),
    };
    let len = len as usize;
    let rest = rest_from(content, from);
    if rest.len() < len {
        return Err(Why::Short);
    }
    match str::from_utf8(&rest[..len]) {
        Ok(text) => Ok((text, from + len)),
        Err(_) => Err(Why::BadText),
    }
}

// So many bytes from an offset on, and where they end.
fn bytes_from(content: &[u8], from: usize, len: usize) -> Result<(&[u8], usize), Why>
    requires { from ≤ length content.now }
    ensures bytes { IfOk result (λ read. read.0.now ≡ take len (drop from content.now)) }
    ensures end { IfOk result (λ read. read.1 ≡ from + len) }
    ensures within { IfOk result (λ read. read.1 ≤ length content.now) }
    ensures short { IfErr result (λ why. (why ≡ Why.Short) × (length content.now < from + len)) }
{
    let rest = rest_from(content, from);
    if rest.len() < len {
        return Err(Why::Short);
    }
    Ok((&rest[..len], from + len))
}

/// Reads bytes behind their length of four bytes, and says where they end.
pub fn take_bytes32(content: &[u8], at: usize) -> Result<(&[u8], usize), Why>
    requires { at ≤ length content.now }
    ensures { ReadsBytes 4 content.now at result }
{
    let (len, from) = match take_u32(content, at) {
        Ok(read) => read,
        Err(_) => return Err(Why::Short),
    };
    match bytes_from(content, from, len as usize) {
        Ok(read) => Ok(read),
        Err(_) => Err(Why::Short),
    }
}

/// Reads bytes behind their length of eight bytes, and says where they end.
pub fn take_bytes64(content: &[u8], at: usize) -> Result<(&[u8], usize), Why>
    requires { at ≤ length content.now }
    ensures { ReadsBytes 8 content.now at result }
{
    let (len, from) = match take_u64(content, at) {
        Ok(read) => read,
        Err(_) => return Err(Why::Short),
    };
    match bytes_from(content, from, len as usize) {
        Ok(read) => Ok(read),
        Err(_) => Err(Why::Short),
    }
}
