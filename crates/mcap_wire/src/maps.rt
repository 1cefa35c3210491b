//! Maps of texts, read at an offset and written to the end of a vector (MCAP specification, "Serialization", maps).
ghost use Rattle.std.specs.Prelude.{◌≡◌, ◌+◌, ◌^◌, ◌<◌, ◌≤◌, ◌++◌, length, vec_len, vec_capacity, OnOk, OnErr};
ghost use Rattle.mcap_wire.specs.Maps.{pair_texts, text_map};
ghost use Rattle.mcap_wire.specs.MapReading.{ReadsPairs};
ghost use Rattle.mcap_wire.specs.Writing.{HasRoom, LacksRoom};

use crate::faults::{Memory, Why};
use crate::pair_bytes::count_pairs;
use crate::pairs::PairsRef;
use crate::reading::{rest_from, take_u32};
use crate::room::{add_u32, make_room};

/// Reads a map from texts to texts, and says where it ends. A fault is the first from the left: `Short`, where the length is
/// cut short or passes the end; `BadLength`, where the map ends inside a pair; `BadText`, where a key or a value isn't UTF-8;
/// `DoubleKey`, where a key stands earlier. Nothing is copied. Keys that ascend are read in one pass. The first 16 keys in
/// another order are compared in place; with more of them the map is read once more from its front, and then its keys are
/// gone over once for each 4,096 of them, which a table of 16 KB on the stack holds by turns.
pub fn take_pairs(content: &[u8], at: usize) -> Result<(PairsRef<'_>, usize), Why>
    requires { at ≤ length content.now }
    ensures { ReadsPairs content.now at result }
{
    let (len, from) = match take_u32(content, at) {
        Ok(read) => read,
        Err(_) => return Err(Why::Short),
    };
    let len = len as usize;
    let rest = rest_from(content, from);
    if rest.len() < len {
        return Err(Why::Short);
    }
    let bytes = &rest[..len];
    match count_pairs(bytes) {
        Ok(count) => Ok((PairsRef::of_bytes(bytes, count), from + len)),
        Err(why) => Err(why),
    }
}

/// Appends a map with the length of its pairs in front.
pub fn add_pairs(out: &mut Vec<u8>, value: &PairsRef<'_>)
    requires fits { length (pair_texts value.now) < 2 ^ 32 }
    requires room { HasRoom out.old (4 + length (pair_texts value.now)) }
    ensures items { out.new.items ≡ out.old.items ++ text_map value.now }
    ensures len { vec_len out.new ≡ vec_len out.old + (4 + length (pair_texts value.now)) }
    ensures capacity { vec_capacity out.old ≤ vec_capacity out.new }
{
    add_u32(out, value.byte_len() as u32);
    value.add_to(out);
}

/// Appends a map with the length of its pairs in front.
pub fn put_pairs(out: &mut Vec<u8>, value: &PairsRef<'_>) -> Result<(), Memory>
    requires { length (pair_texts value.now) < 2 ^ 32 }
    ensures ok { OnOk result (out.new.items ≡ out.old.items ++ text_map value.now) }
    ensures err { OnErr result (out.new.items ≡ out.old.items) }
    ensures full { OnErr result (LacksRoom out.old (4 + length (pair_texts value.now))) }
    ensures capacity { vec_capacity out.old ≤ vec_capacity out.new }
{
    make_room(out, 4 + value.byte_len())?;
    add_pairs(out, value);
    Ok(())
}
