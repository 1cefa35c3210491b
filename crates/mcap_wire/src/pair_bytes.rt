//! The pairs of a map, read from its bytes.
ghost use Rattle.std.specs.Prelude.{◌≡◌, ◌+◌, ◌^◌, ◌<◌, ◌≤◌, false, length, slice_get, Some, IfOk, MatchBool};
ghost use Rattle.std.specs.Cmp.Lexicographic.{slice_cmp};
ghost use Rattle.std.specs.Ordering.{nat_cmp, is_gt};
ghost use Rattle.mcap_wire.specs.Reading.{TextAt};
ghost use Rattle.mcap_wire.specs.Layout.{text_length, text_bytes};
ghost use Rattle.mcap_wire.specs.MapReading.{HasKey, LacksKey};
ghost use Rattle.mcap_wire.specs.PairBytes.{pairs_in, SpellsPairs, HoldsMap, NoneAbove, TextStands, CountsPairs, ReadsPairText, IsFirstFault, IsFirstFaultBehind, IsPlaceOf};

use crate::faults::{Memory, Why};
use crate::key_passes::has_double;
use crate::reading::{take_text, take_u32};
use crate::texts::{Text, copy_pair};
use std::alloc::Global;

// Up to how many pairs are looked up in place.
const FEW: usize = 16;

// The bytes of a text that stands there, and where it ends.
pub(crate) fn bytes_there(bytes: &[u8], at: usize) -> (&[u8], usize)
    requires head { at + 4 ≤ length bytes.now }
    requires whole { at + 4 + text_length bytes.now at ≤ length bytes.now }
    ensures text { result.0.now ≡ text_bytes bytes.now at }
    ensures end { result.1 ≡ at + 4 + text_length bytes.now at }
{
    match take_u32(bytes, at) {
        Ok((len, from)) => {
            let end = from + len as usize;
            (&bytes[from..end], end)
        }
        Err(_) => unreachable!(),
    }
}

// Whether one of the pairs has this key. No text is checked again.
fn has_key(bytes: &[u8], count: usize, key: &[u8]) -> bool
    requires { HoldsMap bytes.now count }
    ensures { MatchBool result (HasKey (pairs_in count bytes.now) key.now) (LacksKey (pairs_in count bytes.now)
        key.now) }
{
    let mut at = 0;
    for i in 0..count {
        let (other, middle) = bytes_there(bytes, at);
        if other == key {
            return true;
        }
        let (_, end) = bytes_there(bytes, middle);
        at = end;
    }
    false
}

// Where a key stands that is read behind others: none of them has it, or one has; or it doesn't ascend, and isn't looked up.
#[derive(Drop)]
enum Place {
    New,
    Double,
    Unordered,
}

// Looks for a key among the pairs before it. One above all others is new. Any other is looked up among a few.
fn place_of(bytes: &[u8], count: usize, largest: &[u8], key: &[u8]) -> Place
    requires map { HoldsMap bytes.now count }
    requires order { NoneAbove (pairs_in count bytes.now) largest.now }
    ensures { IsPlaceOf (pairs_in count bytes.now) key.now result }
{
    if key > largest {
        return Place::New;
    }
    if count >= FEW {
        return Place::Unordered;
    }
    if has_key(bytes, count, key) {
        return Place::Double;
    }
    Place::New
}

// The larger of two texts.
fn larger<'a>(one: &'a [u8], other: &'a [u8]) -> &'a [u8]
    ensures one { is_gt (slice_cmp nat_cmp one.now result.now) ≡ false }
    ensures other { is_gt (slice_cmp nat_cmp other.now result.now) ≡ false }
{
    if other > one { other } else { one }
}

// Reads a text of a pair: bytes that end inside it aren't a whole number of pairs.
fn take_part(bytes: &[u8], at: usize) -> Result<(&str, usize), Why>
    requires { at ≤ length bytes.now }
    ensures { ReadsPairText bytes.now at result }
{
    match take_text(bytes, at) {
        Ok(read) => Ok(read),
        Err(Why::Short) => Err(Why::BadLength),
        Err(why) => Err(why),
    }
}

// Why a map is refused whose next key can't be read: a double key stands before it, or this.
fn key_fault(before: &[u8], count: usize, why: Why) -> Why
    requires size { length before.now < 2 ^ 32 }
    requires pairs { SpellsPairs before.now count }
    ensures { IsFirstFault (pairs_in count before.now) why result }
{
    if has_double(before, count) {
        Why::DoubleKey
    } else {
        why
    }
}

// Why a map is refused whose next key is read, and its value can't be.
fn value_fault(before: &[u8], count: usize, key: &[u8], why: Why) -> Why
    requires size { length before.now < 2 ^ 32 }
    requires pairs { SpellsPairs before.now count }
    ensures { IsFirstFaultBehind (pairs_in count before.now) key.now why result }
{
    if has_double(before, count) || has_key(before, count, key) {
        Why::DoubleKey
    } else {
        why
    }
}

// Counts the pairs of a map in any order.
fn count_unordered(bytes: &[u8]) -> Result<usize, Why>
    requires { length bytes.now < 2 ^ 32 }
    ensures { CountsPairs bytes.now result }
{
    let mut at = 0;
    let mut count = 0;
    while at < bytes.len() {
        let (key, middle) = match take_part(bytes, at) {
            Ok(read) => read,
            Err(why) => return Err(key_fault(&bytes[..at], count, why)),
        };
        let (_value, end) = match take_part(bytes, middle) {
            Ok(read) => read,
            Err(why) => return Err(value_fault(&bytes[..at], count, key.as_bytes(), why)),
        };
        at = end;
        count += 1;
    }
    if has_double(bytes, count) {
        return Err(Why::DoubleKey);
    }
    Ok(count)
}

// Counts the pairs. At the first key that doesn't ascend behind some others the map is begun anew.
pub(crate) fn count_pairs(bytes: &[u8]) -> Result<usize, Why>
    requires { length bytes.now < 2 ^ 32 }
    ensures { CountsPairs bytes.now result }
{
    let mut at = 0;
    let mut count = 0;
    let mut largest: &[u8] = &[];
    while at < bytes.len() {
        let (key, middle) = match take_part(bytes, at) {
            Ok(read) => read,
            Err(why) => return Err(why),
        };
        match place_of(&bytes[..at], count, largest, key.as_bytes()) {
            Place::New => {}
            Place::Double => return Err(Why::DoubleKey),
            Place::Unordered => return count_unordered(bytes),
        }
        let (_value, end) = match take_part(bytes, middle) {
            Ok(read) => read,
            Err(why) => return Err(why),
        };
        largest = larger(largest, key.as_bytes());
        at = end;
        count += 1;
    }
    Ok(count)
}

// The text that stands there, and where it ends.
fn text_there(bytes: &[u8], at: usize) -> (&str, usize)
    requires { TextStands bytes.now at }
    ensures { TextAt bytes.now at result.0.now result.1 }
{
    match take_text(bytes, at) {
        Ok(read) => read,
        Err(_) => unreachable!(),
    }
}

// The pair at an index, found by walking from the front.
pub(crate) fn pair_at(bytes: &[u8], count: usize, i: usize) -> (&str, &str)
    requires map { HoldsMap bytes.now count }
    requires index { i < count }
    ensures { slice_get (pairs_in count bytes.now) i ≡ Some (result.0.now, result.1.now) }
{
    let mut at = 0;
    for k in 0..i {
        let (_, middle) = bytes_there(bytes, at);
        let (_, end) = bytes_there(bytes, middle);
        at = end;
    }
    let key = text_there(bytes, at);
    let value = text_there(bytes, key.1);
    (key.0, value.0)
}

// A copy of the pairs, found in one walk.
pub(crate) fn copy_bytes(
    alloc: Global,
    bytes: &[u8],
    count: usize,
) -> Result<Vec<(Text, Text)>, Memory>
    requires { HoldsMap bytes.now count }
    ensures { IfOk result (λ copy. copy.items ≡ pairs_in count bytes.now) }
{
    let mut pairs = Vec::with_capacity(alloc, count)?;
    let mut at = 0;
    for i in 0..count {
        let key = text_there(bytes, at);
        let value = text_there(bytes, key.1);
        let pair = copy_pair(alloc, key.0, value.0)?;
        pairs.push(pair)?;
        at = value.1;
    }
    Ok(pairs)
}
