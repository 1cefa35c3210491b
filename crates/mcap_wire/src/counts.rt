//! Maps of counts that are seen where they stand, in the bytes of a content or in a list, and their reading and writing
//! (MCAP specification, "Serialization", maps).
ghost use Rattle.std.specs.Prelude.{◌≡◌, ◌+◌, ◌^◌, ◌<◌, ◌≤◌, ◌++◌, length, slice_get, Some, All, MatchBool, vec_len, vec_capacity, OnOk, OnErr};
ghost use Rattle.mcap_wire.specs.Maps.{KeysDiffer};
ghost use Rattle.mcap_wire.specs.MapReading.{HasKey, LacksKey};
ghost use Rattle.mcap_wire.specs.Arrays.{entry_texts, array_text};
ghost use Rattle.mcap_wire.specs.ArrayReading.{ReadsCounts};
ghost use Rattle.mcap_wire.specs.ArrayBytes.{entries_in, HoldsArray, HoldsCounts, CountsCounts};
ghost use Rattle.mcap_wire.specs.Writing.{HasRoom, LacksRoom};

use crate::faults::{Memory, Why};
use crate::marks::{Marks, mark};
use crate::reading::{take_bytes32, take_u16, take_u64};
use crate::room::{add_bytes, add_u16, add_u32, add_u64, make_room};
use std::marker::Model;

/// A map from numbers of two bytes to counts of eight, borrowed: contracts see the list of its pairs, each a key and its
/// count. The keys differ.
#[derive(Drop)]
pub struct CountsRef<'a> {
    place: CountsPlace<'a>,
    count: usize,
}

// Where the counts stand.
#[derive(Clone, Copy)]
enum CountsPlace<'a> {
    Bytes(&'a [u8]),
    List(&'a [(u16, u64)]),
}

impl<'a> Model for CountsRef<'a> {
    ghost use Rattle.std.specs.Prelude.{List, ℕ};

    ghost Value = { List (ℕ × ℕ) };

    ghost use Rattle.mcap_wire.specs.ArrayPlaces.{counts_of, HasCounts};

    ghost view = { λ c. counts_of c.place c.count };

    ghost invariant = { λ c. HasCounts c.place c.count };
}

impl<'a> CountsRef<'a> {
    /// The counts of a list.
    pub fn of(list: &'a [(u16, u64)]) -> CountsRef<'a>
        requires { KeysDiffer list.now }
        ensures { result ≡ list.now }
    {
        CountsRef {
            place: CountsPlace::List(list),
            count: list.len(),
        }
    }

    // The counts that some bytes are.
    fn of_bytes(bytes: &'a [u8], count: usize) -> CountsRef<'a>
        requires { HoldsCounts bytes.now count }
        ensures { result ≡ entries_in 2 count bytes.now }
    {
        CountsRef {
            place: CountsPlace::Bytes(bytes),
            count,
        }
    }

    /// How many counts there are.
    pub fn count(&self) -> usize
        ensures count { result ≡ length self.now }
        ensures keys { KeysDiffer self.now }
    {
        self.count
    }

    /// The key and the count at an index.
    pub fn item(&self, i: usize) -> (u16, u64)
        requires { i < length self.now }
        ensures { slice_get self.now i ≡ Some result }
    {
        match self.place {
            CountsPlace::Bytes(bytes) => count_at(bytes, self.count, i),
            CountsPlace::List(list) => count_of(list, i),
        }
    }

    /// How many bytes the counts take in a map, without its length in front.
    pub fn byte_len(&self) -> usize
        requires { length (entry_texts 2 self.now) < 2 ^ 32 }
        ensures { result ≡ length (entry_texts 2 self.now) }
    {
        let count = self.count();
        10 * count
    }

    // Appends the counts, one behind the other.
    fn add_to(&self, out: &mut Vec<u8>)
        requires { HasRoom out.old (length (entry_texts 2 self.now)) }
        ensures items { out.new.items ≡ out.old.items ++ entry_texts 2 self.now }
        ensures len { vec_len out.new ≡ vec_len out.old + length (entry_texts 2 self.now) }
        ensures capacity { vec_capacity out.old ≤ vec_capacity out.new }
    {
        match self.place {
            CountsPlace::Bytes(bytes) => add_bytes(out, bytes),
            CountsPlace::List(list) => add_list(out, list),
        }
    }
}

// The key and the count at an index of some bytes.
fn count_at(bytes: &[u8], count: usize, i: usize) -> (u16, u64)
    requires counts { HoldsArray 2 bytes.now count }
    requires index { i < count }
    ensures { slice_get (entries_in 2 count bytes.now) i ≡ Some result }
{
    let key = match take_u16(bytes, 10 * i) {
        Ok(read) => read,
        Err(_) => unreachable!(),
    };
    match take_u64(bytes, key.1) {
        Ok(number) => (key.0, number.0),
        Err(_) => unreachable!(),
    }
}

// The key and the count at an index of a list.
fn count_of(list: &[(u16, u64)], i: usize) -> (u16, u64)
    requires { i < length list.now }
    ensures { slice_get list.now i ≡ Some result }
{
    list[i]
}

// Appends a list's counts, one behind the other.
fn add_list(out: &mut Vec<u8>, list: &[(u16, u64)])
    requires { HasRoom out.old (length (entry_texts 2 list.now)) }
    ensures items { out.new.items ≡ out.old.items ++ entry_texts 2 list.now }
    ensures len { vec_len out.new ≡ vec_len out.old + length (entry_texts 2 list.now) }
    ensures capacity { vec_capacity out.old ≤ vec_capacity out.new }
{
    for pair in list {
        add_u16(out, pair.0);
        add_u64(out, pair.1);
    }
}

// Whether no count has this key. A key that isn't below the bound of all others is new, and isn't looked up.
fn is_new(bytes: &[u8], count: usize, bound: u32, key: u16) -> bool
    requires counts { HoldsArray 2 bytes.now count }
    requires order { All (λ p. p.0 < bound) (entries_in 2 count bytes.now) }
    ensures { MatchBool result (LacksKey (entries_in 2 count bytes.now) key) (HasKey (entries_in 2 count bytes.now)
        key) }
{
    if key as u32 >= bound {
        return true;
    }
    for i in 0..count {
        if count_at(bytes, count, i).0 == key {
            return false;
        }
    }
    true
}

/// Appends a map of counts with the length of its counts in front.
pub fn add_counts(out: &mut Vec<u8>, value: &CountsRef<'_>)
    requires fits { length (entry_texts 2 value.now) < 2 ^ 32 }
    requires room { HasRoom out.old (4 + length (entry_texts 2 value.now)) }
    ensures items { out.new.items ≡ out.old.items ++ array_text 2 value.now }
    ensures len { vec_len out.new ≡ vec_len out.old + (4 + length (entry_texts 2 value.now)) }
    ensures capacity { vec_capacity out.old ≤ vec_capacity out.new }
{
    add_u32(out, value.byte_len() as u32);
    value.add_to(out);
}

/// Appends a map of counts with the length of its counts in front.
pub fn put_counts(out: &mut Vec<u8>, value: &CountsRef<'_>) -> Result<(), Memory>
    requires { length (entry_texts 2 value.now) < 2 ^ 32 }
    ensures ok { OnOk result (out.new.items ≡ out.old.items ++ array_text 2 value.now) }
    ensures err { OnErr result (out.new.items ≡ out.old.items) }
    ensures full { OnErr result (LacksRoom out.old (4 + length (entry_texts 2 value.now))) }
    ensures capacity { vec_capacity out.old ≤ vec_capacity out.new }
{
    make_room(out, 4 + value.byte_len())?;
    add_counts(out, value);
    Ok(())
}

// The bytes of so few counts that their keys are compared in place: 16 of them.
const FEW: usize = 160;

// Counts the counts of a map, each key marked in a table. No other function pays for the table on the stack.
#[inline(never)]
fn count_marked(bytes: &[u8]) -> Result<usize, Why>
    ensures { CountsCounts bytes.now result }
{
    let mut marks: Marks = [0; 1024];
    let mut at = 0;
    let mut count = 0;
    while at < bytes.len() {
        let key = match take_u16(bytes, at) {
            Ok(read) => read,
            Err(_) => return Err(Why::BadLength),
        };
        if !mark(&mut marks, key.0) {
            return Err(Why::DoubleKey);
        }
        let number = match take_u64(bytes, key.1) {
            Ok(read) => read,
            Err(_) => return Err(Why::BadLength),
        };
        at = number.1;
        count += 1;
    }
    Ok(count)
}

// Counts the counts of a map. At the first key that doesn't ascend a long map is begun anew with a table.
fn count_counts(bytes: &[u8]) -> Result<usize, Why>
    ensures { CountsCounts bytes.now result }
{
    let mut at = 0;
    let mut count = 0;
    let mut bound: u32 = 0;
    while at < bytes.len() {
        let key = match take_u16(bytes, at) {
            Ok(read) => read,
            Err(_) => return Err(Why::BadLength),
        };
        if bytes.len() > FEW && (key.0 as u32) < bound {
            return count_marked(bytes);
        }
        if !is_new(&bytes[..at], count, bound, key.0) {
            return Err(Why::DoubleKey);
        }
        let number = match take_u64(bytes, key.1) {
            Ok(read) => read,
            Err(_) => return Err(Why::BadLength),
        };
        bound = bound.max(key.0 as u32 + 1);
        at = number.1;
        count += 1;
    }
    Ok(count)
}

/// Reads a map of counts, and says where it ends. A fault is the first from the left: `Short`, where the length is cut short
/// or passes the end; `BadLength`, where the map ends inside a count; `DoubleKey`, where a key stands earlier. Nothing is
/// copied. Each order costs time that grows with the number of counts alone. A map whose keys ascend is read in one pass. Up to
/// 16 counts in another order are compared in place; a longer map is read once more from its front, its keys marked in a
/// table of 8 KB on the stack.
pub fn take_counts(content: &[u8], at: usize) -> Result<(CountsRef<'_>, usize), Why>
    requires { at ≤ length content.now }
    ensures { ReadsCounts content.now at result }
{
    let read = match take_bytes32(content, at) {
        Ok(read) => read,
        Err(_) => return Err(Why::Short),
    };
    match count_counts(read.0) {
        Ok(count) => Ok((CountsRef::of_bytes(read.0, count), read.1)),
        Err(why) => Err(why),
    }
}
