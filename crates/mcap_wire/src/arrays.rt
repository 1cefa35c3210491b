//! Arrays of entries that are seen where they stand, in the bytes of a content or in a list, and their reading and writing
//! (MCAP specification, "Serialization", arrays).
ghost use Rattle.std.specs.Prelude.{◌≡◌, ◌+◌, ◌^◌, ◌<◌, ◌≤◌, ◌++◌, length, slice_get, Some, vec_len, vec_capacity, OnOk, OnErr};
ghost use Rattle.mcap_wire.specs.Arrays.{entry_texts, array_text};
ghost use Rattle.mcap_wire.specs.ArrayReading.{ReadsEntries};
ghost use Rattle.mcap_wire.specs.ArrayBytes.{entries_in, HoldsArray};
ghost use Rattle.mcap_wire.specs.Writing.{HasRoom, LacksRoom};

use crate::faults::{Memory, Why};
use crate::reading::{take_bytes32, take_u64};
use crate::room::{add_bytes, add_u32, add_u64, make_room};
use std::marker::Model;

/// An array of entries, each two numbers of eight bytes, borrowed: contracts see the list of its entries.
#[derive(Drop)]
pub struct EntriesRef<'a> {
    place: EntriesPlace<'a>,
    count: usize,
}

// Where the entries stand.
#[derive(Clone, Copy)]
enum EntriesPlace<'a> {
    Bytes(&'a [u8]),
    List(&'a [(u64, u64)]),
}

impl<'a> Model for EntriesRef<'a> {
    ghost use Rattle.std.specs.Prelude.{List, ℕ};

    ghost Value = { List (ℕ × ℕ) };

    ghost use Rattle.mcap_wire.specs.ArrayPlaces.{entries_there, HasEntries};

    ghost view = { λ e. entries_there e.place e.count };

    ghost invariant = { λ e. HasEntries e.place e.count };
}

impl<'a> EntriesRef<'a> {
    /// The entries of a list.
    pub fn of(list: &'a [(u64, u64)]) -> EntriesRef<'a>
        ensures { result ≡ list.now }
    {
        EntriesRef {
            place: EntriesPlace::List(list),
            count: list.len(),
        }
    }

    // The entries that some bytes are.
    fn of_bytes(bytes: &'a [u8], count: usize) -> EntriesRef<'a>
        requires { HoldsArray 8 bytes.now count }
        ensures { result ≡ entries_in 8 count bytes.now }
    {
        EntriesRef {
            place: EntriesPlace::Bytes(bytes),
            count,
        }
    }

    /// How many entries there are.
    pub fn count(&self) -> usize
        ensures { result ≡ length self.now }
    {
        self.count
    }

    /// The entry at an index.
    pub fn item(&self, i: usize) -> (u64, u64)
        requires { i < length self.now }
        ensures { slice_get self.now i ≡ Some result }
    {
        match self.place {
            EntriesPlace::Bytes(bytes) => entry_at(bytes, self.count, i),
            EntriesPlace::List(list) => entry_of(list, i),
        }
    }

    /// How many bytes the entries take in an array, without its length in front.
    pub fn byte_len(&self) -> usize
        requires { length (entry_texts 8 self.now) < 2 ^ 32 }
        ensures { result ≡ length (entry_texts 8 self.now) }
    {
        let count = self.count();
        16 * count
    }

    // Appends the entries, one behind the other.
    fn add_to(&self, out: &mut Vec<u8>)
        requires { HasRoom out.old (length (entry_texts 8 self.now)) }
        ensures items { out.new.items ≡ out.old.items ++ entry_texts 8 self.now }
        ensures len { vec_len out.new ≡ vec_len out.old + length (entry_texts 8 self.now) }
        ensures capacity { vec_capacity out.old ≤ vec_capacity out.new }
    {
        match self.place {
            EntriesPlace::Bytes(bytes) => add_bytes(out, bytes),
            EntriesPlace::List(list) => add_list(out, list),
        }
    }
}

// The entry at an index of some bytes.
fn entry_at(bytes: &[u8], count: usize, i: usize) -> (u64, u64)
    requires array { HoldsArray 8 bytes.now count }
    requires index { i < count }
    ensures { slice_get (entries_in 8 count bytes.now) i ≡ Some result }
{
    let first = match take_u64(bytes, 16 * i) {
        Ok(read) => read,
        Err(_) => unreachable!(),
    };
    match take_u64(bytes, first.1) {
        Ok(second) => (first.0, second.0),
        Err(_) => unreachable!(),
    }
}

// The entry at an index of a list.
fn entry_of(list: &[(u64, u64)], i: usize) -> (u64, u64)
    requires { i < length list.now }
    ensures { slice_get list.now i ≡ Some result }
{
    list[i]
}

// Appends a list's entries, one behind the other.
fn add_list(out: &mut Vec<u8>, list: &[(u64, u64)])
    requires { HasRoom out.old (length (entry_texts 8 list.now)) }
    ensures items { out.new.items ≡ out.old.items ++ entry_texts 8 list.now }
    ensures len { vec_len out.new ≡ vec_len out.old + length (entry_texts 8 list.now) }
    ensures capacity { vec_capacity out.old ≤ vec_capacity out.new }
{
    for entry in list {
        add_u64(out, entry.0);
        add_u64(out, entry.1);
    }
}

/// Reads an array of entries, and says where it ends. A fault is the first that holds of: the length is cut short or passes
/// the end (`Short`), the length is no multiple of 16 (`BadLength`). Nothing is copied.
pub fn take_entries(content: &[u8], at: usize) -> Result<(EntriesRef<'_>, usize), Why>
    requires { at ≤ length content.now }
    ensures { ReadsEntries content.now at result }
{
    let read = match take_bytes32(content, at) {
        Ok(read) => read,
        Err(_) => return Err(Why::Short),
    };
    let len = read.0.len();
    if len % 16 != 0 {
        return Err(Why::BadLength);
    }
    Ok((EntriesRef::of_bytes(read.0, len / 16), read.1))
}

/// Appends an array with the length of its entries in front.
pub fn add_entries(out: &mut Vec<u8>, value: &EntriesRef<'_>)
    requires fits { length (entry_texts 8 value.now) < 2 ^ 32 }
    requires room { HasRoom out.old (4 + length (entry_texts 8 value.now)) }
    ensures items { out.new.items ≡ out.old.items ++ array_text 8 value.now }
    ensures len { vec_len out.new ≡ vec_len out.old + (4 + length (entry_texts 8 value.now)) }
    ensures capacity { vec_capacity out.old ≤ vec_capacity out.new }
{
    add_u32(out, value.byte_len() as u32);
    value.add_to(out);
}

/// Appends an array with the length of its entries in front.
pub fn put_entries(out: &mut Vec<u8>, value: &EntriesRef<'_>) -> Result<(), Memory>
    requires { length (entry_texts 8 value.now) < 2 ^ 32 }
    ensures ok { OnOk result (out.new.items ≡ out.old.items ++ array_text 8 value.now) }
    ensures err { OnErr result (out.new.items ≡ out.old.items) }
    ensures full { OnErr result (LacksRoom out.old (4 + length (entry_texts 8 value.now))) }
    ensures capacity { vec_capacity out.old ≤ vec_capacity out.new }
{
    make_room(out, 4 + value.byte_len())?;
    add_entries(out, value);
    Ok(())
}
