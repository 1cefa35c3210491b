//! Maps from texts to texts that are seen where they stand: in the bytes of a content, or in a list.
ghost use Rattle.std.specs.Prelude.{◌≡◌, ◌+◌, ◌^◌, ◌<◌, ◌≤◌, ◌++◌, length, slice_get, Some, vec_len, vec_capacity, IfOk};
ghost use Rattle.mcap_wire.specs.Maps.{IsTextMap, pair_texts};
ghost use Rattle.mcap_wire.specs.PairBytes.{pairs_in, HoldsMap};
ghost use Rattle.mcap_wire.specs.Writing.{HasRoom};

use crate::faults::Memory;
use crate::pair_bytes::{copy_bytes, pair_at};
use crate::room::{add_bytes, add_text};
use crate::texts::{Text, copy_pair};
use std::alloc::Global;
use std::marker::Model;

/// A map from texts to texts, borrowed: contracts see the list of its pairs, each a key and its value. The keys differ;
/// each text is UTF-8 and shorter than 2^32 bytes. Only `item` of a map that was read costs a walk.
#[derive(Debug, Drop)]
pub struct PairsRef<'a> {
    place: PairsPlace<'a>,
    count: usize,
}

// Where the pairs stand.
#[derive(Clone, Copy, Debug)]
enum PairsPlace<'a> {
    Bytes(&'a [u8]),
    List(&'a [(Text, Text)]),
}

impl<'a> Model for PairsRef<'a> {
    ghost use Rattle.std.specs.Prelude.{List, ℕ};

    ghost Value = { List (List ℕ × List ℕ) };

    ghost use Rattle.mcap_wire.specs.PairsPlace.{pairs_of, IsPlace};

    ghost view = { λ p. pairs_of p.place p.count };

    ghost invariant = { λ p. IsPlace p.place p.count };
}

impl<'a> PairsRef<'a> {
    /// The pairs of a list.
    pub fn of(list: &'a [(Text, Text)]) -> PairsRef<'a>
        requires { IsTextMap list.now }
        ensures { result ≡ list.now }
    {
        PairsRef {
            place: PairsPlace::List(list),
            count: list.len(),
        }
    }

    // The pairs that some bytes are.
    pub(crate) fn of_bytes(bytes: &'a [u8], count: usize) -> PairsRef<'a>
        requires { HoldsMap bytes.now count }
        ensures { result ≡ pairs_in count bytes.now }
    {
        PairsRef {
            place: PairsPlace::Bytes(bytes),
            count,
        }
    }

    /// How many pairs there are.
    pub fn count(&self) -> usize
        ensures count { result ≡ length self.now }
        ensures map { IsTextMap self.now }
    {
        self.count
    }

    /// The key and the value at an index. Of a map that was read, they are found by walking from the front.
    pub fn item(&self, i: usize) -> (&'a str, &'a str)
        requires { i < length self.now }
        ensures { slice_get self.now i ≡ Some (result.0.now, result.1.now) }
    {
        match self.place {
            PairsPlace::Bytes(bytes) => pair_at(bytes, self.count, i),
            PairsPlace::List(list) => pair_of(list, i),
        }
    }

    /// How many bytes the pairs take in a map, without its length in front.
    pub fn byte_len(&self) -> usize
        requires { length (pair_texts self.now) < 2 ^ 32 }
        ensures { result ≡ length (pair_texts self.now) }
    {
        match self.place {
            PairsPlace::Bytes(bytes) => bytes.len(),
            PairsPlace::List(list) => list_len(list),
        }
    }

    // A copy of the pairs, in their order.
    pub(crate) fn copy(&self, alloc: Global) -> Result<Vec<(Text, Text)>, Memory>
        ensures { IfOk result (λ copy. copy.items ≡ self.now) }
    {
        match self.place {
            PairsPlace::Bytes(bytes) => copy_bytes(alloc, bytes, self.count),
            PairsPlace::List(list) => copy_list(alloc, list),
        }
    }

    // Appends the pairs, one behind the other.
    pub(crate) fn add_to(&self, out: &mut Vec<u8>)
        requires { HasRoom out.old (length (pair_texts self.now)) }
        ensures items { out.new.items ≡ out.old.items ++ pair_texts self.now }
        ensures len { vec_len out.new ≡ vec_len out.old + length (pair_texts self.now) }
        ensures capacity { vec_capacity out.old ≤ vec_capacity out.new }
    {
        match self.place {
            PairsPlace::Bytes(bytes) => add_bytes(out, bytes),
            PairsPlace::List(list) => add_list(out, list),
        }
    }
}

// A copy of a list's pairs.
fn copy_list(alloc: Global, list: &[(Text, Text)]) -> Result<Vec<(Text, Text)>, Memory>
    ensures { IfOk result (λ copy. copy.items ≡ list.now) }
{
    let mut pairs = Vec::with_capacity(alloc, list.len())?;
    for pair in list {
        let copy = copy_pair(alloc, pair.0.as_str(), pair.1.as_str())?;
        pairs.push(copy)?;
    }
    Ok(pairs)
}

// The length of a list's pairs.
fn list_len(list: &[(Text, Text)]) -> usize
    requires { length (pair_texts list.now) < 2 ^ 32 }
    ensures { result ≡ length (pair_texts list.now) }
{
    let mut len = 0;
    for pair in list {
        len += 8 + pair.0.as_str().len() + pair.1.as_str().len();
    }
    len
}

// Appends a list's pairs, one behind the other.
fn add_list(out: &mut Vec<u8>, list: &[(Text, Text)])
    requires map { IsTextMap list.now }
    requires room { HasRoom out.old (length (pair_texts list.now)) }
    ensures items { out.new.items ≡ out.old.items ++ pair_texts list.now }
    ensures len { vec_len out.new ≡ vec_len out.old + length (pair_texts list.now) }
    ensures capacity { vec_capacity out.old ≤ vec_capacity out.new }
{
    for pair in list {
        add_text(out, pair.0.as_str());
        add_text(out, pair.1.as_str());
    }
}

// The pair at an index of a list.
fn pair_of(list: &[(Text, Text)], i: usize) -> (&str, &str)
    requires { i < length list.now }
    ensures { slice_get list.now i ≡ Some (result.0.now, result.1.now) }
{
    let pair = &list[i];
    (pair.0.as_str(), pair.1.as_str())
}
