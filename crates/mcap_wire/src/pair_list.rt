//! Maps of texts that own their pairs.
ghost use Rattle.std.specs.Prelude.{◌≡◌, IfOk, IsPermutation};
ghost use Rattle.std.specs.Bool.{OnTrue};
ghost use Rattle.mcap_wire.specs.Maps.{IsTextMap, KeysAscend};

use crate::faults::Memory;
use crate::pairs::PairsRef;
use crate::texts::Text;
use std::alloc::Global;
use std::cmp::Ordering;
use std::marker::Model;

/// A map of texts of its own, in any order. Contracts see the list of its pairs. The keys differ; each text is UTF-8 and
/// shorter than 2^32 bytes.
#[derive(Debug, Drop)]
pub struct PairList {
    pairs: Vec<(Text, Text)>,
}

impl Model for PairList {
    ghost use Rattle.std.specs.Prelude.{List, ℕ};

    ghost Value = { List (List ℕ × List ℕ) };

    ghost use Rattle.mcap_wire.specs.Maps.{IsTextMap};

    ghost view = { λ p. p.pairs.items };

    ghost invariant = { λ p. IsTextMap p.pairs.items };
}

impl PairList {
    /// A copy of a map, its pairs in their order.
    pub fn copied(alloc: Global, pairs: &PairsRef<'_>) -> Result<PairList, Memory>
        ensures { IfOk result (λ copy. copy ≡ pairs.now) }
    {
        let _count = pairs.count();
        match pairs.copy(alloc) {
            Ok(pairs) => Ok(PairList { pairs }),
            Err(memory) => Err(memory),
        }
    }

    /// The pairs, each its key and its value.
    pub fn as_slice(&self) -> &[(Text, Text)]
        ensures same { result.now ≡ self.now }
        ensures map { IsTextMap self.now }
    {
        self.pairs.as_slice()
    }

    /// The pairs, given back with their room.
    pub fn into_vec(self) -> Vec<(Text, Text)>
        ensures same { result.items ≡ self }
        ensures map { IsTextMap self }
    {
        self.pairs
    }
}

/// A map of texts of its own, its keys in strictly ascending order of their bytes. Contracts see the list of its pairs.
/// Each text is UTF-8 and shorter than 2^32 bytes.
#[derive(Debug, Drop)]
pub struct Pairs {
    pairs: Vec<(Text, Text)>,
}

impl Model for Pairs {
    ghost use Rattle.std.specs.Prelude.{List, ℕ};

    ghost Value = { List (List ℕ × List ℕ) };

    ghost use Rattle.mcap_wire.specs.Maps.{IsTextMap, KeysAscend};

    ghost view = { λ p. p.pairs.items };

    ghost invariant = { λ p. IsTextMap p.pairs.items × KeysAscend p.pairs.items };
}

impl Pairs {
    /// A copy of a map.
    pub fn copied(alloc: Global, pairs: &Pairs) -> Result<Pairs, Memory>
        ensures { IfOk result (λ copy. copy ≡ pairs.now) }
    {
        match PairsRef::of(pairs.as_slice()).copy(alloc) {
            Ok(pairs) => Ok(Pairs { pairs }),
            Err(memory) => Err(memory),
        }
    }

    /// A copy of a map, its keys in ascending order. Pairs that are in order already are only copied.
    pub fn sorted(alloc: Global, pairs: &PairsRef<'_>) -> Result<Pairs, Memory>
        ensures { IfOk result (λ sorted. IsPermutation pairs.now sorted) }
    {
        let _count = pairs.count();
        match pairs.copy(alloc) {
            Ok(copy) => match in_order(copy) {
                Ok(pairs) => Ok(Pairs { pairs }),
                Err(memory) => Err(memory),
            },
            Err(memory) => Err(memory),
        }
    }

    /// The pairs, each its key and its value.
    pub fn as_slice(&self) -> &[(Text, Text)]
        ensures same { result.now ≡ self.now }
        ensures map { IsTextMap self.now }
        ensures order { KeysAscend self.now }
    {
        self.pairs.as_slice()
    }

    /// The pairs, given back with their room.
    pub fn into_vec(self) -> Vec<(Text, Text)>
        ensures same { result.items ≡ self }
        ensures map { IsTextMap self }
        ensures order { KeysAscend self }
    {
        self.pairs
    }
}

// Whether the keys ascend, each to the next.
fn ascends(list: &[(Text, Text)]) -> bool
    ensures { OnTrue result (KeysAscend list.now) }
{
    for i in 1..list.len() {
        match list[i - 1].0.as_str().cmp(list[i].0.as_str()) {
            Ordering::Less => {}
            _ => return false,
        }
    }
    true
}

// The pairs in ascending order of their keys.
fn in_order(mut list: Vec<(Text, Text)>) -> Result<Vec<(Text, Text)>, Memory>
    requires { IsTextMap list.items }
    ensures same { IfOk result (λ sorted. IsPermutation list.items sorted.items) }
    ensures order { IfOk result (λ sorted. KeysAscend sorted.items) }
{
    if ascends(list.as_slice()) {
        return Ok(list);
    }
    match list.sort_by(|one, other| one.0.as_str().cmp(other.0.as_str())) {
        Ok(()) => Ok(list),
        Err(_) => Err(Memory),
    }
}
