//! A table that marks keys of two bytes, a bit for each.
ghost use Rattle.std.specs.Prelude.{◌≡◌, ◌≢◌, ℕ, true, not};
ghost use Rattle.mcap_wire.specs.Marks.{is_marked};

/// A bit for each key, 64 to a word.
pub(crate) type Marks = [u64; 1024];

/// Marks a key, and says whether it was new.
pub(crate) fn mark(marks: &mut Marks, key: u16) -> bool
    ensures new { result ≡ not (is_marked marks.old key) }
    ensures marked { is_marked marks.new key ≡ true }
    ensures others { (other : ℕ) → other ≢ key → is_marked marks.new other ≡ is_marked marks.old other }
{
    let place = key as usize / 64;
    let word = marks[place];
    let bit = 1u64 << (key % 64);
    marks[place] = word | bit;
    word & bit == 0
}
