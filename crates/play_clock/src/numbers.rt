//! The numbers of a script.
ghost use Rattle.std.specs.Prelude.{◌≡◌, ◌≢◌, ◌<◌, ◌++◌, ◌∷◌, ℕ, List, MatchOption, length, slice_index};
ghost use Rattle.play_clock.specs.Script.{IsDigits, amount};
ghost use Rattle.play_clock.specs.Cuts.{Lacks, CutsAt};

/// The bytes in front of the first of that value, and those after it, where there is one.
pub(crate) fn cut_at(bytes: &[u8], mark: u8) -> Option<(&[u8], &[u8])>
    ensures { CutsAt bytes.now mark result }
{
    'bytes: for i in 0..bytes.len() {
        if bytes[i] == mark {
            return Some((&bytes[..i], &bytes[i + 1..]));
        }
    }
    return None;
}

/// The number that the word is, if it is one from `least` to `most`.
pub(crate) fn number_in(word: &[u8], least: u64, most: u64) -> Option<u64>
    ensures { MatchOption result ((number : ℕ) → IsDigits word.now (amount least most number) → ⊥)
        (λ number. IsDigits word.now (amount least most number)) }
{
    if word.is_empty() || word.len() > 20 {
        return None;
    }
    let mut value: u128 = 0;
    'digits: for i in 0..word.len() {
        let digit = word[i];
        if digit < b'0' || b'9' < digit {
            return None;
        }
        value = value * 10 + u128::from(digit - b'0');
    }
    if value < u128::from(least) || u128::from(most) < value {
        return None;
    }
    return Some(value as u64);
}
