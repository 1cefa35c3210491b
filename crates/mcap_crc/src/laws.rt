//! What holds of CRC-32 whoever computes it, for readers: no function here does anything.
ghost use Rattle.std.specs.Prelude.{◌≡◌, ◌<◌, ◌^◌, ℕ, List, [], ◌++◌, length, bit_xor, All};
ghost use Rattle.mcap_crc.specs.Remainder.{remainder};
ghost use Rattle.mcap_crc.specs.Checksums.{xored};

/// The CRC-32 of nothing is 0.
pub fn of_nothing()
    ensures { remainder [] ≡ 0 }
{}

/// A CRC-32 has 32 bits.
pub fn of_any_message()
    ensures { (bytes : List ℕ) → remainder bytes < 2 ^ 32 }
{}

/// Two messages of one CRC-32 keep one when the same bytes follow.
pub fn of_a_longer_message()
    ensures { (first second more : List ℕ) → remainder first ≡ remainder second
        → remainder (first ++ more) ≡ remainder (second ++ more) }
{}

/// The CRC-32 of three messages of one length, xored, is the xor of theirs.
pub fn of_three_messages()
    ensures { (first second third : List ℕ)
        → All (λ byte. byte < 256) first → All (λ byte. byte < 256) second → All (λ byte. byte < 256) third
        → length first ≡ length second → length second ≡ length third
        → remainder (xored (xored first second) third)
        ≡ bit_xor (bit_xor (remainder first) (remainder second)) (remainder third) }
{}
