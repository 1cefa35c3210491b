//! The CRC-32, and its plain side.
use crate::same::holds_at;
use mcap_crc::{Crc, crc_of, crc_plain};
use std::test::Fail;

// The published check value of CRC-32, and others as zlib's crc32 gives them.
#[test]
fn known_messages_have_their_checksums(rt: HostRuntime) {
    for (text, want) in [
        ("", 0),
        ("abc", 0x3524_41c2),
        ("123456789", 0xcbf4_3926),
        ("The quick brown fox jumps over the lazy dog", 0x414f_a339),
    ] {
        let bytes = text.as_bytes();
        holds_at(
            &rt,
            crc_of(bytes) == want && crc_plain(bytes) == want,
            &text,
        );
    }
}

// Whether a message has the same checksum on both sides, and in two pieces that are cut there.
fn both_agree(bytes: &[u8], at: usize) -> bool {
    let (front, back) = bytes.split_at(at.min(bytes.len()));
    let mut crc = Crc::default();
    crc.update(front);
    crc.update(back);
    let whole = crc_plain(bytes);
    crc_of(bytes) == whole && crc.value() == whole
}

// Whether they agree of each first part of the message, cut at a third of it, and of the message cut at each place.
fn all_agree(bytes: &[u8]) -> bool {
    for len in 0..=bytes.len() {
        if !both_agree(&bytes[..len], len / 3) || !both_agree(bytes, len) {
            return false;
        }
    }
    true
}

#[test]
fn both_sides_agree_at_each_length_and_each_cut(rt: HostRuntime) -> Result<(), Fail> {
    let mut bytes = Vec::new(rt.alloc());
    let mut state = 12345u32;
    for _ in 0..1_000_003u32 {
        state = state.wrapping_mul(1_664_525).wrapping_add(1_013_904_223);
        bytes.push((state >> 24) as u8)?;
    }
    holds_at(&rt, both_agree(&bytes, 333_333), &"a large message");
    bytes.truncate(400);
    holds_at(&rt, all_agree(&bytes), &"a small message");
    Ok(())
}
