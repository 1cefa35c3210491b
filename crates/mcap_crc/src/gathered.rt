//! The register of a long message, with no table: 300, 155, 117 and 89 shifts of a register and
//! the register itself cancel out, and so do 64 times as many of each. So a byte may be made 0 if
//! it is xored onto the bytes 1160, 1464, 1688 and 2400 places behind it. A window keeps what the
//! last 2400 bytes were when they were made 0, and only the last bytes of a message are folded.
ghost use Rattle.std.specs.Prelude.{◌≡◌, ℕ, ◌+◌, ◌≤◌, ◌%◌, take, drop, slice_index};
ghost use Rattle.mcap_crc.specs.Register.{register_after};
ghost use Rattle.mcap_crc.specs.Gather.{WindowLeaves, turned};

use crate::folded;

/// A window that stands for a register before the first byte.
fn begin(register: u32) -> [u8; 2400]
    ensures { WindowLeaves register result }
{
    let mut window = [0; 2400];
    window[..4].copy_from_slice(&register.to_le_bytes());
    window
}

/// Takes `count` bytes into the window in place of its oldest, which stand from `at` on. Four older
/// bytes fall on each: those of the first stand at `at`, `near`, `middle` and `far`.
#[inline(always)]
fn take_in(
    window: &mut [u8; 2400],
    block: &[u8; 2400],
    at: usize,
    count: usize,
    near: usize,
    middle: usize,
    far: usize,
)
    requires at { at + count ≤ 2400 }
    requires near { near + count ≤ 2400 }
    requires middle { middle + count ≤ 2400 }
    requires far { far + count ≤ 2400 }
    requires near_is { near ≡ (at + 712) % 2400 }
    requires middle_is { middle ≡ (at + 936) % 2400 }
    requires far_is { far ≡ (at + 1240) % 2400 }
    ensures { (register : ℕ) → WindowLeaves register (turned at window.old)
        → WindowLeaves (register_after register (take count (drop at block.now))) (turned (at + count) window.new) }
{
    for i in 0..count {
        window[at + i] = window[at + i]
            ^ block[at + i]
            ^ window[near + i]
            ^ window[middle + i]
            ^ window[far + i];
    }
}

/// Takes as many bytes as the window has.
fn turn(window: &mut [u8; 2400], block: &[u8; 2400])
    ensures { (register : ℕ) → WindowLeaves register window.old
        → WindowLeaves (register_after register block.now) window.new }
{
    take_in(window, block, 0, 1160, 712, 936, 1240);
    take_in(window, block, 1160, 304, 1872, 2096, 0);
    take_in(window, block, 1464, 224, 2176, 0, 304);
    take_in(window, block, 1688, 712, 0, 224, 528);
}

/// A window with zeros behind it, as far as its bytes are xored onto what follows.
fn with_zeros(window: &[u8; 2400]) -> [u8; 3640]
    ensures { (k : ℕ) → slice_index result k ≡ slice_index window.now k }
{
    let mut padded = [0; 3640];
    padded[..2400].copy_from_slice(window);
    padded
}

/// The register after a window's message and `next`.
fn end(window: &[u8; 2400], next: &[u8; 2400]) -> u32
    ensures { (register : ℕ) → WindowLeaves register window.now → result ≡ register_after register next.now }
{
    let padded = with_zeros(window);
    let mut last = [0; 2400];
    for i in 0..2400 {
        last[i] = padded[i] ^ next[i] ^ padded[i + 712] ^ padded[i + 936] ^ padded[i + 1240];
    }
    folded::after(0, &last)
}

/// The register after `bytes`, by a window where they are that long.
#[inline(never)]
fn after_long(start: u32, bytes: &[u8]) -> u32
    ensures { result ≡ register_after start bytes.now }
{
    let Some((front, tail)) = bytes.split_first_chunk::<2400>() else {
        return folded::after(start, bytes);
    };
    let mut window = begin(start);
    let mut next = front;
    let mut rest = tail;
    while let Some((later, tail)) = rest.split_first_chunk::<2400>() {
        turn(&mut window, next);
        next = later;
        rest = tail;
    }
    folded::after(end(&window, next), rest)
}

/// The register after `bytes`.
pub(crate) fn after(start: u32, bytes: &[u8]) -> u32
    ensures { result ≡ register_after start bytes.now }
{
    // A window pays only where it turns a few times.
    if bytes.len() < 7200 {
        folded::after(start, bytes)
    } else {
        after_long(start, bytes)
    }
}
