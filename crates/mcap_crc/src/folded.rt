//! The register, by folding: a block of sixteen bytes is replaced by what it adds to the five that
//! follow, so long as five follow, and what is left goes through the tables.
ghost use Rattle.std.specs.Prelude.{◌≡◌, ◌<◌, ◌++◌, map};
ghost use Rattle.mcap_crc.specs.Register.{register_after};
ghost use Rattle.mcap_crc.specs.Fold.{bytes_of, folded_byte};

use crate::sliced::{self, after_block};
use crate::tables::FOLDS;
use std::simd::prelude::*;

/// Five blocks of a message, in their order.
#[derive(Drop)]
pub(crate) struct Blocks {
    first: u8x16,
    second: u8x16,
    third: u8x16,
    fourth: u8x16,
    fifth: u8x16,
}

/// What the bytes of a block add to a later block, which is 1, 3, 4 or 5 blocks away.
#[inline(always)]
fn look_up(number: usize, block: u8x16) -> u8x16
    requires { number < 4 }
    ensures { result ≡ map (folded_byte number) block }
{
    let low = u8x16::from_array(FOLDS[2 * number]);
    let high = u8x16::from_array(FOLDS[2 * number + 1]);
    low.swizzle_dyn_within::<16>(block & u8x16::splat(15))
        ^ high.swizzle_dyn_within::<16>(block >> u8x16::splat(4))
}

/// The first of six blocks is folded into the others.
#[inline(always)]
fn fold_first(
    first: u8x16,
    second: u8x16,
    third: u8x16,
    fourth: u8x16,
    fifth: u8x16,
    next: u8x16,
) -> Blocks
    ensures { register_after 0 (bytes_of result)
        ≡ register_after 0 (first ++ second ++ third ++ fourth ++ fifth ++ next) }
{
    Blocks {
        first: second ^ look_up(0, first),
        second: third,
        third: fourth ^ look_up(1, first),
        fourth: fifth ^ look_up(2, first),
        fifth: next ^ look_up(3, first),
    }
}

/// Five blocks with one more behind them, as five.
#[inline(always)]
fn fold(blocks: Blocks, next: u8x16) -> Blocks
    ensures { register_after 0 (bytes_of result) ≡ register_after 0 (bytes_of blocks ++ next) }
{
    let Blocks {
        first,
        second,
        third,
        fourth,
        fifth,
    } = blocks;
    fold_first(first, second, third, fourth, fifth, next)
}

/// Five blocks with five more behind them, as five.
#[inline(always)]
fn fold_five(blocks: Blocks, next: &[u8; 80]) -> Blocks
    ensures { register_after 0 (bytes_of result) ≡ register_after 0 (bytes_of blocks ++ next.now) }
{
    let blocks = fold(blocks, u8x16::from_slice(&next[..16]));
    let blocks = fold(blocks, u8x16::from_slice(&next[16..32]));
    let blocks = fold(blocks, u8x16::from_slice(&next[32..48]));
    let blocks = fold(blocks, u8x16::from_slice(&next[48..64]));
    fold(blocks, u8x16::from_slice(&next[64..]))
}

/// The first five blocks of a message, with the register xored onto them.
fn begin(register: u32, front: &[u8; 80]) -> Blocks
    ensures { register_after 0 (bytes_of result) ≡ register_after register front.now }
{
    let register = u8x16::from_array(u128::from(register).to_le_bytes());
    Blocks {
        first: u8x16::from_slice(&front[..16]) ^ register,
        second: u8x16::from_slice(&front[16..32]),
        third: u8x16::from_slice(&front[32..48]),
        fourth: u8x16::from_slice(&front[48..64]),
        fifth: u8x16::from_slice(&front[64..]),
    }
}

/// The register after five blocks, from an empty one.
fn end(blocks: Blocks) -> u32
    ensures { result ≡ register_after 0 (bytes_of blocks) }
{
    let register = after_block(0, &blocks.first.to_array());
    let register = after_block(register, &blocks.second.to_array());
    let register = after_block(register, &blocks.third.to_array());
    let register = after_block(register, &blocks.fourth.to_array());
    after_block(register, &blocks.fifth.to_array())
}

/// The register after `bytes`.
pub(crate) fn after(start: u32, bytes: &[u8]) -> u32
    ensures { result ≡ register_after start bytes.now }
{
    let Some((front, tail)) = bytes.split_first_chunk::<80>() else {
        return sliced::after(start, bytes);
    };
    let mut five = begin(start, front);
    let mut rest = tail;
    // Five steps a turn, so that no block moves from one register to another.
    while let Some((next, tail)) = rest.split_first_chunk::<80>() {
        five = fold_five(five, next);
        rest = tail;
    }
    sliced::after(end(five), rest)
}
