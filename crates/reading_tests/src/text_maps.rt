//! Maps of texts in other orders than the ascending one, whose keys are compared in passes over a window of 4,096 keys.
use crate::same::holds_at;
use mcap_wire::*;
use std::alloc::Global;
use std::test::Fail;

// A pair of a number as a key of three bytes, and no value: eleven bytes.
fn put_pair(out: &mut Vec<u8>, number: u32) -> Result<(), Memory> {
    put_u32(out, 3)?;
    put_bytes(
        out,
        &[
            (number / 4096 % 64) as u8 + 32,
            (number / 64 % 64) as u8 + 32,
            (number % 64) as u8 + 32,
        ],
    )?;
    put_u32(out, 0)
}

// A map of the numbers below `pairs`, from 0 on by steps around them, and one more; its end may be cut.
fn text_map(
    alloc: Global,
    pairs: u16,
    step: u16,
    last: Option<u32>,
    cut: u32,
) -> Result<Vec<u8>, Memory> {
    let pairs = pairs as u32;
    let mut out = Vec::new(alloc);
    let more = if last.is_some() { 11 } else { 0 };
    put_u32(&mut out, (11 * pairs + more).saturating_sub(cut))?;
    for i in 0..pairs {
        put_pair(&mut out, i * step as u32 % pairs)?;
    }
    if let Some(number) = last {
        put_pair(&mut out, number)?;
    }
    Ok(out)
}

// How many pairs a map has, or why it isn't read.
fn pairs_of(content: &[u8]) -> Result<usize, Why> {
    match take_pairs(content, 0) {
        Ok((pairs, _end)) => Ok(pairs.count()),
        Err(why) => Err(why),
    }
}

// How many pairs, by which steps, the last key, the bytes that are cut off, and what is read.
type Row = (u16, u16, Option<u32>, u32, Result<usize, Why>);

// Few in place, then by passes: shuffled, descending, one equal pair far apart that the first, the second or the last pass
// meets, windows that are filled but for one, just filled and passed by one, all equal, and equal behind some that ascend.
const ROWS: [Row; 20] = [
    (16, 15, None, 0, Ok(16)),
    (16, 15, Some(0), 0, Err(Why::DoubleKey)),
    (17, 16, Some(17), 0, Ok(18)),
    (17, 16, Some(0), 0, Err(Why::DoubleKey)),
    (10_000, 9_973, None, 0, Ok(10_000)),
    (10_000, 9_999, None, 0, Ok(10_000)),
    (10_000, 9_973, Some(0), 0, Err(Why::DoubleKey)),
    (10_000, 9_973, Some(5_000), 0, Err(Why::DoubleKey)),
    (10_000, 9_973, Some(9_999), 0, Err(Why::DoubleKey)),
    (4_095, 2_047, None, 0, Ok(4_095)),
    (4_095, 2_047, Some(4_094), 0, Err(Why::DoubleKey)),
    (4_096, 2_047, None, 0, Ok(4_096)),
    (4_096, 2_047, Some(4_095), 0, Err(Why::DoubleKey)),
    (4_096, 2_047, Some(4_096), 0, Ok(4_097)),
    (4_097, 2_047, Some(4_096), 0, Err(Why::DoubleKey)),
    (4_097, 4_096, None, 0, Ok(4_097)),
    (10_000, 0, None, 0, Err(Why::DoubleKey)),
    (10_000, 1, Some(9_999), 0, Err(Why::DoubleKey)),
    (10_000, 9_973, Some(10_000), 4, Err(Why::BadLength)),
    (10_000, 9_973, Some(0), 4, Err(Why::DoubleKey)),
];

#[test]
fn keys_differ_in_any_order(rt: HostRuntime) -> Result<(), Fail> {
    for row in ROWS {
        let (pairs, step, last, cut, answer) = row;
        let content = text_map(rt.alloc(), pairs, step, last, cut)?;
        holds_at(&rt, pairs_of(&content) == answer, &row);
    }
    Ok(())
}
