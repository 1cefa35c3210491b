//! The records behind a Data End, one after the other.
ghost use Rattle.std.specs.Prelude.{◌+◌, ◌^◌, ◌<◌, length, IfErr};
ghost use Rattle.summary_check.specs.Cutting.{CutJudged, RecordsCut};
ghost use Rattle.summary_check.specs.Files.{IsOfSummary};

use mcap_model::{ReadingRefused, Rule};
use mcap_wire::{Cut, CutFault, cut};
use std::alloc::Global;

// The record that stands there, in bytes that stand in the file from `start` on.
fn cut_record(bytes: &[u8], at: usize, start: u64) -> Result<Cut, ReadingRefused>
    requires inside { at < length bytes.now }
    requires fits { start + length bytes.now < 2 ^ 64 }
    ensures judged { CutJudged bytes.now at start result }
    ensures kind { IfErr result IsOfSummary }
{
    let offset = start + at as u64;
    match cut(bytes, at) {
        Ok(cut) => return Ok(cut),
        Err(CutFault::Short) => return Err(ReadingRefused::Grammar {
            offset,
            rule: Rule::V4,
        }),
        Err(CutFault::ZeroOp) => return Err(ReadingRefused::Grammar {
            offset,
            rule: Rule::V5,
        }),
        Err(CutFault::TooLong { len: _ }) => return Err(ReadingRefused::Limit { offset }),
    }
}

/// All records of the bytes, which stand in the file from `start` on and up to the last magic.
pub(crate) fn cut_records(
    alloc: Global,
    bytes: &[u8],
    start: u64,
) -> Result<Vec<Cut>, ReadingRefused>
    requires { start + length bytes.now < 2 ^ 64 }
    ensures cut { RecordsCut bytes.now start result }
    ensures kind { IfErr result IsOfSummary }
{
    let mut cuts = Vec::new(alloc);
    let mut at = 0;
    'records: while at < bytes.len() {
        let cut = match cut_record(bytes, at, start) {
            Ok(cut) => cut,
            Err(why) => return Err(why),
        };
        match cuts.push(cut) {
            Ok(()) => {}
            Err(_) => return Err(ReadingRefused::Memory),
        }
        at = cut.to as usize;
    }
    return Ok(cuts);
}
