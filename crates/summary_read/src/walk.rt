//! The records of a summary, one after the other.
ghost use Rattle.std.specs.Prelude.{◌+◌, ◌^◌, ◌<◌, length, IfErr};
ghost use Rattle.summary_read.specs.Steps.{IsOfBytes, RecordCut, SummaryCut};

use crate::records::breaks;
use mcap_model::{ReadingRefused, Rule};
use mcap_wire::{Cut, CutFault, cut};
use std::alloc::Global;

// The record that stands there in a summary that starts at `start`.
fn take_record(bytes: &[u8], at: usize, start: u64) -> Result<Cut, ReadingRefused>
    requires inside { at < length bytes.now }
    requires fits { start + length bytes.now < 2 ^ 64 }
    ensures { RecordCut bytes.now at start result }
{
    let offset = start + at as u64;
    let cut = match cut(bytes, at) {
        Ok(cut) => cut,
        Err(CutFault::Short) => return Err(ReadingRefused::Grammar {
            offset,
            rule: Rule::V4,
        }),
        Err(CutFault::ZeroOp) => return Err(ReadingRefused::Grammar {
            offset,
            rule: Rule::V5,
        }),
        Err(CutFault::TooLong { len: _ }) => return Err(ReadingRefused::Limit { offset }),
    };
    match breaks(cut.op, &bytes[cut.from as usize..cut.to as usize]) {
        None => return Ok(cut),
        Some(rule) => return Err(ReadingRefused::Grammar { offset, rule }),
    }
}

/// All records of a summary that starts at `start`.
pub(crate) fn cut_records(
    alloc: Global,
    bytes: &[u8],
    start: u64,
) -> Result<Vec<Cut>, ReadingRefused>
    requires { start + length bytes.now < 2 ^ 64 }
    ensures cut { SummaryCut bytes.now start result }
    ensures of_bytes { IfErr result IsOfBytes }
{
    let mut cuts = Vec::new(alloc);
    let mut at = 0;
    'records: while at < bytes.len() {
        let cut = match take_record(bytes, at, start) {
            Ok(cut) => cut,
            Err(why) => return Err(why),
        };
        match cuts.push(cut) {
            Ok(()) => {}
            Err(_) => return Err(ReadingRefused::Memory),
        }
        at = cut.to as usize;
    }
    return Ok(cuts);
}
