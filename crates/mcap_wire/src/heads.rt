//! Records and their heads, read at an offset (MCAP specification, "Records").
ghost use Rattle.std.specs.Prelude.{◌≤◌, length};
ghost use Rattle.mcap_wire.specs.Reading.{ReadsHead, CutsAt};

use crate::faults::{CONTENT_LIMIT, Cut, CutFault, HEAD_LENGTH, Head, HeadFault};
use crate::reading::take_u64;

/// Reads the head of the record that stands at an offset. A fault is the first that holds of: the head of nine bytes isn't
/// whole, the opcode is 0.
pub fn take_head(bytes: &[u8], at: usize) -> Result<Head, HeadFault>
    requires { at ≤ length bytes.now }
    ensures { ReadsHead bytes.now at result }
{
    if at == bytes.len() {
        return Err(HeadFault::Short);
    }
    let len = match take_u64(bytes, at + 1) {
        Ok(read) => read.0,
        Err(_) => return Err(HeadFault::Short),
    };
    let op = bytes[at];
    if op == 0 {
        return Err(HeadFault::ZeroOp);
    }
    Ok(Head { op, len })
}

/// Cuts the record that stands at an offset. A fault is the first that holds of: the head of nine bytes isn't whole,
/// the opcode is 0, the content is longer than `CONTENT_LIMIT`, the content isn't whole.
pub fn cut(bytes: &[u8], at: usize) -> Result<Cut, CutFault>
    requires { at ≤ length bytes.now }
    ensures { CutsAt bytes.now at result }
{
    let Head { op, len } = match take_head(bytes, at) {
        Ok(head) => head,
        Err(HeadFault::Short) => return Err(CutFault::Short),
        Err(HeadFault::ZeroOp) => return Err(CutFault::ZeroOp),
    };
    if len > CONTENT_LIMIT {
        return Err(CutFault::TooLong { len });
    }
    let from = at as u64 + HEAD_LENGTH;
    let to = from + len;
    if to > bytes.len() as u64 {
        return Err(CutFault::Short);
    }
    Ok(Cut { op, from, to })
}
