//! The front of a record that stands at an offset of a store.
ghost use Rattle.std.specs.Prelude.{◌≤◌, length};
ghost use Rattle.mcap_io.specs.OutsideCalls.{HasCause};
ghost use Rattle.summary_read.specs.Steps.{AsksAtMost};
ghost use Rattle.indexed_replay.specs.Steps.{RecordLiesWithin, TellsRecordFront};

use mcap_io::{Failed, Store};
use mcap_wire::{CONTENT_LIMIT, HEAD_LENGTH, Head, take_head};

/// What stands at an offset.
#[derive(Clone, Copy)]
pub(crate) enum Front {
    /// A whole record of this head.
    Whole(Head),
    /// A whole record whose content is past the limit.
    Long,
    /// No whole record, or one of fewer bytes than were to be read.
    Absent,
}

/// Reads the first bytes of the record at that offset of a store of that length. Where it isn't whole or its opcode is 0,
/// none stands there, whatever length its head declares.
pub(crate) fn read_front<T: Store>(
    store: &mut T,
    len: u64,
    at: u64,
    out: &mut [u8],
) -> Result<Front, Failed>
    requires known { len ≤ (T.state store.old).known }
    requires head { 9 ≤ length out.old }
    ensures told { TellsRecordFront (T.state store.old).bytes len at out.new result }
    ensures inside { RecordLiesWithin len at (length out.old) result }
    ensures cause { HasCause (T.state store.old).faults (T.state store.new).faults result }
    ensures takes { AsksAtMost (T.state store.old) (T.state store.new) (length out.old) }
{
    let size = out.len() as u64;
    if at > len || len - at < size {
        return Ok(Front::Absent);
    }
    match store.read_at(at, out) {
        Ok(()) => {}
        Err(Failed) => return Err(Failed),
    }
    let head = match take_head(out, 0) {
        Ok(head) => head,
        Err(_) => return Ok(Front::Absent),
    };
    let rest = len - at;
    if head.len > rest - HEAD_LENGTH {
        return Ok(Front::Absent);
    }
    if head.len < size - HEAD_LENGTH {
        return Ok(Front::Absent);
    }
    if head.len > CONTENT_LIMIT {
        return Ok(Front::Long);
    }
    return Ok(Front::Whole(head));
}
