//! The heads of the Messages that a chunk holds.
ghost use Rattle.std.specs.Prelude.{◌≡◌, ◌++◌, OnOk};
ghost use Rattle.mcap_model.specs.Made.{top};
ghost use Rattle.mcap_scan.specs.Heads.{heads_in, HeadIs};

use mcap_model::InnerWalk;
use mcap_wire::{Memory, take_u16, take_u64};
use rec_data::MESSAGE;

/// The length of a Message's content before what it holds.
const MESSAGE_FRONT_LENGTH: usize = 22;

/// Where the log time stands in a Message's content.
const TIME_OFFSET: usize = 6;

/// What is kept of a Message inside a chunk: the id of its channel, its log time in nanoseconds, and where its record begins, in
/// bytes from the front of the chunk's records.
#[derive(Clone, Copy)]
pub struct MessageHead {
    pub channel: u16,
    pub time: u64,
    pub offset: u64,
}

// The head of the record of that content at that offset, where it is a Message whose content meets its layout.
#[inline]
fn head_of(op: u8, content: &[u8], offset: u64) -> Option<MessageHead>
    ensures { HeadIs (top op content.now) offset result }
{
    if op != MESSAGE {
        return None;
    }
    if content.len() < MESSAGE_FRONT_LENGTH {
        return None;
    }
    let (channel, _) = match take_u16(content, 0) {
        Ok(read) => read,
        Err(_) => return None,
    };
    let (time, _) = match take_u64(content, TIME_OFFSET) {
        Ok(read) => read,
        Err(_) => return None,
    };
    return Some(MessageHead {
        channel,
        time,
        offset,
    });
}

/// Lists the Messages among these records whose contents meet their layout, behind those that are listed, in the order in which
/// they stand. It takes 24 bytes for each.
pub fn list_heads(heads: &mut Vec<MessageHead>, records: &[u8]) -> Result<(), Memory>
    ensures { OnOk result (heads.new.items ≡ heads.old.items ++ heads_in records.now) }
{
    let mut walk = InnerWalk::new(records);
    'records: while let Some(inner) = walk.next() {
        match head_of(inner.op, inner.content, inner.offset) {
            Some(head) => match heads.push(head) {
                Ok(()) => {}
                Err(_) => return Err(Memory),
            },
            None => {}
        }
    }
    return Ok(());
}
