//! The log times of messages, in the order in which they stand.
ghost use Rattle.std.specs.Prelude.{◌≡◌, ◌∷◌, [], IfOk};
ghost use Rattle.rec_data.specs.Records.{message_opcode};
ghost use Rattle.mcap_model.specs.Made.{top};
ghost use Rattle.merge_walk.specs.SpanHeads.{heads_one, times_in};
ghost use Rattle.merge_walk.specs.Times.{extent_of, with_time};

use mcap_scan::MessageHead;
use mcap_wire::{Memory, take_u16, take_u64};

/// The least, the greatest and the last of some times, and whether none is less than the one before it.
#[derive(Clone, Copy)]
pub(crate) struct Extent {
    pub least: u64,
    pub greatest: u64,
    pub last: u64,
    pub in_order: bool,
}

/// The extent of one time more, where there were any.
pub(crate) fn with_time_more(extent: Option<Extent>, time: u64) -> Option<Extent>
    ensures { result ≡ with_time extent time }
{
    match extent {
        None => Some(Extent {
            least: time,
            greatest: time,
            last: time,
            in_order: true,
        }),
        Some(extent) => Some(Extent {
            least: extent.least.min(time),
            greatest: extent.greatest.max(time),
            last: time,
            in_order: extent.in_order && extent.last <= time,
        }),
    }
}

// Where the log time stands in a Message's content: behind the channel's id and the sequence number.
const TIME_OFFSET: usize = 6;
// How many bytes stand in front of what a Message holds.
const FIELDS_LENGTH: usize = 22;

/// The head of a Message that stands alone. One whose content is cut short has none.
pub(crate) fn head_alone(content: &[u8]) -> Result<MessageHead, Memory>
    ensures { IfOk result (λ head. heads_one 0 (top message_opcode content.now) ≡ head ∷ []) }
{
    if content.len() < FIELDS_LENGTH {
        return Err(Memory);
    }
    let Ok((channel, _)) = take_u16(content, 0) else {
        return Err(Memory);
    };
    let Ok((time, _)) = take_u64(content, TIME_OFFSET) else {
        return Err(Memory);
    };
    return Ok(MessageHead {
        channel,
        time,
        offset: 0,
    });
}

/// The extent of some messages.
pub(crate) fn extent_among(heads: &[MessageHead]) -> Option<Extent>
    ensures { result ≡ extent_of (times_in heads.now) }
{
    let mut extent = None;
    'messages: for i in 0..heads.len() {
        extent = with_time_more(extent, heads[i].time);
    }
    return extent;
}
