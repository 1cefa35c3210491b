//! One message, read at its place in a chunk.
ghost use Rattle.std.specs.Prelude.{◌+◌, ◌≤◌};
ghost use Rattle.mcap_io.specs.StoreAnswers.{StoreStays};
ghost use Rattle.indexed_replay.specs.ReplayingSteps.{ReadingCause};
ghost use Rattle.indexed_replay.specs.HoldingSteps.{HoldsExactly, HoldsWithin};
ghost use Rattle.indexed_replay.specs.Steps.{AsksMessage, TellsMessage};
ghost use Rattle.time_player.specs.Keeping.{kept_in};

use crate::fronts::{Front, read_front};
use crate::spots::Spot;
use mcap_io::{Failed, OutsideRefused, Store};
use mcap_model::{Place, ReadingRefused};
use rec_data::{MESSAGE, Message};
use time_player::Kept;

/// How much of a chunk without a compression stands in front of its records: the head, two times, the size, the CRC, and the
/// lengths of the compression and of the records.
const RECORDS_OFFSET: u64 = 49;

/// Adds the message to which an entry of a Message Index leads, and says whether it stands there. Where the messages would have
/// more bytes of data than the store, that is told as a limit at the Message Index, before any more is read.
pub(crate) fn add_message<T: Store>(
    store: &mut T,
    len: u64,
    spot: Spot,
    entry: (u64, u64),
    shown: &mut Kept,
) -> Result<bool, ReadingRefused>
    requires known { len ≤ (T.state store.old).known }
    requires fits { HoldsExactly len shown.old }
    ensures told { TellsMessage (T.state store.old).bytes len spot entry (kept_in shown.old, kept_in shown.new) result }
    ensures holds { HoldsWithin len shown.new result }
    ensures cause { ReadingCause (T.state store.old).faults (T.state store.new).faults result }
    ensures stays { StoreStays (T.state store.old) (T.state store.new) }
    ensures asks { AsksMessage len (spot.chunk + 49 + entry.1) (T.state store.old) (T.state store.new) }
{
    let (time, inner) = entry;
    let place = Place {
        top: spot.chunk,
        inner,
    };
    let Some(records) = place.top.checked_add(RECORDS_OFFSET) else {
        return Ok(false);
    };
    let Some(at) = records.checked_add(place.inner) else {
        return Ok(false);
    };
    let mut front = [0; 31];
    let head = match read_front(store, len, at, &mut front) {
        Ok(Front::Whole(head)) => head,
        Ok(Front::Long) => return Err(ReadingRefused::Limit { offset: at }),
        Ok(Front::Absent) => return Ok(false),
        Err(Failed) => {
            return Err(ReadingRefused::Fault {
                faults: store.faults(),
            });
        }
    };
    if head.op != MESSAGE {
        return Ok(false);
    }
    let message = match Message::parse(&front[9..]) {
        Ok(message) => message,
        Err(_) => return Ok(false),
    };
    if message.channel_id != spot.channel || message.log_time != time {
        return Ok(false);
    }
    let size = head.len - 22;
    if size > len - shown.data_len() as u64 {
        return Err(ReadingRefused::Limit { offset: spot.list });
    }
    match shown.add_part_of(store, place, &message, at + 31, size) {
        Ok(()) => return Ok(true),
        Err(OutsideRefused::Failed) => {
            return Err(ReadingRefused::Fault {
                faults: store.faults(),
            });
        }
        Err(OutsideRefused::Memory) => return Err(ReadingRefused::Memory),
    }
}
