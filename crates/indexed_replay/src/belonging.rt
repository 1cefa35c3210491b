//! Whether a Message Index belongs to the chunk whose index names it.
ghost use Rattle.std.specs.Prelude.{◌≤◌};
ghost use Rattle.mcap_io.specs.StoreAnswers.{StoreStays};
ghost use Rattle.indexed_replay.specs.Belonging.{AsksHeads, JudgesAstray, TellsWalk};
ghost use Rattle.indexed_replay.specs.Replaying.{RefusedReplayCause};
ghost use Rattle.indexed_replay.specs.ReplayingSteps.{ReadingCause};

use crate::fronts::{Front, read_front};
use mcap_io::{Failed, Store};
use mcap_model::{ReadingRefused, Rule};
use mcap_wire::HEAD_LENGTH;
use rec_index::MESSAGE_INDEX;

// Whether Message Indexes alone stand from one offset of a store of that length up to another. Only their heads are read.
fn indexes_stand<T: Store>(
    store: &mut T,
    len: u64,
    from: u64,
    to: u64,
) -> Result<bool, ReadingRefused>
    requires { len ≤ (T.state store.old).known }
    ensures told { TellsWalk (T.state store.old).bytes len from to result }
    ensures cause { ReadingCause (T.state store.old).faults (T.state store.new).faults result }
    ensures stays { StoreStays (T.state store.old) (T.state store.new) }
    ensures asks { AsksHeads len from (T.state store.old) (T.state store.new) }
{
    let mut at = from;
    'indexes: while at < to {
        let mut front = [0; 9];
        let head = match read_front(store, len, at, &mut front) {
            Ok(Front::Whole(head)) => head,
            Ok(Front::Long) => return Err(ReadingRefused::Limit { offset: at }),
            Ok(Front::Absent) => return Ok(false),
            Err(Failed) => {
                return Err(ReadingRefused::Fault {
                    faults: store.faults(),
                });
            }
        };
        if head.op != MESSAGE_INDEX {
            return Ok(false);
        }
        at = at + HEAD_LENGTH + head.len;
    }
    if at == to {
        return Ok(true);
    }
    return Ok(false);
}

/// Refuses a Message Index at the offset `list` with an entry that leads to no message. The Chunk Index at the offset `at`
/// names it as one of a chunk that ends at `end`: if others than Message Indexes stand between both, that index is wrong.
pub(crate) fn refuse_astray<T: Store>(
    store: &mut T,
    len: u64,
    at: u64,
    end: u64,
    list: u64,
) -> ReadingRefused
    requires { len ≤ (T.state store.old).known }
    ensures told { JudgesAstray (T.state store.old).bytes len at end list result }
    ensures cause { RefusedReplayCause (T.state store.old).faults (T.state store.new).faults result }
    ensures stays { StoreStays (T.state store.old) (T.state store.new) }
    ensures asks { AsksHeads len end (T.state store.old) (T.state store.new) }
{
    match indexes_stand(store, len, end, list) {
        Ok(true) => return ReadingRefused::Grammar {
            offset: list,
            rule: Rule::V9,
        },
        Ok(false) => return ReadingRefused::Grammar {
            offset: at,
            rule: Rule::V12,
        },
        Err(why) => return why,
    }
}
