//! The check of a file.
ghost use Rattle.mcap_io.specs.StoreAnswers.{LeavesStore};
ghost use Rattle.file_check.specs.Checking.{Checks, CheckCause};
ghost use Rattle.file_check.specs.CheckSteps.{AsksOnce};
ghost use Rattle.file_check.specs.CutFiles.{TellsUnbegun, TellsCutFile};
ghost use Rattle.file_check.specs.Lacking.{TellsLack};

use crate::checking::check_records;
use crate::ends::{begins_with_magic, ends_with_magic};
use crate::unended::check_unended;
use mcap_io::{Failed, Store};
use mcap_model::{ReadingRefused, Rule, Verdict};
use std::alloc::Global;

/// Checks the file that a store holds by all rules of the format: whether it is valid, and fully indexed besides, or which
/// rule fails where. The numbers are those of its data section. What stands behind the data section is held in memory, and
/// of that one chunk, with tables by chunk and channel. A file without the first magic breaks V1; one without the last breaks
/// the rule at which the reading of its data section halts, or V2. The file is read once.
pub fn check<T: Store>(alloc: Global, store: &mut T) -> Result<Verdict, ReadingRefused>
    ensures checks { Checks (T.state store.old).bytes result }
    ensures begun { TellsUnbegun (T.state store.old).bytes result }
    ensures cut { TellsCutFile (T.state store.old).bytes result }
    ensures lacks { TellsLack (T.state store.old) (T.state store.new).asked result }
    ensures cause { CheckCause (T.state store.old).faults (T.state store.new).faults result }
    ensures asks { AsksOnce (T.state store.old) (T.state store.new) }
    ensures leaves { LeavesStore (T.state store.old) (T.state store.new) }
{
    let len = match store.len() {
        Ok(len) => len,
        Err(Failed) => {
            return Err(ReadingRefused::Fault {
                faults: store.faults(),
            });
        }
    };
    match begins_with_magic(store, len) {
        Ok(true) => {}
        Ok(false) => return Ok(Verdict::Flawed {
            rule: Rule::V1,
            offset: 0,
        }),
        Err(why) => return Err(why),
    }
    if len < 16 {
        let offset = len.saturating_sub(8);
        return Ok(Verdict::Flawed {
            rule: Rule::V2,
            offset,
        });
    }
    match ends_with_magic(store, len) {
        Ok(true) => return check_records(alloc, store, len - 8),
        Ok(false) => return check_unended(alloc, store, len),
        Err(why) => return Err(why),
    }
}
