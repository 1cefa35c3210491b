//! The check of a file that doesn't end with the magic: where its data ends is told, if a reading halts there.
ghost use Rattle.std.specs.Prelude.{◌≡◌, ◌≤◌, ◌<◌, ◌+◌, ◌-◌, ◌^◌};
ghost use Rattle.mcap_io.specs.StoreAnswers.{StoreStays};
ghost use Rattle.mcap_model.specs.declared.checked.Verdict.TheVariants as verdicts;
ghost use Rattle.mcap_model.specs.declared.rules.Rule.TheVariants as rules;
ghost use Rattle.file_check.specs.Checking.{CheckCause};
ghost use Rattle.file_check.specs.Lacking.{LacksAsBefore, TellsLackUpTo};
ghost use Rattle.file_check.specs.CheckSteps.{AsksUpTo, RefusedCause, TellsCutSection, TellsUnended, TellsCutRefusal, TellsCutStore};

use crate::checking::read_front;
use crate::ends::tell_cut;
use crate::flaws::magic_lacks;
use mcap_io::Store;
use mcap_model::{ReadingRefused, Verdict};
use std::alloc::Global;

// The last magic isn't there.
fn lacks_end(len: u64) -> Verdict
    ensures { result ≡ verdicts.Flawed rules.V2 (len - 8) }
{
    let lacks = magic_lacks(len);
    Verdict::Flawed {
        rule: lacks.rule,
        offset: lacks.offset,
    }
}

// What is told of such a file whose records weren't all read.
fn tell_refusal<T: Store>(
    store: &mut T,
    len: u64,
    why: ReadingRefused,
) -> Result<Verdict, ReadingRefused>
    requires known { len ≤ (T.state store.old).known }
    requires fits { len < 2 ^ 64 }
    ensures tells { TellsCutSection (T.state store.old).bytes len why result }
    ensures cut { TellsCutRefusal (T.state store.old).bytes len why result }
    ensures cause { RefusedCause (T.state store.old).faults (T.state store.new).faults why result }
    ensures lacks { LacksAsBefore why (T.state store.old).asked (T.state store.new).asked result }
    ensures asks { (T.state store.new).asked ≤ (T.state store.old).asked + 9 }
    ensures keeps { StoreStays (T.state store.old) (T.state store.new) }
{
    match why {
        ReadingRefused::Fault { faults: _ } => {
            return Err(ReadingRefused::Fault {
                faults: store.faults(),
            });
        }
        ReadingRefused::Grammar { offset, rule } => match tell_cut(store, len, offset, rule) {
            Ok(failed) => {
                return Ok(Verdict::Flawed {
                    rule: failed.rule,
                    offset: failed.offset,
                });
            }
            Err(why) => return Err(why),
        },
        ReadingRefused::Compressed { offset: _, name: _ } => {
            let packed = lacks_end(len);
            return Ok(packed);
        }
        ReadingRefused::Limit { offset: _ } => {
            let long = lacks_end(len);
            return Ok(long);
        }
        ReadingRefused::Memory => return Err(ReadingRefused::Memory),
    }
}

/// Checks a store of that length that doesn't end with the magic.
pub(crate) fn check_unended<T: Store>(
    alloc: Global,
    store: &mut T,
    len: u64,
) -> Result<Verdict, ReadingRefused>
    requires known { len ≤ (T.state store.old).known }
    requires fits { len < 2 ^ 64 }
    ensures tells { TellsUnended (T.state store.old).bytes len result }
    ensures lacks { TellsLackUpTo len (T.state store.old) (T.state store.new).asked result }
    ensures cut { TellsCutStore (T.state store.old).bytes len result }
    ensures cause { CheckCause (T.state store.old).faults (T.state store.new).faults result }
    ensures asks { AsksUpTo (T.state store.old) len (T.state store.new) }
    ensures keeps { StoreStays (T.state store.old) (T.state store.new) }
{
    match read_front(alloc, store, len) {
        Ok(Ok(_)) => {
            let behind = lacks_end(len);
            return Ok(behind);
        }
        Ok(Err(failed)) => {
            return Ok(Verdict::Flawed {
                rule: failed.rule,
                offset: failed.offset,
            });
        }
        Err(why) => return tell_refusal(store, len, why),
    }
}
