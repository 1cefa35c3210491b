//! Parts of a file that are read by themselves: its magics, and the head of a record.
ghost use Rattle.std.specs.Prelude.{◌≡◌, ◌+◌, ◌≤◌, ◌↔◌, ◌^◌, ◌<◌, ℕ, List, Some, length, take, drop, IsTrue, IfOk, IfErr};
ghost use Rattle.mcap_io.specs.StoreAnswers.{StoreStays};
ghost use Rattle.mcap_wire.specs.Layout.{le};
ghost use Rattle.mcap_model.specs.Rules.{V1};
ghost use Rattle.mcap_model.specs.Whole.{EndsWithMagic};
ghost use Rattle.file_check.specs.Checking.{CheckCause, IsFault};
ghost use Rattle.file_check.specs.CheckSteps.{HeadStands, TellsFlaw, TellsCut};

use crate::flaws::{FailedRule, cut_rule, failed_rule};
use mcap_io::{Failed, Store};
use mcap_model::{ReadingRefused, Rule};
use mcap_wire::{MAGIC, take_u64};

// Whether the bytes begin with the magic.
fn are_begun(bytes: &[u8]) -> bool
    ensures { IsTrue result ↔ V1 bytes.now }
{
    bytes.starts_with(&MAGIC)
}

/// Whether the first eight bytes of a store of that length are the magic.
pub(crate) fn begins_with_magic<T: Store>(store: &mut T, len: u64) -> Result<bool, ReadingRefused>
    requires { len ≤ (T.state store.old).known }
    ensures tells { IfOk result (λ begins. (file : List ℕ) → (T.state store.old).bytes ≡ Some file → length file ≡ len
        → IsTrue begins ↔ V1 file) }
    ensures cause { CheckCause (T.state store.old).faults (T.state store.new).faults result }
    ensures fault { IfErr result IsFault }
    ensures asks { (T.state store.new).asked ≤ (T.state store.old).asked + 8 }
    ensures keeps { StoreStays (T.state store.old) (T.state store.new) }
{
    if len < 8 {
        return Ok(false);
    }
    let mut front = [0; 8];
    match store.read_at(0, &mut front) {
        Ok(()) => return Ok(are_begun(&front)),
        Err(Failed) => {
            return Err(ReadingRefused::Fault {
                faults: store.faults(),
            });
        }
    }
}

// Whether the bytes end with the magic.
fn are_ended(bytes: &[u8]) -> bool
    ensures { IsTrue result ↔ EndsWithMagic bytes.now }
{
    bytes.ends_with(&MAGIC)
}

/// Whether the last eight bytes of a store of that length are the magic.
pub(crate) fn ends_with_magic<T: Store>(store: &mut T, len: u64) -> Result<bool, ReadingRefused>
    requires known { len ≤ (T.state store.old).known }
    requires long { 8 ≤ len }
    ensures tells { IfOk result (λ ends. (file : List ℕ) → (T.state store.old).bytes ≡ Some file → length file ≡ len
        → IsTrue ends ↔ EndsWithMagic file) }
    ensures cause { CheckCause (T.state store.old).faults (T.state store.new).faults result }
    ensures fault { IfErr result IsFault }
    ensures asks { (T.state store.new).asked ≤ (T.state store.old).asked + 8 }
    ensures keeps { StoreStays (T.state store.old) (T.state store.new) }
{
    let mut end = [0; 8];
    match store.read_at(len - 8, &mut end) {
        Ok(()) => return Ok(are_ended(&end)),
        Err(Failed) => {
            return Err(ReadingRefused::Fault {
                faults: store.faults(),
            });
        }
    }
}

// The length that a head of nine bytes declares.
fn length_in(head: &[u8]) -> u64
    requires { length head.now ≡ 9 }
    ensures small { result < 2 ^ 64 }
    ensures stands { take 8 (drop 1 head.now) ≡ le 8 result }
{
    match take_u64(head, 1) {
        Ok((len, _)) => return len,
        Err(_) => unreachable!(),
    }
}

// Reads the head of the record at that offset once more, if the bytes up to `end` have it.
fn read_head<T: Store>(store: &mut T, end: u64, offset: u64) -> Result<(), ReadingRefused>
    requires { end ≤ (T.state store.old).known }
    ensures stands { IfOk result (λ it. HeadStands (T.state store.old).bytes end offset) }
    ensures cause { CheckCause (T.state store.old).faults (T.state store.new).faults result }
    ensures fault { IfErr result IsFault }
    ensures asks { (T.state store.new).asked ≤ (T.state store.old).asked + 9 }
    ensures keeps { StoreStays (T.state store.old) (T.state store.new) }
{
    if offset > end || end - offset < 9 {
        return Ok(());
    }
    let mut head = [0; 9];
    match store.read_at(offset, &mut head) {
        Ok(()) => {
            let _len = length_in(&head);
            return Ok(());
        }
        Err(Failed) => {
            return Err(ReadingRefused::Fault {
                faults: store.faults(),
            });
        }
    }
}

/// What is told of a file whose records are read up to `end`, where its last magic begins, and whose reading halts at that
/// offset for that rule. The head of the record there is read once more.
pub(crate) fn tell_flaw<T: Store>(
    store: &mut T,
    end: u64,
    offset: u64,
    rule: Rule,
) -> Result<FailedRule, ReadingRefused>
    requires { end ≤ (T.state store.old).known }
    ensures tells { IfOk result (λ f. TellsFlaw (T.state store.old).bytes end offset rule f) }
    ensures cause { CheckCause (T.state store.old).faults (T.state store.new).faults result }
    ensures fault { IfErr result IsFault }
    ensures asks { (T.state store.new).asked ≤ (T.state store.old).asked + 9 }
    ensures keeps { StoreStays (T.state store.old) (T.state store.new) }
{
    match read_head(store, end, offset) {
        Ok(()) => return Ok(failed_rule(end, offset, rule)),
        Err(why) => return Err(why),
    }
}

/// The same of a file of that length that doesn't end with the magic.
pub(crate) fn tell_cut<T: Store>(
    store: &mut T,
    len: u64,
    offset: u64,
    rule: Rule,
) -> Result<FailedRule, ReadingRefused>
    requires { len ≤ (T.state store.old).known }
    ensures tells { IfOk result (λ f. TellsCut (T.state store.old).bytes len offset rule f) }
    ensures cause { CheckCause (T.state store.old).faults (T.state store.new).faults result }
    ensures fault { IfErr result IsFault }
    ensures asks { (T.state store.new).asked ≤ (T.state store.old).asked + 9 }
    ensures keeps { StoreStays (T.state store.old) (T.state store.new) }
{
    match read_head(store, len, offset) {
        Ok(()) => return Ok(cut_rule(len, offset, rule)),
        Err(why) => return Err(why),
    }
}
