//! Reading the inputs of a merge, each whole.
ghost use Rattle.std.specs.Prelude.{◌≡◌, ◌+◌, ◌≤◌, List, map, length, IfOk, IfErr, OnOk};
ghost use Rattle.std.specs.List.{AllZip};
ghost use Rattle.mcap_io.specs.StoreAnswers.{StoreStays};
ghost use Rattle.mcap_merge.specs.Reading.{FaultsStand, InputRefused};
ghost use Rattle.mcap_merge.specs.ReadingSteps.{FrontReads, HasLength, StoreKeeps, ReadsWhole, IsCounted, FindsOutside, EndWithin, SpansFit, AsksWithinLength, IsRefusalAt, AllReadWhole};

use crate::answers::MergeRefused;
use crate::input::{Input, read_input};
use mcap_io::{Failed, Store, StoreFront};
use mcap_model::{ReadingRefused, Rule, Stop};
use merge_walk::Span;
use std::alloc::Global;

// Reads the first bytes of a store, by a source that counts its own failures.
fn read_front<T: Store>(alloc: Global, store: &mut T, len: u64) -> Result<Input, ReadingRefused>
    requires { len ≤ (T.state store.old).known }
    ensures { FrontReads (T.state store.old) len (T.state store.new) result }
{
    let mut source = StoreFront::new(store, len);
    read_input(alloc, &mut source)
}

// A refusal with the count of the store.
fn counted<T: Store>(store: &T, why: ReadingRefused) -> ReadingRefused
    ensures { IsCounted (T.state store.now).faults why result }
{
    match why {
        ReadingRefused::Fault { faults: _ } => {
            return ReadingRefused::Fault {
                faults: store.faults(),
            };
        }
        ReadingRefused::Grammar { offset, rule } => return ReadingRefused::Grammar { offset, rule },
        ReadingRefused::Compressed { offset, name } => {
            return ReadingRefused::Compressed { offset, name };
        }
        ReadingRefused::Limit { offset } => return ReadingRefused::Limit { offset },
        ReadingRefused::Memory => return ReadingRefused::Memory,
    }
}

// The offset of a span that ends behind so many bytes.
fn first_outside(spans: &[Span], len: u64) -> Option<u64>
    ensures { FindsOutside spans.now len result }
{
    'spans: for i in 0..spans.len() {
        let span = spans[i];
        if span.at > len || span.length > len - span.at {
            return Some(span.offset);
        }
    }
    return None;
}

// Reads a store of that length. One that gives other bytes than it has may show a record that ends behind them: it is cut short.
fn read_known<T: Store>(alloc: Global, store: &mut T, len: u64) -> Result<Input, ReadingRefused>
    requires known { len ≤ (T.state store.old).known }
    requires whole { HasLength (T.state store.old) len }
    ensures reads { ReadsWhole (T.state store.old) (T.state store.new) result }
    ensures keeps { StoreStays (T.state store.old) (T.state store.new) }
    ensures fits { IfOk result (λ input. EndWithin len input.spans.items) }
    ensures asked { (T.state store.new).asked ≤ (T.state store.old).asked + len }
{
    let input = match read_front(alloc, store, len) {
        Ok(input) => input,
        Err(why) => return Err(counted(store, why)),
    };
    match first_outside(input.spans.as_slice(), len) {
        None => return Ok(input),
        Some(offset) => return Err(ReadingRefused::Grammar {
            offset,
            rule: Rule::V4,
        }),
    }
}

// Reads a store whole.
fn read_store<T: Store>(alloc: Global, store: &mut T) -> Result<Input, ReadingRefused>
    ensures reads { ReadsWhole (T.state store.old) (T.state store.new) result }
    ensures keeps { StoreKeeps (T.state store.old) (T.state store.new) }
    ensures fits { IfOk result (λ input. SpansFit (T.state store.new) input) }
    ensures asked { AsksWithinLength (T.state store.old) (T.state store.new) }
{
    let len = match store.len() {
        Ok(len) => len,
        Err(Failed) => return Err(ReadingRefused::Fault {
            faults: store.faults(),
        }),
    };
    read_known(alloc, store, len)
}

/// Why files aren't merged, where the input of that number wasn't read, or not read again.
pub fn refusal_at(input: u32, why: ReadingRefused) -> MergeRefused
    ensures { IsRefusalAt input why result }
{
    match why {
        ReadingRefused::Memory => MergeRefused::Stopped { stop: Stop::Memory },
        why => MergeRefused::Halted { input, why },
    }
}

/// Reads all inputs, one after the other, each to its Data End.
pub(crate) fn read_inputs<T: Store>(
    alloc: Global,
    stores: &mut Vec<T>,
) -> Result<Vec<Input>, MergeRefused>
    requires few { length stores.old.items ≤ 64 }
    ensures read { IfOk result (λ inputs. AllReadWhole (map (λ s. T.state s) stores.old.items) inputs.items) }
    ensures still { OnOk result (AllZip FaultsStand (map (λ s. T.state s) stores.old.items)
        (map (λ s. T.state s) stores.new.items)) }
    ensures refused { IfErr result (λ why. InputRefused (map (λ s. T.state s) stores.old.items)
        (map (λ s. T.state s) stores.new.items) why) }
    ensures keeps { AllZip StoreKeeps (map (λ s. T.state s) stores.old.items) (map (λ s. T.state s) stores.new.items) }
    ensures fits { IfOk result (λ inputs. AllZip SpansFit (map (λ s. T.state s) stores.new.items) inputs.items) }
    ensures asked { AllZip AsksWithinLength (map (λ s. T.state s) stores.old.items)
        (map (λ s. T.state s) stores.new.items) }
{
    let mut inputs = Vec::new(alloc);
    'inputs: for i in 0..stores.len() {
        match read_store(alloc, &mut stores[i]) {
            Ok(input) => match inputs.push(input) {
                Ok(()) => {}
                Err(_) => return Err(MergeRefused::Stopped { stop: Stop::Memory }),
            },
            Err(why) => return Err(refusal_at(i as u32, why)),
        }
    }
    return Ok(inputs);
}
