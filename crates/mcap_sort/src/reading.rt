//! Reading the store that is sorted, whole.
ghost use Rattle.std.specs.Prelude.{◌≡◌, ◌+◌, ◌≤◌, IfOk};
ghost use Rattle.mcap_io.specs.StoreAnswers.{StoreStays};
ghost use Rattle.mcap_merge.specs.ReadingSteps.{HasLength, StoreKeeps, IsCounted, FindsOutside, EndWithin, SpansFit, AsksWithinLength};
ghost use Rattle.mcap_sort.specs.Gathering.{GathersFront, GathersWhole};

use crate::gathering::{Gathered, gather};
use mcap_io::{Failed, Store, StoreFront};
use mcap_model::{ReadingRefused, Rule};
use merge_walk::Span;
use std::alloc::Global;

// Reads the first bytes of a store, by a source that counts its own failures.
fn read_front<T: Store>(alloc: Global, store: &mut T, len: u64) -> Result<Gathered, ReadingRefused>
    requires { len ≤ (T.state store.old).known }
    ensures { GathersFront (T.state store.old) len (T.state store.new) result }
{
    let mut source = StoreFront::new(store, len);
    gather(alloc, &mut source)
}

// A refusal with the count of the store.
fn counted<T: Store>(store: &T, why: ReadingRefused) -> ReadingRefused
    ensures { IsCounted (T.state store.now).faults why result }
{
    match why {
        ReadingRefused::Fault { faults: _ } => {
            return ReadingRefused::Fault {
                faults: store.faults(),
            };
        }
        ReadingRefused::Grammar { offset, rule } => return ReadingRefused::Grammar { offset, rule },
        ReadingRefused::Compressed { offset, name } => {
            return ReadingRefused::Compressed { offset, name };
        }
        ReadingRefused::Limit { offset } => return ReadingRefused::Limit { offset },
        ReadingRefused::Memory => return ReadingRefused::Memory,
    }
}

// The offset of a span that ends behind so many bytes.
fn first_outside(spans: &[Span], len: u64) -> Option<u64>
    ensures { FindsOutside spans.now len result }
{
    'spans: for i in 0..spans.len() {
        let span = spans[i];
        if span.at > len || span.length > len - span.at {
            return Some(span.offset);
        }
    }
    return None;
}

// Reads a store of that length. One that gives other bytes than it has may show a record that ends behind them: it is cut short.
fn read_known<T: Store>(alloc: Global, store: &mut T, len: u64) -> Result<Gathered, ReadingRefused>
    requires known { len ≤ (T.state store.old).known }
    requires whole { HasLength (T.state store.old) len }
    ensures reads { GathersWhole (T.state store.old) (T.state store.new) result }
    ensures keeps { StoreStays (T.state store.old) (T.state store.new) }
    ensures fits { IfOk result (λ g. EndWithin len g.input.spans.items) }
    ensures asked { (T.state store.new).asked ≤ (T.state store.old).asked + len }
{
    let gathered = match read_front(alloc, store, len) {
        Ok(gathered) => gathered,
        Err(why) => return Err(counted(store, why)),
    };
    match first_outside(gathered.input.spans.as_slice(), len) {
        None => return Ok(gathered),
        Some(offset) => return Err(ReadingRefused::Grammar {
            offset,
            rule: Rule::V4,
        }),
    }
}

/// Reads a store whole.
pub fn read_store<T: Store>(alloc: Global, store: &mut T) -> Result<Gathered, ReadingRefused>
    ensures reads { GathersWhole (T.state store.old) (T.state store.new) result }
    ensures keeps { StoreKeeps (T.state store.old) (T.state store.new) }
    ensures fits { IfOk result (λ g. SpansFit (T.state store.new) g.input) }
    ensures asked { AsksWithinLength (T.state store.old) (T.state store.new) }
{
    let len = match store.len() {
        Ok(len) => len,
        Err(Failed) => return Err(ReadingRefused::Fault {
            faults: store.faults(),
        }),
    };
    read_known(alloc, store, len)
}
