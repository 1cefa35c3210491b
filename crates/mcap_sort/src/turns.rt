//! Putting the messages in the order of log time and place, as they are loaded again.
ghost use Rattle.std.specs.Prelude.{◌≡◌, [], map, length, IfErr, OnOk};
ghost use Rattle.chunk_writer.specs.declared.phase.Phase.TheVariants as phases;
ghost use Rattle.chunk_writer.specs.Scribes.{store_of, phase_of};
ghost use Rattle.merge_walk.specs.Stores.{files_of, StoresFit, StoresStay, AskedWithin, unasked, none_left};
ghost use Rattle.merge_walk.specs.Walks.{pieces_in, WalkStands};
ghost use Rattle.mcap_merge.specs.Turns.{IsWalkRefusal, WhyNotAll, stop_of, PutCounts};
ghost use Rattle.mcap_merge.specs.ReadInputs.{Read};
ghost use Rattle.mcap_merge.specs.Inputs.{HoldsInput};
ghost use Rattle.mcap_sort.specs.Turns.{PutAll, PutSome, only};

use crate::gathering::Gathered;
use crate::putting::put_message;
use mcap_io::{LiveStore, Store};
use mcap_merge::{MergeRefused, message_in, refusal_at};
use merge_walk::{Walk, WalkRefused};
use record_keeping::Keeping;
use std::alloc::Global;

// Why a file isn't sorted, where the walk can't go on.
fn refusal_of(why: WalkRefused) -> MergeRefused
    ensures { IsWalkRefusal why result }
{
    match why {
        WalkRefused::Changed { input, offset } => return MergeRefused::Changed { input, offset },
        WalkRefused::Refused { input, why } => return refusal_at(input, why),
    }
}

/// Puts the messages that the walk gives, each after what it needs.
pub fn put_turns<T: Store, L: LiveStore>(
    alloc: Global,
    gathered: &Gathered,
    stores: &mut Vec<T>,
    walk: &mut Walk,
    k: &mut Keeping<L>,
) -> Result<(), MergeRefused>
    requires one { length stores.old.items ≡ 1 }
    requires held { (r : Read) × HoldsInput r gathered.now.input }
    requires begun { WalkStands (files_of (map (λ s. T.state s) stores.old.items)) walk.old [] [] }
    requires fits { StoresFit (map (λ s. T.state s) stores.old.items) (pieces_in walk.old) }
    requires going { phase_of k.old.scribe ≡ phases.Going }
    ensures all { OnOk result (PutAll L.state (files_of (map (λ s. T.state s) stores.old.items)) gathered.now walk.old
        k.old k.new) }
    ensures some { IfErr result (λ why. PutSome L.state (files_of (map (λ s. T.state s) stores.old.items)) gathered.now
        walk.old k.old k.new) }
    ensures stay { StoresStay (map (λ s. T.state s) stores.old.items) (map (λ s. T.state s) stores.new.items) }
    ensures goes_on { OnOk result (phase_of k.new.scribe ≡ phases.Going) }
    ensures stopped { IfErr result (λ why. phase_of k.new.scribe ≡ phases.Stopped (stop_of why)) }
    ensures why { IfErr result (λ why. WhyNotAll (files_of (map (λ s. T.state s) stores.old.items)) walk.old
        (only gathered.now) why) }
    ensures counts { PutCounts (map (λ s. T.state s) stores.old.items) (map (λ s. T.state s) stores.new.items)
        (L.state (store_of k.old.scribe)).faults (L.state (store_of k.new.scribe)).faults result }
    ensures asked { AskedWithin (map (λ s. T.state s) stores.old.items) (map (λ s. T.state s) stores.new.items)
        (unasked walk.old) none_left }
{
    let mut framed = Vec::new(alloc);
    'turns: for _ in 0..u64::MAX {
        let turn = match walk.advance(stores) {
            Ok(Some(turn)) => turn,
            Ok(None) => return Ok(()),
            Err(why) => {
                let _stop = k.scribe.stop_for_memory();
                return Err(refusal_of(why));
            }
        };
        let record = walk.message(&turn);
        let id = match message_in(&gathered.input, record.content) {
            Some(message) => message.channel_id,
            None => {
                let _stop = k.scribe.stop_for_memory();
                return Err(MergeRefused::Changed {
                    input: turn.input,
                    offset: turn.offset,
                });
            }
        };
        match put_message(
            alloc,
            k,
            &gathered.declared,
            &mut framed,
            id,
            record.content,
        ) {
            Ok(()) => {}
            Err(stop) => return Err(MergeRefused::Stopped { stop }),
        }
    }
    return Err(MergeRefused::Stopped {
        stop: k.scribe.stop_for_memory(),
    });
}
