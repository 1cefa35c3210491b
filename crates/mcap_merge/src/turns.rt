//! Putting the messages of all inputs in their order, as they are loaded again.
ghost use Rattle.std.specs.Prelude.{◌≡◌, ◌≤◌, ◌*◌, List, map, length, IfOk, IfErr, OnOk};
ghost use Rattle.mcap_io.specs.Stores.{StoreState};
ghost use Rattle.chunk_writer.specs.declared.phase.Phase.TheVariants as phases;
ghost use Rattle.history_ids.specs.Tables.{HasSchemas};
ghost use Rattle.merge_walk.specs.Stores.{files_of, StoresFit, StoresStay, AskedWithin, unasked, none_left};
ghost use Rattle.merge_walk.specs.Walks.{pieces_in};
ghost use Rattle.mcap_merge.specs.Inputs.{HoldInputs};
ghost use Rattle.mcap_merge.specs.ReadInputs.{Read};
ghost use Rattle.mcap_merge.specs.Turns.{IsMessageOn, IsWalkRefusal, sources, PutSoFar, PutAll, PutSome, WhyNotAll, stop_of, PutCounts};

use crate::answers::MergeRefused;
use crate::input::Input;
use crate::joining::Joiner;
use crate::pen::Pen;
use crate::reading::refusal_at;
use crate::writing::write_message;
use mcap_io::Store;
use merge_walk::{Walk, WalkRefused};
use rec_data::Message;
use std::alloc::Global;

/// The Message of that content, where it is one on a channel of the input that has messages.
pub fn message_in<'a>(input: &Input, content: &'a [u8]) -> Option<Message<'a>>
    requires { length input.now.used.items ≡ 65536 }
    ensures { IsMessageOn input.now content.now result }
{
    let message = match Message::parse(content) {
        Ok(message) => message,
        Err(_) => return None,
    };
    if input.used[message.channel_id as usize] {
        return Some(message);
    }
    return None;
}

// Why files aren't merged, where the walk can't go on.
fn refusal_of(why: WalkRefused) -> MergeRefused
    ensures { IsWalkRefusal why result }
{
    match why {
        WalkRefused::Changed { input, offset } => return MergeRefused::Changed { input, offset },
        WalkRefused::Refused { input, why } => return refusal_at(input, why),
    }
}

/// Puts the messages that the walk gives, with what is declared for them, and counts them.
pub(crate) fn put_turns<T: Store, P: Pen>(
    alloc: Global,
    inputs: &[Input],
    stores: &mut Vec<T>,
    walk: &mut Walk,
    joiner: &mut Joiner,
    framed: &mut Vec<u8>,
    pen: &mut P,
) -> Result<u64, MergeRefused>
    requires few { length inputs.now ≤ 64 }
    requires held { (reads : List Read) × HoldInputs reads inputs.now }
    requires many { length stores.old.items ≡ length inputs.now }
    requires sized { length joiner.old.given.items ≡ length inputs.now * 65536 }
    requires schemas { HasSchemas joiner.old.table }
    requires begun { PutSoFar P.adds (sources (files_of (map (λ s. T.state s) stores.old.items)) inputs.now) walk.old 0
        joiner.old pen.old pen.old }
    requires fits { StoresFit (map (λ s. T.state s) stores.old.items) (pieces_in walk.old) }
    requires going { P.phase pen.old ≡ phases.Going }
    ensures all { IfOk result (λ count. PutAll P.adds
        (sources (files_of (map (λ s. T.state s) stores.old.items)) inputs.now) walk.new count joiner.new pen.old
        pen.new) }
    ensures some { IfErr result (λ why. PutSome P.adds (files_of (map (λ s. T.state s) stores.old.items)) inputs.now
        walk.old pen.old pen.new) }
    ensures pieces { OnOk result (pieces_in walk.new ≡ pieces_in walk.old) }
    ensures stay { StoresStay (map (λ s. T.state s) stores.old.items) (map (λ s. T.state s) stores.new.items) }
    ensures goes_on { OnOk result (P.phase pen.new ≡ phases.Going) }
    ensures stopped { IfErr result (λ why. P.phase pen.new ≡ phases.Stopped (stop_of why)) }
    ensures why { IfErr result (λ why. WhyNotAll (files_of (map (λ s. T.state s) stores.old.items)) walk.old inputs.now
        why) }
    ensures counts { PutCounts (map (λ s. T.state s) stores.old.items) (map (λ s. T.state s) stores.new.items)
        (P.failures pen.old) (P.failures pen.new) result }
    ensures asked { AskedWithin (map (λ s. T.state s) stores.old.items) (map (λ s. T.state s) stores.new.items)
        (unasked walk.old) none_left }
{
    'turns: for count in 0..u64::MAX {
        let turn = match walk.advance(stores) {
            Ok(Some(turn)) => turn,
            Ok(None) => return Ok(count),
            Err(why) => {
                let _stop = pen.lack();
                return Err(refusal_of(why));
            }
        };
        let number = turn.input as usize;
        let input = &inputs[number];
        let record = walk.message(&turn);
        let message = match message_in(input, record.content) {
            Some(message) => message,
            None => {
                let _stop = pen.lack();
                return Err(MergeRefused::Changed {
                    input: turn.input,
                    offset: turn.offset,
                });
            }
        };
        match write_message(alloc, joiner, framed, input, number, &message, pen) {
            Ok(()) => {}
            Err(stop) => return Err(MergeRefused::Stopped { stop }),
        }
    }
    return Err(MergeRefused::Stopped { stop: pen.lack() });
}
