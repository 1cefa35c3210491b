//! Writing the file of a merge.
ghost use Rattle.std.specs.Prelude.{◌≡◌, ◌≤◌, ◌⊎◌, List, map, length, Ok, IfOk, IfErr};
ghost use Rattle.chunk_writer.specs.declared.phase.Phase.TheVariants as phases;
ghost use Rattle.merge_walk.specs.Stores.{files_of, StoresFit, StoresStay, AskedWithin, unasked, none_left};
ghost use Rattle.merge_walk.specs.Walks.{pieces_in};
ghost use Rattle.mcap_merge.specs.Inputs.{HoldInputs};
ghost use Rattle.mcap_merge.specs.ReadInputs.{Read};
ghost use Rattle.mcap_merge.specs.Writing.{ExtrasMeet};
ghost use Rattle.mcap_merge.specs.Turns.{WhyNotAll, PutCounts};
ghost use Rattle.mcap_merge.specs.Putting.{IsBegun, EndsWhole, StopsBefore, StopsAtEnd};

use crate::answers::{MergeRefused, Merged};
use crate::extras::write_extras;
use crate::input::Input;
use crate::pen::Pen;
use crate::starting::Begun;
use crate::turns::put_turns;
use mcap_io::Store;
use std::alloc::Global;

/// Writes the file of what was begun: the extras, the messages with what is declared for them, and the end.
pub(crate) fn write_all<T: Store, P: Pen>(
    alloc: Global,
    inputs: &[Input],
    stores: &mut Vec<T>,
    begun: Begun,
    pen: &mut P,
) -> Result<Merged, MergeRefused>
    requires few { length inputs.now ≤ 64 }
    requires held { (reads : List Read) × HoldInputs reads inputs.now }
    requires meet { ExtrasMeet inputs.now }
    requires many { length stores.old.items ≡ length inputs.now }
    requires ready { IsBegun inputs.now begun }
    requires fits { StoresFit (map (λ s. T.state s) stores.old.items) (pieces_in begun.walk) }
    requires going { P.phase pen.old ≡ phases.Going }
    ensures written { IfOk result (λ m. EndsWhole P.adds P.ends
        (record { files = files_of (map (λ s. T.state s) stores.old.items); inputs = inputs.now; walk = begun.walk })
        pen.old pen.new m (Ok tt)) }
    ensures stopped { IfErr result (λ why. StopsBefore P.adds P.phase
        (record { files = files_of (map (λ s. T.state s) stores.old.items); inputs = inputs.now; walk = begun.walk })
        pen.old pen.new why
        ⊎ StopsAtEnd P.adds P.ends
        (record { files = files_of (map (λ s. T.state s) stores.old.items); inputs = inputs.now; walk = begun.walk })
        pen.old pen.new why) }
    ensures why { IfErr result (λ why. WhyNotAll (files_of (map (λ s. T.state s) stores.old.items)) begun.walk
        inputs.now why) }
    ensures stay { StoresStay (map (λ s. T.state s) stores.old.items) (map (λ s. T.state s) stores.new.items) }
    ensures counts { PutCounts (map (λ s. T.state s) stores.old.items) (map (λ s. T.state s) stores.new.items)
        (P.failures pen.old) (P.failures pen.new) result }
    ensures asked { AskedWithin (map (λ s. T.state s) stores.old.items) (map (λ s. T.state s) stores.new.items)
        (unasked begun.walk) none_left }
{
    match write_extras(inputs, pen) {
        Ok(()) => {}
        Err(stop) => return Err(MergeRefused::Stopped { stop }),
    }
    let Begun { walk, joiner } = begun;
    let mut walk = walk;
    let mut joiner = joiner;
    let mut framed = Vec::new(alloc);
    let messages = match put_turns(
        alloc,
        inputs,
        stores,
        &mut walk,
        &mut joiner,
        &mut framed,
        pen,
    ) {
        Ok(messages) => messages,
        Err(why) => return Err(why),
    };
    let merged = Merged {
        messages,
        records: messages.saturating_add(joiner.declared()),
        peak: walk.peak(),
    };
    match pen.finish() {
        Ok(()) => return Ok(merged),
        Err(stop) => return Err(MergeRefused::Stopped { stop }),
    }
}
