//! Writing the extras of a merge.
ghost use Rattle.std.specs.Prelude.{◌≡◌, ◌≤◌, [], length, IfErr, OnOk};
ghost use Rattle.mcap_model.specs.Places.{Each};
ghost use Rattle.mcap_model.specs.ReadBack.{IsExtra};
ghost use Rattle.chunk_writer.specs.declared.phase.Phase.TheVariants as phases;
ghost use Rattle.chunk_writer.specs.Stops.{Cause};
ghost use Rattle.mcap_merge.specs.Inputs.{extra_top, extra_tops};
ghost use Rattle.mcap_merge.specs.Writing.{ExtrasMeet, extras_of};

use crate::input::{Extra, Input};
use crate::pen::Pen;
use mcap_model::Stop;

// Adds the extras of an input.
fn write_held<P: Pen>(extras: &[Extra], pen: &mut P) -> Result<(), Stop>
    requires meet { Each (λ e. IsExtra (extra_top e)) extras.now }
    requires going { P.phase pen.old ≡ phases.Going }
    ensures adds { P.adds pen.old pen.new (extra_tops extras.now) [] }
    ensures goes_on { OnOk result (P.phase pen.new ≡ phases.Going) }
    ensures stopped { IfErr result (λ stop. P.phase pen.new ≡ phases.Stopped stop) }
    ensures cause { Cause (P.failures pen.old) (P.failures pen.new) result }
{
    'extras: for k in 0..extras.len() {
        let extra = &extras[k];
        match pen.add_extra(extra.op, extra.content.as_slice()) {
            Ok(()) => {}
            Err(stop) => return Err(stop),
        }
    }
    return Ok(());
}

/// Adds the extras of all inputs, in their order.
pub(crate) fn write_extras<P: Pen>(inputs: &[Input], pen: &mut P) -> Result<(), Stop>
    requires meet { ExtrasMeet inputs.now }
    requires going { P.phase pen.old ≡ phases.Going }
    ensures adds { P.adds pen.old pen.new (extras_of inputs.now) [] }
    ensures goes_on { OnOk result (P.phase pen.new ≡ phases.Going) }
    ensures stopped { IfErr result (λ stop. P.phase pen.new ≡ phases.Stopped stop) }
    ensures cause { Cause (P.failures pen.old) (P.failures pen.new) result }
{
    'inputs: for k in 0..inputs.len() {
        match write_held(inputs[k].extras.as_slice(), pen) {
            Ok(()) => {}
            Err(stop) => return Err(stop),
        }
    }
    return Ok(());
}
