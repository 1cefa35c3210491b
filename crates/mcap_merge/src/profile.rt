//! The profile that all inputs have.
ghost use Rattle.std.specs.Prelude.{◌<◌, ◌≤◌, List, length, IfOk};
ghost use Rattle.mcap_model.specs.Merged.{CommonProfile};
ghost use Rattle.mcap_merge.specs.Inputs.{HoldInputs};
ghost use Rattle.mcap_merge.specs.ReadInputs.{Read, read_tops};

use crate::input::Input;
use mcap_wire::{Memory, Text};
use std::alloc::Global;

/// The profile that all inputs have, or none.
pub(crate) fn common_profile(alloc: Global, inputs: &[Input]) -> Result<Text, Memory>
    requires some { 0 < length inputs.now }
    ensures { IfOk result (λ profile. (reads : List Read) → HoldInputs reads inputs.now
        → CommonProfile (read_tops reads) profile) }
{
    let first = &inputs[0].profile;
    'inputs: for i in 1..inputs.len() {
        if !inputs[i].profile.is(first.as_str()) {
            return Text::copied(alloc, "");
        }
    }
    return Text::copied(alloc, first.as_str());
}
