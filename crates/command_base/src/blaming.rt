//! Which parts of the outside failed under a command that reads some files and writes one.
ghost use Rattle.std.specs.Prelude.{◌≡◌, ◌≤◌, ◌↔◌, ◌||◌, ℕ, List, length, not, if◌then◌else◌, false, IsTrue};
ghost use Rattle.command_base.specs.Outputs.{some_failed};
ghost use Rattle.command_base.specs.OutputSteps.{FailsWithCause, PartFailed, PartsShow};

use crate::{Counts, rose};

/// Which parts of the outside failed: these inputs, or all of them, the output, or standard output. Of the inputs these are the
/// answers for those that were reached, in their order.
#[derive(Clone, Copy)]
pub struct FailedParts<'a> {
    pub inputs: &'a [bool],
    pub every_input: bool,
    pub out: bool,
    pub printing: bool,
}

/// Whether one of the answers is that it failed.
pub fn has_some(failed: &[bool]) -> bool
    ensures { result ≡ some_failed failed.now }
{
    failed.iter().any(|b| *b)
}

/// Whether the one holds and the other doesn't.
pub fn holds_alone(one: bool, other: bool) -> bool
    ensures { result ≡ (if one then not other else false) }
{
    one && !other
}

/// Whether one of three holds.
pub fn any_holds(first: bool, second: bool, third: bool) -> bool
    ensures { result ≡ (first || (second || third)) }
{
    first || second || third
}

/// Which parts failed between the two counts. A fault of the inputs that no answer told of may be any input's, and one of the
/// world is the output's.
pub fn failed_parts<'a>(
    before: &Counts,
    now: &Counts,
    inputs_failed: &'a [bool],
    out_failed: bool,
) -> FailedParts<'a>
    ensures { (names : List (List ℕ)) → 1 ≤ length names
        → FailsWithCause before.now now.now inputs_failed.now out_failed
        → PartsShow before.now now.now names inputs_failed.now out_failed result }
{
    let world = rose(before.world, now.world);
    let inputs = rose(before.inputs, now.inputs);
    let outputs = rose(before.outputs, now.outputs);
    let some_input = has_some(inputs_failed);
    FailedParts {
        inputs: inputs_failed,
        every_input: holds_alone(inputs, some_input),
        out: any_holds(out_failed, outputs, holds_alone(world, some_input)),
        printing: rose(before.printing, now.printing),
    }
}

/// Whether some part failed.
pub fn is_part_failed(failed: FailedParts<'_>) -> bool
    ensures { IsTrue result ↔ PartFailed failed.entry }
{
    failed.every_input || has_some(failed.inputs) || failed.out || failed.printing
}
