//! The records of one kind among those of a summary.
ghost use Rattle.std.specs.Prelude.{◌≡◌, ◌==◌, filter, IfOk};

use mcap_wire::{Cut, Memory};
use std::alloc::Global;

/// Those of that opcode, in their order.
pub(crate) fn of_kind(alloc: Global, cuts: &[Cut], op: u8) -> Result<Vec<Cut>, Memory>
    ensures { IfOk result (λ some. some.items ≡ filter (λ c. c.op == op) cuts.now) }
{
    let mut some = Vec::new(alloc);
    'cuts: for i in 0..cuts.len() {
        let cut = cuts[i];
        if cut.op == op {
            match some.push(cut) {
                Ok(()) => {}
                Err(_) => return Err(Memory),
            }
        }
    }
    return Ok(some);
}
