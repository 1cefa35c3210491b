//! What a merge begins to write with.
ghost use Rattle.std.specs.Prelude.{◌≤◌, length, IfOk};
ghost use Rattle.mcap_merge.specs.Putting.{IsBegun};

use crate::input::Input;
use crate::joining::Joiner;
use crate::pieces::list_pieces;
use mcap_wire::Memory;
use merge_walk::Walk;
use std::alloc::Global;

/// The walk through the pieces of all inputs, and the ids of their channels.
#[derive(Drop)]
pub(crate) struct Begun {
    pub walk: Walk,
    pub joiner: Joiner,
}

/// The walk and the joiner of these inputs, before anything is put.
pub(crate) fn begin(alloc: Global, inputs: &[Input]) -> Result<Begun, Memory>
    requires few { length inputs.now ≤ 64 }
    ensures begun { IfOk result (IsBegun inputs.now) }
{
    let pieces = match list_pieces(alloc, inputs) {
        Ok(pieces) => pieces,
        Err(memory) => return Err(memory),
    };
    let joiner = match Joiner::new(alloc, inputs.len()) {
        Ok(joiner) => joiner,
        Err(memory) => return Err(memory),
    };
    let walk = Walk::new(alloc, pieces);
    return Ok(Begun { walk, joiner });
}
