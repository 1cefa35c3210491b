//! What is read again of the inputs.
ghost use Rattle.std.specs.Prelude.{◌≡◌, ◌≤◌, length, IfOk};
ghost use Rattle.mcap_merge.specs.Pieces.{pieces_from};

use crate::input::Input;
use mcap_wire::Memory;
use merge_walk::{Piece, pieces_of};
use std::alloc::Global;

/// The pieces of all inputs, in which their messages stand.
pub(crate) fn list_pieces(alloc: Global, inputs: &[Input]) -> Result<Vec<Piece>, Memory>
    requires { length inputs.now ≤ 64 }
    ensures { IfOk result (λ pieces. pieces.items ≡ pieces_from 0 inputs.now) }
{
    let mut pieces = Vec::new(alloc);
    'inputs: for i in 0..inputs.len() {
        match pieces_of(&mut pieces, i as u32, inputs[i].spans.as_slice()) {
            Ok(()) => {}
            Err(memory) => return Err(memory),
        }
    }
    return Ok(pieces);
}
