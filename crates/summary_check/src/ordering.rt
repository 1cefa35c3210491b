//! The order of the records in a summary.
ghost use Rattle.std.specs.Prelude.{◌≡◌, List, ℕ, IfOk};
ghost use Rattle.mcap_model.specs.Tops.{Top};
ghost use Rattle.index_check.specs.Order.{OrderOf};
ghost use Rattle.summary_read.specs.PartSteps.{cut_tops};
ghost use Rattle.summary_check.specs.Body.{known, OpTaken, OrderJudged};

use crate::records::op_at;
use index_check::Order;
use mcap_wire::{Cut, Memory};
use std::alloc::Global;

// Whether a record of that opcode is in its place behind the others. If so, it is put behind them; only known records count.
fn take_op(order: &mut Order, op: u8) -> Result<bool, Memory>
    ensures { IfOk result (λ right. (before : List Top) (t : Top) → OrderOf (known before) order.old → t.op ≡ op
        → OpTaken before t order.new right) }
{
    if op == 0 {
        return Ok(true);
    }
    if op >= 16 {
        return Ok(true);
    }
    if !order.is_in_place(op) {
        return Ok(false);
    }
    match order.add(op) {
        Ok(()) => return Ok(true),
        Err(memory) => return Err(memory),
    }
}

/// The first record that doesn't stand where the order of a summary has it.
pub(crate) fn find_misplaced(alloc: Global, cuts: &[Cut]) -> Result<Option<usize>, Memory>
    ensures { IfOk result (λ found. (bytes : List ℕ) → OrderJudged (cut_tops bytes cuts.now) found) }
{
    let mut order = Order::new(alloc);
    'records: for i in 0..cuts.len() {
        let op = op_at(cuts, i);
        match take_op(&mut order, op) {
            Ok(true) => {}
            Ok(false) => return Ok(Some(i)),
            Err(memory) => return Err(memory),
        }
    }
    return Ok(None);
}
