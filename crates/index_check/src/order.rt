//! The order of the records in a summary.
ghost use Rattle.std.specs.Prelude.{◌≡◌, ◌↔◌, ◌++◌, ◌∷◌, [], List, IsTrue, OnOk};
ghost use Rattle.mcap_model.specs.Tops.{Top};
ghost use Rattle.mcap_model.specs.Whole.{IsInPlace};
ghost use Rattle.index_check.specs.Order.{OrderOf, OffsetsLast};

use crate::ids::Ids;
use mcap_wire::Memory;
use rec_index::{STATISTICS, SUMMARY_OFFSET};
use std::alloc::Global;

/// The opcodes of the known records of a summary so far: which there are, and the last one.
#[derive(Drop)]
pub struct Order {
    pub ops: Ids,
    pub last: u8,
}

impl Order {
    pub fn new(alloc: Global) -> Order
        ensures { OrderOf [] result }
    {
        Order {
            ops: Ids::new(alloc),
            last: 0,
        }
    }

    // Whether a record of that opcode doesn't stand behind a Summary Offset, or is one.
    fn keeps_offsets_last(&self, op: u8) -> bool
        ensures { IsTrue result ↔ OffsetsLast self.now.ops op }
    {
        if op == SUMMARY_OFFSET {
            return true;
        }
        return !self.ops.has(SUMMARY_OFFSET as u16);
    }

    /// Whether a known record of that opcode may stand behind these: the last of them has its opcode or none has, there is
    /// one Statistics, and behind Summary Offsets stand such alone.
    pub fn is_in_place(&self, op: u8) -> bool
        ensures { (before : List Top) (t : Top) → OrderOf before self.now → t.op ≡ op
            → IsTrue result ↔ IsInPlace before t }
    {
        if !self.keeps_offsets_last(op) {
            return false;
        }
        if !self.ops.has(op as u16) {
            return true;
        }
        if op == STATISTICS {
            return false;
        }
        if op == self.last {
            return true;
        }
        return false;
    }

    /// Adds a record of that opcode behind the others.
    pub fn add(&mut self, op: u8) -> Result<(), Memory>
        ensures { OnOk result ((before : List Top) (t : Top) → OrderOf before self.old → t.op ≡ op
            → OrderOf (before ++ t ∷ []) self.new) }
    {
        match self.ops.add_once(op as u16) {
            Ok(()) => {}
            Err(memory) => return Err(memory),
        }
        self.last = op;
        return Ok(());
    }
}
