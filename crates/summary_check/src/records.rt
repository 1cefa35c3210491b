//! A record that was cut.
ghost use Rattle.std.specs.Prelude.{◌≡◌, ◌<◌, ℕ, List, length};
ghost use Rattle.mcap_model.specs.Places.{At};
ghost use Rattle.mcap_model.specs.Tops.{Top};
ghost use Rattle.mcap_model.specs.Made.{top};
ghost use Rattle.summary_read.specs.PartSteps.{cut_tops, AreInside};
ghost use Rattle.mcap_wire.specs.declared.faults.Cut.{Cut as OneCut};

use mcap_wire::Cut;

/// A record by its opcode and its content.
#[derive(Clone, Copy)]
pub(crate) struct Record<'a> {
    pub op: u8,
    pub content: &'a [u8],
}

/// The record that was cut at that place.
pub(crate) fn record_at<'a>(bytes: &'a [u8], cuts: &[Cut], i: usize) -> Record<'a>
    requires inside { AreInside bytes.now cuts.now }
    requires within { i < length cuts.now }
    ensures { At (cut_tops bytes.now cuts.now) i (top result.op result.content.now) }
{
    let Cut { op, from, to } = cuts[i];
    Record {
        op,
        content: &bytes[from as usize..to as usize],
    }
}

/// The opcode of the record that was cut at that place.
pub(crate) fn op_at(cuts: &[Cut], i: usize) -> u8
    requires { i < length cuts.now }
    ensures { (bytes : List ℕ) → (t : Top) × At (cut_tops bytes cuts.now) i t × (t.op ≡ result) }
{
    cuts[i].op
}

/// Where the content of the record begins that was cut at that place.
pub(crate) fn from_at(cuts: &[Cut], i: usize) -> u64
    requires { i < length cuts.now }
    ensures { (c : OneCut) × At cuts.now i c × (c.from ≡ result) }
{
    cuts[i].from
}
