//! What a chunk has in front of its records.
ghost use Rattle.std.specs.Prelude.{IfErr, IfOk};
ghost use Rattle.mcap_wire.specs.ContentReading.{Fails};
ghost use Rattle.indexed_replay.specs.Chunks.{ShowsFront, front_kinds};

use mcap_wire::{Bad, at_field, take_text, take_u32, take_u64};

/// The compression of a chunk and the length of its records, by the front of its content.
pub(crate) fn take_packing(front: &[u8]) -> Result<(&str, u64), Bad>
    ensures shown { IfOk result (λ taken. ShowsFront front.now taken.0.now taken.1) }
    ensures first_fault { IfErr result (λ bad. Fails front_kinds front.now bad.field bad.why) }
{
    let (_start, at) = at_field(1, take_u64(front, 0))?;
    let (_end, at) = at_field(2, take_u64(front, at))?;
    let (_whole, at) = at_field(3, take_u64(front, at))?;
    let (_crc, at) = at_field(4, take_u32(front, at))?;
    let (name, at) = at_field(5, take_text(front, at))?;
    let (size, _behind) = at_field(6, take_u64(front, at))?;
    Ok((name, size))
}
