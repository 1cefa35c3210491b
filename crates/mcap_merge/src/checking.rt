//! Whether there are ids for the channels of all messages, before anything is written.
ghost use Rattle.std.specs.Prelude.{◌≡◌, ◌≤◌, ◌<◌, ◌*◌, ◌+◌, ◌/◌, List, length, IfErr, OnOk};
ghost use Rattle.mcap_model.specs.Places.{At};
ghost use Rattle.mcap_model.specs.Tops.{Top};
ghost use Rattle.mcap_model.specs.Declarations.{TablesOf};
ghost use Rattle.mcap_merge.specs.Inputs.{HoldInputs};
ghost use Rattle.mcap_merge.specs.ReadInputs.{Read, read_tops};
ghost use Rattle.mcap_merge.specs.Joining.{LackMet};
ghost use Rattle.mcap_merge.specs.Contents.{TakesOf, LacksIdsOf, IsIdTable, IdsSuffice};

use crate::input::Input;
use crate::joining::content_of;
use id_table::{IdRefused, IdTable};
use mcap_model::Tables;
use std::alloc::Global;

/// How many ids there are, with 0.
pub(crate) const ID_COUNT: usize = 65_536;

/// The input and the id of the channel at a place, where all ids of the first input stand first.
pub(crate) fn channel_at(inputs: &[Input], place: usize) -> (&Input, u16)
    requires few { length inputs.now ≤ 64 }
    requires within { place < length inputs.now * 65536 }
    ensures input { At inputs.now (place / 65536) result.0.now }
    ensures place { place ≡ place / 65536 * 65536 + result.1 }
    ensures short { result.1 < 65536 }
{
    (&inputs[place / ID_COUNT], (place % ID_COUNT) as u16)
}

// Enters the content of the channel of that id, where it isn't there yet.
fn enter_channel(
    alloc: Global,
    table: &mut IdTable,
    tables: &Tables,
    source: u16,
) -> Result<(), IdRefused>
    ensures entered { OnOk result ((records : List Top) → TablesOf records tables.now
        → TakesOf records source table.old table.new) }
    ensures table { IsIdTable table.old }
    ensures refused { IfErr result (λ why. (records : List Top) → TablesOf records tables.now
        → LacksIdsOf records source table.old why) }
{
    let _schemas = table.schemas();
    let _channels = table.channels();
    let content = match content_of(alloc, tables, source) {
        Ok(content) => content,
        Err(_) => return Err(IdRefused::Memory),
    };
    match table.declare(&content) {
        Ok(_) => return Ok(()),
        Err(refused) => return Err(refused),
    }
}

/// Sees that there are ids for all channels that have messages, and for their schemas.
pub(crate) fn check_ids(alloc: Global, inputs: &[Input]) -> Result<(), IdRefused>
    requires few { length inputs.now ≤ 64 }
    requires held { (reads : List Read) × HoldInputs reads inputs.now }
    ensures suffice { OnOk result ((reads : List Read) → HoldInputs reads inputs.now → IdsSuffice (read_tops reads)) }
    ensures refused { IfErr result (λ why. (reads : List Read) → HoldInputs reads inputs.now
        → LackMet (read_tops reads) why) }
{
    let mut table = match IdTable::new(alloc) {
        Ok(table) => table,
        Err(_) => return Err(IdRefused::Memory),
    };
    'channels: for place in 0..inputs.len() * ID_COUNT {
        let (input, source) = channel_at(inputs, place);
        if input.used[source as usize] {
            match enter_channel(alloc, &mut table, &input.tables, source) {
                Ok(()) => {}
                Err(refused) => return Err(refused),
            }
        }
    }
    let _schemas = table.schemas();
    let _channels = table.channels();
    return Ok(());
}
