//! Where each id of a list stands first.
ghost use Rattle.std.specs.Prelude.{IfOk};
ghost use Rattle.command_read.specs.IdTables.{IsPlaceTable, ArePlaces};

use mcap_wire::Memory;
use std::alloc::Global;

// How many ids there can be.
pub(crate) const IDS: usize = 65536;

// For each id one more than the place where it stands first, or 0 where it stands nowhere.
fn place_table(alloc: Global, ids: &[u16]) -> Result<Vec<usize>, Memory>
    ensures { IfOk result (λ table. IsPlaceTable ids.now table.items) }
{
    let mut table = Vec::new(alloc);
    match table.resize(IDS, 0) {
        Ok(()) => {}
        Err(_) => return Err(Memory),
    }
    'ids: for i in 0..ids.len() {
        let id = ids[i] as usize;
        let place = table[id];
        if place > 0 {
            continue;
        }
        table[id] = i + 1;
    }
    return Ok(table);
}

/// The places where the ids stand first, in the ascending order of the ids. The time grows with the number of ids alone.
pub(crate) fn first_places(alloc: Global, ids: &[u16]) -> Result<Vec<usize>, Memory>
    ensures { IfOk result (λ places. ArePlaces ids.now places.items) }
{
    let table = match place_table(alloc, ids) {
        Ok(table) => table,
        Err(memory) => return Err(memory),
    };
    let mut places = Vec::new(alloc);
    'table: for id in 0..table.len() {
        let place = table[id];
        if place == 0 {
            continue;
        }
        match places.push(place - 1) {
            Ok(()) => {}
            Err(_) => return Err(Memory),
        }
    }
    return Ok(places);
}
