//! How many messages each channel has.
ghost use Rattle.std.specs.Prelude.{◌≡◌, IfOk, slice_get};
ghost use Rattle.command_read.specs.IdTables.{IsCountTable};

use crate::firsts::IDS;
use mcap_wire::{CountsRef, Memory};
use std::alloc::Global;

/// The counts of a map by their ids, 0 where it lacks the id, and none of them where the map is empty.
pub(crate) fn count_table(alloc: Global, counts: &CountsRef<'_>) -> Result<Vec<u64>, Memory>
    ensures { IfOk result (λ table. IsCountTable counts.now table.items) }
{
    let mut table = Vec::new(alloc);
    let mut i = counts.count();
    if i == 0 {
        return Ok(table);
    }
    match table.resize(IDS, 0) {
        Ok(()) => {}
        Err(_) => return Err(Memory),
    }
    // from the last to the first, so that the first of one id stays
    'counts: while i > 0 {
        i -= 1;
        let (id, count) = counts.item(i);
        table[id as usize] = count;
    }
    return Ok(table);
}

/// What such a table tells of an id.
pub(crate) fn told(table: &[u64], id: u16) -> Option<u64>
    ensures { result ≡ slice_get table.now id }
{
    match table.get(id as usize) {
        Some(count) => return Some(*count),
        None => return None,
    }
}
