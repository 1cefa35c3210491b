//! Ids that were declared.
ghost use Rattle.std.specs.Prelude.{◌≡◌, not, false, IfOk, OnErr};
ghost use Rattle.record_keeping.specs.Keeping.{is_declared, declared_with};

use indexmap::IndexSet;
use mcap_wire::Memory;

/// Declares an id, and says whether it is the first time.
pub fn declare(ids: &mut IndexSet<u16>, id: u16) -> Result<bool, Memory>
    ensures first { IfOk result (λ first. first ≡ not (is_declared ids.old.keys id)) }
    ensures lacks { OnErr result (is_declared ids.old.keys id ≡ false) }
    ensures keys { IfOk result (λ first. ids.new.keys ≡ declared_with ids.old.keys id) }
{
    if ids.contains(&id) {
        return Ok(false);
    }
    match ids.reserve(1) {
        Ok(()) => {}
        Err(_) => return Err(Memory),
    }
    match ids.insert(id) {
        Ok(_) => return Ok(true),
        Err(_) => unreachable!(),
    }
}
