//! Parts of a store, read behind other bytes.
ghost use Rattle.std.specs.Prelude.{◌+◌, ◌≤◌, length};
ghost use Rattle.time_player.specs.Reading.{PartIs, ReadsFrom};

use mcap_io::{Failed, OutsideRefused, Store};

/// Appends the `len` bytes that stand from `at` on. Where it is refused the vector may have grown.
pub(crate) fn add_part<T: Store>(
    store: &mut T,
    at: u64,
    len: u64,
    out: &mut Vec<u8>,
) -> Result<(), OutsideRefused>
    requires { at + len ≤ (T.state store.old).known }
    ensures gives { PartIs (T.state store.old).bytes at len out.old.items out.new.items result }
    ensures grows { length out.old.items ≤ length out.new.items }
    ensures within { length out.new.items ≤ length out.old.items + len }
    ensures reads { ReadsFrom (T.state store.old) (T.state store.new) len result }
{
    let from = out.len();
    let to = match from.checked_add(len as usize) {
        Some(to) => to,
        None => return Err(OutsideRefused::Memory),
    };
    match out.resize(to, 0) {
        Ok(()) => {}
        Err(_) => return Err(OutsideRefused::Memory),
    }
    match store.read_at(at, &mut out[from..]) {
        Ok(()) => return Ok(()),
        Err(Failed) => return Err(OutsideRefused::Failed),
    }
}
