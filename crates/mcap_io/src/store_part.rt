//! Parts of a store, read to vectors of their own.
ghost use Rattle.std.specs.Prelude.{◌+◌, ◌≤◌};
ghost use Rattle.mcap_io.specs.StoreAnswers.{TakesPart};

use crate::outside::{Failed, OutsideRefused};
use crate::store::Store;
use std::alloc::Global;

/// The `len` bytes that stand from `at` on.
pub fn read_part<T: Store>(
    alloc: Global,
    store: &mut T,
    at: u64,
    len: u64,
) -> Result<Vec<u8>, OutsideRefused>
    requires { at + len ≤ (T.state store.old).known }
    ensures { TakesPart (T.state store.old) (T.state store.new) at len result }
{
    let mut part = Vec::new(alloc);
    if part.resize(len as usize, 0).is_err() {
        return Err(OutsideRefused::Memory);
    }
    match store.read_at(at, part.as_mut_slice()) {
        Ok(()) => return Ok(part),
        Err(Failed) => return Err(OutsideRefused::Failed),
    }
}
