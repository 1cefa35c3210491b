//! The record that some bytes begin with.
ghost use Rattle.std.specs.Prelude.{◌≡◌};
ghost use Rattle.mcap_scan.specs.Heads.{BeginsWith};

use mcap_model::{Inner, InnerWalk};

/// The record that the bytes begin with, if a whole one does. Others may stand behind it.
pub fn first_record(bytes: &[u8]) -> Option<Inner<'_>>
    ensures { BeginsWith bytes.now result }
{
    let mut walk = InnerWalk::new(bytes);
    walk.next()
}
