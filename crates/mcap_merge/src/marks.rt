//! The channels of an input that have messages, marked at their ids.
ghost use Rattle.std.specs.Prelude.{◌≡◌, length, IfOk};
ghost use Rattle.mcap_merge.specs.Marks.{listed_channels, with_marks, AreUnmarked};

use mcap_scan::MessageHead;
use mcap_wire::Memory;
use std::alloc::Global;

// How many ids there are, with 0.
const ID_COUNT: usize = 65_536;

/// A place for each id, and no mark.
pub(crate) fn no_marks(alloc: Global) -> Result<Vec<bool>, Memory>
    ensures { IfOk result (λ marks. AreUnmarked marks.items) }
{
    let mut marks = Vec::new(alloc);
    match marks.resize(ID_COUNT, false) {
        Ok(()) => return Ok(marks),
        Err(_) => return Err(Memory),
    }
}

/// Marks the channels of these messages.
pub(crate) fn mark_channels(marks: &mut Vec<bool>, heads: &[MessageHead])
    requires { length marks.old.items ≡ 65536 }
    ensures sized { length marks.new.items ≡ 65536 }
    ensures marked { marks.new.items ≡ with_marks marks.old.items (listed_channels heads.now) }
{
    'messages: for i in 0..heads.len() {
        marks[heads[i].channel as usize] = true;
    }
}
