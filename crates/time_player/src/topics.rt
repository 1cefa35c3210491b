//! The topics of messages that are kept.
ghost use Rattle.std.specs.Prelude.{IfOk};
ghost use Rattle.mcap_model.specs.Plain.{AreNamed};
ghost use Rattle.time_player.specs.Keeping.{kept_in};

use crate::kept::Kept;
use mcap_model::{Tables, Topic, topics_of};
use mcap_wire::Memory;
use std::alloc::Global;

/// The topics of the channels of messages that are kept, as they were declared.
pub fn topics_of_kept(alloc: Global, tables: &Tables, kept: &Kept) -> Result<Vec<Topic>, Memory>
    ensures { IfOk result (λ topics. AreNamed tables.now.channels (kept_in kept.now) topics.items) }
{
    let few = match kept.one_of_each_channel(alloc) {
        Ok(few) => few,
        Err(memory) => return Err(memory),
    };
    match topics_of(alloc, tables, &few) {
        Ok(topics) => return Ok(topics),
        Err(memory) => return Err(memory),
    }
}
