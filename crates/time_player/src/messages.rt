//! Messages that are to be printed, each with a payload of its own or all in one vector.
ghost use Rattle.std.specs.Prelude.{◌≡◌, ◌<◌, length};
ghost use Rattle.mcap_model.specs.Places.{At};

use crate::kept::Kept;
use crate::lent::{Lent, lend};
use mcap_model::Shown;

/// Messages, as a replay gave them or as they were kept.
#[derive(Drop)]
pub(crate) enum Messages {
    Owned { shown: Vec<Shown> },
    Kept { kept: Kept },
}

impl Messages {
    ghost use Rattle.time_player.specs.Lent.{shown_of};
    ghost use Rattle.time_player.specs.Messages.{messages_in};

    /// How many they are.
    pub(crate) fn len(&self) -> usize
        ensures { result ≡ length (messages_in self.now) }
    {
        match self {
            Messages::Owned { shown } => return shown.len(),
            Messages::Kept { kept } => return kept.len(),
        }
    }

    /// The message at that place among them.
    #[inline(always)]
    pub(crate) fn get(&self, i: usize) -> Lent<'_>
        requires { i < length (messages_in self.now) }
        ensures { At (messages_in self.now) i (shown_of result) }
    {
        match self {
            Messages::Owned { shown } => return lend(&shown[i]),
            Messages::Kept { kept } => return kept.get(i),
        }
    }
}
