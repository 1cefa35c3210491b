//! A replay whose messages are kept.
ghost use Rattle.std.specs.Prelude.{◌≡◌, length, IfOk};
ghost use Rattle.time_player.specs.Keeping.{kept_in};

use crate::kept::Kept;
use mcap_model::{Replayed, Topic};
use mcap_wire::Memory;
use std::alloc::Global;
use std::marker::Model;

/// Messages that are kept, and the topic of each of their channels, in ascending order of their ids. Contracts see the
/// replay in which each message has a payload of its own.
#[derive(Drop)]
pub struct KeptReplay {
    topics: Vec<Topic>,
    kept: Kept,
}

impl Model for KeptReplay {
    ghost use Rattle.mcap_model.specs.declared.replay.Replayed.{Replayed};

    ghost Value = { Replayed };

    ghost use Rattle.std.specs.Vec.Covariant.{in_vec};
    ghost use Rattle.time_player.specs.Heads.{shown_in};

    ghost view = { λ r. record { topics = r.topics; shown = in_vec (shown_in r.kept.payloads.items) r.kept.heads } };
}

impl KeptReplay {
    /// Messages with these topics.
    pub fn new(topics: Vec<Topic>, kept: Kept) -> KeptReplay
        ensures topics { result.topics ≡ topics }
        ensures shown { result.shown.items ≡ kept_in kept }
    {
        KeptReplay { topics, kept }
    }

    /// How many messages it has.
    pub fn len(&self) -> usize
        ensures { result ≡ length self.now.shown.items }
    {
        self.kept.len()
    }

    /// Its topics and its messages.
    pub fn into_parts(self) -> (Vec<Topic>, Kept)
        ensures topics { result.0 ≡ self.topics }
        ensures kept { kept_in result.1 ≡ self.shown.items }
    {
        let KeptReplay { topics, kept } = self;
        (topics, kept)
    }

    /// The same, each message with a payload of its own.
    pub fn into_replayed(self, alloc: Global) -> Result<Replayed, Memory>
        ensures { IfOk result (λ replayed. (replayed.topics ≡ self.topics)
            × (replayed.shown.items ≡ self.shown.items)) }
    {
        let (topics, kept) = self.into_parts();
        match kept.copies(alloc) {
            Ok(shown) => return Ok(Replayed { topics, shown }),
            Err(memory) => return Err(memory),
        }
    }
}
