//! The ids that the channels of a feed got.
ghost use Rattle.std.specs.Prelude.{◌≡◌, ◌⊎◌, ◌<◌, ℕ, [], IfOk, IfSome};
ghost use Rattle.mcap_wire.specs.Limits.{declaration_limit};
ghost use Rattle.mcap_model.specs.Places.{At};
ghost use Rattle.history_ids.specs.DeclarationFits.{SchemaFits};
ghost use Rattle.history_ids.specs.FeedContents.{no_schema};
ghost use Rattle.feed_lane.specs.Kept.{with_channel_id, with_kept};

use history_ids::{KeptSchema, no_schema};
use mcap_wire::Memory;
use record_core::DECLARATION_LIMIT;
use std::alloc::Global;
use std::marker::Model;
use std::mem;

/// For each id that a channel of a feed may have, the id that its declaration got, or 0 while it has none. Beside them the
/// schema of the channel that was declared last, for the next one, which may have the same: what stands under an id of a feed
/// stays the same, so it is known by its id, however long it is. Likewise how many bytes the records of a channel have is kept
/// where they are too many for a declaration; there is no room for that before it is needed.
#[derive(Drop)]
pub(crate) struct Ids {
    given: Vec<u16>,
    kept: KeptSchema,
    wide: Vec<u64>,
}

/// As many ids as a channel of a feed may have.
const CHANNEL_IDS: usize = 65_536;

impl Model for Ids {
    ghost use Rattle.std.specs.Prelude.{◌≡◌, length};
    ghost use Rattle.history_ids.specs.DeclarationFits.{SchemaFits};
    ghost use Rattle.feed_lane.specs.Kept.{LaneIds, lane_ids};

    ghost Value = { LaneIds };

    ghost view = { λ t. lane_ids t.given.items t.kept t.wide.items };

    ghost invariant = { λ t. (length t.given.items ≡ 65536) × SchemaFits t.kept.schema };
}

impl Ids {
    pub(crate) fn new(alloc: Global) -> Result<Ids, Memory>
        ensures given { IfOk result (λ ids. (source id : ℕ) → At ids.given source id → id ≡ 0) }
        ensures kept { IfOk result (λ ids. ids.kept ≡ no_schema) }
        ensures wide { IfOk result (λ ids. ids.wide ≡ []) }
    {
        let mut given = Vec::new(alloc);
        match given.resize(CHANNEL_IDS, 0) {
            Ok(()) => return Ok(Ids {
                given,
                kept: no_schema(),
                wide: Vec::new(alloc),
            }),
            Err(_) => return Err(Memory),
        }
    }

    pub(crate) fn get(&self, source: u16) -> u16
        ensures { At self.now.given source result }
    {
        self.given[source as usize]
    }

    pub(crate) fn set(&mut self, source: u16, id: u16)
        ensures { self.new ≡ with_channel_id self.old source id }
    {
        self.given[source as usize] = id;
    }

    /// Hands out the schema that is kept.
    pub(crate) fn take_schema(&mut self) -> KeptSchema
        ensures kept { result ≡ self.old.kept }
        ensures fits { SchemaFits result.schema }
        ensures rest { self.new ≡ with_kept self.old no_schema }
    {
        mem::replace(&mut self.kept, no_schema())
    }

    /// Keeps a schema.
    pub(crate) fn keep_schema(&mut self, kept: KeptSchema)
        requires { SchemaFits kept.schema }
        ensures { self.new ≡ with_kept self.old kept }
    {
        self.kept = kept;
    }

    /// How many bytes the records of the channel have, where it is kept that they are too many.
    pub(crate) fn wide(&self, source: u16) -> Option<u64>
        ensures there { IfSome result (λ len. At self.now.wide source len) }
        ensures over { IfSome result (λ len. declaration_limit < len) }
    {
        if self.wide.len() <= source as usize {
            return None;
        }
        let len = self.wide[source as usize];
        if len <= DECLARATION_LIMIT {
            return None;
        }
        Some(len)
    }

    /// Keeps how many bytes they have, if there is memory for that.
    pub(crate) fn keep_wide(&mut self, source: u16, len: u64)
        ensures given { self.new.given ≡ self.old.given }
        ensures kept { self.new.kept ≡ self.old.kept }
        ensures wide { (other n : ℕ) → At self.new.wide other n → declaration_limit < n
            → ((other ≡ source) × (n ≡ len)) ⊎ At self.old.wide other n }
    {
        if self.wide.len() <= source as usize {
            match self.wide.resize(CHANNEL_IDS, 0) {
                Ok(()) => {}
                Err(_) => return,
            }
        }
        self.wide[source as usize] = len;
    }
}
