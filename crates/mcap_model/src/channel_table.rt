//! The first Channels of ids.
ghost use Rattle.std.specs.Prelude.{◌≡◌, ◌∷◌, ◌++◌, [], ℕ, length, None, OnOk, OnErr};
ghost use Rattle.rec_data.specs.Records.{ShowsChannel};
ghost use Rattle.mcap_model.specs.Fields.{ChannelFields};
ghost use Rattle.mcap_model.specs.Places.{At};
ghost use Rattle.mcap_model.specs.declared.table.Declared.{Declared};
ghost use Rattle.mcap_model.specs.Declarations.{FindsFirst, ViewsFirst};

use crate::table::Table;
use mcap_wire::Memory;
use rec_data::Channel;
use std::alloc::Global;
use std::marker::Model;

/// The first Channel of each id, found by its id in one step. All that stands in it are Channels.
#[derive(Drop)]
pub struct ChannelTable {
    first: Table,
}

impl Model for ChannelTable {
    ghost use Rattle.std.specs.Prelude.{List};
    ghost use Rattle.mcap_model.specs.declared.table.Declared.{Declared};

    ghost Value = { List Declared };

    ghost use Rattle.mcap_model.specs.ChannelTables.{AreChannels};

    ghost view = { λ t. t.first };

    ghost invariant = { λ t. AreChannels t.first };
}

impl ChannelTable {
    pub fn new(alloc: Global) -> ChannelTable
        ensures { result ≡ [] }
    {
        ChannelTable {
            first: Table::new(alloc),
        }
    }

    /// How many ids were declared, each once.
    pub fn len(&self) -> usize
        ensures count { result ≡ length self.now }
        ensures apart { (j k : ℕ) (d e : Declared) → At self.now j d → At self.now k e → d.id ≡ e.id → j ≡ k }
    {
        self.first.len()
    }

    /// The content that declared that id.
    pub fn find(&self, id: u16) -> Option<&[u8]>
        ensures { FindsFirst self.now id result }
    {
        self.first.find(id)
    }

    /// The Channel that declared that id.
    pub fn view(&self, id: u16) -> Option<Channel<'_>>
        ensures { ViewsFirst self.now id result }
    {
        let content = match self.first.find(id) {
            Some(content) => content,
            None => return None,
        };
        match Channel::parse(content) {
            Ok(channel) => return Some(channel),
            Err(_) => unreachable!(),
        }
    }

    /// Adds the first Channel of an id.
    pub fn add(&mut self, alloc: Global, id: u16, content: &[u8]) -> Result<(), Memory>
        requires first { FindsFirst self.old id None }
        requires shown { (f : ChannelFields) × ShowsChannel content.now id f }
        ensures ok { OnOk result (self.new ≡ self.old ++ (record { id = id; content = content.now }) ∷ []) }
        ensures err { OnErr result (self.new ≡ self.old) }
    {
        self.first.add(alloc, id, content)
    }
}
