//! What a scanner knows of the declarations so far.
ghost use Rattle.std.specs.Prelude.{◌≡◌, ◌⊎◌, ◌↔◌, ℕ, List, [], IsTrue, Some, None};
ghost use Rattle.rec_data.specs.Records.{schema_opcode, channel_opcode, message_opcode};
ghost use Rattle.mcap_model.specs.Tops.{Top};
ghost use Rattle.mcap_model.specs.Declarations.{TakesDeclaration, TablesOf, Hears, SomeFirst};
ghost use Rattle.mcap_model.specs.Made.{top};

use crate::channel_table::ChannelTable;
use crate::rules::Rule;
use crate::same::{is_same_channel, is_same_schema};
use crate::table::Table;
use rec_data::{Channel, Message, Schema};
use std::alloc::Global;

/// Whether a record may stand where it does.
#[derive(Clone, Copy)]
pub enum Ruling {
    Fits,
    /// It breaks that rule.
    Breaks { rule: Rule },
    /// Memory lacked.
    Memory,
}

/// The first Schema and the first Channel of each id.
#[derive(Drop)]
pub struct Tables {
    pub schemas: Table,
    pub channels: ChannelTable,
}

impl Tables {
    pub fn new(alloc: Global) -> Tables
        ensures schemas { result.schemas ≡ [] }
        ensures channels { result.channels ≡ [] }
    {
        Tables {
            schemas: Table::new(alloc),
            channels: ChannelTable::new(alloc),
        }
    }

    /// Takes a Schema.
    pub fn take_schema(&mut self, alloc: Global, content: &[u8]) -> Ruling
        ensures { TakesDeclaration self.old self.new (top schema_opcode content.now) result }
    {
        let schema = match Schema::parse(content) {
            Ok(schema) => schema,
            Err(_) => return Ruling::Breaks { rule: Rule::V6 },
        };
        if schema.id == 0 {
            return Ruling::Breaks { rule: Rule::V6 };
        }
        match self.schemas.find(schema.id) {
            Some(first) => {
                if first == content {
                    return Ruling::Fits;
                }
                if is_same_schema(first, &schema) {
                    return Ruling::Fits;
                }
                return Ruling::Breaks { rule: Rule::V7 };
            }
            None => match self.schemas.add(alloc, schema.id, content) {
                Ok(()) => return Ruling::Fits,
                Err(_) => return Ruling::Memory,
            },
        }
    }

    // Whether a Channel's schema is there, where it has one.
    fn has_schema(&self, id: u16) -> bool
        ensures { IsTrue result ↔ ((id ≡ 0) ⊎ SomeFirst self.now.schemas id) }
    {
        id == 0 || self.schemas.find(id).is_some()
    }

    /// Takes a Channel.
    pub fn take_channel(&mut self, alloc: Global, content: &[u8]) -> Ruling
        ensures { TakesDeclaration self.old self.new (top channel_opcode content.now) result }
    {
        let channel = match Channel::parse(content) {
            Ok(channel) => channel,
            Err(_) => return Ruling::Breaks { rule: Rule::V6 },
        };
        if !self.has_schema(channel.schema_id) {
            return Ruling::Breaks { rule: Rule::V7 };
        }
        match self.channels.find(channel.id) {
            Some(first) => {
                if first == content {
                    return Ruling::Fits;
                }
                match is_same_channel(alloc, first, &channel) {
                    Ok(true) => return Ruling::Fits,
                    Ok(false) => return Ruling::Breaks { rule: Rule::V7 },
                    Err(_) => return Ruling::Memory,
                }
            }
            None => match self.channels.add(alloc, channel.id, content) {
                Ok(()) => return Ruling::Fits,
                Err(_) => return Ruling::Memory,
            },
        }
    }

    /// The log time of a Message, or the rule that it breaks.
    pub(crate) fn take_message(&self, content: &[u8]) -> Result<u64, Rule>
        ensures { (records : List Top) → TablesOf records self.now
            → Hears records (top message_opcode content.now) result }
    {
        let message = match Message::parse(content) {
            Ok(message) => message,
            Err(_) => return Err(Rule::V6),
        };
        match self.channels.find(message.channel_id) {
            Some(_) => return Ok(message.log_time),
            None => return Err(Rule::V7),
        }
    }
}
