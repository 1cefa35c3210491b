//! What Statistics count of Schemas, Channels and Messages.
ghost use Rattle.std.specs.Prelude.{◌≡◌, ◌+◌, ◌^◌, ◌<◌, ◌∷◌, ◌++◌, [], List, length, filter, OnOk};
ghost use Rattle.rec_data.specs.Records.{message_opcode};
ghost use Rattle.mcap_model.specs.Tops.{Top, is_flat_kind};
ghost use Rattle.mcap_model.specs.Rules.{V6};
ghost use Rattle.mcap_model.specs.Made.{top};
ghost use Rattle.file_check.specs.RecordCounts.{CountsOf, CountsMessage};

use crate::message_counts::MessageCounts;
use index_check::Ids;
use mcap_model::{RecordView, view_record};
use mcap_wire::Memory;
use rec_data::{MESSAGE, Message};
use std::alloc::Global;

/// What was counted of Schemas, Channels and Messages: the number of Messages, the least and the greatest of their log times
/// in nanoseconds, where there are any, and their number on each channel; and the ids of Schemas and of Channels.
#[derive(Drop)]
pub(crate) struct RecordCounts {
    pub messages: u64,
    pub any: bool,
    pub least: u64,
    pub greatest: u64,
    pub by_channel: MessageCounts,
    pub schemas: Ids,
    pub channels: Ids,
}

impl RecordCounts {
    pub(crate) fn new(alloc: Global) -> RecordCounts
        ensures { CountsOf [] result }
    {
        RecordCounts {
            messages: 0,
            any: false,
            least: 0,
            greatest: 0,
            by_channel: MessageCounts::new(alloc),
            schemas: Ids::new(alloc),
            channels: Ids::new(alloc),
        }
    }

    // Counts a Message of that log time.
    fn hear(&mut self, time: u64)
        ensures { CountsMessage self.old time self.new }
    {
        self.messages = self.messages.saturating_add(1);
        if self.any {
            self.least = self.least.min(time);
            self.greatest = self.greatest.max(time);
        } else {
            self.any = true;
            self.least = time;
            self.greatest = time;
        }
    }

    fn take_message(&mut self, content: &[u8]) -> Result<(), Memory>
        requires { V6 (top message_opcode content.now) }
        ensures { OnOk result ((records : List Top) → CountsOf records self.old → length records + 1 < 2 ^ 64
            → CountsOf (records ++ top message_opcode content.now ∷ []) self.new) }
    {
        match Message::parse(content) {
            Ok(message) => {
                self.by_channel.add(message.channel_id)?;
                self.hear(message.log_time);
                return Ok(());
            }
            Err(_) => unreachable!(),
        }
    }

    /// Takes the next record, of the top level or of a chunk: others than Schemas, Channels and Messages aren't counted. After a
    /// want of memory the counts are of no use.
    pub(crate) fn take(&mut self, op: u8, content: &[u8]) -> Result<(), Memory>
        requires { V6 (top op content.now) }
        ensures { OnOk result ((records : List Top) → CountsOf records self.old → length records + 1 < 2 ^ 64
            → CountsOf (records ++ filter is_flat_kind (top op content.now ∷ [])) self.new) }
    {
        // Most are Messages, for which no view is made.
        if op == MESSAGE {
            return self.take_message(content);
        }
        match view_record(op, content) {
            RecordView::Schema(schema) => return self.schemas.add_once(schema.id),
            RecordView::Channel(channel) => return self.channels.add_once(channel.id),
            _ => return Ok(()),
        }
    }
}
