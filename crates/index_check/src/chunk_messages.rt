//! The Messages of a chunk, by channel.
ghost use Rattle.std.specs.Prelude.{◌≡◌, ◌↔◌, ◌<◌, ◌≤◌, ◌==◌, [], ℕ, length, filter, IsTrue, IsPermutation, OnOk, OnErr};
ghost use Rattle.std.specs.List.{AllAdjacentBelow};
ghost use Rattle.mcap_model.specs.Places.{At};
ghost use Rattle.mcap_model.specs.Tops.{records_in};
ghost use Rattle.mcap_scan.specs.declared.message_heads.MessageHead.{MessageHead as Heard};
ghost use Rattle.index_check.specs.Messages.{ByChannelNotBehind, MessagesRise, HoldsMessages, AreOn};

use crate::ids::Ids;
use mcap_scan::{MessageHead, list_heads};
use mcap_wire::Memory;
use std::alloc::Global;
use std::marker::Model;

/// The Messages of a chunk, in ascending order of channel and offset, so that those of a channel stand together. It takes
/// 24 bytes for each Message. Contracts see the list of them.
#[derive(Drop)]
pub struct ChunkMessages {
    messages: Vec<MessageHead>,
}

impl Model for ChunkMessages {
    ghost use Rattle.std.specs.Prelude.{List};
    ghost use Rattle.mcap_scan.specs.declared.message_heads.MessageHead.{MessageHead as Heard};
    ghost use Rattle.index_check.specs.Messages.{MessagesRise};

    ghost Value = { List Heard };

    ghost view = { λ s. s.messages.items };

    ghost invariant = { λ s. MessagesRise s.messages.items };
}

// Whether a Message doesn't come behind another.
fn is_not_behind(one: MessageHead, other: MessageHead) -> bool
    ensures { IsTrue result ↔ ByChannelNotBehind one other }
{
    if one.channel != other.channel {
        return one.channel < other.channel;
    }
    return one.offset <= other.offset;
}

// Whether no Message comes behind the next.
fn is_in_order(messages: &[MessageHead]) -> bool
    ensures { IsTrue result → AllAdjacentBelow ByChannelNotBehind messages.now (length messages.now) }
{
    'messages: for i in 1..messages.len() {
        if !is_not_behind(messages[i - 1], messages[i]) {
            return false;
        }
    }
    return true;
}

// Puts Messages in order. Those that are in order already, as those of one channel, cost one pass.
fn put_in_order(messages: &mut Vec<MessageHead>)
    ensures same { IsPermutation messages.old.items messages.new.items }
    ensures rises { MessagesRise messages.new.items }
{
    if is_in_order(messages) {
        return;
    }
    messages.sort_unstable_by_key(|m| (m.channel, m.offset));
}

// How many Messages, which are in order, are of channels below that number.
fn count_below(messages: &[MessageHead], bound: u32) -> usize
    requires { MessagesRise messages.now }
    ensures within { result ≤ length messages.now }
    ensures parts { (k : ℕ) (heard : Heard) → At messages.now k heard → (k < result) ↔ (heard.channel < bound) }
{
    messages.partition_point(|m| (m.channel as u32) < bound)
}

// Those of them, which are in order, that are on that channel.
fn run_of(messages: &[MessageHead], channel: u16) -> &[MessageHead]
    requires { MessagesRise messages.now }
    ensures { result.now ≡ filter (λ heard. heard.channel == channel) messages.now }
{
    let from = count_below(messages, channel as u32);
    let to = count_below(messages, channel as u32 + 1);
    &messages[from..to]
}

impl ChunkMessages {
    /// A table of no Messages.
    pub fn new(alloc: Global) -> ChunkMessages
        ensures { result ≡ [] }
    {
        ChunkMessages {
            messages: Vec::new(alloc),
        }
    }

    /// Holds the Messages among these records in place of those before, in the same room where it suffices. Where memory
    /// runs out it holds none.
    pub fn refill(&mut self, records: &[u8]) -> Result<(), Memory>
        ensures ok { OnOk result (HoldsMessages (records_in records.now) self.new) }
        ensures err { OnErr result (self.new ≡ []) }
    {
        self.messages.clear();
        match list_heads(&mut self.messages, records) {
            Ok(()) => {}
            Err(memory) => {
                self.messages.clear();
                return Err(memory);
            }
        }
        put_in_order(&mut self.messages);
        return Ok(());
    }

    /// Whether there is none.
    pub fn is_empty(&self) -> bool
        ensures { IsTrue result ↔ (self.now ≡ []) }
    {
        self.messages.is_empty()
    }

    /// Those on that channel, in ascending order of offset.
    pub(crate) fn on_channel(&self, channel: u16) -> &[MessageHead]
        ensures among { result.now ≡ filter (λ heard. heard.channel == channel) self.now }
        ensures rises { MessagesRise result.now }
    {
        run_of(&self.messages, channel)
    }

    /// Whether the channel of each of them is one of these.
    pub(crate) fn are_on(&self, channels: &Ids) -> bool
        ensures { IsTrue result ↔ AreOn self.now channels.now }
    {
        'messages: for i in 0..self.messages.len() {
            if !channels.has(self.messages[i].channel) {
                return false;
            }
        }
        return true;
    }
}
