//! The topics of the channels of messages.
ghost use Rattle.std.specs.Prelude.{◌≡◌, ◌↔◌, ℕ, map, IfOk, OnOk, filter, Contains};
ghost use Rattle.std.specs.List.Sorted.{IsStrictlyIncreasing};
ghost use Rattle.mcap_model.specs.Plain.{AddsTopic, is_used, AreNamed};

use crate::replay::{Shown, Topic};
use crate::tables::Tables;
use mcap_wire::{Memory, Text};
use std::alloc::Global;

// The ids of the channels of messages, in ascending order.
fn channels_of(alloc: Global, shown: &[Shown]) -> Result<Vec<u16>, Memory>
    ensures rises { IfOk result (λ ids. IsStrictlyIncreasing ids.items) }
    ensures are { IfOk result (λ ids. (id : ℕ) → Contains ids.items id ↔ Contains (map (λ s. s.channel) shown.now) id) }
{
    let mut ids = Vec::new(alloc);
    'messages: for i in 0..shown.len() {
        match ids.push(shown[i].channel) {
            Ok(()) => {}
            Err(_) => return Err(Memory),
        }
    }
    ids.sort_unstable();
    ids.dedup();
    return Ok(ids);
}

// Adds the topic of the channel of that id.
fn add_topic(alloc: Global, tables: &Tables, id: u16, topics: &mut Vec<Topic>) -> Result<(), Memory>
    ensures { OnOk result (AddsTopic tables.now.channels id topics.old.items topics.new.items) }
{
    let channel = match tables.channels.view(id) {
        Some(channel) => channel,
        None => return Ok(()),
    };
    let topic = Text::copied(alloc, channel.topic)?;
    match topics.push(Topic { channel: id, topic }) {
        Ok(()) => return Ok(()),
        Err(_) => return Err(Memory),
    }
}

/// The topics of the channels of messages, as they were declared.
pub fn topics_of(alloc: Global, tables: &Tables, shown: &[Shown]) -> Result<Vec<Topic>, Memory>
    ensures { IfOk result (λ topics. AreNamed tables.now.channels shown.now topics.items) }
{
    let ids = channels_of(alloc, shown)?;
    let mut topics = Vec::new(alloc);
    'ids: for i in 0..ids.len() {
        add_topic(alloc, tables, ids[i], &mut topics)?;
    }
    return Ok(topics);
}

// Whether one of the messages is on that channel.
fn is_used_by(shown: &[Shown], channel: u16) -> bool
    ensures { result ≡ is_used shown.now channel }
{
    shown.iter().any(|message| message.channel == channel)
}

/// Copies of those topics whose channels the messages are on.
pub(crate) fn used_topics(
    alloc: Global,
    topics: &[Topic],
    shown: &[Shown],
) -> Result<Vec<Topic>, Memory>
    ensures { IfOk result (λ used. used.items ≡ filter (λ t. is_used shown.now t.channel) topics.now) }
{
    let mut used = Vec::new(alloc);
    'topics: for i in 0..topics.len() {
        let entry = &topics[i];
        if is_used_by(shown, entry.channel) {
            let topic = Text::copied(alloc, entry.topic.as_str())?;
            match used.push(Topic {
                channel: entry.channel,
                topic,
            }) {
                Ok(()) => {}
                Err(_) => return Err(Memory),
            }
        }
    }
    return Ok(used);
}
