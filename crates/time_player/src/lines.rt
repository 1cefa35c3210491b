//! The lines of messages that are printed.
ghost use Rattle.std.specs.Prelude.{◌≡◌, ◌++◌, ◌∷◌, [], List, IfOk, OnOk, string_bytes};
ghost use Rattle.json.specs.Print.{quoted as json_string};
ghost use Rattle.mcap_model.specs.declared.replay.Topic.{Topic as Entry};
ghost use Rattle.mcap_model.specs.Scan.{Seen};
ghost use Rattle.mcap_model.specs.Showing.{Shows};
ghost use Rattle.time_player.specs.Text.{cat_text as text_of};
ghost use Rattle.time_player.specs.Lines.{EachDeclaredOnce, Quotes, Spells, spelling};

use crate::line::add_line;
use mcap_model::{Replayed, Table, Topic};
use mcap_wire::{Bytes, Memory};
use serde_json::Value;
use std::alloc::{AllocError, Global};

// A topic as a JSON string (RFC 8259, section 7).
fn quote(alloc: Global, topic: &str) -> Result<String, AllocError>
    ensures { IfOk result (λ text. string_bytes text ≡ json_string topic.now) }
{
    let value = Value::String(String::from_str(alloc, topic)?);
    value.to_string(alloc)
}

// Adds a topic as a JSON string, where its channel has none yet.
fn quote_topic(alloc: Global, entry: &Topic, quoted: &mut Table) -> Result<(), Memory>
    ensures { OnOk result ((before : List Entry) → Quotes before quoted.old
        → Quotes (before ++ entry.now ∷ []) quoted.new) }
{
    match quoted.find(entry.channel) {
        Some(_) => return Ok(()),
        None => {}
    }
    let text = match quote(alloc, entry.topic.as_str()) {
        Ok(text) => text,
        Err(_) => return Err(Memory),
    };
    match quoted.add(alloc, entry.channel, text.as_bytes()) {
        Ok(()) => return Ok(()),
        Err(memory) => return Err(memory),
    }
}

/// The topic of each channel as a JSON string.
pub(crate) fn quote_topics(alloc: Global, topics: &[Topic]) -> Result<Table, Memory>
    ensures { IfOk result (λ quoted. Quotes topics.now quoted) }
{
    let mut quoted = Table::new(alloc);
    'topics: for i in 0..topics.len() {
        match quote_topic(alloc, &topics[i], &mut quoted) {
            Ok(()) => {}
            Err(memory) => return Err(memory),
        }
    }
    return Ok(quoted);
}

/// The topic of a channel as a JSON string: an empty one, where it has none.
pub(crate) fn spelled(quoted: &Table, channel: u16) -> &[u8]
    ensures spells { Spells quoted.now channel result.now }
    ensures first { EachDeclaredOnce quoted.now → result.now ≡ spelling quoted.now channel }
{
    match quoted.find(channel) {
        Some(topic) => return topic,
        None => return b"\"\"",
    }
}

/// The lines of messages that are shown, each with its log time, publish time, channel, sequence, topic and data.
pub fn cat_text(alloc: Global, replayed: &Replayed) -> Result<Bytes, Memory>
    ensures { IfOk result (λ bytes. (messages : List Seen) → Shows replayed.now messages → bytes ≡ text_of messages) }
{
    let quoted = match quote_topics(alloc, &replayed.topics) {
        Ok(quoted) => quoted,
        Err(memory) => return Err(memory),
    };
    let mut out = Vec::new(alloc);
    'messages: for i in 0..replayed.shown.len() {
        let message = &replayed.shown[i];
        match add_line(&mut out, message, spelled(&quoted, message.channel)) {
            Ok(()) => {}
            Err(memory) => return Err(memory),
        }
    }
    return Ok(Bytes::new(out));
}
