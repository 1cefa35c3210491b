//! The Channels of a summary as JSON.
ghost use Rattle.std.specs.Prelude.{ℕ, List, ◌<◌, length, IfOk, OnOk};
ghost use Rattle.std.specs.List.{AllZip};
ghost use Rattle.json.specs.Tree.{json_tokens};
ghost use Rattle.rec_data.specs.Fields.{ChannelFields};
ghost use Rattle.rec_data.specs.Parsed.{channel_fields};
ghost use Rattle.mcap_model.specs.Fields.{IsChannel};
ghost use Rattle.mcap_model.specs.Places.{Each};
ghost use Rattle.command_read.specs.IdTables.{IsCountTable};
ghost use Rattle.command_read.specs.Firsts.{AreFirsts};
ghost use Rattle.command_read.specs.Json.{channel_value, channels_value};
ghost use Rattle.command_read.specs.Writing.{AddsTokens, ShowIds, ShownAt};

use crate::counts::{count_table, told};
use crate::firsts::first_places;
use crate::members::{
    close_array, close_object, open_array, open_object, put_count, put_number, put_text,
};
use json::Writer;
use mcap_wire::{CountsRef, Memory};
use rec_data::Channel;
use std::alloc::Global;
use summary_read::Loaded;

// The ids of the Channels, in their order.
fn channel_ids(alloc: Global, loaded: &Loaded) -> Result<Vec<u16>, Memory>
    ensures { IfOk result (λ ids. ShowIds IsChannel loaded.now.channels ids.items) }
{
    let mut ids = Vec::new(alloc);
    'channels: for i in 0..loaded.channels() {
        match ids.push(loaded.channel(i).id) {
            Ok(()) => {}
            Err(_) => return Err(Memory),
        }
    }
    return Ok(ids);
}

// Writes a Channel with the count of its messages.
fn put_channel(out: &mut Writer, channel: &Channel<'_>, table: &[u64]) -> Result<(), Memory>
    ensures { OnOk result ((counts : List (ℕ × ℕ)) → IsCountTable counts table.now
        → AddsTokens out.old out.new (json_tokens (channel_value counts
        (channel.now.id, channel_fields channel.now)))) }
{
    open_object(out)?;
    put_count(out, "count", told(table, channel.id))?;
    put_text(out, "encoding", channel.message_encoding)?;
    put_number(out, "id", channel.id as u64)?;
    put_number(out, "schema", channel.schema_id as u64)?;
    put_text(out, "topic", channel.topic)?;
    close_object(out)?;
    return Ok(());
}

// Writes the Channels at those places as an array.
fn put_places(
    out: &mut Writer,
    loaded: &Loaded,
    places: &[usize],
    table: &[u64],
) -> Result<(), Memory>
    requires { Each (λ p. p < length loaded.now.channels) places.now }
    ensures { OnOk result ((shown : List (ℕ × ChannelFields))
        × AllZip (ShownAt IsChannel loaded.now.channels) places.now shown
        × ((counts : List (ℕ × ℕ)) → IsCountTable counts table.now → AddsTokens out.old out.new (json_tokens (channels_value counts shown)))) }
{
    open_array(out)?;
    'places: for i in 0..places.len() {
        let channel = loaded.channel(places[i]);
        match put_channel(out, &channel, table) {
            Ok(()) => {}
            Err(memory) => return Err(memory),
        }
    }
    close_array(out)?;
    return Ok(());
}

/// Writes the first Channel of each id, in the ascending order of the ids, with the counts of their messages.
pub(crate) fn put_channels(
    alloc: Global,
    out: &mut Writer,
    loaded: &Loaded,
    counts: &CountsRef<'_>,
) -> Result<(), Memory>
    ensures { OnOk result ((shown : List (ℕ × ChannelFields)) × AreFirsts IsChannel loaded.now.channels shown
        × AddsTokens out.old out.new (json_tokens (channels_value counts.now shown))) }
{
    let ids = channel_ids(alloc, loaded)?;
    let places = first_places(alloc, &ids)?;
    let table = count_table(alloc, counts)?;
    put_places(out, loaded, &places, &table)?;
    return Ok(());
}
