//! The first Channels of the ids of a summary.
ghost use Rattle.std.specs.Prelude.{◌<◌, length, IfOk, OnOk};
ghost use Rattle.indexed_replay.specs.Gathering.{FirstChannels, TakesChannel};

use mcap_model::Tables;
use mcap_wire::{HEAD_LENGTH, Memory};
use rec_data::Channel;
use std::alloc::Global;
use summary_read::Loaded;

// Takes the Channel at that place, if none of its id was taken.
fn take_channel(alloc: Global, tables: &mut Tables, loaded: &Loaded, i: usize) -> Result<(), Memory>
    requires { i < length loaded.now.channels }
    ensures { OnOk result (TakesChannel loaded.now.channels i tables.old.channels tables.new.channels) }
{
    let channel = loaded.channel(i);
    match tables.channels.find(channel.id) {
        Some(_) => return Ok(()),
        None => {}
    }
    let mut record = Vec::new(alloc);
    match channel.frame(&mut record) {
        Ok(()) => {}
        Err(memory) => return Err(memory),
    }
    let (_head, content) = record.split_at(HEAD_LENGTH as usize);
    match tables.channels.add(alloc, channel.id, content) {
        Ok(()) => return Ok(()),
        Err(memory) => return Err(memory),
    }
}

/// The first Channel of each id of a summary that was loaded.
pub(crate) fn take_channels(alloc: Global, loaded: &Loaded) -> Result<Tables, Memory>
    ensures { IfOk result (λ tables. FirstChannels loaded.now.channels (length loaded.now.channels) tables.channels) }
{
    let mut tables = Tables::new(alloc);
    'channels: for i in 0..loaded.channels() {
        match take_channel(alloc, &mut tables, loaded, i) {
            Ok(()) => {}
            Err(memory) => return Err(memory),
        }
    }
    return Ok(tables);
}
