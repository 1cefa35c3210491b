//! The parts of channels, each once.
ghost use Rattle.std.specs.Prelude.{◌≡◌, [], Some, IfOk, slice_get};
ghost use Rattle.id_table.specs.Given.{EachOnce, FoundAt};
ghost use Rattle.id_table.specs.Parts.{Grows, StandAt, FoundPlaces};

use indexmap::IndexSet;
use mcap_wire::{Memory, Pairs, Text};
use rec_data::ChannelDef;
use std::alloc::Global;

/// Where the topic, the encoding and the metadata of a channel stand.
#[derive(Clone, Copy, PartialEq, Eq, Hash)]
pub(crate) struct Places {
    topic: usize,
    message_encoding: usize,
    metadata: usize,
}

/// Topics and encodings together, and metadata. A part that many channels have stands once.
#[derive(Drop)]
pub(crate) struct Parts {
    texts: IndexSet<Text>,
    maps: IndexSet<Pairs>,
}

impl Parts {
    /// No parts.
    pub(crate) fn new(alloc: Global) -> Parts
        ensures texts { result.texts.keys ≡ [] }
        ensures maps { result.maps.keys ≡ [] }
    {
        Parts {
            texts: IndexSet::new(alloc),
            maps: IndexSet::new(alloc),
        }
    }

    /// Where the parts of a channel stand, if all do. It takes no memory.
    pub(crate) fn places(&self, d: &ChannelDef) -> Option<Places>
        ensures { FoundPlaces self.now.texts.keys self.now.maps.keys d.now result }
    {
        let Some(topic) = place_of_text(&self.texts, &d.topic) else {
            return None;
        };
        let Some(message_encoding) = place_of_text(&self.texts, &d.message_encoding) else {
            return None;
        };
        match place_of_map(&self.maps, &d.metadata) {
            None => return None,
            Some(metadata) => return Some(Places {
                topic,
                message_encoding,
                metadata,
            }),
        }
    }

    /// Adds the parts of a channel that don't stand here, and says where they all do. Where memory lacks for one, those that
    /// were added stay, and serve a later call.
    pub(crate) fn enter(&mut self, alloc: Global, d: &ChannelDef) -> Result<Places, Memory>
        ensures at { IfOk result (λ p. StandAt self.new.texts.keys self.new.maps.keys d.now p) }
        ensures texts { Grows self.old.texts.keys self.new.texts.keys }
        ensures maps { Grows self.old.maps.keys self.new.maps.keys }
    {
        let topic = match enter_text(alloc, &mut self.texts, &d.topic) {
            Ok(place) => place,
            Err(memory) => return Err(memory),
        };
        let message_encoding = match enter_text(alloc, &mut self.texts, &d.message_encoding) {
            Ok(place) => place,
            Err(memory) => return Err(memory),
        };
        match enter_map(alloc, &mut self.maps, &d.metadata) {
            Ok(metadata) => return Ok(Places {
                topic,
                message_encoding,
                metadata,
            }),
            Err(memory) => return Err(memory),
        }
    }
}

// Where a text stands.
fn place_of_text(set: &IndexSet<Text>, text: &Text) -> Option<usize>
    ensures { FoundAt set.now.keys text.now result }
{
    set.get_index_of(text)
}

// Where a map stands.
fn place_of_map(set: &IndexSet<Pairs>, map: &Pairs) -> Option<usize>
    ensures { FoundAt set.now.keys map.now result }
{
    set.get_index_of(map)
}

// The parts differ.
pub(crate) fn parts_differ(parts: &Parts)
    ensures texts { EachOnce parts.now.texts.keys }
    ensures maps { EachOnce parts.now.maps.keys }
{
    let _texts = parts.texts.len();
    let _maps = parts.maps.len();
}

// Where a text stands, which is added where it doesn't yet.
fn enter_text(alloc: Global, set: &mut IndexSet<Text>, text: &Text) -> Result<usize, Memory>
    ensures at { IfOk result (λ n. slice_get set.new.keys n ≡ Some text.now) }
    ensures grows { Grows set.old.keys set.new.keys }
{
    match place_of_text(set, text) {
        Some(place) => return Ok(place),
        None => {}
    }
    let place = set.len();
    let copy = match Text::copied(alloc, text.as_str()) {
        Ok(copy) => copy,
        Err(_) => return Err(Memory),
    };
    match set.insert(copy) {
        Ok(_) => return Ok(place),
        Err(_) => return Err(Memory),
    }
}

// Where a map stands, which is added where it doesn't yet.
fn enter_map(alloc: Global, set: &mut IndexSet<Pairs>, map: &Pairs) -> Result<usize, Memory>
    ensures at { IfOk result (λ n. slice_get set.new.keys n ≡ Some map.now) }
    ensures grows { Grows set.old.keys set.new.keys }
{
    match place_of_map(set, map) {
        Some(place) => return Ok(place),
        None => {}
    }
    let place = set.len();
    let copy = match Pairs::copied(alloc, map) {
        Ok(copy) => copy,
        Err(memory) => return Err(memory),
    };
    match set.insert(copy) {
        Ok(_) => return Ok(place),
        Err(_) => return Err(Memory),
    }
}
