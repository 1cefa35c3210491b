//! What is asked for of the channels that a source declares.
ghost use Rattle.std.specs.Prelude.{◌≡◌, [], OnOk};
ghost use Rattle.rec_data.specs.Parsed.{channel_fields};
ghost use Rattle.mcap_model.specs.Plain.{asked_topic};
ghost use Rattle.mcap_filter.specs.Picked.{is_topic};
ghost use Rattle.mcap_filter.specs.Picking.{Chooses};

use indexmap::IndexSet;
use mcap_model::{Range, Table};
use mcap_wire::{Memory, Text};
use rec_data::Channel;
use record_keeping::declare;
use std::alloc::Global;

/// Which messages are asked for: those of a range of log times, on a topic if one is given.
#[derive(Drop)]
pub(crate) struct Asked<'a> {
    pub(crate) range: Range,
    pub(crate) topic: Option<&'a Text>,
}

/// What was declared so far: the first Schemas; the first Channels that are on a topic that is asked for; and the ids of those that
/// aren't.
#[derive(Drop)]
pub(crate) struct Choices {
    pub(crate) schemas: Table,
    pub(crate) wanted: Table,
    pub(crate) passed: IndexSet<u16>,
}

/// Nothing is declared yet.
pub(crate) fn no_choices(alloc: Global) -> Choices
    ensures schemas { result.schemas ≡ [] }
    ensures wanted { result.wanted ≡ [] }
    ensures passed { result.passed.keys ≡ [] }
{
    Choices {
        schemas: Table::new(alloc),
        wanted: Table::new(alloc),
        passed: IndexSet::new(alloc),
    }
}

// Whether a topic is the one that is asked for, if one is.
fn is_on_topic(topic: Option<&Text>, named: &str) -> bool
    ensures { result ≡ is_topic (asked_topic topic.entry) named.now }
{
    match topic {
        Some(asked) => return asked.is(named),
        None => return true,
    }
}

/// Notes the Channel of that content, if it is the first of its id, as one that is wanted or as one that is passed over.
pub(crate) fn choose(
    alloc: Global,
    choices: &mut Choices,
    topic: Option<&Text>,
    channel: &Channel,
    content: &[u8],
) -> Result<(), Memory>
    ensures { OnOk result (Chooses (asked_topic topic.entry) choices.old choices.new channel.now.id content.now
        (channel_fields channel.now).topic) }
{
    match choices.wanted.find(channel.id) {
        Some(_) => return Ok(()),
        None => {}
    }
    if is_on_topic(topic, channel.topic) {
        if choices.passed.contains(&channel.id) {
            return Ok(());
        }
        return choices.wanted.add(alloc, channel.id, content);
    }
    match declare(&mut choices.passed, channel.id) {
        Ok(_) => return Ok(()),
        Err(memory) => return Err(memory),
    }
}
