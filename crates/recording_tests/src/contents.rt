//! Channels that tests declare.
ghost use Rattle.std.specs.Prelude.{◌<◌, ◌^◌, Some, None, length, IfOk};
ghost use Rattle.history_ids.specs.DeclarationFits.{DefFits, SchemaFits};

use mcap_wire::{Bytes, Memory, Pairs, Text, take_pairs};
use rec_data::{ChannelDef, SchemaDef};
use std::alloc::Global;
use std::test::Fail;

/// The channel of a topic with these pairs, as they stand in a Channel.
pub(crate) fn channel(
    alloc: Global,
    topic: &str,
    pairs: &[u8],
    schema: Option<SchemaDef>,
) -> Result<ChannelDef, Fail>
    requires topic { length topic.now < 2 ^ 32 }
    requires schema { SchemaFits schema }
    ensures { IfOk result DefFits }
{
    let (pairs, _end) = take_pairs(pairs, 0)?;
    let topic = Text::copied(alloc, topic)?;
    let message_encoding = Text::copied(alloc, "")?;
    let metadata = Pairs::sorted(alloc, &pairs)?;
    Ok(ChannelDef {
        topic,
        message_encoding,
        metadata,
        schema,
    })
}

/// The schema of a name and data, if one is wanted.
pub(crate) fn schema(
    alloc: Global,
    wanted: Option<(&str, &[u8])>,
) -> Result<Option<SchemaDef>, Memory>
    ensures { IfOk result SchemaFits }
{
    let Some((name, payload)) = wanted else {
        return Ok(None);
    };
    if name.len() > 1000 || payload.len() > 1000 {
        return Err(Memory);
    }
    let name = Text::copied(alloc, name)?;
    let encoding = Text::copied(alloc, "")?;
    let payload = Bytes::copied(alloc, payload)?;
    Ok(Some(SchemaDef {
        name,
        encoding,
        payload,
    }))
}
