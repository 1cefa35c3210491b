//! The ids of a table of contents, seen as the ids of a history.
ghost use Rattle.std.specs.Prelude.{◌≡◌, None, IfOk, IfErr, OnErr};
ghost use Rattle.id_table.specs.Given.{Declares, RefusesIds};
ghost use Rattle.history_ids.specs.Ids.{channel_place};
ghost use Rattle.history_ids.specs.Tables.{ids_in, HasSchemas, IsIdAt, IdsDeclared, MayShare, id_given, id_of};

use id_table::{Given, GivenIds, IdRefused, IdTable};
use rec_data::ChannelDef;

/// The id of a channel's content. Where a channel is named that has the same schema, that isn't looked at.
pub fn id_of_channel(table: &IdTable, channel: &ChannelDef, like: Option<u16>) -> Option<u16>
    requires schemas { HasSchemas table.now }
    requires shares { MayShare (ids_in table.now) channel.now.schema like }
    ensures { IsIdAt (channel_place (ids_in table.now) channel.now) result }
{
    match like {
        None => return table.find(channel),
        Some(like) => return table.find_like(channel, like),
    }
}

// The table's answer to a declaration.
fn declare(
    table: &mut IdTable,
    channel: &ChannelDef,
    like: Option<u16>,
) -> Result<GivenIds, IdRefused>
    requires schemas { HasSchemas table.old }
    requires shares { MayShare (ids_in table.old) channel.now.schema like }
    ensures ok { IfOk result (λ given. Declares table.old channel.now given table.new) }
    ensures err { OnErr result (table.new ≡ table.old) }
    ensures why { IfErr result (RefusesIds table.old channel.now) }
{
    match like {
        None => return table.declare(channel),
        Some(like) => return table.declare_like(channel, like),
    }
}

/// Gives ids to a channel that is new and to its schema. Where it is refused, nothing changes.
pub fn give_ids(table: &mut IdTable, channel: &ChannelDef) -> Result<GivenIds, IdRefused>
    requires schemas { HasSchemas table.old }
    requires is_new { channel_place (ids_in table.old) channel.now ≡ None }
    ensures given { IdsDeclared (ids_in table.old) channel.now result (ids_in table.new) }
    ensures schemas { HasSchemas table.new }
    ensures last { IfOk result (λ given. Declares table.old channel.now given table.new) }
    ensures err { OnErr result (table.new ≡ table.old) }
{
    give_ids_sharing(table, channel, None)
}

/// The same. Where a channel is named that has the same schema, that isn't looked at.
pub fn give_ids_sharing(
    table: &mut IdTable,
    channel: &ChannelDef,
    like: Option<u16>,
) -> Result<GivenIds, IdRefused>
    requires schemas { HasSchemas table.old }
    requires shares { MayShare (ids_in table.old) channel.now.schema like }
    requires is_new { channel_place (ids_in table.old) channel.now ≡ None }
    ensures given { IdsDeclared (ids_in table.old) channel.now result (ids_in table.new) }
    ensures schemas { HasSchemas table.new }
    ensures last { IfOk result (λ given. Declares table.old channel.now given table.new) }
    ensures err { OnErr result (table.new ≡ table.old) }
{
    let _before = table.schemas();
    let given = declare(table, channel, like);
    let _schemas = table.schemas();
    let _channels = table.channels();
    given
}

/// The id of a schema, or 0 where there is none.
pub fn id_of(given: &Option<Given>) -> u16
    ensures { result ≡ id_of given.now }
{
    match given {
        None => return 0,
        Some(Given::Known(id)) => return *id,
        Some(Given::New(id)) => return *id,
    }
}

/// The id.
pub fn number_of(given: &Given) -> u16
    ensures { result ≡ id_given given.now }
{
    match given {
        Given::Known(id) => return *id,
        Given::New(id) => return *id,
    }
}
