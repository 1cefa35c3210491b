//! Channels by where what they hold stands.
ghost use Rattle.std.specs.Prelude.{◌≡◌};
ghost use Rattle.id_table.specs.Keys.{FoundKey, FoundSchema, stocked};
ghost use Rattle.id_table.specs.Given.{OffersTo, place_given};

use crate::given::Given;
use crate::parts::{Parts, Places};
use crate::table::place_of_schema;
use indexmap::IndexSet;
use rec_data::{ChannelDef, SchemaDef};

/// Where the schema of a channel stands, if it has one, and its parts.
#[derive(Clone, Copy, PartialEq, Eq, Hash)]
pub(crate) struct ChannelKey {
    schema: Option<usize>,
    parts: Places,
}

impl ChannelKey {
    /// The key of a channel whose schema, if it has one, and parts stand there.
    pub(crate) fn new(schema: Option<usize>, parts: Places) -> ChannelKey
        ensures schema { result.schema ≡ schema }
        ensures parts { result.parts ≡ parts }
    {
        ChannelKey { schema, parts }
    }

    /// Where its schema stands, if it has one.
    pub(crate) fn schema(&self) -> Option<usize>
        ensures { result ≡ self.now.schema }
    {
        self.schema
    }
}

// Where the schema of a channel stands, if it has one, which is looked for at one place first; or that it stands nowhere.
fn place_to_schema(
    schemas: &IndexSet<SchemaDef>,
    schema: &Option<SchemaDef>,
    first: usize,
) -> Option<Option<usize>>
    ensures { FoundSchema schemas.now.keys schema.now result }
{
    let Some(schema) = schema else {
        return Some(None);
    };
    match place_of_schema(schemas, schema, first) {
        Some(place) => return Some(Some(place)),
        None => return None,
    }
}

/// The key of a channel, if all that it holds stands here. It takes no memory. The schema, which may be long, is looked for
/// behind all else, and at one place first.
pub(crate) fn key_of(
    schemas: &IndexSet<SchemaDef>,
    parts: &Parts,
    d: &ChannelDef,
    first: usize,
) -> Option<ChannelKey>
    ensures { FoundKey (stocked schemas.now.keys parts.now.texts.keys parts.now.maps.keys) d.now result }
{
    let Some(parts) = parts.places(d) else {
        return None;
    };
    match place_to_schema(schemas, &d.schema, first) {
        Some(schema) => return Some(ChannelKey { schema, parts }),
        None => return None,
    }
}

/// Where a schema with that id stands, if there is one.
pub(crate) fn place_given(schema: Option<Given>) -> Option<usize>
    ensures { result ≡ place_given schema }
{
    match schema {
        None => return None,
        Some(Given::Known(id)) => return Some((id as usize).saturating_sub(1)),
        Some(Given::New(id)) => return Some((id as usize).saturating_sub(1)),
    }
}

// Where the schema stands that is offered that id, or that it stands nowhere.
fn place_offered(
    _schemas: &IndexSet<SchemaDef>,
    _schema: &Option<SchemaDef>,
    given: Option<Given>,
) -> Option<Option<usize>>
    requires { OffersTo _schemas.now.keys _schema.now given }
    ensures { FoundSchema _schemas.now.keys _schema.now result }
{
    match given {
        Some(Given::New(_)) => return None,
        _ => return Some(place_given(given)),
    }
}

/// The key of a channel whose schema is offered that id, if all that it holds stands here. It takes no memory.
pub(crate) fn key_with(
    schemas: &IndexSet<SchemaDef>,
    parts: &Parts,
    d: &ChannelDef,
    given: Option<Given>,
) -> Option<ChannelKey>
    requires { OffersTo schemas.now.keys d.now.schema given }
    ensures { FoundKey (stocked schemas.now.keys parts.now.texts.keys parts.now.maps.keys) d.now result }
{
    let Some(schema) = place_offered(schemas, &d.schema, given) else {
        return None;
    };
    match parts.places(d) {
        Some(parts) => return Some(ChannelKey { schema, parts }),
        None => return None,
    }
}
