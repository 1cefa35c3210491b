//! The table of ids.
ghost use Rattle.std.specs.Prelude.{◌≡◌, ◌+◌, ◌<◌, ◌≤◌, ◌++◌, [], length, map, true, Some, slice_get, IfOk, IfErr, IfSome, OnOk, OnErr, option_to_list};
ghost use Rattle.mcap_wire.specs.Limits.{id_limit};
ghost use Rattle.rec_data.specs.declared.channel.ChannelDef.{ChannelDef};
ghost use Rattle.indexmap.specs.IndexSet.{spare};
ghost use Rattle.id_table.specs.Ids.{IdContents, ids};
ghost use Rattle.id_table.specs.Parts.{Grows};
ghost use Rattle.id_table.specs.Keys.{SchemaStandsAt, FoundKey, stocked, content_at, AllStand};
ghost use Rattle.id_table.specs.Given.{place_given, KeptKey, IsNew, Lacks, LacksTo, EachOnce, Found, FoundAt, Offers, OffersTo, fresh, fresh_to, IsFull, IsFullTo, SharesSchema, Declares, RefusesIds, PlaceGives, GivesOrFull};

use crate::given::{Given, GivenIds, IdRefused};
use crate::keys::{ChannelKey, key_of, key_with, place_given};
use crate::parts::{Parts, parts_differ};
use indexmap::IndexSet;
use mcap_wire::Memory;
use rec_data::{ChannelDef, SchemaDef};
use std::alloc::Global;
use std::marker::Model;

// How many ids of a kind there are: those of two bytes but for 0.
const MAX_IDS: usize = 65535;

/// Ids by content. Contracts see the contents of schemas and of channels in the order of their ids, from 1 on. Two channels
/// are equal where their schemas, topics, encodings and maps are, since a map keeps its keys in ascending order. A schema, a
/// text and a map that many channels have stand once.
#[derive(Drop)]
pub struct IdTable {
    alloc: Global,
    schemas: IndexSet<SchemaDef>,
    // Where the schema stands that was declared last.
    last_schema: usize,
    parts: Parts,
    channels: IndexSet<ChannelKey>,
}

impl Model for IdTable {
    ghost use Rattle.id_table.specs.Ids.{IdContents};

    ghost Value = { IdContents };

    ghost use Rattle.id_table.specs.Table.{ids_inside, IsTable};

    ghost view = { ids_inside };

    ghost invariant = { IsTable };
}

impl IdTable {
    /// A table in which no id is given.
    pub fn new(alloc: Global) -> Result<IdTable, Memory>
        ensures { IfOk result (λ t. (t.schemas ≡ []) × (t.channels ≡ [])) }
    {
        Ok(IdTable {
            alloc,
            schemas: IndexSet::new(alloc),
            last_schema: 0,
            parts: Parts::new(alloc),
            channels: IndexSet::new(alloc),
        })
    }

    /// The id of a channel, if its content has one. It takes no memory.
    pub fn find(&self, d: &ChannelDef) -> Option<u16>
        ensures found { Found self.now.channels d.now result }
        ensures once { EachOnce self.now.channels }
    {
        let key = key_of(&self.schemas, &self.parts, d, self.last_schema);
        match place_of_channel(&self.schemas, &self.parts, &self.channels, d, key) {
            Some(i) => return Some((i + 1) as u16),
            None => return None,
        }
    }

    /// The same of a channel that shares its schema with the channel of that id. However long the schema is, it isn't looked at.
    pub fn find_like(&self, d: &ChannelDef, like: u16) -> Option<u16>
        requires { SharesSchema self.now d.now.schema like }
        ensures found { Found self.now.channels d.now result }
        ensures once { EachOnce self.now.channels }
    {
        let schema = given_like(&self.schemas, &self.parts, &self.channels, &d.schema, like);
        let key = key_with(&self.schemas, &self.parts, d, schema);
        let Some(place) = place_of_channel(&self.schemas, &self.parts, &self.channels, d, key)
        else {
            return None;
        };
        Some((place + 1) as u16)
    }

    /// The ids of a channel and of its schema. New contents get the next ids, and contents that have ids are never refused.
    /// The table is unchanged where ids are refused. A schema's bytes aren't looked at where the channel's other parts show
    /// that it is refused.
    pub fn declare(&mut self, d: &ChannelDef) -> Result<GivenIds, IdRefused>
        ensures ok { IfOk result (λ g. Declares self.old d.now g self.new) }
        ensures err { OnErr result (self.new ≡ self.old) }
        ensures why { IfErr result (RefusesIds self.old d.now) }
    {
        if lacks_by_parts(&self.schemas, &self.parts, &self.channels, d) {
            return Err(IdRefused::TooManyChannels);
        }
        match given_to_schema(&self.schemas, &d.schema, self.last_schema) {
            Ok(schema) => return self.give(d, schema),
            Err(refused) => return Err(refused),
        }
    }

    /// The same of a channel that shares its schema with the channel of that id. However long the schema is, it isn't looked at.
    pub fn declare_like(&mut self, d: &ChannelDef, like: u16) -> Result<GivenIds, IdRefused>
        requires { SharesSchema self.old d.now.schema like }
        ensures ok { IfOk result (λ g. Declares self.old d.now g self.new) }
        ensures err { OnErr result (self.new ≡ self.old) }
        ensures why { IfErr result (RefusesIds self.old d.now) }
    {
        let schema = given_like(&self.schemas, &self.parts, &self.channels, &d.schema, like);
        self.give(d, schema)
    }

    // The same of a channel whose schema is offered that id.
    fn give(&mut self, d: &ChannelDef, schema: Option<Given>) -> Result<GivenIds, IdRefused>
        requires offered { OffersTo self.old.schemas d.now.schema schema }
        requires room { IsFullTo self.old.schemas d.now.schema → ⊥ }
        ensures ok { IfOk result (λ g. Declares self.old d.now g self.new) }
        ensures err { OnErr result (self.new ≡ self.old) }
        ensures why { IfErr result (RefusesIds self.old d.now) }
    {
        let key = key_with(&self.schemas, &self.parts, d, schema);
        let channel = match given_to_channel(&self.schemas, &self.parts, &self.channels, d, key) {
            Some(given) => given,
            None => return Err(IdRefused::TooManyChannels),
        };
        // All that may be refused comes before the first change.
        let kept_schema = match keep_schema(self.alloc, &mut self.schemas, &d.schema, schema) {
            Ok(kept) => kept,
            Err(_) => return Err(IdRefused::Memory),
        };
        let kept_channel = match keep_channel(
            self.alloc,
            &mut self.parts,
            &mut self.channels,
            d,
            schema,
            channel,
        ) {
            Ok(kept) => kept,
            Err(_) => return Err(IdRefused::Memory),
        };
        self.last_schema = place_given(schema).unwrap_or(self.last_schema);
        enter_schema(&mut self.schemas, kept_schema);
        enter_channel(&mut self.channels, kept_channel);
        return Ok(GivenIds { schema, channel });
    }

    /// How many schemas have ids.
    pub fn schemas(&self) -> u32
        ensures count { result ≡ length self.now.schemas }
        ensures few { result ≤ id_limit }
        ensures once { EachOnce self.now.schemas }
    {
        count_of_schemas(&self.schemas) as u32
    }

    /// How many channels have ids.
    pub fn channels(&self) -> u32
        ensures count { result ≡ length self.now.channels }
        ensures few { result ≤ id_limit }
        ensures once { EachOnce self.now.channels }
    {
        count_of_channels(&self.schemas, &self.parts, &self.channels) as u32
    }
}

// Whether a schema stands at a place.
fn stands_at(set: &IndexSet<SchemaDef>, place: usize, schema: &SchemaDef) -> bool
    ensures { result ≡ true → slice_get set.now.keys place ≡ Some schema.now }
{
    match set.get_index(place) {
        Some(there) => return there == schema,
        None => return false,
    }
}

// The index of a schema in the order of ids. It is looked for at one place first, since a schema may be long, and many
// channels with one schema come one behind the other.
pub(crate) fn place_of_schema(
    set: &IndexSet<SchemaDef>,
    schema: &SchemaDef,
    first: usize,
) -> Option<usize>
    ensures found { FoundAt set.now.keys schema.now result }
    ensures once { EachOnce set.now.keys }
{
    let _len = set.len();
    if stands_at(set, first, schema) {
        return Some(first);
    }
    set.get_index_of(schema)
}

// The index of a channel in the order of ids, by its key.
fn place_of_channel(
    schemas: &IndexSet<SchemaDef>,
    parts: &Parts,
    channels: &IndexSet<ChannelKey>,
    _d: &ChannelDef,
    key: Option<ChannelKey>,
) -> Option<usize>
    requires stand { AllStand (stocked schemas.now.keys parts.now.texts.keys parts.now.maps.keys) channels.now.keys }
    requires key { FoundKey (stocked schemas.now.keys parts.now.texts.keys parts.now.maps.keys) _d.now key }
    ensures found { FoundAt
        (map (content_at (stocked schemas.now.keys parts.now.texts.keys parts.now.maps.keys)) channels.now.keys) _d.now
        result }
    ensures once { EachOnce (map (content_at (stocked schemas.now.keys parts.now.texts.keys parts.now.maps.keys))
        channels.now.keys) }
{
    let _schemas = count_of_schemas(schemas);
    parts_differ(parts);
    let _channels = channels.len();
    match key {
        Some(key) => return channels.get_index_of(&key),
        None => return None,
    }
}

// The number of schemas; the set tells that they differ.
fn count_of_schemas(set: &IndexSet<SchemaDef>) -> usize
    ensures len { result ≡ length set.now.keys }
    ensures once { EachOnce set.now.keys }
{
    set.len()
}

// The number of channels; it is told that they differ.
fn count_of_channels(
    schemas: &IndexSet<SchemaDef>,
    parts: &Parts,
    channels: &IndexSet<ChannelKey>,
) -> usize
    requires { AllStand (stocked schemas.now.keys parts.now.texts.keys parts.now.maps.keys) channels.now.keys }
    ensures len { result ≡ length channels.now.keys }
    ensures once { EachOnce (map (content_at (stocked schemas.now.keys parts.now.texts.keys parts.now.maps.keys))
        channels.now.keys) }
{
    let _schemas = count_of_schemas(schemas);
    parts_differ(parts);
    channels.len()
}

// The id of a content that stands at a place or nowhere, or none where all are given.
fn given(place: Option<usize>, count: usize) -> Option<Given>
    requires some { count ≤ id_limit }
    requires within { IfSome place (λ i. i < count) }
    ensures { PlaceGives place count result }
{
    match place {
        Some(i) => return Some(Given::Known((i + 1) as u16)),
        None => {
            if count >= MAX_IDS {
                return None;
            }
            return Some(Given::New((count + 1) as u16));
        }
    }
}

// The id for the schema of a channel, if it has one.
fn given_to_schema(
    set: &IndexSet<SchemaDef>,
    schema: &Option<SchemaDef>,
    first: usize,
) -> Result<Option<Given>, IdRefused>
    requires { length set.now.keys ≤ id_limit }
    ensures ok { IfOk result (λ g. OffersTo set.now.keys schema.now g) }
    ensures room { OnOk result (IsFullTo set.now.keys schema.now → ⊥) }
    ensures err { IfErr result (λ e. (e ≡ IdRefused.TooManySchemas) × IsFullTo set.now.keys schema.now) }
{
    match schema {
        None => return Ok(None),
        Some(schema) => match given(place_of_schema(set, schema, first), set.len()) {
            Some(given) => return Ok(Some(given)),
            None => return Err(IdRefused::TooManySchemas),
        },
    }
}

// The id of a schema that the channel of that id has too, if it has one.
fn given_like(
    schemas: &IndexSet<SchemaDef>,
    parts: &Parts,
    channels: &IndexSet<ChannelKey>,
    _schema: &Option<SchemaDef>,
    like: u16,
) -> Option<Given>
    requires few { length schemas.now.keys ≤ id_limit }
    requires stand { AllStand (stocked schemas.now.keys parts.now.texts.keys parts.now.maps.keys) channels.now.keys }
    requires shares { SharesSchema
        (ids schemas.now.keys (map (content_at (stocked schemas.now.keys parts.now.texts.keys parts.now.maps.keys)) channels.now.keys))
        _schema.now like }
    ensures offered { OffersTo schemas.now.keys _schema.now result }
    ensures room { IsFullTo schemas.now.keys _schema.now → ⊥ }
{
    let place = match channels.get_index((like as usize).saturating_sub(1)) {
        Some(key) => key.schema(),
        None => unreachable!(),
    };
    given_at(schemas, _schema, place)
}

// The id of a schema that stands at a place, if there is one.
fn given_at(
    _schemas: &IndexSet<SchemaDef>,
    _schema: &Option<SchemaDef>,
    place: Option<usize>,
) -> Option<Given>
    requires few { length _schemas.now.keys ≤ id_limit }
    requires shows { SchemaStandsAt _schemas.now.keys place _schema.now }
    ensures offered { OffersTo _schemas.now.keys _schema.now result }
    ensures room { IsFullTo _schemas.now.keys _schema.now → ⊥ }
{
    match place {
        Some(place) => return Some(Given::Known((place + 1) as u16)),
        None => return None,
    }
}

// The id for a channel, or none where all are given.
fn given_to_channel(
    schemas: &IndexSet<SchemaDef>,
    parts: &Parts,
    channels: &IndexSet<ChannelKey>,
    d: &ChannelDef,
    key: Option<ChannelKey>,
) -> Option<Given>
    requires few { length channels.now.keys ≤ id_limit }
    requires stand { AllStand (stocked schemas.now.keys parts.now.texts.keys parts.now.maps.keys) channels.now.keys }
    requires key { FoundKey (stocked schemas.now.keys parts.now.texts.keys parts.now.maps.keys) d.now key }
    ensures { GivesOrFull
        (map (content_at (stocked schemas.now.keys parts.now.texts.keys parts.now.maps.keys)) channels.now.keys) d.now
        result }
{
    given(
        place_of_channel(schemas, parts, channels, d, key),
        channels.len(),
    )
}

// Whether all ids of channels are given, some of schemas are left, and a part of the channel is new.
fn lacks_by_parts(
    schemas: &IndexSet<SchemaDef>,
    parts: &Parts,
    channels: &IndexSet<ChannelKey>,
    d: &ChannelDef,
) -> bool
    requires { AllStand (stocked schemas.now.keys parts.now.texts.keys parts.now.maps.keys) channels.now.keys }
    ensures schemas { result ≡ true → length schemas.now.keys < id_limit }
    ensures channels { result ≡ true
        → IsFull
        (map (content_at (stocked schemas.now.keys parts.now.texts.keys parts.now.maps.keys)) channels.now.keys) d.now }
{
    if schemas.len() >= MAX_IDS || channels.len() < MAX_IDS {
        return false;
    }
    match parts.places(d) {
        Some(_) => return false,
        None => return true,
    }
}

// A copy of a schema whose id is new, for which the set has room.
fn keep_schema(
    alloc: Global,
    set: &mut IndexSet<SchemaDef>,
    schema: &Option<SchemaDef>,
    given: Option<Given>,
) -> Result<Option<SchemaDef>, Memory>
    requires { OffersTo set.old.keys schema.now given }
    ensures same { set.new.keys ≡ set.old.keys }
    ensures kept { IfOk result (λ kept. kept ≡ fresh_to schema.now given) }
    ensures room { IfOk result (λ kept. IfSome kept (λ _. 0 < spare set.new)) }
    ensures needed { OnErr result (LacksTo set.old.keys schema.now) }
{
    let Some(schema) = schema else {
        return Ok(None);
    };
    let Some(Given::New(_)) = given else {
        return Ok(None);
    };
    match set.reserve(1) {
        Ok(()) => {}
        Err(_) => return Err(Memory),
    }
    match SchemaDef::copied(alloc, schema) {
        Ok(copy) => return Ok(Some(copy)),
        Err(memory) => return Err(memory),
    }
}

// The key of a channel whose id is new, for which the set has room. Its parts stand then.
fn keep_channel(
    alloc: Global,
    parts: &mut Parts,
    set: &mut IndexSet<ChannelKey>,
    channel: &ChannelDef,
    schema: Option<Given>,
    given: Given,
) -> Result<Option<ChannelKey>, Memory>
    ensures same { set.new.keys ≡ set.old.keys }
    ensures texts { Grows parts.old.texts.keys parts.new.texts.keys }
    ensures maps { Grows parts.old.maps.keys parts.new.maps.keys }
    ensures kept { IfOk result (λ kept. KeptKey parts.new.texts.keys parts.new.maps.keys channel.now schema given
        kept) }
    ensures room { IfOk result (λ kept. IfSome kept (λ _. 0 < spare set.new)) }
    ensures needed { OnErr result (IsNew given) }
{
    match given {
        Given::Known(_) => return Ok(None),
        Given::New(_) => {}
    }
    match set.reserve(1) {
        Ok(()) => {}
        Err(_) => return Err(Memory),
    }
    match parts.enter(alloc, channel) {
        Ok(places) => return Ok(Some(ChannelKey::new(place_given(schema), places))),
        Err(memory) => return Err(memory),
    }
}

// Adds a schema, for which there is room.
fn enter_schema(set: &mut IndexSet<SchemaDef>, kept: Option<SchemaDef>)
    requires { IfSome kept (λ s. (0 < spare set.old) × Lacks set.old.keys s) }
    ensures { set.new.keys ≡ set.old.keys ++ option_to_list kept }
{
    match kept {
        None => {}
        Some(schema) => match set.insert(schema) {
            Ok(_) => {}
            Err(_) => unreachable!(),
        },
    }
}

// Adds a channel, for which there is room.
fn enter_channel(set: &mut IndexSet<ChannelKey>, kept: Option<ChannelKey>)
    requires { IfSome kept (λ s. (0 < spare set.old) × Lacks set.old.keys s) }
    ensures { set.new.keys ≡ set.old.keys ++ option_to_list kept }
{
    match kept {
        None => {}
        Some(channel) => match set.insert(channel) {
            Ok(_) => {}
            Err(_) => unreachable!(),
        },
    }
}
