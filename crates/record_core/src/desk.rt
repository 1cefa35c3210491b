//! The desk: records are accepted into a buffer, and ids are given by content.
ghost use Rattle.std.specs.Prelude.{◌≡◌, ◌≤◌, ◌<◌, ◌+◌, [], ◌∷◌, length, None, true, IfOk, IfErr, OnOk};
ghost use Rattle.mcap_wire.specs.Limits.{data_limit, record_count_limit};
ghost use Rattle.mcap_wire.specs.RecordingLimits.{buffer_limit};
ghost use Rattle.mcap_model.specs.declared.ends.End.TheVariants.{Closed, Stopped};
ghost use Rattle.history_ids.specs.Ids.{is_known_channel};
ghost use Rattle.history_ids.specs.Tables.{HasFewIds, MayShare};
ghost use Rattle.record_core.specs.Desk.{new_desk, accepted, bytes_held, with_more_records, swapped, ended, fields_of_message, publish_refusal, IsForMessage, IsForDeclaration, Published, SwapAnswered, EndIsLast, EndIsSetAt, IsCause, desk_end, found_of, DeclaredBy};
ghost use Rattle.mcap_model.specs.History.{message_of};
ghost use Rattle.record_cache.specs.Offers.{Offered};
ghost use Rattle.record_core.specs.Machine.{start, swap, close, stop};
ghost use Rattle.history_ids.specs.DeclarationFits.{DefFits};
ghost use Rattle.record_core.specs.Sights.{OnlyIdsLack, SightOf};
ghost use Rattle.record_core.specs.Stands.{DeskStandsFor, DeskSteps, Stays, PublishSteps, DeclareSteps};

use crate::answers::{CallRefused, Declared, Empty, Found, NewMessage};
use crate::framing::{declared_size, offer_declared};
use crate::limits::{DATA_LIMIT, DECLARATION_LIMIT, RECORD_COUNT_LIMIT};
use history_ids::{give_ids_sharing, id_of_channel, number_of};
use id_table::{IdRefused, IdTable};
use mcap_model::{End, Stop};
use mcap_wire::Memory;
use rec_data::{ChannelDef, Message};
use record_cache::{Cache, Full, RecRef};
use std::alloc::Global;
use std::marker::Model;
use std::mem;

/// What accepts the records of a recording. Contracts see its limit, how many records were swapped out, the records in its
/// buffer, its end and the place at which it was set, and what has an id.
#[derive(Drop)]
pub struct Desk {
    taken: u64,
    primary: Cache,
    end: Option<(End, u64)>,
    ids: IdTable,
}

impl Model for Desk {
    ghost use Rattle.record_core.specs.Desk.{DeskView};

    ghost Value = { DeskView };

    ghost use Rattle.record_core.specs.Holding.{desk_seen, IsDesk};

    ghost view = { desk_seen };

    ghost invariant = { IsDesk };
}

// What is seen of a declaration before ids are given.
#[derive(Clone, Copy)]
enum Sight {
    Refused(CallRefused),
    Known(u16),
    New,
}

impl Desk {
    /// An empty desk, with nothing accepted.
    pub fn open(alloc: Global, limit: u64) -> Result<Desk, Memory>
        requires { limit ≤ buffer_limit }
        ensures empty { IfOk result (λ desk. desk ≡ new_desk limit) }
        ensures stands { IfOk result (λ desk. DeskStandsFor desk start) }
    {
        let ids = match IdTable::new(alloc) {
            Ok(ids) => ids,
            Err(memory) => return Err(memory),
        };
        match Cache::new(alloc, limit) {
            Ok(primary) => {
                return Ok(Desk {
                    taken: 0,
                    primary,
                    end: None,
                    ids,
                });
            }
            Err(memory) => return Err(memory),
        }
    }

    /// From how many bytes on the buffer is full.
    pub fn limit(&self) -> u64
        ensures limit { result ≡ self.now.limit }
        ensures small { result ≤ buffer_limit }
    {
        let _held = self.primary.held();
        self.primary.limit()
    }

    /// How many bytes the buffer's records have.
    pub fn held(&self) -> u64
        ensures { result ≡ bytes_held self.now }
    {
        self.primary.held()
    }

    /// How many records were accepted.
    pub fn count(&self) -> u64
        ensures count { result ≡ accepted self.now }
        ensures few { result ≤ record_count_limit + 1 }
    {
        self.taken + self.primary.count()
    }

    // The first reason to refuse a message.
    fn publish_refusal(&self, channel: u16, len: u64) -> Option<CallRefused>
        ensures { result ≡ publish_refusal self.now channel len }
    {
        if len > DATA_LIMIT {
            return Some(CallRefused::TooLarge { len });
        }
        match self.end {
            Some((End::Closed, at)) => return Some(CallRefused::Closed { at }),
            Some((End::Stopped { stop }, at)) => return Some(CallRefused::Stopped { at, stop }),
            None => {}
        }
        if channel == 0 || channel as u32 > self.ids.channels() {
            return Some(CallRefused::UnknownChannel);
        }
        let count = self.count();
        if count >= RECORD_COUNT_LIMIT {
            return Some(CallRefused::TooManyRecords { count });
        }
        let held = self.held();
        if held >= self.limit() {
            let from = self.taken;
            return Some(CallRefused::Full {
                held,
                from,
                to: count,
            });
        }
        None
    }

    // Adds a message, unless it is refused. It and `publish` are inlined, so that the answer, mostly a place alone, isn't copied through
    // memory as long as the longest refusal.
    #[inline(always)]
    fn accept(&mut self, m: &NewMessage<'_>) -> Result<u64, CallRefused>
        ensures answer { Published self.old m.now.channel (fields_of_message m.now) result self.new }
        ensures last { EndIsLast self.old }
    {
        match self.publish_refusal(m.channel, m.payload.len() as u64) {
            Some(refused) => return Err(refused),
            None => {}
        }
        let at = self.count();
        match offer_message(&mut self.primary, m) {
            Ok(()) => return Ok(at),
            Err(_) => unreachable!(),
        }
    }

    /// Adds a message, and answers its place. Where it is refused nothing changes; no id and no memory ever lacks for it.
    #[inline(always)]
    pub fn publish(&mut self, m: &NewMessage<'_>) -> Result<u64, CallRefused>
        ensures answer { Published self.old m.now.channel (fields_of_message m.now) result self.new }
        ensures reasons { IfErr result IsForMessage }
        ensures steps { PublishSteps self.old m.now.channel (fields_of_message m.now) self.new }
        ensures unended { OnOk result (self.old.end ≡ None) }
        ensures known { OnOk result (is_known_channel self.old.ids m.now.channel ≡ true) }
        ensures last { EndIsLast self.old }
    {
        self.accept(m)
    }

    // What is seen of a declaration before ids are given.
    fn sight(&self, channel: &ChannelDef, like: Option<u16>) -> Sight
        requires fits { DefFits channel.now }
        requires shares { MayShare self.now.ids channel.now.schema like }
        ensures { SightOf self.now channel.now result }
    {
        let len = declared_size(channel);
        if len > DECLARATION_LIMIT {
            return Sight::Refused(CallRefused::TooLarge { len });
        }
        match self.end {
            Some((End::Closed, at)) => return Sight::Refused(CallRefused::Closed { at }),
            Some((End::Stopped { stop }, at)) => {
                return Sight::Refused(CallRefused::Stopped { at, stop });
            }
            None => {}
        }
        match id_of_channel(&self.ids, channel, like) {
            Some(id) => return Sight::Known(id),
            None => {}
        }
        let count = self.count();
        if count >= RECORD_COUNT_LIMIT {
            return Sight::Refused(CallRefused::TooManyRecords { count });
        }
        let held = self.held();
        if held >= self.limit() {
            let from = self.taken;
            return Sight::Refused(CallRefused::Full {
                held,
                from,
                to: count,
            });
        }
        Sight::New
    }

    // Gives ids to a channel that is new, and adds its records.
    fn give(&mut self, channel: &ChannelDef, like: Option<u16>) -> Result<Declared, CallRefused>
        requires fits { DefFits channel.now }
        requires shares { MayShare self.old.ids channel.now.schema like }
        requires is_open { OnlyIdsLack self.old channel.now }
        ensures { DeclaredBy self.old channel.now result self.new }
    {
        let first = self.count();
        let given = match give_ids_sharing(&mut self.ids, channel, like) {
            Ok(given) => given,
            Err(IdRefused::TooManySchemas) => return Err(CallRefused::TooManySchemas),
            Err(IdRefused::TooManyChannels) => return Err(CallRefused::TooManyChannels),
            Err(IdRefused::Memory) => return Err(CallRefused::Memory),
        };
        let id = number_of(&given.channel);
        match offer_declared(&mut self.primary, channel, &given.schema, id) {
            Ok(count) => {
                return Ok(Declared {
                    channel: id,
                    first,
                    count,
                });
            }
            Err(_) => unreachable!(),
        }
    }

    // Declares a channel, unless it is refused.
    fn accept_channel(
        &mut self,
        channel: &ChannelDef,
        like: Option<u16>,
    ) -> Result<Declared, CallRefused>
        requires fits { DefFits channel.now }
        requires shares { MayShare self.old.ids channel.now.schema like }
        ensures { DeclaredBy self.old channel.now result self.new }
    {
        match self.sight(channel, like) {
            Sight::Refused(refused) => return Err(refused),
            Sight::Known(id) => {
                return Ok(Declared {
                    channel: id,
                    first: self.count(),
                    count: 0,
                });
            }
            Sight::New => return self.give(channel, like),
        }
    }

    /// Gives ids to a channel and its schema by content, adds the records of those that are new, and answers the channel's
    /// id and the places of the records. Where it is refused nothing changes; memory may lack for the ids alone, and only
    /// where there is no other reason.
    pub fn declare(&mut self, channel: &ChannelDef) -> Result<Declared, CallRefused>
        requires { DefFits channel.now }
        ensures answer { DeclaredBy self.old channel.now result self.new }
        ensures reasons { IfErr result IsForDeclaration }
        ensures steps { DeclareSteps self.old channel.now result self.new }
        ensures unended { OnOk result (self.old.end ≡ None) }
        ensures few { HasFewIds self.new.ids }
        ensures last { EndIsLast self.old }
    {
        self.declare_sharing(channel, None)
    }

    /// The same. Where a channel is named that has the same schema, that isn't looked at, however long it is.
    pub fn declare_sharing(
        &mut self,
        channel: &ChannelDef,
        like: Option<u16>,
    ) -> Result<Declared, CallRefused>
        requires fits { DefFits channel.now }
        requires shares { MayShare self.old.ids channel.now.schema like }
        ensures answer { DeclaredBy self.old channel.now result self.new }
        ensures reasons { IfErr result IsForDeclaration }
        ensures steps { DeclareSteps self.old channel.now result self.new }
        ensures unended { OnOk result (self.old.end ≡ None) }
        ensures few { HasFewIds self.new.ids }
        ensures last { EndIsLast self.old }
    {
        let _pairs = channel.metadata.as_slice();
        let answer = self.accept_channel(channel, like);
        let _schemas = self.ids.schemas();
        let _channels = self.ids.channels();
        answer
    }

    /// Gives the buffer away for an empty one, or gives that one back where the buffer holds nothing.
    pub fn swap(&mut self, empty: Cache) -> Result<Cache, Empty>
        requires { empty ≡ record { limit = self.old.limit; records = [] } }
        ensures answer { SwapAnswered self.old result self.new }
        ensures steps { DeskSteps self.old swap self.new }
    {
        let count = self.primary.count();
        if count == 0 {
            return Err(Empty {
                cache: empty,
                end: self.end(),
                at: self.taken,
            });
        }
        self.taken += count;
        Ok(mem::replace(&mut self.primary, empty))
    }

    // Sets the end where none stands, and answers its place.
    fn end_with(&mut self, end: End) -> u64
        ensures answer { self.new ≡ ended self.old end }
        ensures at { EndIsSetAt self.new result }
    {
        if let Some((_, at)) = self.end {
            return at;
        }
        let at = self.count();
        self.end = Some((end, at));
        at
    }

    /// Closes the intake where no end stands, and answers the place of the end.
    pub fn close(&mut self) -> u64
        ensures answer { self.new ≡ ended self.old Closed }
        ensures at { EndIsSetAt self.new result }
        ensures steps { DeskSteps self.old close self.new }
    {
        self.end_with(End::Closed)
    }

    /// Stops the intake where no end stands, and answers the place of the end.
    pub fn stop(&mut self, reason: Stop) -> u64
        requires { IsCause reason }
        ensures answer { self.new ≡ ended self.old (Stopped reason) }
        ensures at { EndIsSetAt self.new result }
        ensures steps { DeskSteps self.old (stop reason) self.new }
    {
        self.end_with(End::Stopped { stop: reason })
    }

    /// The end, if one stands.
    pub fn end(&self) -> Option<End>
        ensures end { result ≡ desk_end self.now }
        ensures last { EndIsLast self.now }
    {
        match self.end {
            Some((end, _)) => return Some(end),
            None => return None,
        }
    }

    /// How the desk stands.
    pub fn found(&self) -> Found
        ensures found { result ≡ found_of self.now }
        ensures last { EndIsLast self.now }
    {
        Found {
            taken: self.taken,
            count: self.count(),
            held: self.held(),
            schemas: self.ids.schemas(),
            channels: self.ids.channels(),
            end: self.end(),
        }
    }
}

// Offers a message to a buffer.
#[inline(always)]
fn offer_message(buffer: &mut Cache, m: &NewMessage<'_>) -> Result<(), Full>
    requires { length m.now.payload.now ≤ data_limit }
    ensures { Offered buffer.old (message_of m.now.channel (fields_of_message m.now) ∷ []) result buffer.new }
{
    buffer.offer(RecRef::Message(Message {
        channel_id: m.channel,
        sequence: m.sequence,
        log_time: m.log_time,
        publish_time: m.publish_time,
        payload: m.payload,
    }))
}
