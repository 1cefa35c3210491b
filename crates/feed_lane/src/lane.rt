//! A lane at a message: its channel is declared where it wasn't, the message is published, and what became of both is listed.
ghost use Rattle.std.specs.Prelude.{◌≡◌, ◌+◌, ◌<◌, ◌∷◌, ◌++◌, [], ℕ, List, length, vec_len, vec_capacity, ◌≤◌, true, IfOk, IfSome, OnOk};
ghost use Rattle.mcap_wire.specs.Limits.{declaration_limit};
ghost use Rattle.rec_data.specs.Records.{message_opcode};
ghost use Rattle.mcap_model.specs.Places.{At};
ghost use Rattle.mcap_model.specs.Tops.{Top};
ghost use Rattle.mcap_model.specs.Fields.{IsMessage};
ghost use Rattle.mcap_model.specs.Rules.{V6};
ghost use Rattle.mcap_model.specs.Made.{top};
ghost use Rattle.mcap_model.specs.Declarations.{TablesOf};
ghost use Rattle.feed_lane.specs.Pass.{PassState};
ghost use Rattle.feed_lane.specs.PassCalls.{no_calls, DeclaredInto};
ghost use Rattle.history_ids.specs.FeedContents.{no_schema, DeclaresContent};
ghost use Rattle.feed_lane.specs.Kept.{IsKnown, KnownBehind};
ghost use Rattle.feed_lane.specs.Lanes.{messages, IsOn};
ghost use Rattle.history_ids.specs.DeclarationFits.{DefFits};
ghost use Rattle.feed_lane.specs.Sizes.{IsLength};
ghost use Rattle.feed_lane.specs.Steps.{lists_of, IdsStand, LaneStands, ListsStand, Roomy, KeepsLists, KeepsAs, AreKnown, AtHand, RefusalIsDue, DeclaredWithId, ThenShows, ChannelFound, MessageTaken, fields_of};
ghost use Rattle.feed_lane.specs.Causes.{goes_on as goes_on_behind};

use crate::Listing;
use crate::ids::Ids;
use crate::pass::Pass;
use crate::refused_list::Refusals;
use crate::report::{Accepted, DeclaredAt, Refused};
use crate::sizes::excess;
use history_ids::definition_over;
use mcap_model::Tables;
use mcap_wire::Memory;
use rec_data::{ChannelDef, Message};
use record_core::{CallRefused, Declared, NewMessage};
use std::alloc::Global;

/// What a lane has done: the ids that the feed's channels got, what became of each message, and how many records were passed
/// over.
#[derive(Drop)]
pub(crate) struct Lane {
    pub ids: Ids,
    pub accepted: Listing<Accepted>,
    pub declared: Vec<DeclaredAt>,
    pub refused: Refusals,
    pub passed: u64,
}

/// Why a lane is over before its feed is.
#[derive(Clone, Copy)]
pub(crate) enum Over {
    /// There is no room in its lists.
    Memory,
    /// The intake has ended.
    Ended,
}

// Whether the lane goes on behind a message that was refused for that.
fn goes_on(cause: CallRefused) -> bool
    ensures { result ≡ goes_on_behind cause }
{
    !matches!(
        cause,
        CallRefused::Closed { .. } | CallRefused::Stopped { .. }
    )
}

// Lists one more, for which there is room.
pub(crate) fn add<T: Drop>(list: &mut Vec<T>, one: T)
    requires { vec_len list.old + 1 ≤ vec_capacity list.old }
    ensures { list.new.items ≡ list.old.items ++ one ∷ [] }
{
    match list.push(one) {
        Ok(()) => {}
        Err(_) => unreachable!(),
    }
}

// Declares a channel, whose schema the pass may know of the last one that got an id.
fn declare_to<P: Pass>(
    pass: &mut P,
    channel: &ChannelDef,
    known: bool,
) -> Result<Declared, CallRefused>
    requires fits { DefFits channel.now }
    requires known { known ≡ true → P.knows pass.old channel.now.schema }
    ensures shows { (begun : P) (before : PassState) → P.since begun pass.old before
        → (after : PassState) × P.since begun pass.new after × DeclaredInto before after channel.now result }
    ensures knows { KnownBehind known result → P.knows pass.new channel.now.schema }
{
    if known {
        return pass.declare_like(channel);
    }
    pass.declare(channel)
}

// Whether the pass knows a channel's schema behind its declaration.
fn knows_behind(known: bool, answer: &Result<u16, CallRefused>) -> bool
    ensures { result ≡ true → KnownBehind known answer.now }
{
    match answer {
        Ok(_) => return true,
        Err(_) => return known,
    }
}

impl Lane {
    /// A lane that has read nothing, and lists messages or only counts them.
    pub(crate) fn new(alloc: Global, listed: bool) -> Result<Lane, Memory>
        ensures stands { IfOk result (λ lane. (limit : ℕ) → LaneStands lane [] 0 (no_calls limit)) }
        ensures passed { IfOk result (λ lane. lane.passed ≡ 0) }
        ensures kept { IfOk result (λ lane. KeepsLists lane listed) }
        ensures schema { IfOk result (λ lane. lane.ids.kept ≡ no_schema) }
    {
        match Ids::new(alloc) {
            Ok(ids) => return Ok(Lane {
                ids,
                accepted: Listing::new(alloc, listed),
                declared: Vec::new(alloc),
                refused: Refusals::new(alloc, listed),
                passed: 0,
            }),
            Err(memory) => return Err(memory),
        }
    }

    // How many messages were handled.
    fn handled(&self) -> u64
        ensures { result ≡ length self.now.accepted.items + length self.now.refused.items }
    {
        self.accepted.len() + self.refused.len()
    }

    // Makes room for one more in each list.
    fn make_room(&mut self) -> Result<(), Memory>
        ensures lists { lists_of self.new ≡ lists_of self.old }
        ensures ids { self.new.ids ≡ self.old.ids }
        ensures passed { self.new.passed ≡ self.old.passed }
        ensures kept { KeepsAs self.old self.new }
        ensures room { OnOk result (Roomy self.new) }
    {
        match self.accepted.reserve() {
            Ok(()) => {}
            Err(_) => return Err(Memory),
        }
        match self.declared.reserve(1) {
            Ok(()) => {}
            Err(_) => return Err(Memory),
        }
        match self.refused.reserve() {
            Ok(()) => {}
            Err(_) => return Err(Memory),
        }
        return Ok(());
    }

    // Lists the message at hand as refused. That the intake has ended ends the lane.
    fn refuse(&mut self, cause: CallRefused) -> Result<(), Over>
        requires { length self.old.refused.items + 1 ≤ self.old.refused.capacity }
        ensures taken { (records : List Top) (handled : ℕ) (pass : PassState)
            → RefusalIsDue self.old records handled pass cause → MessageTaken self.new records handled pass result }
        ensures ids { self.new.ids ≡ self.old.ids }
        ensures passed { self.new.passed ≡ self.old.passed }
        ensures kept { KeepsAs self.old self.new }
    {
        let index = self.handled();
        self.refused.push(Refused { index, cause });
        if goes_on(cause) {
            return Ok(());
        }
        return Err(Over::Ended);
    }

    // Publishes the message at hand on the channel that got that id, so that its channel is known
    // (`laws::channels_are_known`).
    fn publish<P: Pass>(&mut self, id: u16, m: &Message<'_>, pass: &mut P) -> Result<(), Over>
        requires accepted { length self.old.accepted.items + 1 ≤ self.old.accepted.capacity }
        requires refused { length self.old.refused.items + 1 ≤ self.old.refused.capacity }
        ensures taken { (begun : P) (before : PassState) → P.since begun pass.old before
            → ThenShows (P.since begun pass.new) before (λ after. (records : List Top) (handled source : ℕ) (t : Top)
            → ListsStand records handled (handled + 1) self.old.ids (lists_of self.old) before
            → DeclaredWithId records self.old.declared.items source id → At (messages records) handled t
            → IsMessage t source (fields_of m.now) → MessageTaken self.new records handled after result) }
        ensures knows { IsKnown (P.knows pass.old) self.old.ids.kept → IsKnown (P.knows pass.new) self.new.ids.kept }
        ensures passed { self.new.passed ≡ self.old.passed }
        ensures kept { KeepsAs self.old self.new }
    {
        let message = NewMessage {
            channel: id,
            sequence: m.sequence,
            log_time: m.log_time,
            publish_time: m.publish_time,
            payload: m.payload,
        };
        match pass.publish(&message) {
            Ok(place) => {
                let index = self.handled();
                self.accepted.push(Accepted { index, place });
                return Ok(());
            }
            Err(refusal) => return self.refuse(refusal),
        }
    }

    // How many bytes the records of the channel have, where they are too many. They are measured once, where there is memory to
    // keep that.
    fn excess_of(&mut self, tables: &Tables, source: u16) -> Option<u64>
        ensures stands { (records : List Top) (declared : List DeclaredAt) → IdsStand records declared self.old.ids
            → TablesOf records tables.now → IdsStand records declared self.new.ids }
        ensures given { self.new.ids.given ≡ self.old.ids.given }
        ensures kept { self.new.ids.kept ≡ self.old.ids.kept }
        ensures rest { self.new ≡ record self.old { ids = self.new.ids } }
        ensures size { IfSome result (λ len. (records : List Top) (declared : List DeclaredAt)
            → IdsStand records declared self.old.ids → TablesOf records tables.now → IsLength records source len) }
        ensures over { IfSome result (λ len. declaration_limit < len) }
    {
        match self.ids.wide(source) {
            Some(len) => return Some(len),
            None => {}
        }
        match excess(tables, source) {
            Some(len) => {
                self.ids.keep_wide(source, len);
                return Some(len);
            }
            None => return None,
        }
    }

    // Declares the feed's channel of that id for the message at hand, and says which id it got.
    fn declare<P: Pass>(
        &mut self,
        alloc: Global,
        tables: &Tables,
        source: u16,
        pass: &mut P,
    ) -> Result<u16, CallRefused>
        requires room { vec_len self.old.declared + 1 ≤ vec_capacity self.old.declared }
        requires knows { IsKnown (P.knows pass.old) self.old.ids.kept }
        ensures knows { IsKnown (P.knows pass.new) self.new.ids.kept }
        ensures found { (begun : P) (before : PassState) → P.since begun pass.old before
            → ThenShows (P.since begun pass.new) before (λ after. (records : List Top) (handled : ℕ)
            → LaneStands self.old records handled before → AreKnown records tables.now → IsOn records handled source
            → At self.old.ids.given source 0 → ChannelFound self.new records handled source after result) }
        ensures passed { self.new.passed ≡ self.old.passed }
        ensures accepted { self.new.accepted ≡ self.old.accepted }
        ensures refused { self.new.refused ≡ self.old.refused }
    {
        match self.excess_of(tables, source) {
            Some(len) => return Err(CallRefused::TooLarge { len }),
            None => {}
        }
        let kept = self.ids.take_schema();
        match definition_over(alloc, tables, source, kept) {
            Ok(described) => {
                let known = described.known;
                let found = self.declare_as(source, &described.channel, known, pass);
                let known = knows_behind(known, &found);
                self.ids.keep_schema(described.into_schema(known));
                return found;
            }
            Err(_) => return Err(CallRefused::Memory),
        }
    }

    // Declares this channel, which has that id in the feed, and whose schema the pass may know, for the message at hand, and
    // says which id it got.
    fn declare_as<P: Pass>(
        &mut self,
        source: u16,
        channel: &ChannelDef,
        known: bool,
        pass: &mut P,
    ) -> Result<u16, CallRefused>
        requires room { vec_len self.old.declared + 1 ≤ vec_capacity self.old.declared }
        requires fits { DefFits channel.now }
        requires known { known ≡ true → P.knows pass.old channel.now.schema }
        ensures knows { KnownBehind known result → P.knows pass.new channel.now.schema }
        ensures found { (begun : P) (before : PassState) → P.since begun pass.old before
            → ThenShows (P.since begun pass.new) before (λ after. (records : List Top) (handled : ℕ)
            → LaneStands self.old records handled before → DeclaresContent records source channel.now
            → IsOn records handled source → At self.old.ids.given source 0
            → ChannelFound self.new records handled source after result) }
        ensures passed { self.new.passed ≡ self.old.passed }
        ensures accepted { self.new.accepted ≡ self.old.accepted }
        ensures refused { self.new.refused ≡ self.old.refused }
    {
        match declare_to(pass, channel, known) {
            Ok(given) => {
                let declared = DeclaredAt {
                    index: self.handled(),
                    channel: given.channel,
                    first: given.first,
                    count: given.count,
                };
                add(&mut self.declared, declared);
                self.ids.set(source, given.channel);
                return Ok(given.channel);
            }
            Err(refusal) => return Err(refusal),
        }
    }

    // The id that the feed's channel of that id got, or gets now for the message at hand.
    fn channel_of<P: Pass>(
        &mut self,
        alloc: Global,
        tables: &Tables,
        source: u16,
        pass: &mut P,
    ) -> Result<u16, CallRefused>
        requires room { vec_len self.old.declared + 1 ≤ vec_capacity self.old.declared }
        requires knows { IsKnown (P.knows pass.old) self.old.ids.kept }
        ensures knows { IsKnown (P.knows pass.new) self.new.ids.kept }
        ensures found { (begun : P) (before : PassState) → P.since begun pass.old before
            → ThenShows (P.since begun pass.new) before (λ after. (records : List Top) (handled : ℕ)
            → LaneStands self.old records handled before → AreKnown records tables.now → IsOn records handled source
            → ChannelFound self.new records handled source after result) }
        ensures passed { self.new.passed ≡ self.old.passed }
        ensures accepted { self.new.accepted ≡ self.old.accepted }
        ensures refused { self.new.refused ≡ self.old.refused }
    {
        let id = self.ids.get(source);
        if id == 0 {
            return self.declare(alloc, tables, source, pass);
        }
        return Ok(id);
    }

    /// Takes a Message: its channel is declared if it wasn't, and it is published.
    pub(crate) fn take_message<P: Pass>(
        &mut self,
        alloc: Global,
        tables: &Tables,
        content: &[u8],
        pass: &mut P,
    ) -> Result<(), Over>
        requires knows { IsKnown (P.knows pass.old) self.old.ids.kept }
        requires v6 { V6 (top message_opcode content.now) }
        ensures knows { IsKnown (P.knows pass.new) self.new.ids.kept }
        ensures taken { (begun : P) (before : PassState) → P.since begun pass.old before
            → ThenShows (P.since begun pass.new) before (λ after. (records : List Top) (handled : ℕ)
            → LaneStands self.old records handled before → AreKnown records tables.now
            → AtHand records handled content.now → MessageTaken self.new records handled after result) }
        ensures passed { self.new.passed ≡ self.old.passed }
        ensures kept { KeepsAs self.old self.new }
    {
        match self.make_room() {
            Ok(()) => {}
            Err(_) => return Err(Over::Memory),
        }
        let message = match Message::parse(content) {
            Ok(message) => message,
            Err(_) => unreachable!(),
        };
        match self.channel_of(alloc, tables, message.channel_id, pass) {
            Ok(id) => return self.publish(id, &message, pass),
            Err(cause) => return self.refuse(cause),
        }
    }
}
