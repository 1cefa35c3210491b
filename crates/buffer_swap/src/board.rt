//! The steps of a turn.
ghost use Rattle.std.specs.Prelude.{◌≡◌, ℕ, ◌+◌, ◌≤◌, [], ◌∷◌, ◌++◌, true, false, IfOk, OnOk, OnErr, List, length, Some, None, Err};
ghost use Rattle.rec_data.specs.declared.owned.Rec.{Rec};
ghost use Rattle.mcap_model.specs.declared.ends.End.TheVariants.{Closed, Stopped};
ghost use Rattle.mcap_model.specs.History.{Numbered};
ghost use Rattle.history_ids.specs.Ids.{new_records};
ghost use Rattle.history_ids.specs.Tables.{HasFewIds, MayShare};
ghost use Rattle.history_ids.specs.DeclarationFits.{DefFits};
ghost use Rattle.record_core.specs.declared.answers.CallRefused.TheVariants.{TooManySchemas, TooManyChannels};
ghost use Rattle.record_core.specs.Desk.{DeskView, new_desk, found_of, swapped, ended, desk_end, fields_of_message, Published, DeclaredBy, SwapAnswered, EndIsSetAt, IsCause, EndIsLast};
ghost use Rattle.feed_lane.specs.PassCalls.{message_record, with_found};
ghost use Rattle.buffer_swap.specs.Posts.{first_post, IsDrain};
ghost use Rattle.buffer_swap.specs.Turns.{newcomer};
ghost use Rattle.buffer_swap.specs.Plays.{desk_out, HasDesk, HasDeskOut, IsIdle, Took, MayCount, NamedAt, LacksIdAt, missing, counts, hands_over, closes, stops, frees, frees_counting, same_pass, with_full_hand, with_name, with_lacking};
ghost use Rattle.buffer_swap.specs.Calls.{frees_published, frees_behind, counts_declared, pass_declared, PublishedInTurn, DeclaredInTurn, TriedInTurn, pass_named, NamedInTurn, hands_if, SwappedInTurn, closes_if, ClosedInTurn, stops_if, StoppedInTurn};

use crate::doorbell::Doorbell;
use crate::plays::{
    Close, Count, Free, FreeCounting, FreeFull, FreeLacking, FreeNamed, HandOver, Said, Stop, Take,
};
use crate::seats::{Board, Seat};
use atomic_table::{Refused as NoTable, Table};
use mcap_model::{End, Stop as Why};
use mcap_wire::Memory;
use rec_data::ChannelDef;
use record_cache::Cache;
use record_core::{CallRefused, Declared, Desk, Empty, Found, NewMessage, declared_size};
use std::alloc::Global;
use std::hint::spin_loop;
use std::marker::Brand;
use std::sync::Wait;
use std::sync::atomic::AtomicU64;
use std::sync::atomic::Ordering::SeqCst;
use std::thread::yield_now;
use std::time::Duration;

pub(crate) const TURN: usize = 0;

pub(crate) const EVENTS: usize = 1;

// From how many bytes on a buffer is worth a swap, where the limit isn't less.
const RIPE: u64 = 262_144;

// How many times as much as is worth a swap may gather before the drain should have come: with a processor of its own it has.
const OVERDUE: u64 = 4;

// From how many bytes on the drain is far behind, so that a publisher which may wait for room waits for a swap; and for how many
// nanoseconds at most: where the drain takes longer, the room up to the limit is there for that.
pub(crate) const FAR_BEHIND: u64 = 2_097_152;

const HEAD_START: u64 = 5_000_000;

// How often a turn that is taken is looked at before a sleep: most turns are shorter than a sleep.
const LOOKS: u32 = 16;

// How many pauses of the processor stand before the first look, and at most before one.
const FIRST_PAUSES: u32 = 512;

const MOST_PAUSES: u32 = 2_048;

// What a message has in a buffer before its data: opcode, length and the other fields.
const BEFORE_DATA: u64 = 31;

// Does nothing for so many pauses of the processor.
fn pause(pauses: u32) {
    for _ in 0..pauses {
        spin_loop();
    }
}

impl Board {
    pub(crate) fn open(alloc: Global, desk: Desk) -> Result<(Board, Seat), Memory>
        requires new { (limit : ℕ) × (desk ≡ new_desk limit) }
        requires some { 1 ≤ desk.limit }
        ensures { IfOk result (λ t. (t.1.table_id ≡ t.0.table.shared.table_id)
            × (t.1.me ≡ (newcomer desk.limit first_post, []))) }
    {
        let limit = desk.limit();
        let mut slots = Vec::new(alloc);
        match slots.push(desk) {
            Ok(()) => {}
            Err(_) => return Err(Memory),
        }
        let (table, seat) = match Table::new(alloc, &[0, 0], slots, &limit) {
            Ok(made) => made,
            Err(NoTable { slots: _ }) => return Err(Memory),
        };
        let board = Board {
            table,
            turn_sleepers: AtomicU64::new(0),
            room_sleepers: AtomicU64::new(0),
            ripe: limit.min(RIPE),
            doorbell: Doorbell::new(),
        };
        Ok((board, seat))
    }

    // ---- taking the turn

    /// True where the turn was taken.
    pub(crate) fn take(&self, seat: &mut Seat) -> bool
        requires id { seat.old.table_id ≡ self.now.table.shared.table_id }
        requires idle { IsIdle seat.old.me }
        ensures id { seat.new.table_id ≡ seat.old.table_id }
        ensures took { result ≡ true → Took seat.old.me seat.new.me × (seat.new.me.0.missed ≡ seat.old.me.0.missed) }
        ensures missed { result ≡ false → seat.new.me ≡ (missing seat.old.me.0, []) }
    {
        self.table.shared.compare_exchange::<Take>(seat, TURN, 0, 1) == 0
    }

    // Whether the turn was seen free in a short while. Each look costs whoever has the turn the words' cache line, so between
    // looks it stays away, longer behind the first ones: meanwhile another publishes a run of messages. Where a thread waits for the
    // processor, it goes first: it may be the one that has the turn, or the drain.
    fn sees_free_turn(&self) -> bool {
        let mut pauses = FIRST_PAUSES;
        for _ in 0..LOOKS {
            pause(pauses);
            if self.table.shared.peek(TURN) == 0 {
                return true;
            }
            yield_now();
            pauses = pauses.saturating_mul(2).min(MOST_PAUSES);
        }
        false
    }

    // Sleeps while the turn is taken, and may return early. It is counted before the sleep looks at the turn.
    fn sleep_for_turn<R: Wait>(&self, rt: &R) {
        self.turn_sleepers.fetch_add(1, SeqCst);
        self.table.shared.park(rt, TURN, 1);
        self.turn_sleepers.fetch_sub(1, SeqCst);
    }

    // Wakes one who sleeps until the turn is free, if there is any. The turn was freed before.
    fn wake_for_turn(&self) {
        if self.turn_sleepers.load(SeqCst) != 0 {
            self.table.shared.wake_one(TURN);
        }
    }

    /// Takes the turn, and waits for it.
    pub(crate) fn wait<R: Wait>(&self, rt: &R, seat: &mut Seat)
        requires id { seat.old.table_id ≡ self.now.table.shared.table_id }
        requires idle { IsIdle seat.old.me }
        ensures id { seat.new.table_id ≡ seat.old.table_id }
        ensures took { Took seat.old.me seat.new.me }
    {
        for _ in rt.forever() {
            if self.take(seat) {
                return;
            }
            if !self.sees_free_turn() {
                self.sleep_for_turn(rt);
            }
        }
        unreachable!()
    }

    // ---- loans of the desk

    /// How the desk came out.
    pub(crate) fn found_out(&self, seat: &mut Seat) -> Found
        requires id { seat.old.table_id ≡ self.now.table.shared.table_id }
        requires desk { HasDesk seat.old.me }
        ensures id { seat.new.table_id ≡ seat.old.table_id }
        ensures same { seat.new.me ≡ seat.old.me }
        ensures found { result ≡ found_of seat.old.me.0.hand }
    {
        let desk = seat.slot_mut(&self.table.shared, 0);
        desk.found()
    }

    // The desk's answer to a message. It is inlined as the desk's call is.
    #[inline(always)]
    fn publish_out(&self, seat: &mut Seat, m: &NewMessage<'_>) -> Result<u64, CallRefused>
        requires id { seat.old.table_id ≡ self.now.table.shared.table_id }
        requires desk { HasDesk seat.old.me }
        ensures id { seat.new.table_id ≡ seat.old.table_id }
        ensures same { seat.new.me.0 ≡ seat.old.me.0 }
        ensures out { seat.new.me.1 ≡ (0, desk_out seat.new.me.1) ∷ [] }
        ensures published { Published seat.old.me.0.hand m.now.channel (fields_of_message m.now) result
            (desk_out seat.new.me.1) }
        ensures counts { OnOk result (MayCount seat.old.me.0.hand (message_record m.now ∷ [])
            (desk_out seat.new.me.1)) }
        ensures refused { OnErr result (desk_out seat.new.me.1 ≡ seat.old.me.0.hand) }
    {
        let desk = seat.slot_mut(&self.table.shared, 0);
        desk.publish(m)
    }

    // The desk's answer to a declaration.
    fn declare_out(
        &self,
        seat: &mut Seat,
        channel: &ChannelDef,
        like: Option<u16>,
    ) -> Result<Declared, CallRefused>
        requires id { seat.old.table_id ≡ self.now.table.shared.table_id }
        requires desk { HasDesk seat.old.me }
        requires fits { DefFits channel.now }
        requires shares { MayShare seat.old.me.0.hand.ids channel.now.schema like }
        ensures id { seat.new.table_id ≡ seat.old.table_id }
        ensures same { seat.new.me.0 ≡ seat.old.me.0 }
        ensures out { seat.new.me.1 ≡ (0, desk_out seat.new.me.1) ∷ [] }
        ensures declared { DeclaredBy seat.old.me.0.hand channel.now result (desk_out seat.new.me.1) }
        ensures counts { OnOk result (MayCount seat.old.me.0.hand (new_records seat.old.me.0.hand.ids channel.now)
            (desk_out seat.new.me.1)) }
        ensures known { IfOk result (λ given. given.count ≡ 0 → desk_out seat.new.me.1 ≡ seat.old.me.0.hand) }
        ensures refused { OnErr result (desk_out seat.new.me.1 ≡ seat.old.me.0.hand) }
        ensures named { IfOk result (λ given. NamedAt (desk_out seat.new.me.1) (given.channel, channel.now)) }
        ensures few { HasFewIds (desk_out seat.new.me.1).ids }
        ensures no_schemas { result ≡ Err TooManySchemas → LacksIdAt seat.old.me.0.hand (channel.now, TooManySchemas) }
        ensures no_channels { result ≡ Err TooManyChannels
            → LacksIdAt seat.old.me.0.hand (channel.now, TooManyChannels) }
    {
        let desk = seat.slot_mut(&self.table.shared, 0);
        desk.declare_sharing(channel, like)
    }

    // The desk's buffer for an empty one.
    fn swap_out(&self, seat: &mut Seat, empty: Cache) -> Result<Cache, Empty>
        requires id { seat.old.table_id ≡ self.now.table.shared.table_id }
        requires desk { HasDesk seat.old.me }
        requires empty { empty ≡ record { limit = seat.old.me.0.hand.limit; records = [] } }
        ensures id { seat.new.table_id ≡ seat.old.table_id }
        ensures same { seat.new.me.0 ≡ seat.old.me.0 }
        ensures out { seat.new.me.1 ≡ (0, desk_out seat.new.me.1) ∷ [] }
        ensures swapped { SwapAnswered seat.old.me.0.hand result (desk_out seat.new.me.1) }
    {
        let desk = seat.slot_mut(&self.table.shared, 0);
        desk.swap(empty)
    }

    // Closes the desk.
    fn close_out(&self, seat: &mut Seat) -> u64
        requires id { seat.old.table_id ≡ self.now.table.shared.table_id }
        requires desk { HasDesk seat.old.me }
        ensures id { seat.new.table_id ≡ seat.old.table_id }
        ensures same { seat.new.me.0 ≡ seat.old.me.0 }
        ensures out { seat.new.me.1 ≡ (0, ended seat.old.me.0.hand Closed) ∷ [] }
        ensures at { EndIsSetAt (ended seat.old.me.0.hand Closed) result }
    {
        let desk = seat.slot_mut(&self.table.shared, 0);
        desk.close()
    }

    // Stops the desk.
    fn stop_out(&self, seat: &mut Seat, stop: Why) -> u64
        requires id { seat.old.table_id ≡ self.now.table.shared.table_id }
        requires desk { HasDesk seat.old.me }
        requires cause { IsCause stop }
        ensures id { seat.new.table_id ≡ seat.old.table_id }
        ensures same { seat.new.me.0 ≡ seat.old.me.0 }
        ensures out { seat.new.me.1 ≡ (0, ended seat.old.me.0.hand (Stopped stop)) ∷ [] }
        ensures at { EndIsSetAt (ended seat.old.me.0.hand (Stopped stop)) result }
    {
        let desk = seat.slot_mut(&self.table.shared, 0);
        desk.stop(stop)
    }

    // ---- events

    // The records of a declaration are counted.
    fn count(&self, seat: &mut Seat)
        requires id { seat.old.table_id ≡ self.now.table.shared.table_id }
        requires desk { HasDeskOut seat.old.me }
        requires publisher { seat.old.me.0.post.publishes ≡ true }
        requires counts { (records : List Rec) × MayCount seat.old.me.0.hand records (desk_out seat.old.me.1) }
        ensures id { seat.new.table_id ≡ seat.old.table_id }
        ensures me { seat.new.me ≡ (counts seat.old.me.0 (desk_out seat.old.me.1), seat.old.me.1) }
    {
        self.doorbell.fill();
        self.table.shared.fetch_add::<Count>(seat, EVENTS, 1);
    }

    // The buffer is handed over.
    fn hand_over(&self, seat: &mut Seat)
        requires id { seat.old.table_id ≡ self.now.table.shared.table_id }
        requires desk { (seat.old.me.0.holds ≡ true) × (seat.old.me.1 ≡ (0, swapped seat.old.me.0.hand) ∷ []) }
        requires drain { IsDrain seat.old.me.0.post }
        requires some { seat.old.me.0.hand.primary ≡ [] → ⊥ }
        ensures id { seat.new.table_id ≡ seat.old.table_id }
        ensures me { seat.new.me
            ≡ (hands_over seat.old.me.0 (swapped seat.old.me.0.hand), (0, swapped seat.old.me.0.hand) ∷ []) }
        ensures numbered { Numbered (seat.old.me.0.post.taken ++ seat.old.me.0.hand.primary) }
    {
        self.table.shared.fetch_add::<HandOver>(seat, EVENTS, 1);
    }

    // The control closes the intake.
    fn close(&self, seat: &mut Seat)
        requires id { seat.old.table_id ≡ self.now.table.shared.table_id }
        requires desk { (seat.old.me.0.holds ≡ true) × (seat.old.me.1 ≡ (0, ended seat.old.me.0.hand Closed) ∷ []) }
        requires unended { seat.old.me.0.hand.end ≡ None }
        requires control { (seat.old.me.0.post.controls ≡ true) × (seat.old.me.0.post.drains ≡ false) }
        ensures id { seat.new.table_id ≡ seat.old.table_id }
        ensures me { seat.new.me
            ≡ (closes seat.old.me.0 (ended seat.old.me.0.hand Closed), (0, ended seat.old.me.0.hand Closed) ∷ []) }
    {
        self.table.shared.fetch_add::<Close>(seat, EVENTS, 1);
    }

    // The drain stops the intake.
    fn stop(&self, seat: &mut Seat, _stop: Why)
        requires id { seat.old.table_id ≡ self.now.table.shared.table_id }
        requires desk { (seat.old.me.0.holds ≡ true)
            × (seat.old.me.1 ≡ (0, ended seat.old.me.0.hand (Stopped _stop)) ∷ []) }
        requires unended { seat.old.me.0.hand.end ≡ None }
        requires drain { IsDrain seat.old.me.0.post }
        ensures id { seat.new.table_id ≡ seat.old.table_id }
        ensures me { seat.new.me
            ≡ (stops seat.old.me.0 (ended seat.old.me.0.hand (Stopped _stop)), (0, ended seat.old.me.0.hand (Stopped _stop)) ∷ []) }
    {
        self.table.shared.fetch_add::<Stop>(seat, EVENTS, 1);
    }

    // ---- freeing the turn

    // Shows nothing more.
    fn free(&self, seat: &mut Seat)
        requires id { seat.old.table_id ≡ self.now.table.shared.table_id }
        requires desk { HasDesk seat.old.me }
        ensures id { seat.new.table_id ≡ seat.old.table_id }
        ensures me { seat.new.me ≡ (frees seat.old.me.0 (same_pass seat.old.me.0), []) }
    {
        self.table.shared.store::<Free>(seat, TURN, 0);
        self.wake_for_turn();
    }

    // Counts the records that the desk got, and shows nothing more: one step in place of two.
    fn free_counting(&self, seat: &mut Seat)
        requires id { seat.old.table_id ≡ self.now.table.shared.table_id }
        requires desk { HasDeskOut seat.old.me }
        requires publisher { seat.old.me.0.post.publishes ≡ true }
        requires counts { (records : List Rec) × MayCount seat.old.me.0.hand records (desk_out seat.old.me.1) }
        ensures id { seat.new.table_id ≡ seat.old.table_id }
        ensures me { seat.new.me ≡ (frees_counting seat.old.me.0 (desk_out seat.old.me.1), []) }
    {
        self.doorbell.fill();
        self.table.shared.store::<FreeCounting>(seat, TURN, 0);
        self.wake_for_turn();
    }

    // Shows that the buffer was full.
    fn free_full(&self, seat: &mut Seat)
        requires id { seat.old.table_id ≡ self.now.table.shared.table_id }
        requires desk { HasDesk seat.old.me }
        ensures id { seat.new.table_id ≡ seat.old.table_id }
        ensures me { seat.new.me ≡ (frees seat.old.me.0 (with_full_hand seat.old.me.0), []) }
    {
        self.table.shared.store::<FreeFull>(seat, TURN, 0);
        self.wake_for_turn();
    }

    // Shows the id that a channel got.
    fn free_named<N: Said>(&self, seat: &mut Seat, _channel: u16, _def: &ChannelDef)
        requires said { N.name ≡ (_channel, _def.now) }
        requires id { seat.old.table_id ≡ self.now.table.shared.table_id }
        requires desk { HasDesk seat.old.me }
        requires named { NamedAt seat.old.me.0.hand (_channel, _def.now) }
        ensures id { seat.new.table_id ≡ seat.old.table_id }
        ensures me { seat.new.me ≡ (frees seat.old.me.0 (with_name (_channel, _def.now) seat.old.me.0), []) }
    {
        self.table.shared.store::<FreeNamed<N>>(seat, TURN, 0);
        self.wake_for_turn();
    }

    // Shows that no id was left for a channel.
    fn free_lacking<N: Said>(&self, seat: &mut Seat, _def: &ChannelDef, _why: CallRefused)
        requires said { N.lacking ≡ (_def.now, _why) }
        requires id { seat.old.table_id ≡ self.now.table.shared.table_id }
        requires desk { HasDesk seat.old.me }
        requires lacks { LacksIdAt seat.old.me.0.hand (_def.now, _why) }
        ensures id { seat.new.table_id ≡ seat.old.table_id }
        ensures me { seat.new.me ≡ (frees seat.old.me.0 (with_lacking (_def.now, _why) seat.old.me.0), []) }
    {
        self.table.shared.store::<FreeLacking<N>>(seat, TURN, 0);
        self.wake_for_turn();
    }

    // ---- a turn that was taken

    // Frees the turn behind the answer to a message. One that was accepted is counted.
    fn free_published(
        &self,
        seat: &mut Seat,
        _m: &NewMessage<'_>,
        answer: &Result<u64, CallRefused>,
    )
        requires id { seat.old.table_id ≡ self.now.table.shared.table_id }
        requires desk { HasDeskOut seat.old.me }
        requires publisher { seat.old.me.0.post.publishes ≡ true }
        requires counts { OnOk answer.now (MayCount seat.old.me.0.hand (message_record _m.now ∷ [])
            (desk_out seat.old.me.1)) }
        requires refused { OnErr answer.now (desk_out seat.old.me.1 ≡ seat.old.me.0.hand) }
        ensures id { seat.new.table_id ≡ seat.old.table_id }
        ensures me { seat.new.me ≡ (frees_published seat.old.me.0 (desk_out seat.old.me.1) answer.now, []) }
    {
        match answer {
            Ok(_) => self.free_counting(seat),
            Err(CallRefused::Full { .. }) => self.free_full(seat),
            Err(_) => self.free(seat),
        }
    }

    /// Publishes a message in a turn that was taken and found the buffer to hold so many bytes, and frees it.
    pub(crate) fn publish_in_turn(
        &self,
        seat: &mut Seat,
        m: &NewMessage<'_>,
        held: u64,
    ) -> Result<u64, CallRefused>
        requires id { seat.old.table_id ≡ self.now.table.shared.table_id }
        requires desk { HasDesk seat.old.me }
        requires publisher { seat.old.me.0.post.publishes ≡ true }
        ensures id { seat.new.table_id ≡ seat.old.table_id }
        ensures published { PublishedInTurn seat.old.me m.now result seat.new.me }
    {
        let answer = self.publish_out(seat, m);
        self.free_published(seat, m, &answer);
        self.ring_behind_message(held, m);
        answer
    }

    // Counts the records of a channel that was declared.
    fn count_declared(
        &self,
        seat: &mut Seat,
        _channel: &ChannelDef,
        answer: &Result<Declared, CallRefused>,
    )
        requires id { seat.old.table_id ≡ self.now.table.shared.table_id }
        requires desk { HasDeskOut seat.old.me }
        requires publisher { seat.old.me.0.post.publishes ≡ true }
        requires counts { OnOk answer.now (MayCount seat.old.me.0.hand
            (new_records seat.old.me.0.hand.ids _channel.now) (desk_out seat.old.me.1)) }
        requires known { IfOk answer.now (λ given. given.count ≡ 0 → desk_out seat.old.me.1 ≡ seat.old.me.0.hand) }
        requires refused { OnErr answer.now (desk_out seat.old.me.1 ≡ seat.old.me.0.hand) }
        ensures id { seat.new.table_id ≡ seat.old.table_id }
        ensures view { seat.new.me.0 ≡ counts_declared seat.old.me.0 (desk_out seat.old.me.1) answer.now }
        ensures desk { HasDesk seat.new.me }
    {
        match answer {
            Ok(given) => self.count_some(seat, given.count, _channel),
            Err(_) => {}
        }
    }

    // Counts records, if there are any.
    fn count_some(&self, seat: &mut Seat, count: u8, _channel: &ChannelDef)
        requires id { seat.old.table_id ≡ self.now.table.shared.table_id }
        requires desk { HasDeskOut seat.old.me }
        requires publisher { seat.old.me.0.post.publishes ≡ true }
        requires counts { MayCount seat.old.me.0.hand (new_records seat.old.me.0.hand.ids _channel.now)
            (desk_out seat.old.me.1) }
        requires known { count ≡ 0 → desk_out seat.old.me.1 ≡ seat.old.me.0.hand }
        ensures id { seat.new.table_id ≡ seat.old.table_id }
        ensures view { seat.new.me.0 ≡ counts seat.old.me.0 (desk_out seat.old.me.1) }
        ensures desk { HasDesk seat.new.me }
    {
        if count > 0 {
            self.count(seat);
        }
    }

    // Frees the turn behind the answer to a declaration.
    fn free_declared(
        &self,
        seat: &mut Seat,
        channel: &ChannelDef,
        answer: &Result<Declared, CallRefused>,
    )
        requires id { seat.old.table_id ≡ self.now.table.shared.table_id }
        requires desk { HasDesk seat.old.me }
        requires named { IfOk answer.now (λ given. NamedAt seat.old.me.0.hand (given.channel, channel.now)) }
        requires no_schemas { answer.now ≡ Err TooManySchemas
            → LacksIdAt seat.old.me.0.hand (channel.now, TooManySchemas) }
        requires no_channels { answer.now ≡ Err TooManyChannels
            → LacksIdAt seat.old.me.0.hand (channel.now, TooManyChannels) }
        ensures id { seat.new.table_id ≡ seat.old.table_id }
        ensures me { seat.new.me ≡ (frees seat.old.me.0 (pass_declared seat.old.me.0 channel.now answer.now), []) }
    {
        match answer {
            Ok(given) => self.free_named::<Brand>(seat, given.channel, channel),
            Err(CallRefused::Full { .. }) => self.free_full(seat),
            Err(CallRefused::TooManySchemas) => {
                self.free_lacking::<Brand>(seat, channel, CallRefused::TooManySchemas);
            }
            Err(CallRefused::TooManyChannels) => {
                self.free_lacking::<Brand>(seat, channel, CallRefused::TooManyChannels);
            }
            _ => self.free(seat),
        }
    }

    /// Declares a channel in a turn that was taken and found the buffer to hold so many bytes, and frees it.
    pub(crate) fn declare_in_turn(
        &self,
        seat: &mut Seat,
        channel: &ChannelDef,
        like: Option<u16>,
        held: u64,
    ) -> Result<Declared, CallRefused>
        requires id { seat.old.table_id ≡ self.now.table.shared.table_id }
        requires desk { HasDesk seat.old.me }
        requires publisher { seat.old.me.0.post.publishes ≡ true }
        requires fits { DefFits channel.now }
        requires shares { MayShare seat.old.me.0.hand.ids channel.now.schema like }
        ensures id { seat.new.table_id ≡ seat.old.table_id }
        ensures declared { DeclaredInTurn seat.old.me channel.now result seat.new.me }
    {
        let answer = self.declare_out(seat, channel, like);
        self.count_declared(seat, channel, &answer);
        self.free_declared(seat, channel, &answer);
        self.ring_behind_declaration(held, channel);
        answer
    }

    // The drain hands over what the desk gave.
    fn hand_swapped(&self, seat: &mut Seat, answer: &Result<Cache, Empty>)
        requires id { seat.old.table_id ≡ self.now.table.shared.table_id }
        requires desk { HasDeskOut seat.old.me }
        requires drain { IsDrain seat.old.me.0.post }
        requires swapped { SwapAnswered seat.old.me.0.hand answer.now (desk_out seat.old.me.1) }
        ensures id { seat.new.table_id ≡ seat.old.table_id }
        ensures view { seat.new.me.0 ≡ hands_if seat.old.me.0 answer.now }
        ensures desk { HasDesk seat.new.me }
        ensures numbered { OnOk answer.now (Numbered (seat.old.me.0.post.taken ++ seat.old.me.0.hand.primary)) }
    {
        match answer {
            Ok(_) => {
                self.hand_over(seat);
            }
            Err(_) => {}
        }
    }

    /// Swaps in a turn that was taken, and frees it. Whoever waits for a swap is woken, and what the drain was told before is
    /// forgotten.
    pub(crate) fn swap_in_turn(&self, seat: &mut Seat, empty: Cache) -> Result<Cache, Empty>
        requires id { seat.old.table_id ≡ self.now.table.shared.table_id }
        requires desk { HasDesk seat.old.me }
        requires drain { IsDrain seat.old.me.0.post }
        requires empty { empty ≡ record { limit = seat.old.me.0.hand.limit; records = [] } }
        ensures id { seat.new.table_id ≡ seat.old.table_id }
        ensures swapped { SwappedInTurn seat.old.me result seat.new.me }
    {
        let answer = self.swap_out(seat, empty);
        self.hand_swapped(seat, &answer);
        self.doorbell.forget();
        self.free(seat);
        self.wake_for_room();
        answer
    }

    // The control closes the intake where no end was found.
    fn close_if(&self, seat: &mut Seat, end: Option<End>)
        requires id { seat.old.table_id ≡ self.now.table.shared.table_id }
        requires desk { (seat.old.me.0.holds ≡ true) × (seat.old.me.1 ≡ (0, ended seat.old.me.0.hand Closed) ∷ []) }
        requires control { (seat.old.me.0.post.controls ≡ true) × (seat.old.me.0.post.drains ≡ false) }
        requires end { end ≡ desk_end seat.old.me.0.hand }
        ensures id { seat.new.table_id ≡ seat.old.table_id }
        ensures view { seat.new.me.0 ≡ closes_if seat.old.me.0 end }
        ensures desk { HasDesk seat.new.me }
    {
        match end {
            None => self.close(seat),
            Some(_) => {}
        }
    }

    /// Closes in a turn that was taken, and frees it.
    pub(crate) fn close_in_turn(&self, seat: &mut Seat) -> u64
        requires id { seat.old.table_id ≡ self.now.table.shared.table_id }
        requires desk { HasDesk seat.old.me }
        requires control { (seat.old.me.0.post.controls ≡ true) × (seat.old.me.0.post.drains ≡ false) }
        ensures id { seat.new.table_id ≡ seat.old.table_id }
        ensures closed { ClosedInTurn seat.old.me result seat.new.me }
    {
        let found = self.found_out(seat);
        let at = self.close_out(seat);
        self.close_if(seat, found.end);
        self.free(seat);
        self.wake_for_room();
        self.doorbell.ring_for_good();
        at
    }

    // The drain stops the intake where no end was found.
    fn stop_if(&self, seat: &mut Seat, end: Option<End>, stop: Why)
        requires id { seat.old.table_id ≡ self.now.table.shared.table_id }
        requires desk { (seat.old.me.0.holds ≡ true)
            × (seat.old.me.1 ≡ (0, ended seat.old.me.0.hand (Stopped stop)) ∷ []) }
        requires drain { IsDrain seat.old.me.0.post }
        requires end { end ≡ desk_end seat.old.me.0.hand }
        ensures id { seat.new.table_id ≡ seat.old.table_id }
        ensures view { seat.new.me.0 ≡ stops_if seat.old.me.0 end stop }
        ensures desk { HasDesk seat.new.me }
    {
        match end {
            None => self.stop(seat, stop),
            Some(_) => {}
        }
    }

    /// Stops in a turn that was taken, and frees it.
    pub(crate) fn stop_in_turn(&self, seat: &mut Seat, stop: Why) -> u64
        requires id { seat.old.table_id ≡ self.now.table.shared.table_id }
        requires desk { HasDesk seat.old.me }
        requires drain { IsDrain seat.old.me.0.post }
        requires cause { IsCause stop }
        ensures id { seat.new.table_id ≡ seat.old.table_id }
        ensures stopped { StoppedInTurn seat.old.me stop result seat.new.me }
    {
        let found = self.found_out(seat);
        let at = self.stop_out(seat, stop);
        self.stop_if(seat, found.end, stop);
        self.free(seat);
        self.wake_for_room();
        self.doorbell.ring_for_good();
        at
    }

    // ---- a turn that shows nothing of a full buffer

    // Frees the turn behind the answer to a message. One that was accepted is counted.
    fn free_behind(&self, seat: &mut Seat, _m: &NewMessage<'_>, answer: &Result<u64, CallRefused>)
        requires id { seat.old.table_id ≡ self.now.table.shared.table_id }
        requires desk { HasDeskOut seat.old.me }
        requires publisher { seat.old.me.0.post.publishes ≡ true }
        requires counts { OnOk answer.now (MayCount seat.old.me.0.hand (message_record _m.now ∷ [])
            (desk_out seat.old.me.1)) }
        requires refused { OnErr answer.now (desk_out seat.old.me.1 ≡ seat.old.me.0.hand) }
        ensures id { seat.new.table_id ≡ seat.old.table_id }
        ensures me { seat.new.me ≡ (frees_behind seat.old.me.0 (desk_out seat.old.me.1) answer.now, []) }
    {
        match answer {
            Ok(_) => self.free_counting(seat),
            Err(_) => self.free(seat),
        }
    }

    /// Publishes a message in a turn that was taken and found the buffer to hold so many bytes, and frees it.
    pub(crate) fn try_in_turn(
        &self,
        seat: &mut Seat,
        m: &NewMessage<'_>,
        held: u64,
    ) -> Result<u64, CallRefused>
        requires id { seat.old.table_id ≡ self.now.table.shared.table_id }
        requires desk { HasDesk seat.old.me }
        requires publisher { seat.old.me.0.post.publishes ≡ true }
        ensures id { seat.new.table_id ≡ seat.old.table_id }
        ensures tried { TriedInTurn seat.old.me m.now result seat.new.me }
    {
        let answer = self.publish_out(seat, m);
        self.free_behind(seat, m, &answer);
        self.ring_behind_message(held, m);
        answer
    }

    // Frees the turn behind the answer to a declaration.
    fn free_tried(
        &self,
        seat: &mut Seat,
        channel: &ChannelDef,
        answer: &Result<Declared, CallRefused>,
    )
        requires id { seat.old.table_id ≡ self.now.table.shared.table_id }
        requires desk { HasDesk seat.old.me }
        requires named { IfOk answer.now (λ given. NamedAt seat.old.me.0.hand (given.channel, channel.now)) }
        requires no_schemas { answer.now ≡ Err TooManySchemas
            → LacksIdAt seat.old.me.0.hand (channel.now, TooManySchemas) }
        requires no_channels { answer.now ≡ Err TooManyChannels
            → LacksIdAt seat.old.me.0.hand (channel.now, TooManyChannels) }
        ensures id { seat.new.table_id ≡ seat.old.table_id }
        ensures me { seat.new.me ≡ (frees seat.old.me.0 (pass_named seat.old.me.0 channel.now answer.now), []) }
    {
        match answer {
            Err(CallRefused::Full { .. }) => self.free(seat),
            _ => self.free_declared(seat, channel, answer),
        }
    }

    /// Declares a channel in a turn that was taken and found the buffer to hold so many bytes, and frees it.
    pub(crate) fn name_in_turn(
        &self,
        seat: &mut Seat,
        channel: &ChannelDef,
        like: Option<u16>,
        held: u64,
    ) -> Result<Declared, CallRefused>
        requires id { seat.old.table_id ≡ self.now.table.shared.table_id }
        requires desk { HasDesk seat.old.me }
        requires publisher { seat.old.me.0.post.publishes ≡ true }
        requires fits { DefFits channel.now }
        requires shares { MayShare seat.old.me.0.hand.ids channel.now.schema like }
        ensures id { seat.new.table_id ≡ seat.old.table_id }
        ensures declared { NamedInTurn seat.old.me channel.now result seat.new.me }
    {
        let answer = self.declare_out(seat, channel, like);
        self.count_declared(seat, channel, &answer);
        self.free_tried(seat, channel, &answer);
        self.ring_behind_declaration(held, channel);
        answer
    }

    /// How many events there were, in the bits on which a thread may sleep. They are read before the turn is taken, so that no
    /// swap between a full buffer and the sleep is slept through.
    pub(crate) fn events(&self) -> u32 {
        (self.table.shared.peek(EVENTS) & 0xffff_ffff) as u32
    }

    /// Sleeps until a swap, a close or a stop behind these events, and may return early. Where a channel was declared since, it
    /// doesn't sleep; where one is declared while it sleeps, that doesn't wake it.
    pub(crate) fn sleep_for_room<R: Wait>(&self, rt: &R, events: u32) {
        self.room_sleepers.fetch_add(1, SeqCst);
        self.table.shared.park(rt, EVENTS, events);
        self.room_sleepers.fetch_sub(1, SeqCst);
    }

    /// Sleeps until a swap, a close or a stop behind these events, but not for long.
    pub(crate) fn sleep_for_swap<R: Wait>(&self, rt: &R, events: u32) {
        let start = Duration::from_nanos(HEAD_START);
        self.room_sleepers.fetch_add(1, SeqCst);
        self.table.shared.park_timeout(rt, EVENTS, events, start);
        self.room_sleepers.fetch_sub(1, SeqCst);
    }

    // Wakes all who sleep until there is room or a swap, if there are any. The events were counted before.
    fn wake_for_room(&self) {
        if self.room_sleepers.load(SeqCst) != 0 {
            self.table.shared.wake_all(EVENTS);
        }
    }

    // ---- the drain's rest

    /// Rouses the drain where records were accepted since the last swap.
    pub(crate) fn rouse(&self) {
        if self.doorbell.is_filled() {
            self.doorbell.rouse();
        }
    }

    // Rings where the buffer holds enough for a swap, and lets the drain go first where that should have come.
    fn ring_if_ripe(&self, held: u64) {
        if held < self.ripe || !self.doorbell.is_filled() {
            return;
        }
        self.doorbell.ring();
        if held >= self.ripe.saturating_mul(OVERDUE) {
            self.doorbell.give_way();
        }
    }

    // The same behind a declaration, before which the buffer held so many bytes. Its length is that of new records, so it may
    // ring too early.
    fn ring_behind_declaration(&self, held: u64, channel: &ChannelDef)
        requires { DefFits channel.now }
    {
        self.ring_if_ripe(held.saturating_add(declared_size(channel)));
    }

    // The same behind a message, before which the buffer held so many bytes.
    fn ring_behind_message(&self, held: u64, m: &NewMessage<'_>) {
        let framed = BEFORE_DATA.saturating_add(m.payload.len() as u64);
        self.ring_if_ripe(held.saturating_add(framed));
    }
}
