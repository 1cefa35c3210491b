//! Messages that are kept, their payloads one behind the other in one vector.
ghost use Rattle.std.specs.Prelude.{◌≡◌, ◌↔◌, ◌++◌, ◌∷◌, [], List, length, IsTrue, OnOk};
ghost use Rattle.mcap_model.specs.declared.replay.Shown.{Shown as Seen};
ghost use Rattle.time_player.specs.Heads.{AreWithin, HeadNotBehind, HeadsInOrder, AreOfChannels, Represents};

use crate::lent::{Lent, copy_of};
use crate::store_part::add_part;
use mcap_io::{OutsideRefused, Store};
use mcap_model::{Place, Shown, Table};
use mcap_wire::{Bytes, Memory};
use rec_data::Message;
use std::alloc::Global;

/// A message, and where its payload stands among those that are kept.
#[derive(Clone, Copy)]
pub(crate) struct Head {
    place: Place,
    log_time: u64,
    publish_time: u64,
    channel: u16,
    sequence: u32,
    from: usize,
    to: usize,
}

/// Messages that are kept.
#[derive(Drop)]
pub struct Kept {
    heads: Vec<Head>,
    payloads: Vec<u8>,
    ghost within: { AreWithin heads.items (length payloads.items) },
}

// Whether a message doesn't come behind another.
fn is_not_behind(one: &Head, other: &Head) -> bool
    ensures { IsTrue result ↔ HeadNotBehind one.now other.now }
{
    if one.log_time != other.log_time {
        return one.log_time < other.log_time;
    }
    if one.place.top != other.place.top {
        return one.place.top < other.place.top;
    }
    return one.place.inner <= other.place.inner;
}

// Whether no message comes behind the next.
fn is_in_order(heads: &[Head]) -> bool
    ensures { IsTrue result ↔ HeadsInOrder heads.now }
{
    'messages: for i in 1..heads.len() {
        if !is_not_behind(&heads[i - 1], &heads[i]) {
            return false;
        }
    }
    return true;
}

// The message of a head, without its payload.
fn without_payload(alloc: Global, head: &Head) -> Shown
    ensures { result.channel ≡ head.now.channel }
{
    Shown {
        place: head.place,
        log_time: head.log_time,
        publish_time: head.publish_time,
        channel: head.channel,
        sequence: head.sequence,
        payload: Bytes::new(Vec::new(alloc)),
    }
}

// Adds a message without its payload, where its channel has none yet.
fn note_channel(
    alloc: Global,
    head: &Head,
    known: &mut Table,
    few: &mut Vec<Shown>,
) -> Result<(), Memory>
    ensures { OnOk result ((before : List Seen) (s : Seen) → s.channel ≡ head.now.channel
        → Represents before known.old few.old.items → Represents (before ++ s ∷ []) known.new few.new.items) }
{
    match known.find(head.channel) {
        Some(_) => return Ok(()),
        None => {}
    }
    match known.add(alloc, head.channel, b"") {
        Ok(()) => {}
        Err(memory) => return Err(memory),
    }
    match few.push(without_payload(alloc, head)) {
        Ok(()) => return Ok(()),
        Err(_) => return Err(Memory),
    }
}

impl Kept {
    ghost use Rattle.std.specs.Prelude.{◌+◌, ◌<◌, ◌≤◌, IsPermutation, IfOk};
    ghost use Rattle.mcap_model.specs.Places.{At};
    ghost use Rattle.mcap_model.specs.Plain.{InOrder};
    ghost use Rattle.time_player.specs.Lent.{shown_of};
    ghost use Rattle.std.specs.List.{dedup};
    ghost use Rattle.time_player.specs.Heads.{same_place};
    ghost use Rattle.time_player.specs.Ordering.{IsOrdered};
    ghost use Rattle.time_player.specs.Keeping.{data_held, kept_in, shown_at, shown_with, HoldsMoreBytes, KeepsPart};
    ghost use Rattle.time_player.specs.DataOfMessages.{data_in};
    ghost use Rattle.time_player.specs.Reading.{ReadsFrom};

    pub fn new(alloc: Global) -> Kept
        ensures none { kept_in result ≡ [] }
        ensures empty { data_held result ≡ 0 }
    {
        Kept {
            heads: Vec::new(alloc),
            payloads: Vec::new(alloc),
        }
    }

    /// How many messages are kept.
    pub fn len(&self) -> usize
        ensures { result ≡ length (kept_in self.now) }
    {
        self.heads.len()
    }

    /// How many bytes of data are held for the messages that are kept.
    pub fn data_len(&self) -> usize
        ensures { result ≡ data_held self.now }
    {
        self.payloads.len()
    }

    /// The message at that place among those that are kept.
    #[inline(always)]
    pub fn get(&self, i: usize) -> Lent<'_>
        requires { i < length (kept_in self.now) }
        ensures { At (kept_in self.now) i (shown_of result) }
    {
        let head = &self.heads[i];
        Lent {
            place: head.place,
            log_time: head.log_time,
            publish_time: head.publish_time,
            channel: head.channel,
            sequence: head.sequence,
            payload: &self.payloads[head.from..head.to],
        }
    }

    /// Keeps one message more.
    pub fn add(&mut self, place: Place, message: &Message) -> Result<(), Memory>
        ensures { OnOk result (kept_in self.new ≡ kept_in self.old ++ shown_at place message.now ∷ []) }
    {
        let from = self.payloads.len();
        match self.payloads.extend_from_slice(message.payload) {
            Ok(()) => {}
            Err(_) => return Err(Memory),
        }
        let head = Head {
            place,
            log_time: message.log_time,
            publish_time: message.publish_time,
            channel: message.channel_id,
            sequence: message.sequence,
            from,
            to: self.payloads.len(),
        };
        match self.heads.push(head) {
            Ok(()) => return Ok(()),
            Err(_) => return Err(Memory),
        }
    }

    /// Keeps one message more, whose payload are the `len` bytes of the store from `at` on. That of `message` isn't kept.
    pub fn add_part_of<T: Store>(
        &mut self,
        store: &mut T,
        place: Place,
        message: &Message,
        at: u64,
        len: u64,
    ) -> Result<(), OutsideRefused>
        requires { at + len ≤ (T.state store.old).known }
        ensures keeps { KeepsPart (T.state store.old).bytes at len (shown_with place message.now) (kept_in self.old)
            (kept_in self.new) result }
        ensures reads { ReadsFrom (T.state store.old) (T.state store.new) len result }
        ensures holds { HoldsMoreBytes len (data_held self.old) (data_held self.new) result }
    {
        let from = self.payloads.len();
        match add_part(store, at, len, &mut self.payloads) {
            Ok(()) => {}
            Err(why) => return Err(why),
        }
        let head = Head {
            place,
            log_time: message.log_time,
            publish_time: message.publish_time,
            channel: message.channel_id,
            sequence: message.sequence,
            from,
            to: self.payloads.len(),
        };
        match self.heads.push(head) {
            Ok(()) => return Ok(()),
            Err(_) => return Err(OutsideRefused::Memory),
        }
    }

    // Drops each message that has the time and the place of the one before it.
    fn drop_doubles(&mut self)
        ensures { kept_in self.new ≡ dedup same_place (kept_in self.old) }
    {
        self.heads
            .dedup_by_key(|h| (h.log_time, h.place.top, h.place.inner));
    }

    /// Puts the messages in the order of log time and place.
    pub fn put_in_order(&mut self)
        ensures same { IsPermutation (kept_in self.old) (kept_in self.new) }
        ensures order { InOrder (kept_in self.new) }
    {
        if is_in_order(&self.heads) {
            return;
        }
        self.heads
            .sort_unstable_by_key(|h| (h.log_time, h.place.top, h.place.inner));
    }

    /// Puts the messages in the order of log time and place. Of those with one time and place one stays.
    pub fn put_in_order_without_doubles(&mut self)
        ensures order { IsOrdered (kept_in self.old) (kept_in self.new) }
        ensures fewer { data_in (kept_in self.new) ≤ data_in (kept_in self.old) }
    {
        self.put_in_order();
        self.drop_doubles();
    }

    /// One message of each channel that the messages are on, without its payload.
    pub(crate) fn one_of_each_channel(&self, alloc: Global) -> Result<Vec<Shown>, Memory>
        ensures { IfOk result (λ few. AreOfChannels few.items (kept_in self.now)) }
    {
        let mut known = Table::new(alloc);
        let mut few = Vec::new(alloc);
        'messages: for i in 0..self.heads.len() {
            match note_channel(alloc, &self.heads[i], &mut known, &mut few) {
                Ok(()) => {}
                Err(memory) => return Err(memory),
            }
        }
        return Ok(few);
    }

    /// Copies of the messages.
    pub fn copies(&self, alloc: Global) -> Result<Vec<Shown>, Memory>
        ensures { IfOk result (λ shown. shown.items ≡ kept_in self.now) }
    {
        let mut shown = Vec::new(alloc);
        'messages: for i in 0..self.len() {
            let copy = match copy_of(alloc, &self.get(i)) {
                Ok(copy) => copy,
                Err(memory) => return Err(memory),
            };
            match shown.push(copy) {
                Ok(()) => {}
                Err(_) => return Err(Memory),
            }
        }
        return Ok(shown);
    }
}
