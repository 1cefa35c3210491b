//! The messages of a range and a topic, in the order of their times.
ghost use Rattle.std.specs.Prelude.{◌≡◌, ◌↔◌, ◌&&◌, ◌==◌, nat_eq, Some, List, IfOk, filter, IsPermutation, IsTrue};
ghost use Rattle.std.specs.Cmp.Lexicographic.{pointwise};
ghost use Rattle.mcap_model.specs.Scan.{Seen, Replay, is_within as within};
ghost use Rattle.mcap_model.specs.Plain.{is_named, is_chosen, asked_topic, NotBehind, InOrder, PlacesDiffer};
ghost use Rattle.mcap_model.specs.Showing.{Shows};

use crate::replay::{Range, Replayed, Shown, Topic};
use crate::showing::copy_shown;
use crate::topics::used_topics;
use mcap_wire::{Memory, Text};
use std::alloc::Global;

/// Whether a time lies in the range.
pub fn is_within(range: Range, time: u64) -> bool
    ensures { result ≡ within range time }
{
    match range.end {
        Some(end) => return range.start <= time && time < end,
        None => return range.start <= time,
    }
}

// Whether an entry gives a channel that topic.
fn is_entry(entry: &Topic, channel: u16, topic: &Text) -> bool
    ensures { result ≡ ((entry.now.channel == channel) && pointwise nat_eq entry.now.topic topic.now) }
{
    entry.channel == channel && entry.topic == *topic
}

// Whether one of the entries gives a channel that topic.
fn has_entry(topics: &[Topic], channel: u16, topic: &Text) -> bool
    ensures { result ≡ is_named topics.now channel (Some topic.now) }
{
    topics.iter().any(|entry| is_entry(entry, channel, topic))
}

// Whether a channel has the topic that is asked for, if one is.
fn is_on_topic(topics: &[Topic], channel: u16, topic: Option<&Text>) -> bool
    ensures { result ≡ is_named topics.now channel (asked_topic topic.entry) }
{
    match topic {
        Some(asked) => return has_entry(topics, channel, asked),
        None => return true,
    }
}

// Copies of the messages that are asked for.
fn choose(
    alloc: Global,
    all: &Replayed,
    range: Range,
    topic: Option<&Text>,
) -> Result<Vec<Shown>, Memory>
    ensures { IfOk result (λ chosen. chosen.items
        ≡ filter (is_chosen all.now.topics.items range (asked_topic topic.entry)) all.now.shown.items) }
{
    let mut chosen = Vec::new(alloc);
    'messages: for i in 0..all.shown.len() {
        let message = &all.shown[i];
        if is_within(range, message.log_time) && is_on_topic(&all.topics, message.channel, topic) {
            let copy = match copy_shown(alloc, message) {
                Ok(copy) => copy,
                Err(memory) => return Err(memory),
            };
            match chosen.push(copy) {
                Ok(()) => {}
                Err(_) => return Err(Memory),
            }
        }
    }
    return Ok(chosen);
}

// Whether a message doesn't come behind another.
fn is_not_behind(one: &Shown, other: &Shown) -> bool
    ensures { IsTrue result ↔ NotBehind one.now other.now }
{
    if one.log_time != other.log_time {
        return one.log_time < other.log_time;
    }
    if one.place.top != other.place.top {
        return one.place.top < other.place.top;
    }
    return one.place.inner <= other.place.inner;
}

// Whether no message comes behind the next.
fn is_in_order(shown: &[Shown]) -> bool
    ensures { IsTrue result ↔ InOrder shown.now }
{
    'messages: for i in 1..shown.len() {
        if !is_not_behind(&shown[i - 1], &shown[i]) {
            return false;
        }
    }
    return true;
}

/// Puts messages in the order of log time and place.
pub fn put_in_order(shown: &mut Vec<Shown>)
    ensures same { IsPermutation shown.old.items shown.new.items }
    ensures order { InOrder shown.new.items }
{
    if is_in_order(shown) {
        return;
    }
    shown.sort_unstable_by_key(|s| (s.log_time, s.place.top, s.place.inner));
}

/// The messages of the range, and of the topic if one is given, in the order of log time and place.
pub fn replay_plain(
    alloc: Global,
    all: &Replayed,
    range: Range,
    topic: Option<&Text>,
) -> Result<Replayed, Memory>
    requires { PlacesDiffer all.now.shown.items }
    ensures { (messages : List Seen) → Shows all.now messages
        → IfOk result (λ replayed. (shown : List Seen) × Replay range (asked_topic topic.entry) messages shown
        × Shows replayed shown) }
{
    let mut shown = match choose(alloc, all, range, topic) {
        Ok(shown) => shown,
        Err(memory) => return Err(memory),
    };
    put_in_order(&mut shown);
    match used_topics(alloc, &all.topics, &shown) {
        Ok(topics) => return Ok(Replayed { topics, shown }),
        Err(memory) => return Err(memory),
    }
}
