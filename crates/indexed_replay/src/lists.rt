//! The messages to which a Message Index leads.
ghost use Rattle.std.specs.Prelude.{◌≡◌, ◌≤◌, ◌↔◌, ℕ, List, IsTrue, IfOk, IfErr, IfSome};
ghost use Rattle.mcap_io.specs.StoreAnswers.{StoreStays};
ghost use Rattle.rec_index.specs.Records.{ShowsMessageIndex};
ghost use Rattle.mcap_model.specs.Plain.{asked_topic, DeclareChannels};
ghost use Rattle.indexed_replay.specs.Replaying.{ReplayCause};
ghost use Rattle.indexed_replay.specs.ReplayingSteps.{ReadingCause};
ghost use Rattle.indexed_replay.specs.HoldingSteps.{HoldsExactly, HoldsWithin};
ghost use Rattle.indexed_replay.specs.Steps.{AsksListAt, TellsIndex, TellsList};
ghost use Rattle.indexed_replay.specs.Lists.{AsksContent, AsksList, FindsList, HasTimely, ShowsList, ShowsContent, Undeclared, IsWantedChannel};
ghost use Rattle.time_player.specs.Keeping.{kept_in};

use crate::entries::show_entries;
use crate::fronts::{Front, read_front};
use crate::spots::{Request, Spot};
use mcap_io::{Failed, OutsideRefused, Store, read_part};
use mcap_model::{IndexedRefused, NotIndexed, Range, ReadingRefused, Rule, Tables, is_within};
use mcap_wire::{EntriesRef, HEAD_LENGTH, Text};
use rec_index::{MESSAGE_INDEX, MessageIndex};
use std::alloc::Global;
use time_player::Kept;

// The content of the Message Index that stands at that offset, if one does.
fn read_list<T: Store>(
    alloc: Global,
    store: &mut T,
    len: u64,
    at: u64,
) -> Result<Option<Vec<u8>>, ReadingRefused>
    requires { len ≤ (T.state store.old).known }
    ensures told { TellsList (T.state store.old).bytes len at result }
    ensures cause { ReadingCause (T.state store.old).faults (T.state store.new).faults result }
    ensures stays { StoreStays (T.state store.old) (T.state store.new) }
    ensures asks { AsksListAt len at (T.state store.old) (T.state store.new) }
{
    let mut front = [0; 9];
    let found = match read_front(store, len, at, &mut front) {
        Ok(found) => found,
        Err(Failed) => {
            return Err(ReadingRefused::Fault {
                faults: store.faults(),
            });
        }
    };
    let head = match found {
        Front::Whole(head) => head,
        Front::Long => return Err(ReadingRefused::Limit { offset: at }),
        Front::Absent => return Ok(None),
    };
    if head.op != MESSAGE_INDEX {
        return Ok(None);
    }
    match read_part(alloc, store, at + HEAD_LENGTH, head.len) {
        Ok(content) => return Ok(Some(content)),
        Err(OutsideRefused::Failed) => {
            return Err(ReadingRefused::Fault {
                faults: store.faults(),
            });
        }
        Err(OutsideRefused::Memory) => return Err(ReadingRefused::Memory),
    }
}

// The content of the Message Index of that channel that stands there, if one does.
fn read_index<T: Store>(
    alloc: Global,
    store: &mut T,
    len: u64,
    spot: Spot,
) -> Result<Option<Vec<u8>>, ReadingRefused>
    requires { len ≤ (T.state store.old).known }
    ensures told { TellsIndex (T.state store.old).bytes len spot result }
    ensures is { IfOk result (λ found. IfSome found (λ content. (entries : List (ℕ × ℕ))
        × ShowsMessageIndex content.items spot.channel entries)) }
    ensures cause { ReadingCause (T.state store.old).faults (T.state store.new).faults result }
    ensures stays { StoreStays (T.state store.old) (T.state store.new) }
    ensures asks { AsksListAt len spot.list (T.state store.old) (T.state store.new) }
{
    let found = match read_list(alloc, store, len, spot.list) {
        Ok(found) => found,
        Err(why) => return Err(why),
    };
    let content = match found {
        Some(content) => content,
        None => return Ok(None),
    };
    if is_index_of(&content, spot.channel) {
        return Ok(Some(content));
    }
    return Ok(None);
}

// Whether the content is that of a Message Index of that channel.
fn is_index_of(content: &[u8], channel: u16) -> bool
    ensures { IsTrue result ↔ ((entries : List (ℕ × ℕ)) × ShowsMessageIndex content.now channel entries) }
{
    match MessageIndex::parse(content) {
        Ok(index) => return index.channel_id == channel,
        Err(_) => return false,
    }
}

// Whether the summary has a Channel of that id, and the first one has the topic that is asked for, if one is.
fn is_wanted(tables: &Tables, channel: u16, topic: Option<&Text>) -> bool
    ensures { DeclareChannels tables.now.channels
        → IsTrue result ↔ IsWantedChannel tables.now.channels channel (asked_topic topic.entry) }
{
    let found = match tables.channels.view(channel) {
        Some(found) => found,
        None => return false,
    };
    match topic {
        Some(asked) => return asked.is(found.topic),
        None => return true,
    }
}

// Whether one of the entries lies in the range.
fn has_timely(entries: &EntriesRef, range: Range) -> bool
    ensures { IsTrue result → HasTimely range entries.now }
{
    'entries: for i in 0..entries.count() {
        let entry = entries.item(i);
        if is_within(range, entry.0) {
            return true;
        }
    }
    return false;
}

// Says that the summary lacks the channel, where it does and one of the entries lies in the range.
fn check_channel(
    tables: &Tables,
    channel: u16,
    entries: &EntriesRef,
    range: Range,
) -> Result<(), NotIndexed>
    ensures { IfErr result (λ why. (why ≡ NotIndexed.NoChannel channel) × HasTimely range entries.now
        × Undeclared tables.now.channels channel) }
{
    if tables.channels.find(channel).is_some() {
        return Ok(());
    }
    if has_timely(entries, range) {
        return Err(NotIndexed::NoChannel { id: channel });
    }
    return Ok(());
}

// Adds the messages to which a Message Index of that content leads, and says whether each of them stands there.
fn show_content<T: Store>(
    alloc: Global,
    store: &mut T,
    request: &Request,
    spot: Spot,
    content: &[u8],
    shown: &mut Kept,
) -> Result<bool, IndexedRefused>
    requires known { request.now.len ≤ (T.state store.old).known }
    requires is { (entries : List (ℕ × ℕ)) × ShowsMessageIndex content.now spot.channel entries }
    requires fits { HoldsExactly request.now.len shown.old }
    ensures told { ShowsContent (T.state store.old).bytes request.now spot content.now
        (kept_in shown.old, kept_in shown.new) result }
    ensures holds { HoldsWithin request.now.len shown.new result }
    ensures cause { ReplayCause (T.state store.old).faults (T.state store.new).faults result }
    ensures stays { StoreStays (T.state store.old) (T.state store.new) }
    ensures asks { AsksContent request.now spot content.now (T.state store.old) (T.state store.new) }
{
    let index = match MessageIndex::parse(content) {
        Ok(index) => index,
        Err(_) => unreachable!(),
    };
    if is_wanted(request.tables, spot.channel, request.topic) {
        let entries = &index.entries;
        match show_entries(
            alloc,
            store,
            request.len,
            request.range,
            spot,
            entries,
            shown,
        ) {
            Ok(all) => return Ok(all),
            Err(why) => return Err(IndexedRefused::Refused { why }),
        }
    }
    match check_channel(request.tables, spot.channel, &index.entries, request.range) {
        Ok(()) => return Ok(true),
        Err(why) => return Err(IndexedRefused::NotIndexed { why }),
    }
}

/// Adds the messages to which a Message Index leads that a Chunk Index at that offset names, if their channel is wanted, and
/// says whether each of them stands there.
pub(crate) fn show_list<T: Store>(
    alloc: Global,
    store: &mut T,
    request: &Request,
    at: u64,
    spot: Spot,
    shown: &mut Kept,
) -> Result<bool, IndexedRefused>
    requires known { request.now.len ≤ (T.state store.old).known }
    requires fits { HoldsExactly request.now.len shown.old }
    ensures told { ShowsList (T.state store.old).bytes request.now at spot (kept_in shown.old, kept_in shown.new)
        result }
    ensures holds { HoldsWithin request.now.len shown.new result }
    ensures found { FindsList (T.state store.old).bytes request.now.len spot result }
    ensures cause { ReplayCause (T.state store.old).faults (T.state store.new).faults result }
    ensures stays { StoreStays (T.state store.old) (T.state store.new) }
    ensures asks { AsksList request.now spot (T.state store.old) (T.state store.new) }
{
    let found = match read_index(alloc, store, request.len, spot) {
        Ok(found) => found,
        Err(why) => return Err(IndexedRefused::Refused { why }),
    };
    match found {
        Some(content) => return show_content(alloc, store, request, spot, &content, shown),
        None => {
            return Err(IndexedRefused::Refused {
                why: ReadingRefused::Grammar {
                    offset: at,
                    rule: Rule::V12,
                },
            });
        }
    }
}
