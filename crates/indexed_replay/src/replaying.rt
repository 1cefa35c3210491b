//! The replay of a store by the index of its file.
ghost use Rattle.std.specs.Prelude.{◌≡◌, ◌≤◌, Ok};
ghost use Rattle.mcap_io.specs.StoreAnswers.{LeavesStore, TellsLength};
ghost use Rattle.mcap_model.specs.Plain.{asked_topic};
ghost use Rattle.indexed_replay.specs.Apart.{HaveOne};
ghost use Rattle.indexed_replay.specs.Holding.{TellsRoom};
ghost use Rattle.indexed_replay.specs.Played.{AsksBound, AsksIndexed, AsksUnloaded};
ghost use Rattle.indexed_replay.specs.LoadedReplays.{AsksLoaded, CountsJudged, PlaysLoaded};
ghost use Rattle.indexed_replay.specs.Replaying.{PlaysIndexed, PlaysScan, ReplayCause, TellsChunks, TellsNoSummary};
ghost use Rattle.indexed_replay.specs.ReplayingSteps.{TellsOneIndex};

use crate::channels::take_channels;
use crate::gathering::gather;
use crate::repeats::check_apart;
use crate::spots::Request;
use mcap_io::{Failed, Store};
use mcap_model::{IndexedRefused, NotIndexed, Range, ReadingRefused, Replayed};
use mcap_wire::{Memory, Text};
use std::alloc::Global;
use summary_read::{Loaded, load};
use time_player::{Kept, KeptReplay, topics_of_kept};

// Whether the summary has a Statistics that states as many chunks as there are Chunk Indexes.
fn judge_counts(loaded: &Loaded) -> Result<(), NotIndexed>
    ensures { CountsJudged loaded.now result }
{
    let statistics = match loaded.statistics() {
        Some(statistics) => statistics,
        None => return Err(NotIndexed::NoStatistics),
    };
    let found = loaded.chunk_indexes() as u64;
    if statistics.chunk_count as u64 != found {
        return Err(NotIndexed::ChunkCount {
            stated: statistics.chunk_count,
            found,
        });
    }
    return Ok(());
}

// The messages to which the summary leads that was loaded of a store of that length, in their order, with the topics of
// their channels.
fn play<T: Store>(
    alloc: Global,
    store: &mut T,
    loaded: &Loaded,
    len: u64,
    range: Range,
    topic: Option<&Text>,
) -> Result<KeptReplay, IndexedRefused>
    requires known { len ≤ (T.state store.old).known }
    requires measured { TellsLength (T.state store.old).bytes (Ok len) }
    requires apart { HaveOne loaded.now.chunk_indexes loaded.now.chunk_index_offsets }
    ensures plays { PlaysLoaded (T.state store.old).bytes loaded.now range (asked_topic topic.entry) result }
    ensures room { TellsRoom (T.state store.old).bytes result }
    ensures cause { ReplayCause (T.state store.old).faults (T.state store.new).faults result }
    ensures leaves { LeavesStore (T.state store.old) (T.state store.new) }
    ensures asks { AsksLoaded loaded.now range (asked_topic topic.entry) (T.state store.old) (T.state store.new) }
{
    let tables = match take_channels(alloc, loaded) {
        Ok(tables) => tables,
        Err(Memory) => {
            return Err(IndexedRefused::Refused {
                why: ReadingRefused::Memory,
            });
        }
    };
    let request = Request {
        len,
        range,
        tables: &tables,
        topic,
    };
    let mut shown = Kept::new(alloc);
    match gather(alloc, store, &request, loaded, &mut shown) {
        Ok(()) => {}
        Err(why) => return Err(why),
    }
    shown.put_in_order_without_doubles();
    match topics_of_kept(alloc, &tables, &shown) {
        Ok(topics) => return Ok(KeptReplay::new(topics, shown)),
        Err(Memory) => {
            return Err(IndexedRefused::Refused {
                why: ReadingRefused::Memory,
            });
        }
    }
}

/// The messages of the range, and of the topic if one is given, to which the indexes of the file lead that the store
/// holds, in the order of log time and place (MCAP specification, "Summary Section"). Of the file only the ends, the
/// summary, and of each chunk that meets the range the front, the Message Indexes and the messages in the range on channels
/// of the topic are asked for. Their payloads are in one vector, and never more of them than the store has bytes: else a
/// limit is passed at the Message Index.
pub fn replay_kept<T: Store>(
    alloc: Global,
    store: &mut T,
    range: Range,
    topic: Option<&Text>,
) -> Result<KeptReplay, IndexedRefused>
    ensures plays { PlaysIndexed (T.state store.old).bytes range (asked_topic topic.entry) result }
    ensures counted { TellsChunks (T.state store.old).bytes result }
    ensures apart { TellsOneIndex (T.state store.old).bytes result }
    ensures room { TellsRoom (T.state store.old).bytes result }
    ensures unsummed { TellsNoSummary (T.state store.old).bytes result }
    ensures scanned { PlaysScan (T.state store.old).bytes range (asked_topic topic.entry) result }
    ensures asks { AsksIndexed range (asked_topic topic.entry) (T.state store.old) (T.state store.new) }
    ensures unloaded { AsksUnloaded (T.state store.old) (T.state store.new) }
    ensures bounded { AsksBound range (asked_topic topic.entry) (T.state store.old) (T.state store.new) }
    ensures cause { ReplayCause (T.state store.old).faults (T.state store.new).faults result }
    ensures leaves { LeavesStore (T.state store.old) (T.state store.new) }
{
    let len = match store.len() {
        Ok(len) => len,
        Err(Failed) => {
            return Err(IndexedRefused::Refused {
                why: ReadingRefused::Fault {
                    faults: store.faults(),
                },
            });
        }
    };
    let loaded = match load(alloc, store) {
        Ok(loaded) => loaded,
        Err(why) => return Err(why),
    };
    match judge_counts(&loaded) {
        Ok(()) => {}
        Err(why) => return Err(IndexedRefused::NotIndexed { why }),
    }
    match check_apart(alloc, &loaded) {
        Ok(()) => {}
        Err(why) => return Err(IndexedRefused::Refused { why }),
    }
    return play(alloc, store, &loaded, len, range, topic);
}

/// The messages that `replay_kept` gives, each with a payload of its own.
pub fn replay_indexed<T: Store>(
    alloc: Global,
    store: &mut T,
    range: Range,
    topic: Option<&Text>,
) -> Result<Replayed, IndexedRefused>
    ensures plays { PlaysIndexed (T.state store.old).bytes range (asked_topic topic.entry) result }
    ensures counted { TellsChunks (T.state store.old).bytes result }
    ensures apart { TellsOneIndex (T.state store.old).bytes result }
    ensures room { TellsRoom (T.state store.old).bytes result }
    ensures unsummed { TellsNoSummary (T.state store.old).bytes result }
    ensures scanned { PlaysScan (T.state store.old).bytes range (asked_topic topic.entry) result }
    ensures asks { AsksIndexed range (asked_topic topic.entry) (T.state store.old) (T.state store.new) }
    ensures unloaded { AsksUnloaded (T.state store.old) (T.state store.new) }
    ensures bounded { AsksBound range (asked_topic topic.entry) (T.state store.old) (T.state store.new) }
    ensures cause { ReplayCause (T.state store.old).faults (T.state store.new).faults result }
    ensures leaves { LeavesStore (T.state store.old) (T.state store.new) }
{
    let kept = match replay_kept(alloc, store, range, topic) {
        Ok(kept) => kept,
        Err(why) => return Err(why),
    };
    match kept.into_replayed(alloc) {
        Ok(replayed) => return Ok(replayed),
        Err(Memory) => {
            return Err(IndexedRefused::Refused {
                why: ReadingRefused::Memory,
            });
        }
    }
}
