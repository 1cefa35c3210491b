//! Sorting, from a store to a live store.
ghost use Rattle.std.specs.Prelude.{◌≡◌, ◌≤◌, [], length, map, IfOk, IfErr};
ghost use Rattle.mcap_wire.specs.Layout.{content_limit};
ghost use Rattle.mcap_wire.specs.Limits.{chunk_size_limit};
ghost use Rattle.mcap_model.specs.Places.{Each};
ghost use Rattle.mcap_model.specs.ReadBack.{IsExtra};
ghost use Rattle.chunk_writer.specs.Limits.{ChunkSizeFits};
ghost use Rattle.merge_walk.specs.Stores.{files_of, StoresFit, StoresStay, AskedWithin, unasked, none_left};
ghost use Rattle.merge_walk.specs.Walks.{pieces_in, WalkStands};
ghost use Rattle.mcap_merge.specs.ReadInputs.{Read};
ghost use Rattle.mcap_merge.specs.Inputs.{extra_top};
ghost use Rattle.mcap_merge.specs.ReadingSteps.{StoreKeeps, AsksWithinLength};
ghost use Rattle.mcap_merge.specs.Filed.{AsksTwice};
ghost use Rattle.mcap_merge.specs.Turns.{WhyNotAll, PutCounts};
ghost use Rattle.mcap_sort.specs.Gathering.{HoldsGathered};
ghost use Rattle.mcap_sort.specs.Turns.{only};
ghost use Rattle.mcap_sort.specs.Sorting.{sorted_options, SortsSo, OfOne};
ghost use Rattle.mcap_sort.specs.SortSteps.{IsReady, IsUnready, start, Files, answer_for as comes_to, answer_of as came_to};

use crate::answers::{SortCounts, SortRefused};
use crate::gathering::Gathered;
use crate::putting::put_extras;
use crate::reading::read_store;
use crate::turns::put_turns;
use chunk_writer::Scribe;
use mcap_io::{LiveStore, Store};
use mcap_merge::{MergeRefused, refusal_at};
use mcap_model::{FileOptions, Stop};
use mcap_wire::{CONTENT_LIMIT, Memory, Text};
use merge_walk::{Walk, pieces_of};
use record_keeping::{end_file, keeping_of};
use std::alloc::Global;

/// What a sort writes, and how.
#[derive(Drop)]
pub(crate) struct Ready {
    pub(crate) gathered: Gathered,
    pub(crate) options: FileOptions,
    pub(crate) walk: Walk,
}

// How the file is to be written. The content of a Header isn't longer than the limit, so its profile isn't.
fn options_of(alloc: Global, profile: &Text, chunk: u64) -> Result<FileOptions, Memory>
    ensures options { IfOk result (λ o. o ≡ sorted_options profile.now chunk) }
    ensures short { IfOk result (λ o. length o.profile ≤ content_limit) }
{
    let text = profile.as_str();
    if text.len() as u64 > CONTENT_LIMIT {
        return Err(Memory);
    }
    let profile = Text::copied(alloc, text)?;
    return Ok(FileOptions {
        profile,
        chunk: Some(chunk),
        span: None,
    });
}

// Reads the store, and gets ready what the writing needs.
fn make_ready<T: Store>(
    alloc: Global,
    stores: &mut Vec<T>,
    chunk: u64,
) -> Result<Ready, MergeRefused>
    requires one { length stores.old.items ≡ 1 }
    ensures ready { IfOk result (λ r. OfOne (map (λ s. T.state s) stores.old.items)
        (map (λ s. T.state s) stores.new.items) (λ old new. IsReady old new chunk r)) }
    ensures refused { IfErr result (λ why. OfOne (map (λ s. T.state s) stores.old.items)
        (map (λ s. T.state s) stores.new.items) (λ old new. IsUnready old new why)) }
    ensures keeps { OfOne (map (λ s. T.state s) stores.old.items) (map (λ s. T.state s) stores.new.items) StoreKeeps }
    ensures asked { OfOne (map (λ s. T.state s) stores.old.items) (map (λ s. T.state s) stores.new.items)
        AsksWithinLength }
{
    let gathered = match read_store(alloc, &mut stores[0]) {
        Ok(gathered) => gathered,
        Err(why) => return Err(refusal_at(0, why)),
    };
    let options = match options_of(alloc, &gathered.input.profile, chunk) {
        Ok(options) => options,
        Err(_) => return Err(MergeRefused::Stopped { stop: Stop::Memory }),
    };
    let mut pieces = Vec::new(alloc);
    match pieces_of(&mut pieces, 0, gathered.input.spans.as_slice()) {
        Ok(()) => {}
        Err(_) => return Err(MergeRefused::Stopped { stop: Stop::Memory }),
    }
    let walk = Walk::new(alloc, pieces);
    return Ok(Ready {
        gathered,
        options,
        walk,
    });
}

// Writes the file of what was gathered into a live store.
fn write_file<T: Store, L: LiveStore>(
    alloc: Global,
    gathered: &Gathered,
    stores: &mut Vec<T>,
    walk: Walk,
    options: &FileOptions,
    live: L,
) -> (L, Result<SortCounts, MergeRefused>)
    requires one { length stores.old.items ≡ 1 }
    requires held { (r : Read) × HoldsGathered r gathered.now }
    requires meet { Each (λ e. IsExtra (extra_top e)) gathered.now.input.extras.items }
    requires begun { WalkStands (files_of (map (λ s. T.state s) stores.old.items)) walk [] [] }
    requires fits { StoresFit (map (λ s. T.state s) stores.old.items) (pieces_in walk) }
    requires size { ChunkSizeFits options.now.chunk }
    requires profile { length options.now.profile ≤ content_limit }
    ensures files { Files options.now (start (files_of (map (λ s. T.state s) stores.old.items)) gathered.now walk)
        (L.state live) (L.state result.0) result.1 }
    ensures why { IfErr result.1 (λ why. WhyNotAll (files_of (map (λ s. T.state s) stores.old.items)) walk
        (only gathered.now) why) }
    ensures stay { StoresStay (map (λ s. T.state s) stores.old.items) (map (λ s. T.state s) stores.new.items) }
    ensures counts { PutCounts (map (λ s. T.state s) stores.old.items) (map (λ s. T.state s) stores.new.items)
        (L.state live).faults (L.state result.0).faults result.1 }
    ensures asked { AskedWithin (map (λ s. T.state s) stores.old.items) (map (λ s. T.state s) stores.new.items)
        (unasked walk) none_left }
{
    let scribe = match Scribe::open(alloc, live, options) {
        Ok(scribe) => scribe,
        Err((live, stop)) => return (live, Err(MergeRefused::Stopped { stop })),
    };
    let mut walk = walk;
    let mut k = keeping_of(alloc, scribe);
    match put_extras(gathered.input.extras.as_slice(), &mut k) {
        Ok(()) => {}
        Err(stop) => return (k.scribe.into_store(), Err(MergeRefused::Stopped { stop })),
    }
    match put_turns(alloc, gathered, stores, &mut walk, &mut k) {
        Ok(()) => {}
        Err(why) => return (k.scribe.into_store(), Err(why)),
    }
    let (live, end) = end_file(k);
    match end {
        Ok(kept) => {
            let counts = SortCounts {
                messages: kept.messages,
                records: kept.records,
            };
            return (live, Ok(counts));
        }
        Err(stop) => return (live, Err(MergeRefused::Stopped { stop })),
    }
}

// What is answered for what a step does.
fn answer_for(why: MergeRefused) -> SortRefused
    ensures { result ≡ comes_to why }
{
    match why {
        MergeRefused::Halted { input: _, why } => return SortRefused::Halted { why },
        MergeRefused::Changed { input: _, offset } => return SortRefused::Changed { offset },
        MergeRefused::TooManySchemas => return SortRefused::Stopped { stop: Stop::Memory },
        MergeRefused::TooManyChannels => return SortRefused::Stopped { stop: Stop::Memory },
        MergeRefused::Stopped { stop } => return SortRefused::Stopped { stop },
    }
}

// The same of what the writing answers.
fn answer_of(end: Result<SortCounts, MergeRefused>) -> Result<SortCounts, SortRefused>
    ensures { result ≡ came_to end }
{
    match end {
        Ok(counts) => Ok(counts),
        Err(why) => Err(answer_for(why)),
    }
}

/// Writes the messages of the store, which holds a whole file, as a new file into the live store, after what that holds, which is
/// nothing where the file is to be read back: in the order of log time and place, under their own ids, each after its channel and
/// that one's schema as the input declares them first, in chunks of that size, in bytes. After them come the Attachments, the
/// Metadata and the records of applications (opcodes from 0x80 on) that stand at top level. The store is the only one of the list.
/// It is read whole before anything is appended; then its chunks and messages are loaded again, each when its first message may be
/// next. A refusal for what the input is leaves the live store as it was; one for a fault, the limits on files, a want of memory,
/// or an input that changed may leave a first part of the file.
pub fn sort<T: Store, L: LiveStore>(
    alloc: Global,
    stores: &mut Vec<T>,
    live: L,
    chunk: u64,
) -> (L, Result<SortCounts, SortRefused>)
    requires one { length stores.old.items ≡ 1 }
    requires size { (1 ≤ chunk) × (chunk ≤ chunk_size_limit) }
    ensures sorts { OfOne (map (λ s. T.state s) stores.old.items) (map (λ s. T.state s) stores.new.items)
        (λ old new. SortsSo chunk old new (L.state live) (L.state result.0) result.1) }
    ensures keeps { OfOne (map (λ s. T.state s) stores.old.items) (map (λ s. T.state s) stores.new.items) StoreKeeps }
    ensures asked { OfOne (map (λ s. T.state s) stores.old.items) (map (λ s. T.state s) stores.new.items) AsksTwice }
{
    let ready = match make_ready(alloc, stores, chunk) {
        Ok(ready) => ready,
        Err(why) => return (live, Err(answer_for(why))),
    };
    let Ready {
        gathered,
        options,
        walk,
    } = ready;
    let (live, end) = write_file(alloc, &gathered, stores, walk, &options, live);
    return (live, answer_of(end));
}
