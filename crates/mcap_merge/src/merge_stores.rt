//! Merging stores into a live store.
ghost use Rattle.std.specs.Prelude.{◌≡◌, ◌<◌, ◌≤◌, List, Some, Ok, length, map, IfOk, IfErr};
ghost use Rattle.std.specs.List.{AllZip};
ghost use Rattle.mcap_wire.specs.Layout.{content_limit};
ghost use Rattle.mcap_wire.specs.Limits.{chunk_size_limit};
ghost use Rattle.chunk_writer.specs.Limits.{ChunkSizeFits};
ghost use Rattle.merge_walk.specs.Stores.{files_of, StoresFit, StoresStay, AskedWithin, unasked, none_left};
ghost use Rattle.merge_walk.specs.Walks.{pieces_in};
ghost use Rattle.mcap_merge.specs.Inputs.{HoldInputs};
ghost use Rattle.mcap_merge.specs.ReadInputs.{Read};
ghost use Rattle.mcap_merge.specs.Writing.{ExtrasMeet};
ghost use Rattle.mcap_merge.specs.ReadingSteps.{StoreKeeps, AsksWithinLength};
ghost use Rattle.mcap_merge.specs.Gathering.{GatherRefused};
ghost use Rattle.mcap_merge.specs.Turns.{WhyNotAll, PutCounts};
ghost use Rattle.mcap_merge.specs.Putting.{IsBegun, WholeStands};
ghost use Rattle.mcap_merge.specs.Filed.{merged_options, MergesInto, MergeFails, AsksTwice};
ghost use Rattle.mcap_merge.specs.Filing.{IsReadyToWrite, FilesAs, FileStops};

use crate::answers::{MergeRefused, Merged};
use crate::gathering::{Gathered, gather};
use crate::input::Input;
use crate::merge_file::write_all;
use crate::starting::{Begun, begin};
use chunk_writer::Scribe;
use mcap_io::{LiveStore, Store};
use mcap_model::{FileOptions, Stop};
use mcap_wire::{CONTENT_LIMIT, Memory, Text};
use std::alloc::Global;

/// What a merge writes, and how.
#[derive(Drop)]
pub(crate) struct Ready {
    pub(crate) gathered: Gathered,
    pub(crate) options: FileOptions,
    pub(crate) begun: Begun,
}

// How the file is to be written. The content of a Header isn't longer than the limit, so its profile isn't.
fn options_of(alloc: Global, profile: &Text, chunk: u64) -> Result<FileOptions, Memory>
    ensures options { IfOk result (λ o. o ≡ merged_options profile.now chunk) }
    ensures short { IfOk result (λ o. length o.profile ≤ content_limit) }
{
    let text = profile.as_str();
    if text.len() as u64 > CONTENT_LIMIT {
        return Err(Memory);
    }
    let profile = Text::copied(alloc, text)?;
    return Ok(FileOptions {
        profile,
        chunk: Some(chunk),
        span: None,
    });
}

// Reads all stores, and gets ready what the writing needs.
fn make_ready<T: Store>(
    alloc: Global,
    stores: &mut Vec<T>,
    chunk: u64,
) -> Result<Ready, MergeRefused>
    requires some { 0 < length stores.old.items }
    requires few { length stores.old.items ≤ 64 }
    ensures ready { IfOk result (λ r. IsReadyToWrite (map (λ s. T.state s) stores.old.items)
        (map (λ s. T.state s) stores.new.items) chunk r) }
    ensures refused { IfErr result (λ why. GatherRefused (map (λ s. T.state s) stores.old.items)
        (map (λ s. T.state s) stores.new.items) why) }
    ensures keeps { AllZip StoreKeeps (map (λ s. T.state s) stores.old.items) (map (λ s. T.state s) stores.new.items) }
    ensures asked { AllZip AsksWithinLength (map (λ s. T.state s) stores.old.items)
        (map (λ s. T.state s) stores.new.items) }
{
    let gathered = match gather(alloc, stores) {
        Ok(gathered) => gathered,
        Err(why) => return Err(why),
    };
    let options = match options_of(alloc, &gathered.profile, chunk) {
        Ok(options) => options,
        Err(_) => return Err(MergeRefused::Stopped { stop: Stop::Memory }),
    };
    match begin(alloc, gathered.inputs.as_slice()) {
        Ok(begun) => return Ok(Ready {
            gathered,
            options,
            begun,
        }),
        Err(_) => return Err(MergeRefused::Stopped { stop: Stop::Memory }),
    }
}

// Writes the file of the inputs into a live store.
fn write_file<T: Store, L: LiveStore>(
    alloc: Global,
    inputs: &[Input],
    stores: &mut Vec<T>,
    begun: Begun,
    options: &FileOptions,
    live: L,
) -> (L, Result<Merged, MergeRefused>)
    requires few { length inputs.now ≤ 64 }
    requires held { (reads : List Read) × HoldInputs reads inputs.now }
    requires meet { ExtrasMeet inputs.now }
    requires many { length stores.old.items ≡ length inputs.now }
    requires ready { IsBegun inputs.now begun }
    requires fits { StoresFit (map (λ s. T.state s) stores.old.items) (pieces_in begun.walk) }
    requires size { ChunkSizeFits options.now.chunk }
    requires profile { length options.now.profile ≤ content_limit }
    ensures written { IfOk result.1 (λ m. WholeStands (FilesAs options.now (Ok tt))
        (record { files = files_of (map (λ s. T.state s) stores.old.items); inputs = inputs.now; walk = begun.walk })
        (L.state live) (L.state result.0) m) }
    ensures stopped { IfErr result.1 (λ why. FileStops options.now
        (record { files = files_of (map (λ s. T.state s) stores.old.items); inputs = inputs.now; walk = begun.walk })
        (L.state live) (L.state result.0) why) }
    ensures why { IfErr result.1 (λ why. WhyNotAll (files_of (map (λ s. T.state s) stores.old.items)) begun.walk
        inputs.now why) }
    ensures stay { StoresStay (map (λ s. T.state s) stores.old.items) (map (λ s. T.state s) stores.new.items) }
    ensures counts { PutCounts (map (λ s. T.state s) stores.old.items) (map (λ s. T.state s) stores.new.items)
        (L.state live).faults (L.state result.0).faults result.1 }
    ensures asked { AskedWithin (map (λ s. T.state s) stores.old.items) (map (λ s. T.state s) stores.new.items)
        (unasked begun.walk) none_left }
{
    match Scribe::open(alloc, live, options) {
        Ok(scribe) => {
            let mut pen = scribe;
            let end = write_all(alloc, inputs, stores, begun, &mut pen);
            return (pen.into_store(), end);
        }
        Err((live, stop)) => return (live, Err(MergeRefused::Stopped { stop })),
    }
}

/// Merges the stores, which hold whole files, into the live store, after what it holds, which is nothing where the file is to
/// be read back. Each is read whole before anything is appended; then its chunks and messages are loaded again, each when its
/// first message may be next. After the messages come the Attachments, the Metadata and the records of applications (opcodes
/// from 0x80 on) that stand at top level of the stores, by store and place. The counts of what was merged are given, with the
/// most bytes that were held of chunks and messages at one time. A refusal for what an input is leaves the live store as it
/// was; one for a fault, the limits on files, a want of memory, or an input that changed may leave a first part of the file.
pub fn merge<T: Store, L: LiveStore>(
    alloc: Global,
    stores: &mut Vec<T>,
    live: L,
    chunk: u64,
) -> (L, Result<Merged, MergeRefused>)
    requires some { 0 < length stores.old.items }
    requires few { length stores.old.items ≤ 64 }
    requires size { (1 ≤ chunk) × (chunk ≤ chunk_size_limit) }
    ensures merged { IfOk result.1 (λ m. MergesInto (map (λ s. T.state s) stores.old.items)
        (map (λ s. T.state s) stores.new.items) (L.state live) (L.state result.0) chunk m) }
    ensures refused { IfErr result.1 (λ why. MergeFails (map (λ s. T.state s) stores.old.items)
        (map (λ s. T.state s) stores.new.items) (L.state live) (L.state result.0) chunk why) }
    ensures keeps { AllZip StoreKeeps (map (λ s. T.state s) stores.old.items) (map (λ s. T.state s) stores.new.items) }
    ensures asked { AllZip AsksTwice (map (λ s. T.state s) stores.old.items) (map (λ s. T.state s) stores.new.items) }
{
    let ready = match make_ready(alloc, stores, chunk) {
        Ok(ready) => ready,
        Err(why) => return (live, Err(why)),
    };
    let Ready {
        gathered,
        options,
        begun,
    } = ready;
    let inputs = gathered.inputs.as_slice();
    write_file(alloc, inputs, stores, begun, &options, live)
}
