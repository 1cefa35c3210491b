//! The scribe appends the pieces of a file to its store: the magic and the Header; each block and each extra among them, or each
//! record where there are no chunks; the extras that are given beside the history; and the Data End with all after it.
ghost use Rattle.std.specs.Prelude.{◌≡◌, ◌<◌, ◌≤◌, ◌+◌, List, Option, [], ◌∷◌, ◌++◌, length, map, get_or, false, Some, None, IsSome, Ok, Err, IfOk, IfErr, OnOk, OnErr};
ghost use Rattle.mcap_wire.specs.Layout.{content_limit};
ghost use Rattle.mcap_wire.specs.Limits.{file_limit};
ghost use Rattle.rec_data.specs.declared.owned.Rec.{Rec};
ghost use Rattle.rec_data.specs.OwnedReading.{LengthsFit};
ghost use Rattle.mcap_io.specs.Outside.{LiveState};
ghost use Rattle.mcap_model.specs.declared.options.FileOptions.{FileOptions};
ghost use Rattle.mcap_model.specs.declared.ends.Stop.{Stop};
ghost use Rattle.mcap_model.specs.declared.ends.Stop.TheVariants as stops;
ghost use Rattle.chunk_build.specs.Chunker.{AreFramed};
ghost use Rattle.record_cache.specs.Buffers.{held};
ghost use Rattle.mcap_model.specs.Tops.{Top, top_bytes};
ghost use Rattle.mcap_model.specs.Made.{top};
ghost use Rattle.mcap_model.specs.History.{is_inner, rec_top};
ghost use Rattle.mcap_model.specs.ReadBack.{IsExtra};
ghost use Rattle.mcap_model.specs.File.{front};
ghost use Rattle.live_entry.specs.Entries.{seen_before};
ghost use Rattle.chunk_writer.specs.declared.phase.Phase.TheVariants as phases;
ghost use Rattle.chunk_writer.specs.Limits.{Holds, HeaderFits, ChunkSizeFits};
ghost use Rattle.chunk_writer.specs.LimitSteps.{HoldsOrStops};
ghost use Rattle.chunk_writer.specs.Plans.{Plans, StoppedBefore};
ghost use Rattle.chunk_writer.specs.Stops.{numbers, StopsAt, Cause, StopCause, Ends};
ghost use Rattle.chunk_writer.specs.StopSteps.{StopsBehind, Appends, Added, refusal};
ghost use Rattle.chunk_writer.specs.Scribes.{ScribeStands, WritesHistory, ScribeGrows, GathersExtra, FillsExtras, OfEach, KeepsOn, store_of, phase_of, blocks_of, planned_bytes, GivesEntry, GivesLast, ListsEntry, PutsFront, GoesThrough, EndsFile, CountsLast, CountsBytes, IsEntryWith, AddsLast};

use crate::buffered::append_records;
use crate::extras::Extras;
use crate::next::Next;
use crate::phase::Phase;
use crate::pieces::{framed_extra, front_piece};
use crate::plan::Plan;
use crate::tape::{Finished, Taken};
use chunk_build::framed_of;
use live_entry::Entry;
use mcap_io::{AppendRefused, LiveStore};
use mcap_model::{Block, FileOptions, Stop};
use mcap_wire::CONTENT_LIMIT;
use rec_data::Rec;
use record_cache::Cache;
use std::alloc::Global;

/// The longest profile of a Header that is read. Beside it the Header has seventeen bytes: two lengths, and nine of what wrote it.
const LONGEST_PROFILE: u64 = CONTENT_LIMIT - 17;

/// Writes the file of a history into a store, record by record. A scribe stands for each history (`WritesHistory`) whose sure
/// pieces stand in its store and whose other records wait in its plan; the extras that are given beside the history
/// (`add_extra`) wait, framed, for the end of the file. Once an append was refused it keeps the refusal: it answers that at
/// every call, and appends nothing.
#[derive(Drop)]
pub struct Scribe<L> {
    store: L,
    plan: Plan,
    extras: Extras,
}

// Why an append was refused.
pub(crate) fn refused<L: LiveStore>(store: &L, why: AppendRefused) -> Stop
    ensures { result ≡ refusal (L.state store.now).faults why }
{
    match why {
        AppendRefused::Failed { .. } => {
            return Stop::Fault {
                faults: store.faults(),
            };
        }
        AppendRefused::Memory => return Stop::Memory,
    }
}

// Appends a piece.
pub(crate) fn append<L: LiveStore>(store: &mut L, piece: &[u8]) -> Result<L::Extent, Stop>
    ensures appends { Appends (λ e. L.Extent.tells e) (λ e. L.Extent.size e) (L.state store.old) (L.state store.new)
        piece.now result }
    ensures cause { Cause (L.state store.old).faults (L.state store.new).faults result }
{
    match store.append(piece) {
        Ok(extent) => return Ok(extent),
        Err(why) => return Err(refused(store, why)),
    }
}

// Appends a piece, after which all that was appended is with the system.
pub(crate) fn append_through<L: LiveStore>(store: &mut L, piece: &[u8]) -> Result<L::Extent, Stop>
    ensures appends { Appends (λ e. L.Extent.tells e) (λ e. L.Extent.size e) (L.state store.old) (L.state store.new)
        piece.now result }
    ensures through { OnOk result ((L.state store.new).waiting ≡ 0) }
    ensures cause { Cause (L.state store.old).faults (L.state store.new).faults result }
{
    match store.append_through(piece) {
        Ok(extent) => return Ok(extent),
        Err(why) => return Err(refused(store, why)),
    }
}

// The buffer without its records, and what came of these.
fn taken<X>(full: Cache, entries: Vec<Entry<X>>, end: Result<(), Stop>) -> Taken<X>
    ensures cleared { result.cache ≡ record { limit = full.limit; records = [] } }
    ensures entries { result.entries ≡ entries }
    ensures end { result.end ≡ end }
{
    let mut cache = full;
    cache.clear();
    Taken {
        cache,
        entries,
        end,
    }
}

// The front of a file, and the plan of what follows it.
fn opening(alloc: Global, options: &FileOptions) -> Result<(Plan, Vec<u8>), Stop>
    requires size { ChunkSizeFits options.now.chunk }
    requires profile { length options.now.profile ≤ content_limit }
    ensures front { IfOk result (λ o. o.1.items ≡ front options.now.profile) }
    ensures stands { IfOk result (λ o. Plans options.now [] o.0) }
    ensures goes_on { IfOk result (λ o. o.0.phase ≡ phases.Going) }
    ensures limit { HoldsOrStops 0 0 (HeaderFits options.now.profile) result }
{
    let profile = options.profile.as_str();
    if profile.len() as u64 > LONGEST_PROFILE {
        return Err(Stop::Limit {
            blocks: 0,
            bytes: 0,
        });
    }
    let piece = match front_piece(alloc, profile) {
        Ok(piece) => piece,
        Err(_) => return Err(Stop::Memory),
    };
    match Plan::new(alloc, options, piece.len() as u64) {
        Ok(plan) => return Ok((plan, piece)),
        Err(_) => return Err(Stop::Memory),
    }
}

// Appends the front of a file, and gives the plan of what follows it.
fn begin_file<L: LiveStore>(
    alloc: Global,
    store: &mut L,
    options: &FileOptions,
) -> Result<Plan, Stop>
    requires size { ChunkSizeFits options.now.chunk }
    requires profile { length options.now.profile ≤ content_limit }
    ensures stands { IfOk result (λ plan. ScribeStands options.now (L.state store.old).held (L.state store.new).held []
        plan) }
    ensures goes_on { IfOk result (λ plan. plan.phase ≡ phases.Going) }
    ensures through { OnOk result ((L.state store.new).waiting ≡ 0) }
    ensures refused { IfErr result (λ stop. (extras : List Top) (history : List Rec)
        → StopsAt options.now extras history (L.state store.old).held (L.state store.new).held stop (numbers 0 0)) }
    ensures cause { Cause (L.state store.old).faults (L.state store.new).faults result }
{
    let (plan, piece) = match opening(alloc, options) {
        Ok(opened) => opened,
        Err(stop) => return Err(stop),
    };
    match append_through(store, piece.as_slice()) {
        Ok(_) => return Ok(plan),
        Err(stop) => return Err(stop),
    }
}

// The entry of a block at that offset.
fn entry_of<X>(extent: X, offset: u64, block: &Block) -> Entry<X>
    ensures { IsEntryWith result extent offset block.now }
{
    Entry {
        extent,
        offset,
        chunk_length: block.chunk_length,
        start_time: block.start_time,
        end_time: block.end_time,
        messages: block.messages,
        declared: block.declared,
    }
}

impl<L: LiveStore> Scribe<L> {
    /// Begins a file of these options behind what the store holds, which is nothing where the file is to be read back. The
    /// magic and the Header are one append, appended through. Where it is refused, or memory lacks, the store is given back
    /// with what it took of them.
    pub fn open(alloc: Global, store: L, options: &FileOptions) -> Result<Scribe<L>, (L, Stop)>
        requires size { ChunkSizeFits options.now.chunk }
        requires profile { length options.now.profile ≤ content_limit }
        ensures stands { IfOk result (λ s. WritesHistory L.state options.now [] (L.state store) [] s) }
        ensures goes_on { IfOk result (λ s. phase_of s ≡ phases.Going) }
        // The front is with the system, whether there are chunks or not.
        ensures through { IfOk result (λ s. (L.state (store_of s)).waiting ≡ 0) }
        ensures still { IfOk result (λ s. (L.state (store_of s)).faults ≡ (L.state store).faults) }
        ensures refused { IfErr result (λ e. (extras : List Top) (history : List Rec)
            → StopsAt options.now extras history (L.state store).held (L.state e.0).held e.1 (numbers 0 0)) }
        ensures cause { IfErr result (λ e. StopCause (L.state store).faults (L.state e.0).faults e.1) }
    {
        let mut store = store;
        match begin_file(alloc, &mut store, options) {
            Ok(plan) => return Ok(Scribe {
                store,
                plan,
                extras: Extras::new(alloc),
            }),
            Err(stop) => return Err((store, stop)),
        }
    }

    /// Adds a record to the history, and gives the entry of the block that this closes, if it does so; an extra closes none. A
    /// block is appended through. In a file in chunks an extra is appended at once, alone and through. Without chunks each
    /// record is appended alone.
    pub fn put(&mut self, r: &Rec) -> Result<Option<Entry<L::Extent>>, Stop>
        requires fits { LengthsFit r.now }
        requires extra { is_inner r.now ≡ false → IsExtra (rec_top r.now) }
        requires unended { phase_of self.old ≡ phases.Ended → ⊥ }
        ensures stands { ScribeGrows L.state self.old self.new (r.now ∷ []) }
        ensures entry { IfOk result (λ entry. OfEach L.state self.old (λ options history. GivesEntry
            (seen_before (λ e. L.Extent.tells e) (λ e. L.Extent.size e) (L.state (store_of self.old))) options history
            r.now entry)) }
        ensures alone { is_inner r.now ≡ false → IfOk result (λ entry. entry ≡ None) }
        ensures counted { IfOk result (λ entry. CountsLast (blocks_of self.old) (blocks_of self.new) entry) }
        ensures keeps { KeepsOn (L.state (store_of self.old)).held (L.state (store_of self.new)).held }
        ensures goes_on { OnOk result ((phase_of self.old ≡ phases.Going) × (phase_of self.new ≡ phases.Going)) }
        ensures within { OnOk result (Holds (blocks_of self.new) (planned_bytes self.new)) }
        ensures through { OnOk result (OfEach L.state self.old (λ options history. IsSome options.chunk
            → (L.state (store_of self.new)).waiting ≡ 0)) }
        ensures stopped { IfErr result (λ stop. phase_of self.new ≡ phases.Stopped stop) }
        // What stopped it isn't counted.
        ensures uncounted { OnErr result ((blocks_of self.new ≡ blocks_of self.old)
            × (planned_bytes self.new ≡ planned_bytes self.old)) }
        ensures kept { (stop : Stop) → phase_of self.old ≡ phases.Stopped stop
            → (result ≡ Err stop) × (self.new ≡ self.old) }
        ensures cause { phase_of self.old ≡ phases.Going
            → Cause (L.state (store_of self.old)).faults (L.state (store_of self.new)).faults result }
    {
        match self.plan.phase() {
            Phase::Going => {}
            Phase::Stopped { stop } => return Err(stop),
            Phase::Ended => unreachable!(),
        }
        let framed = match framed_of(self.plan.alloc(), r) {
            Ok(framed) => framed,
            Err(_) => return Err(self.stop_for_memory()),
        };
        self.put_framed(framed.as_slice())
    }

    /// Does the same with a record that is given by its framed bytes.
    pub fn put_bytes(&mut self, framed: &[u8]) -> Result<Option<Entry<L::Extent>>, Stop>
        requires framed { (r : Rec) × AreFramed framed.now r }
        requires extra { (r : Rec) → AreFramed framed.now r → is_inner r ≡ false → IsExtra (rec_top r) }
        requires unended { phase_of self.old ≡ phases.Ended → ⊥ }
        ensures stands { (r : Rec) → AreFramed framed.now r → ScribeGrows L.state self.old self.new (r ∷ []) }
        ensures entry { IfOk result (λ entry. (r : Rec) → AreFramed framed.now r
            → OfEach L.state self.old (λ options history. GivesEntry
            (seen_before (λ e. L.Extent.tells e) (λ e. L.Extent.size e) (L.state (store_of self.old))) options history r
            entry)) }
        ensures alone { IfOk result (λ entry. (r : Rec) → AreFramed framed.now r → is_inner r ≡ false
            → entry ≡ None) }
        ensures counted { IfOk result (λ entry. CountsLast (blocks_of self.old) (blocks_of self.new) entry) }
        ensures keeps { KeepsOn (L.state (store_of self.old)).held (L.state (store_of self.new)).held }
        ensures goes_on { OnOk result ((phase_of self.old ≡ phases.Going) × (phase_of self.new ≡ phases.Going)) }
        ensures within { OnOk result (Holds (blocks_of self.new) (planned_bytes self.new)) }
        ensures through { OnOk result (OfEach L.state self.old (λ options history. IsSome options.chunk
            → (L.state (store_of self.new)).waiting ≡ 0)) }
        ensures stopped { IfErr result (λ stop. phase_of self.new ≡ phases.Stopped stop) }
        // What stopped it isn't counted.
        ensures uncounted { OnErr result ((blocks_of self.new ≡ blocks_of self.old)
            × (planned_bytes self.new ≡ planned_bytes self.old)) }
        ensures kept { (stop : Stop) → phase_of self.old ≡ phases.Stopped stop
            → (result ≡ Err stop) × (self.new ≡ self.old) }
        ensures cause { phase_of self.old ≡ phases.Going
            → Cause (L.state (store_of self.old)).faults (L.state (store_of self.new)).faults result }
    {
        match self.plan.phase() {
            Phase::Going => {}
            Phase::Stopped { stop } => return Err(stop),
            Phase::Ended => unreachable!(),
        }
        return self.put_framed(framed);
    }

    /// Adds an Attachment, a Metadata or a record of an application, which waits for the end of the file. Only memory may lack
    /// for it.
    pub fn add_extra(&mut self, op: u8, content: &[u8]) -> Result<(), Stop>
        requires meets { IsExtra (top op content.now) }
        requires unended { phase_of self.old ≡ phases.Ended → ⊥ }
        ensures gathers { GathersExtra L.state self.old self.new (top op content.now) }
        ensures store { store_of self.new ≡ store_of self.old }
        ensures goes_on { OnOk result ((phase_of self.old ≡ phases.Going) × (phase_of self.new ≡ phases.Going)) }
        ensures stopped { IfErr result (λ stop. phase_of self.new ≡ phases.Stopped stop) }
        ensures memory { phase_of self.old ≡ phases.Going → IfErr result (λ stop. stop ≡ stops.Memory) }
        ensures kept { (stop : Stop) → phase_of self.old ≡ phases.Stopped stop
            → (result ≡ Err stop) × (self.new ≡ self.old) }
    {
        match self.plan.phase() {
            Phase::Going => {}
            Phase::Stopped { stop } => return Err(stop),
            Phase::Ended => unreachable!(),
        }
        let framed = match framed_extra(self.plan.alloc(), op, content) {
            Ok(framed) => framed,
            Err(_) => return Err(self.stop_for_memory()),
        };
        match self.extras.push(framed) {
            Ok(()) => return Ok(()),
            Err(_) => return Err(self.stop_for_memory()),
        }
    }

    /// Puts the buffer's records, in their order, each once, and gives the entries of the blocks that are appended. Where that is
    /// refused the records behind are dropped. The buffer comes back without records. What this appends is with the system then,
    /// whether there are chunks or not.
    pub fn take(&mut self, full: Cache) -> Taken<L::Extent>
        requires unended { phase_of self.old ≡ phases.Ended → ⊥ }
        ensures grows { ScribeGrows L.state self.old self.new full.records }
        ensures front { phase_of self.old ≡ phases.Going
            → OfEach L.state self.old (λ options history. PutsFront
            (seen_before (λ e. L.Extent.tells e) (λ e. L.Extent.size e) (L.state (store_of self.old))) options history
            full.records result.entries.items (planned_bytes self.new) result.end) }
        ensures counted { blocks_of self.new ≡ blocks_of self.old + length result.entries.items }
        ensures keeps { KeepsOn (L.state (store_of self.old)).held (L.state (store_of self.new)).held }
        ensures cleared { result.cache ≡ record { limit = full.limit; records = [] } }
        ensures goes_on { OnOk result.end ((phase_of self.old ≡ phases.Going) × (phase_of self.new ≡ phases.Going)) }
        ensures within { Holds (blocks_of self.new) (planned_bytes self.new) }
        ensures through { OnOk result.end (OfEach L.state self.old (λ options history. GoesThrough options full.records
            (L.state (store_of self.old)).waiting (L.state (store_of self.new)).waiting)) }
        ensures stopped { IfErr result.end (λ stop. phase_of self.new ≡ phases.Stopped stop) }
        ensures kept { (stop : Stop) → phase_of self.old ≡ phases.Stopped stop
            → (result.end ≡ Err stop) × (result.entries.items ≡ []) × (self.new ≡ self.old) }
        ensures cause { phase_of self.old ≡ phases.Going
            → Cause (L.state (store_of self.old)).faults (L.state (store_of self.new)).faults result.end }
    {
        self.stays_within();
        let mut entries = Vec::new(self.plan.alloc());
        match self.plan.phase() {
            Phase::Going => {
                let end = self.put_all(&full, &mut entries);
                self.stays_within();
                return taken(full, entries, end);
            }
            Phase::Stopped { stop } => return taken(full, entries, Err(stop)),
            Phase::Ended => unreachable!(),
        }
    }

    // The numbers are within the limit.
    fn stays_within(&self)
        ensures { Holds (blocks_of self.now) (planned_bytes self.now) }
    {
        let _blocks = self.plan.blocks();
        let _bytes = self.plan.bytes();
    }

    // Puts the records of a buffer, where no append was refused: in one call where they stand at top level, as long as a file
    // may hold them all.
    fn put_all(&mut self, full: &Cache, entries: &mut Vec<Entry<L::Extent>>) -> Result<(), Stop>
        requires going { phase_of self.old ≡ phases.Going }
        requires none { entries.old.items ≡ [] }
        ensures grows { ScribeGrows L.state self.old self.new full.now.records }
        ensures front { OfEach L.state self.old (λ options history. PutsFront
            (seen_before (λ e. L.Extent.tells e) (λ e. L.Extent.size e) (L.state (store_of self.old))) options history
            full.now.records entries.new.items (planned_bytes self.new) result) }
        ensures counted { blocks_of self.new ≡ blocks_of self.old + length entries.new.items }
        ensures keeps { KeepsOn (L.state (store_of self.old)).held (L.state (store_of self.new)).held }
        ensures goes_on { OnOk result (phase_of self.new ≡ phases.Going) }
        ensures within { OnOk result (Holds (blocks_of self.new) (planned_bytes self.new)) }
        ensures through { OnOk result (OfEach L.state self.old (λ options history. GoesThrough options full.now.records
            (L.state (store_of self.old)).waiting (L.state (store_of self.new)).waiting)) }
        ensures stopped { IfErr result (λ stop. phase_of self.new ≡ phases.Stopped stop) }
        ensures cause { Cause (L.state (store_of self.old)).faults (L.state (store_of self.new)).faults result }
    {
        if self.plan.has_room_for(full.held()) {
            return self.put_plain(full);
        }
        self.put_each(full, entries)
    }

    // Puts the records of a buffer, which stand at top level, where a file may hold them all. The store appends each, and none
    // of them waits in it.
    fn put_plain(&mut self, full: &Cache) -> Result<(), Stop>
        requires going { phase_of self.old ≡ phases.Going }
        requires plain { self.old.plan.body ≡ None }
        requires room { planned_bytes self.old + held full.now ≤ file_limit }
        ensures grows { ScribeGrows L.state self.old self.new full.now.records }
        ensures front { OfEach L.state self.old (λ options history. PutsFront
            (seen_before (λ e. L.Extent.tells e) (λ e. L.Extent.size e) (L.state (store_of self.old))) options history
            full.now.records [] (planned_bytes self.new) result) }
        ensures counted { blocks_of self.new ≡ blocks_of self.old }
        ensures keeps { KeepsOn (L.state (store_of self.old)).held (L.state (store_of self.new)).held }
        ensures goes_on { OnOk result (phase_of self.new ≡ phases.Going) }
        ensures within { OnOk result (Holds (blocks_of self.new) (planned_bytes self.new)) }
        ensures through { OnOk result (OfEach L.state self.old (λ options history. GoesThrough options full.now.records
            (L.state (store_of self.old)).waiting (L.state (store_of self.new)).waiting)) }
        ensures stopped { IfErr result (λ stop. phase_of self.new ≡ phases.Stopped stop) }
        ensures cause { Cause (L.state (store_of self.old)).faults (L.state (store_of self.new)).faults result }
    {
        let blocks = self.plan.blocks();
        let bytes = self.plan.bytes();
        match append_records(&mut self.store, full) {
            Ok(()) => {
                self.plan.count(full.held());
                return Ok(());
            }
            Err((at, stop)) => {
                self.plan.stop(stop, blocks, bytes + at);
                return Err(stop);
            }
        }
    }

    // Puts the records of a buffer one by one, where no append was refused.
    fn put_each(&mut self, full: &Cache, entries: &mut Vec<Entry<L::Extent>>) -> Result<(), Stop>
        requires going { phase_of self.old ≡ phases.Going }
        requires none { entries.old.items ≡ [] }
        ensures grows { ScribeGrows L.state self.old self.new full.now.records }
        ensures front { OfEach L.state self.old (λ options history. PutsFront
            (seen_before (λ e. L.Extent.tells e) (λ e. L.Extent.size e) (L.state (store_of self.old))) options history
            full.now.records entries.new.items (planned_bytes self.new) result) }
        ensures counted { blocks_of self.new ≡ blocks_of self.old + length entries.new.items }
        ensures keeps { KeepsOn (L.state (store_of self.old)).held (L.state (store_of self.new)).held }
        ensures goes_on { OnOk result (phase_of self.new ≡ phases.Going) }
        ensures within { OnOk result (Holds (blocks_of self.new) (planned_bytes self.new)) }
        ensures stopped { IfErr result (λ stop. phase_of self.new ≡ phases.Stopped stop) }
        ensures cause { Cause (L.state (store_of self.old)).faults (L.state (store_of self.new)).faults result }
    {
        // The numbers are within the limit.
        let _blocks = self.plan.blocks();
        let _bytes = self.plan.bytes();
        let held = full.held();
        let mut at = 0;
        'records: while at < held {
            let found = full.record(at);
            match self.put_listed(found.framed, entries) {
                Ok(()) => {}
                Err(stop) => return Err(stop),
            }
            at = found.next;
        }
        return Ok(());
    }

    // Puts a framed record, and lists the entry that this gives.
    fn put_listed(&mut self, framed: &[u8], entries: &mut Vec<Entry<L::Extent>>) -> Result<(), Stop>
        requires framed { (r : Rec) × AreFramed framed.now r }
        requires going { phase_of self.old ≡ phases.Going }
        ensures grows { (r : Rec) → AreFramed framed.now r → ScribeGrows L.state self.old self.new (r ∷ []) }
        ensures lists { OnOk result (ListsEntry L.state
            (seen_before (λ e. L.Extent.tells e) (λ e. L.Extent.size e) (L.state (store_of self.old))) self.old
            framed.now entries.old.items entries.new.items) }
        ensures counted { blocks_of self.new + length entries.old.items
            ≡ blocks_of self.old + length entries.new.items }
        ensures keeps { KeepsOn (L.state (store_of self.old)).held (L.state (store_of self.new)).held }
        ensures goes_on { OnOk result (phase_of self.new ≡ phases.Going) }
        ensures within { OnOk result (Holds (blocks_of self.new) (planned_bytes self.new)) }
        ensures stopped { IfErr result (λ stop. phase_of self.new ≡ phases.Stopped stop) }
        // What stopped it isn't counted.
        ensures uncounted { OnErr result ((planned_bytes self.new ≡ planned_bytes self.old)
            × (entries.new.items ≡ entries.old.items)) }
        ensures cause { Cause (L.state (store_of self.old)).faults (L.state (store_of self.new)).faults result }
    {
        match entries.reserve(1) {
            Ok(()) => {}
            Err(_) => return Err(self.stop_for_memory()),
        }
        match self.put_framed(framed) {
            Ok(Some(entry)) => {
                entries.push_reserved(entry);
                return Ok(());
            }
            Ok(None) => return Ok(()),
            Err(stop) => return Err(stop),
        }
    }

    /// Stops for want of memory, as where it lacks for a record that is to be put.
    pub fn stop_for_memory(&mut self) -> Stop
        requires going { phase_of self.old ≡ phases.Going }
        ensures memory { result ≡ stops.Memory }
        ensures grows { (r : Rec) → ScribeGrows L.state self.old self.new (r ∷ []) }
        ensures gathers { (t : Top) → GathersExtra L.state self.old self.new t }
        ensures store { self.new.store ≡ self.old.store }
        ensures stopped { StoppedBefore (blocks_of self.old) (planned_bytes self.old) stops.Memory self.new.plan }
    {
        let blocks = self.plan.blocks();
        let bytes = self.plan.bytes();
        self.plan.stop(Stop::Memory, blocks, bytes);
        return Stop::Memory;
    }

    // Puts a framed record, where no append was refused.
    fn put_framed(&mut self, framed: &[u8]) -> Result<Option<Entry<L::Extent>>, Stop>
        requires framed { (r : Rec) × AreFramed framed.now r }
        requires going { phase_of self.old ≡ phases.Going }
        ensures grows { (r : Rec) → AreFramed framed.now r → ScribeGrows L.state self.old self.new (r ∷ []) }
        ensures entry { IfOk result (λ entry. (r : Rec) → AreFramed framed.now r
            → OfEach L.state self.old (λ options history. GivesEntry
            (seen_before (λ e. L.Extent.tells e) (λ e. L.Extent.size e) (L.state (store_of self.old))) options history r
            entry)) }
        ensures alone { IfOk result (λ entry. (r : Rec) → AreFramed framed.now r → is_inner r ≡ false
            → entry ≡ None) }
        ensures counted { IfOk result (λ entry. CountsLast (blocks_of self.old) (blocks_of self.new) entry) }
        ensures keeps { KeepsOn (L.state (store_of self.old)).held (L.state (store_of self.new)).held }
        ensures goes_on { OnOk result (phase_of self.new ≡ phases.Going) }
        ensures within { OnOk result (Holds (blocks_of self.new) (planned_bytes self.new)) }
        ensures stopped { IfErr result (λ stop. phase_of self.new ≡ phases.Stopped stop) }
        // What stopped it isn't counted.
        ensures uncounted { OnErr result ((blocks_of self.new ≡ blocks_of self.old)
            × (planned_bytes self.new ≡ planned_bytes self.old)) }
        ensures cause { Cause (L.state (store_of self.old)).faults (L.state (store_of self.new)).faults result }
    {
        let blocks = self.plan.blocks();
        let bytes = self.plan.bytes();
        match self.plan.add(framed) {
            Ok(Next::Waits) => return Ok(None),
            Ok(Next::Block { block }) => match self.append_block(block, blocks, bytes) {
                Ok(entry) => return Ok(Some(entry)),
                Err(stop) => return Err(stop),
            },
            Ok(Next::Record) => match self.append_record(framed, blocks, bytes) {
                Ok(()) => return Ok(None),
                Err(stop) => return Err(stop),
            },
            Ok(Next::Aside) => match self.append_aside(framed, blocks, bytes) {
                Ok(()) => return Ok(None),
                Err(stop) => return Err(stop),
            },
            Err(stop) => return Err(stop),
        }
    }

    // Appends a block behind so many blocks and bytes. The plan counts it already.
    fn append_block(
        &mut self,
        block: Block,
        blocks: u64,
        bytes: u64,
    ) -> Result<Entry<L::Extent>, Stop>
        requires { Holds blocks bytes }
        ensures appends { Appends (λ e. L.Extent.tells e.extent) (λ e. L.Extent.size e.extent)
            (L.state (store_of self.old)) (L.state (store_of self.new)) block.bytes result }
        ensures cause { Cause (L.state (store_of self.old)).faults (L.state (store_of self.new)).faults result }
        ensures entry { IfOk result (λ e. IsEntryWith e e.extent bytes block) }
        ensures waiting { self.new.extras ≡ self.old.extras }
        ensures ok { OnOk result (self.new.plan ≡ self.old.plan) }
        ensures through { OnOk result ((L.state (store_of self.new)).waiting ≡ 0) }
        ensures err { IfErr result (λ stop. StoppedBefore blocks bytes stop self.new.plan) }
    {
        match append_through(&mut self.store, block.bytes.as_slice()) {
            Ok(extent) => {
                let entry = entry_of(extent, bytes, &block);
                self.plan.give_back(block.bytes.into_vec());
                return Ok(entry);
            }
            Err(stop) => {
                self.plan.stop(stop, blocks, bytes);
                return Err(stop);
            }
        }
    }

    // Appends a framed record behind so many blocks and bytes. The plan counts it already.
    fn append_record(&mut self, framed: &[u8], blocks: u64, bytes: u64) -> Result<(), Stop>
        requires { Holds blocks bytes }
        ensures appends { Added (L.state (store_of self.old)).held (L.state (store_of self.new)).held framed.now
            result }
        ensures cause { Cause (L.state (store_of self.old)).faults (L.state (store_of self.new)).faults result }
        ensures waiting { self.new.extras ≡ self.old.extras }
        ensures ok { OnOk result (self.new.plan ≡ self.old.plan) }
        ensures err { IfErr result (λ stop. StoppedBefore blocks bytes stop self.new.plan) }
    {
        match append(&mut self.store, framed) {
            Ok(_) => return Ok(()),
            Err(stop) => {
                self.plan.stop(stop, blocks, bytes);
                return Err(stop);
            }
        }
    }

    // Appends a framed extra behind so many blocks and bytes, after which it is with the system. The plan counts it already.
    fn append_aside(&mut self, framed: &[u8], blocks: u64, bytes: u64) -> Result<(), Stop>
        requires { Holds blocks bytes }
        ensures appends { Added (L.state (store_of self.old)).held (L.state (store_of self.new)).held framed.now
            result }
        ensures cause { Cause (L.state (store_of self.old)).faults (L.state (store_of self.new)).faults result }
        ensures waiting { self.new.extras ≡ self.old.extras }
        ensures ok { OnOk result (self.new.plan ≡ self.old.plan) }
        ensures through { OnOk result ((L.state (store_of self.new)).waiting ≡ 0) }
        ensures err { IfErr result (λ stop. StoppedBefore blocks bytes stop self.new.plan) }
    {
        match append_through(&mut self.store, framed) {
            Ok(_) => return Ok(()),
            Err(stop) => {
                self.plan.stop(stop, blocks, bytes);
                return Err(stop);
            }
        }
    }

    /// Ends the file: the last block, if records wait for one, appended through; the extras that wait; and then the Data End
    /// and all after it, appended through.
    pub fn finish(&mut self) -> Finished<L::Extent>
        requires unended { phase_of self.old ≡ phases.Ended → ⊥ }
        ensures ends { EndsFile L.state self.old self.new (record { blocks = result.blocks; bytes = result.bytes })
            result.end }
        ensures last { OfEach L.state self.old (λ options history. GivesLast
            (seen_before (λ e. L.Extent.tells e) (λ e. L.Extent.size e) (L.state (store_of self.old))) options history
            result.last) }
        ensures counted { CountsLast (blocks_of self.old) result.blocks result.last }
        ensures numbers { (result.blocks ≡ blocks_of self.new) × (result.bytes ≡ planned_bytes self.new) }
        ensures ended { OnOk result.end (phase_of self.new ≡ phases.Ended) }
        // The whole file is with the system, whether there are chunks or not.
        ensures through { OnOk result.end ((L.state (store_of self.new)).waiting ≡ 0) }
        ensures within { Holds result.blocks result.bytes }
        ensures stopped { IfErr result.end (λ stop. phase_of self.new ≡ phases.Stopped stop) }
        ensures kept { (stop : Stop) → phase_of self.old ≡ phases.Stopped stop
            → (result.end ≡ Err stop) × (result.last ≡ None) × (self.new ≡ self.old) }
        ensures cause { phase_of self.old ≡ phases.Going
            → Cause (L.state (store_of self.old)).faults (L.state (store_of self.new)).faults result.end }
    {
        match self.plan.phase() {
            Phase::Going => {}
            Phase::Stopped { stop } => return self.finished(None, Err(stop)),
            Phase::Ended => unreachable!(),
        }
        match self.append_last() {
            Ok(last) => match self.append_extras() {
                Ok(()) => {
                    let end = self.append_back();
                    return self.finished(last, end);
                }
                Err(stop) => return self.finished(last, Err(stop)),
            },
            Err(stop) => return self.finished(None, Err(stop)),
        }
    }

    // Appends the last block, if records wait for one. Records no longer come.
    fn append_last(&mut self) -> Result<Option<Entry<L::Extent>>, Stop>
        requires going { phase_of self.old ≡ phases.Going }
        ensures last { IfOk result (λ last. (options : FileOptions) (extras : List Top) (opened : LiveState)
            (history : List Rec) → WritesHistory L.state options extras opened history self.old
            → AddsLast options opened.held (L.state (store_of self.new)).held history self.new.plan) }
        ensures waiting { self.new.extras ≡ self.old.extras }
        ensures entry { IfOk result (λ last. OfEach L.state self.old (λ options history. GivesLast
            (seen_before (λ e. L.Extent.tells e) (λ e. L.Extent.size e) (L.state (store_of self.old))) options history
            last)) }
        ensures counted { IfOk result (λ last. CountsLast (blocks_of self.old) (blocks_of self.new) last) }
        ensures bytes { IfOk result (λ last. CountsBytes (λ e. L.Extent.size e) (planned_bytes self.old)
            (planned_bytes self.new) last) }
        ensures ended { OnOk result (phase_of self.new ≡ phases.Ended) }
        ensures refused { IfErr result (λ stop. (options : FileOptions) (extras : List Top) (opened : LiveState)
            (history : List Rec) → WritesHistory L.state options extras opened history self.old
            → StopsAt options extras history opened.held (L.state (store_of self.new)).held stop
            (numbers (blocks_of self.new) (planned_bytes self.new))) }
        ensures stopped { IfErr result (λ stop. StoppedBefore (blocks_of self.old) (planned_bytes self.old) stop
            self.new.plan) }
        ensures cause { Cause (L.state (store_of self.old)).faults (L.state (store_of self.new)).faults result }
    {
        let blocks = self.plan.blocks();
        let bytes = self.plan.bytes();
        match self.plan.last() {
            Ok(None) => return Ok(None),
            Ok(Some(block)) => match self.append_block(block, blocks, bytes) {
                Ok(entry) => return Ok(Some(entry)),
                Err(stop) => return Err(stop),
            },
            Err(stop) => return Err(stop),
        }
    }

    // Appends the extras that wait.
    fn append_extras(&mut self) -> Result<(), Stop>
        requires ended { phase_of self.old ≡ phases.Ended }
        ensures fills { OnOk result ((options : FileOptions) (extras : List Top) (opened : LiveState)
            (history : List Rec) → self.old.extras ≡ map top_bytes extras
            → FillsExtras options [] opened.held (L.state (store_of self.old)).held history self.old.plan
            → FillsExtras options extras opened.held (L.state (store_of self.new)).held history self.new.plan) }
        ensures refused { IfErr result (λ stop. (options : FileOptions) (extras : List Top) (opened : LiveState)
            (history : List Rec) → self.old.extras ≡ map top_bytes extras
            → FillsExtras options [] opened.held (L.state (store_of self.old)).held history self.old.plan
            → StopsBehind options extras history opened.held (L.state (store_of self.new)).held stop
            (numbers (blocks_of self.new) (planned_bytes self.new))) }
        ensures same { blocks_of self.new ≡ blocks_of self.old }
        ensures stays { OnOk result (phase_of self.new ≡ phases.Ended) }
        ensures stopped { IfErr result (λ stop. phase_of self.new ≡ phases.Stopped stop) }
        ensures cause { Cause (L.state (store_of self.old)).faults (L.state (store_of self.new)).faults result }
    {
        let count = self.extras.len();
        let mut place = 0;
        'extras: while place < count {
            match self.append_extra(place) {
                Ok(()) => {}
                Err(stop) => return Err(stop),
            }
            place += 1;
        }
        return Ok(());
    }

    // Appends the extra at that place.
    fn append_extra(&mut self, place: usize) -> Result<(), Stop>
        requires there { place < length self.old.extras }
        requires ended { phase_of self.old ≡ phases.Ended }
        ensures fills { OnOk result ((t : Top) → get_or self.old.extras place [] ≡ top_bytes t
            → (options : FileOptions) (extras : List Top) (opened : LiveState) (history : List Rec)
            → FillsExtras options extras opened.held (L.state (store_of self.old)).held history self.old.plan
            → FillsExtras options (extras ++ t ∷ []) opened.held (L.state (store_of self.new)).held history
            self.new.plan) }
        ensures refused { IfErr result (λ stop. (t : Top) → get_or self.old.extras place [] ≡ top_bytes t
            → (options : FileOptions) (extras behind : List Top) (opened : LiveState) (history : List Rec)
            → FillsExtras options extras opened.held (L.state (store_of self.old)).held history self.old.plan
            → StopsBehind options (extras ++ t ∷ behind) history opened.held (L.state (store_of self.new)).held stop
            (numbers (blocks_of self.new) (planned_bytes self.new))) }
        ensures same { (blocks_of self.new ≡ blocks_of self.old) × (self.new.extras ≡ self.old.extras) }
        ensures stays { OnOk result (phase_of self.new ≡ phases.Ended) }
        ensures stopped { IfErr result (λ stop. phase_of self.new ≡ phases.Stopped stop) }
        ensures cause { Cause (L.state (store_of self.old)).faults (L.state (store_of self.new)).faults result }
    {
        let blocks = self.plan.blocks();
        let bytes = self.plan.bytes();
        let extra = self.extras.get(place);
        match self.plan.note_extra(extra) {
            Ok(()) => match append(&mut self.store, extra) {
                Ok(_) => return Ok(()),
                Err(stop) => {
                    self.plan.stop(stop, blocks, bytes);
                    return Err(stop);
                }
            },
            Err(stop) => return Err(stop),
        }
    }

    // Appends the Data End and all behind it.
    fn append_back(&mut self) -> Result<(), Stop>
        requires ended { phase_of self.old ≡ phases.Ended }
        ensures ends { (options : FileOptions) (extras : List Top) (opened : LiveState) (history : List Rec)
            → FillsExtras options extras opened.held (L.state (store_of self.old)).held history self.old.plan
            → Ends options extras opened.held (L.state (store_of self.new)).held history
            (numbers (blocks_of self.new) (planned_bytes self.new)) result }
        ensures same { blocks_of self.new ≡ blocks_of self.old }
        ensures stays { OnOk result (phase_of self.new ≡ phases.Ended) }
        ensures through { OnOk result ((L.state (store_of self.new)).waiting ≡ 0) }
        ensures within { OnOk result (Holds (blocks_of self.new) (planned_bytes self.new)) }
        ensures stopped { IfErr result (λ stop. phase_of self.new ≡ phases.Stopped stop) }
        // What stopped it isn't counted.
        ensures uncounted { OnErr result ((blocks_of self.new ≡ blocks_of self.old)
            × (planned_bytes self.new ≡ planned_bytes self.old)) }
        ensures cause { Cause (L.state (store_of self.old)).faults (L.state (store_of self.new)).faults result }
    {
        let blocks = self.plan.blocks();
        let bytes = self.plan.bytes();
        match self.plan.back() {
            Ok(piece) => match append_through(&mut self.store, piece.as_slice()) {
                Ok(_) => return Ok(()),
                Err(stop) => {
                    self.plan.stop(stop, blocks, bytes);
                    return Err(stop);
                }
            },
            Err(stop) => return Err(stop),
        }
    }

    // How the file ended, with the numbers as they are now.
    fn finished(&self, last: Option<Entry<L::Extent>>, end: Result<(), Stop>) -> Finished<L::Extent>
        ensures is { (result.last ≡ last) × (result.end ≡ end) × (result.blocks ≡ blocks_of self.now)
            × (result.bytes ≡ planned_bytes self.now) }
        ensures within { Holds result.blocks result.bytes }
    {
        Finished {
            last,
            blocks: self.plan.blocks(),
            bytes: self.plan.bytes(),
            end,
        }
    }

    /// How many blocks the store took in whole appends.
    pub fn blocks(&self) -> u64
        ensures { result ≡ blocks_of self.now }
    {
        self.plan.blocks()
    }

    /// How many bytes the store took in whole appends.
    pub fn bytes(&self) -> u64
        ensures { result ≡ planned_bytes self.now }
    {
        self.plan.bytes()
    }

    /// How often the store has failed.
    pub fn faults(&self) -> u64
        ensures { result ≡ (L.state (store_of self.now)).faults }
    {
        self.store.faults()
    }

    /// How far the writing has come.
    pub fn phase(&self) -> Phase
        ensures { result ≡ phase_of self.now }
    {
        self.plan.phase()
    }

    /// Gives the store back.
    pub fn into_store(self) -> L
        ensures { result ≡ store_of self }
    {
        let Scribe {
            store,
            plan: _,
            extras: _,
        } = self;
        store
    }
}
