//! A tape that publishes the blocks that it writes.
ghost use Rattle.std.specs.Prelude.{◌≡◌, ◌⊎◌, ◌≤◌, List, ◌++◌, length, true, false, None, [], vec_capacity, IfOk, IfErr};
ghost use Rattle.mcap_wire.specs.Layout.{content_limit};
ghost use Rattle.rec_data.specs.declared.owned.Rec.{Rec};
ghost use Rattle.mcap_model.specs.Tops.{Top};
ghost use Rattle.live_entry.specs.Entries.{EntriesFollow};
ghost use Rattle.live_directory.specs.Published.{entries_of, end_of};
ghost use Rattle.live_directory.specs.Writing.{empty_directory};
ghost use Rattle.chunk_writer.specs.declared.phase.Phase.TheVariants as phases;
ghost use Rattle.chunk_writer.specs.Stops.{numbers, StopsAt, StopCause};
ghost use Rattle.chunk_writer.specs.Scribes.{WritesHistory, store_of, phase_of};
ghost use Rattle.live_recording.specs.Publishing.{KnowsLack, GivesTo, TriesSeal, SealsBoard, IsNewPublishing, publishing, IsChunked};

use chunk_writer::{Finished, Phase, Scribe, Taken, Tape, Written};
use live_directory::{Directory, Naming, Note};
use live_entry::Entry;
use mcap_io::{Extent, LiveStore};
use mcap_model::{End, FileOptions, Stop};
use mcap_wire::Memory;
use record_cache::Cache;
use std::alloc::Global;
use std::mem;
use std::sync::Wait;

/// Room for the last entry of a tape.
pub fn last_room<X: Extent>(alloc: Global) -> Result<Vec<Entry<X>>, Memory>
    ensures { IfOk result (λ room. (room.items ≡ []) × (1 ≤ vec_capacity room)) }
{
    let mut room = Vec::new(alloc);
    match room.reserve(1) {
        Ok(()) => return Ok(room),
        Err(_) => return Err(Memory),
    }
}

/// Seals a directory with that end. The note is that of the seal or, where memory lacked, of what readers find.
pub(crate) fn try_seal<X: Extent, J: Naming, R: Wait>(
    rt: &R,
    directory: &mut Directory<X, J>,
    end: End,
) -> Note<X, J>
    requires { end_of directory.old.shown ≡ None }
    ensures { TriesSeal directory.old directory.new end result }
{
    match directory.seal(rt, end) {
        Ok(note) => return note,
        Err(Memory) => return directory.shown(),
    }
}

/// A tape over a scribe of a file in chunks, which publishes each block's entry into a directory that is lent to it, once the
/// store has taken the block; it hands none to its caller. Where memory lacks in publishing, what was to be published is
/// pending there, and entries that are given later are lost. The directory is sealed by `seal` alone.
#[derive(Drop)]
pub struct PublishingTape<'d, L: LiveStore, J: Naming, R: Wait> {
    pub scribe: Scribe<L>,
    pub directory: &'d mut Directory<L::Extent, J>,
    pub rt: &'d R,
    pub alloc: Global,
    /// Room for the last entry.
    pub room: Vec<Entry<L::Extent>>,
    /// Whether memory lacked in publishing.
    pub short: bool,
    /// Whether entries were given behind that.
    pub lost: bool,
}

impl<'d, L: LiveStore, J: Naming, R: Wait> PublishingTape<'d, L, J, R> {
    /// Opens a scribe over the store, as `Scribe::open` does, and a tape over it. The file is one in chunks, and nothing was
    /// published in the directory yet.
    pub fn open(
        alloc: Global,
        rt: &'d R,
        live: L,
        options: &FileOptions,
        directory: &'d mut Directory<L::Extent, J>,
        room: Vec<Entry<L::Extent>>,
    ) -> Result<PublishingTape<'d, L, J, R>, (L, Stop)>
        requires chunked { IsChunked options.now.chunk }
        requires profile { length options.now.profile ≤ content_limit }
        requires empty { directory.old ≡ empty_directory }
        requires room { (room.items ≡ []) × (1 ≤ vec_capacity room) }
        ensures stands { IfOk result (λ t. WritesHistory L.state options.now [] (L.state live) [] t.scribe
            × (phase_of t.scribe ≡ phases.Going)) }
        ensures still { IfOk result (λ t. (L.state (store_of t.scribe)).faults ≡ (L.state live).faults) }
        ensures empty { IfOk result (λ t. (t.directory.now ≡ empty_directory) × (t.short ≡ false) × (t.lost ≡ false)) }
        ensures room { IfOk result (λ t. (t.room.items ≡ []) × (1 ≤ vec_capacity t.room)) }
        ensures unused { IfOk result (λ t. IsNewPublishing L.state (publishing t.scribe t.directory.now t.short
            t.lost)) }
        ensures refused { IfErr result (λ e. (extras : List Top) (history : List Rec)
            → StopsAt options.now extras history (L.state live).held (L.state e.0).held e.1 (numbers 0 0)) }
        ensures cause { IfErr result (λ e. StopCause (L.state live).faults (L.state e.0).faults e.1) }
    {
        match Scribe::open(alloc, live, options) {
            Ok(scribe) => {
                return Ok(PublishingTape {
                    scribe,
                    directory,
                    rt,
                    alloc,
                    room,
                    short: false,
                    lost: false,
                });
            }
            Err(refused) => return Err(refused),
        }
    }

    /// Seals the directory with that end, unless entries were lost: then what is told there isn't all, and no end is told. The
    /// note is all that readers find; it has the end where the directory was sealed.
    pub fn seal(&mut self, end: End) -> Note<L::Extent, J>
        requires unsealed { end_of self.old.directory.now.shown ≡ None }
        ensures seals { SealsBoard (record
            { directory = self.old.directory.now; short = self.old.short; lost = self.old.lost })
            self.new.directory.now end result }
        ensures scribe { self.new.scribe ≡ self.old.scribe }
        ensures lent { self.new.directory.ghost_name ≡ self.old.directory.ghost_name }
    {
        if self.lost {
            return self.directory.shown();
        }
        try_seal(self.rt, self.directory, end)
    }

    /// The store of a tape.
    pub fn into_store(self) -> L
        ensures { result ≡ store_of self.entry.scribe }
    {
        let PublishingTape {
            scribe,
            directory: _directory,
            rt: _rt,
            alloc: _,
            room: _room,
            short: _,
            lost: _,
        } = self;
        scribe.into_store()
    }

    // Publishes these entries, if there are any, behind those that were given before.
    fn publish(&mut self, entries: Vec<Entry<L::Extent>>)
        requires known { KnowsLack (record
            { directory = self.old.directory.now; short = self.old.short; lost = self.old.lost }) }
        requires unsealed { end_of self.old.directory.now.shown ≡ None }
        requires follow { self.old.short ≡ false
            → EntriesFollow (λ e. L.Extent.tells e) (entries_of self.old.directory.now.shown ++ entries.items) }
        ensures gives { GivesTo
            (record { directory = self.old.directory.now; short = self.old.short; lost = self.old.lost })
            (record { directory = self.new.directory.now; short = self.new.short; lost = self.new.lost })
            entries.items }
        ensures scribe { (self.new.scribe ≡ self.old.scribe) × (self.new.room ≡ self.old.room) }
        ensures lent { self.new.directory.ghost_name ≡ self.old.directory.ghost_name }
        ensures none { entries.items ≡ [] → self.new ≡ self.old }
        // Entries are lost only in a later call than the one in which memory lacked.
        ensures lost { self.new.lost ≡ true → (self.old.lost ≡ true)
            ⊎ ((self.old.short ≡ true) × (entries.items ≡ [] → ⊥)) }
    {
        if entries.is_empty() {
            return;
        }
        if self.short {
            self.lost = true;
            return;
        }
        match self.directory.publish(self.rt, entries) {
            Ok(_) => return,
            Err(Memory) => {
                self.short = true;
                return;
            }
        }
    }
}

impl<'d, L: LiveStore, J: Naming, R: Wait> Tape for PublishingTape<'d, L, J, R> {
    type X = L::Extent;

    ghost use Rattle.std.specs.Prelude.{refl, ◌≡◌, ◌≤◌, [], vec_capacity};
    ghost use Rattle.std.proofs.Common.{◌∙◌};
    ghost use Rattle.chunk_writer.specs.Scribes.{store_of, phase_of, blocks_of, planned_bytes};
    ghost use Rattle.chunk_writer.specs.Tapes.{MeetsLimit, seen_store};
    ghost use Rattle.live_recording.specs.Publishing.{PublishesOn, PublishesEnd, IsNewPublishing, publishing, publishes_none, publishes_on};

    ghost is_new = { λ t. IsNewPublishing L.state (publishing t.scribe t.directory.now t.short t.lost)
        × (t.room.items ≡ []) × (1 ≤ vec_capacity t.room) };

    ghost grows = { λ before after records entries. (after.directory.ghost_name ≡ before.directory.ghost_name)
        × (after.room ≡ before.room)
        × PublishesOn (seen_store L.state (λ e. L.Extent.tells e) (λ e. L.Extent.size e))
        (publishing before.scribe before.directory.now before.short before.lost)
        (publishing after.scribe after.directory.now after.short after.lost) records entries };

    ghost ends = { λ before after last written end. (after.directory.ghost_name ≡ before.directory.ghost_name)
        × PublishesEnd (seen_store L.state (λ e. L.Extent.tells e) (λ e. L.Extent.size e))
        (publishing before.scribe before.directory.now before.short before.lost)
        (publishing after.scribe after.directory.now after.short after.lost) last written end };

    ghost limit_met = { λ t blocks bytes. MeetsLimit L.state t.scribe blocks bytes };

    ghost phase = { λ t. phase_of t.scribe };

    ghost numbers = { λ t. record { blocks = blocks_of t.scribe; bytes = planned_bytes t.scribe } };

    ghost failures = { λ t. (L.state (store_of t.scribe)).faults };

    ghost grows_none = { λ t. (refl, refl, publishes_none (seen_store L.state (λ e. L.Extent.tells e) (λ e. L.Extent.size e)) (publishing t.scribe t.directory.now t.short t.lost)) };

    ghost grows_on = { λ one two three before behind es fs first second. (second.0 ∙ first.0, second.1 ∙ first.1, publishes_on (seen_store L.state (λ e. L.Extent.tells e) (λ e. L.Extent.size e)) (publishing one.scribe one.directory.now one.short one.lost) (publishing two.scribe two.directory.now two.short two.lost) (publishing three.scribe three.directory.now three.short three.lost) before behind es fs first.2 second.2) };

    fn take(&mut self, full: Cache) -> Taken<L::Extent> {
        let Taken {
            cache,
            entries,
            end,
        } = self.scribe.take(full);
        self.publish(entries);
        Taken {
            cache,
            entries: Vec::new(self.alloc),
            end,
        }
    }

    fn finish(&mut self) -> Finished<L::Extent> {
        let Finished {
            last,
            blocks,
            bytes,
            end,
        } = self.scribe.finish();
        match last {
            Some(entry) => {
                let mut entries = mem::replace(&mut self.room, Vec::new(self.alloc));
                entries.push_reserved(entry);
                self.publish(entries);
                return Finished {
                    last: None,
                    blocks,
                    bytes,
                    end,
                };
            }
            None => {
                return Finished {
                    last: None,
                    blocks,
                    bytes,
                    end,
                };
            }
        }
    }

    fn written(&self) -> Written {
        Written {
            blocks: self.scribe.blocks(),
            bytes: self.scribe.bytes(),
        }
    }

    fn phase(&self) -> Phase {
        self.scribe.phase()
    }

    fn faults(&self) -> u64 {
        self.scribe.faults()
    }
}
