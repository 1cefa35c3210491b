//! What takes the records of a recording, buffer by buffer.
ghost use Rattle.std.specs.Prelude.{◌≡◌, ◌++◌, ℕ, List, Option, Result, [], None, Err, IfErr, OnOk};
ghost use Rattle.rec_data.specs.declared.owned.Rec.{Rec};
ghost use Rattle.mcap_model.specs.declared.ends.Stop.{Stop};
ghost use Rattle.live_entry.specs.declared.entry.Entry.{Entry as BlockEntry};
ghost use Rattle.chunk_writer.specs.declared.phase.Phase.TheVariants as phases;
ghost use Rattle.chunk_writer.specs.declared.phase.Phase.{Phase as TapePhase};
ghost use Rattle.chunk_writer.specs.declared.tape.Written.{Written as Numbers};
ghost use Rattle.chunk_writer.specs.Scribes.{store_of, phase_of, blocks_of, planned_bytes};
ghost use Rattle.chunk_writer.specs.Tapes.{HasTaken, MayTake, EndsFor, seen_store, TakesOn, EndsOn, MeetsLimit, takes_none, takes_on};

use crate::phase::Phase;
use crate::scribe::Scribe;
use live_entry::Entry;
use mcap_io::{Extent, LiveStore};
use mcap_model::Stop;
use record_cache::Cache;

/// How many blocks and bytes a tape took in whole appends.
#[derive(Clone, Copy)]
pub struct Written {
    pub blocks: u64,
    pub bytes: u64,
}

/// What came of a buffer: the same buffer without its records, the entries of the blocks that were appended, and why the tape
/// stopped, if so.
#[derive(Drop)]
pub struct Taken<X> {
    pub cache: Cache,
    pub entries: Vec<Entry<X>>,
    pub end: Result<(), Stop>,
}

/// How a tape ended: the entry of a block that was appended at its end, and why the end wasn't written, if so.
#[derive(Drop)]
pub struct Finished<X> {
    pub last: Option<Entry<X>>,
    pub blocks: u64,
    pub bytes: u64,
    pub end: Result<(), Stop>,
}

/// What takes the records of a recording. A tape stands for lists of records; what it wrote of them is said by relations of
/// its values, which a writer chooses. Once it was refused it keeps the refusal: it answers that at every call, and writes
/// nothing. Its count of failures may rise by more than one in a call, and it says itself where its limit is met.
pub trait Tape {
    type X: Extent;

    /// It has taken nothing yet.
    ghost is_new: { Self → Type 0 };

    /// The second is the first, later: of whatever list the first stands, the second stands for that list with these records
    /// behind it; and these are the entries of the blocks that were appended.
    ghost grows: { Self → Self → List Rec → List (BlockEntry Self.X) → Type 0 };

    /// The second is the first with its end, which came to this with so many blocks and bytes, and with the entry of the last
    /// block, if one was appended.
    ghost ends: { Self → Self → Option (BlockEntry Self.X) → Numbers → Result Unit Stop → Type 0 };

    /// Its own limit is met, at so many blocks and bytes.
    ghost limit_met: { Self → ℕ → ℕ → Type 0 };

    ghost phase: { Self → TapePhase };

    ghost numbers: { Self → Numbers };

    ghost failures: { Self → ℕ };

    /// A tape stands for the same where nothing is called, and over several calls.
    ghost grows_none: { (t : Self) → grows t t [] [] };

    ghost grows_on: { (t u v : Self) (before behind : List Rec) (first second : List (BlockEntry Self.X))
        → grows t u before first → grows u v behind second → grows t v (before ++ behind) (first ++ second) };

    /// Puts the buffer's records, in their order, each once, and gives the entries of the blocks that are appended, in theirs.
    /// Where that is refused the records behind are dropped. The records are numbered behind all that it took since it was new.
    fn take(&mut self, full: Cache) -> Taken<Self::X>
        requires unended { phase self.old ≡ phases.Ended → ⊥ }
        requires behind { MayTake is_new grows self.old full.records }
        ensures grows { grows self.old self.new full.records result.entries.items }
        ensures cleared { result.cache ≡ record { limit = full.limit; records = [] } }
        ensures goes_on { OnOk result.end ((phase self.old ≡ phases.Going) × (phase self.new ≡ phases.Going)) }
        ensures stopped { IfErr result.end (λ stop. phase self.new ≡ phases.Stopped stop) }
        ensures kept { (stop : Stop) → phase self.old ≡ phases.Stopped stop
            → (result.end ≡ Err stop) × (result.entries.items ≡ []) × (self.new ≡ self.old) }
        ensures cause { phase self.old ≡ phases.Going
            → EndsFor (failures self.old) (failures self.new) (limit_met self.new) result.end };

    /// Writes what ends the file, and gives the entry of the last block, if that is appended here.
    fn finish(&mut self) -> Finished<Self::X>
        requires unended { phase self.old ≡ phases.Ended → ⊥ }
        requires behind { (taken : List Rec) × HasTaken is_new grows self.old taken }
        ensures ends { ends self.old self.new result.last (record { blocks = result.blocks; bytes = result.bytes })
            result.end }
        ensures numbers { numbers self.new ≡ record { blocks = result.blocks; bytes = result.bytes } }
        ensures ended { OnOk result.end (phase self.new ≡ phases.Ended) }
        ensures stopped { IfErr result.end (λ stop. phase self.new ≡ phases.Stopped stop) }
        ensures kept { (stop : Stop) → phase self.old ≡ phases.Stopped stop
            → (result.end ≡ Err stop) × (result.last ≡ None) × (self.new ≡ self.old) }
        ensures cause { phase self.old ≡ phases.Going
            → EndsFor (failures self.old) (failures self.new) (limit_met self.new) result.end };

    fn written(&self) -> Written
        ensures { result ≡ numbers self.now };

    fn phase(&self) -> Phase
        ensures { result ≡ phase self.now };

    fn faults(&self) -> u64
        ensures { result ≡ failures self.now };
}

impl<L: LiveStore> Tape for Scribe<L> {
    type X = L::Extent;

    // It takes whatever it is handed.
    ghost is_new = { λ s. Unit {0} };

    ghost grows = { λ before after records entries. TakesOn
        (seen_store L.state (λ e. L.Extent.tells e) (λ e. L.Extent.size e)) before after records entries };

    ghost ends = { λ before after last written end. EndsOn
        (seen_store L.state (λ e. L.Extent.tells e) (λ e. L.Extent.size e)) before after last written end };

    ghost limit_met = { λ s blocks bytes. MeetsLimit L.state s blocks bytes };

    ghost phase = { λ s. phase_of s };

    ghost numbers = { λ s. record { blocks = blocks_of s; bytes = planned_bytes s } };

    ghost failures = { λ s. (L.state (store_of s)).faults };

    ghost grows_none = { λ s. takes_none (seen_store L.state (λ e. L.Extent.tells e) (λ e. L.Extent.size e)) s };

    ghost grows_on = { λ one two three before behind es fs first second. takes_on
        (seen_store L.state (λ e. L.Extent.tells e) (λ e. L.Extent.size e)) one two three before behind es fs first
        second };

    fn take(&mut self, full: Cache) -> Taken<L::Extent> {
        Scribe::take(self, full)
    }

    fn finish(&mut self) -> Finished<L::Extent> {
        Scribe::finish(self)
    }

    fn written(&self) -> Written {
        Written {
            blocks: self.blocks(),
            bytes: self.bytes(),
        }
    }

    fn phase(&self) -> Phase {
        Scribe::phase(self)
    }

    fn faults(&self) -> u64 {
        Scribe::faults(self)
    }
}
