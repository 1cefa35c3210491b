//! What is kept of the records of a data section so far.
ghost use Rattle.std.specs.Prelude.{◌≡◌, ◌∷◌, ◌++◌, [], List, IfOk};
ghost use Rattle.mcap_model.specs.Tops.{Top, Placed};
ghost use Rattle.mcap_model.specs.WalkedRecords.{walked};
ghost use Rattle.mcap_model.specs.Rules.{HasDataEnd, V6};
ghost use Rattle.mcap_model.specs.Kept.{reading_limits, Good};
ghost use Rattle.mcap_model.specs.Whole.{IsSection};
ghost use Rattle.mcap_model.specs.Made.{top};
ghost use Rattle.mcap_scan.specs.Walking.{placed_at};
ghost use Rattle.index_check.specs.Section.{SectionOf};
ghost use Rattle.index_check.specs.Tally.{TallyOf};
ghost use Rattle.file_check.specs.Gathering.{GatheredOf, GatheredTo, StandBefore, RecordGathered, KnownAtDataEnd};

use crate::indexed_records::IndexedRecords;
use crate::record_counts::RecordCounts;
use crate::top_records::TopRecords;
use index_check::{IdCounts, Section, Tally};
use mcap_model::{Place, Tables};
use mcap_wire::Memory;
use std::alloc::Global;

/// What is kept of the records so far: what Statistics count, and what is kept of those of the top level. The last of these
/// stands at `at`; so do the records inside it, where it is a chunk. Before the first it is 0, where no record stands.
#[derive(Drop)]
pub(crate) struct Gathering {
    counts: RecordCounts,
    at: u64,
    tops: TopRecords,
}

/// What is known at a Data End: the declarations, what Statistics count, and the offset behind it.
#[derive(Drop)]
pub(crate) struct DataEnd {
    pub tables: Tables,
    pub tally: Tally,
    pub behind: u64,
}

impl Gathering {
    pub(crate) fn new(alloc: Global) -> Gathering
        ensures { GatheredTo [] result }
    {
        Gathering {
            counts: RecordCounts::new(alloc),
            at: 0,
            tops: TopRecords::new(alloc),
        }
    }

    /// Takes the next record in its place, those inside a chunk behind it; or says at which offset V9 fails now. After that, and
    /// after a want of memory, what is kept is of no use.
    pub(crate) fn take(
        &mut self,
        alloc: Global,
        op: u8,
        place: Place,
        content: &[u8],
    ) -> Result<Option<u64>, Memory>
        requires v6 { V6 (top op content.now) }
        requires before { (place.top ≡ self.old.at → ⊥) → StandBefore self.old.tops place.top }
        ensures { (given ahead : List Placed) (tops : List Top) → GatheredTo given self.old → Good reading_limits tops
            → walked tops ≡ (given ++ placed_at place op content.now ∷ []) ++ ahead
            → RecordGathered (given ++ placed_at place op content.now ∷ []) tops self.new result }
    {
        match self.counts.take(op, content) {
            Ok(()) => {}
            Err(memory) => return Err(memory),
        }
        if place.top == self.at {
            return Ok(None);
        }
        self.at = place.top;
        self.tops.take(alloc, op, place.top, content)
    }

    /// What Statistics count of the section.
    pub(crate) fn tally(&self, alloc: Global) -> Result<Tally, Memory>
        ensures { IfOk result (λ tally. (tops section : List Top) → GatheredOf tops self.now → IsSection tops section
            → Good reading_limits tops → TallyOf tops section tally) }
    {
        let counts = match self.counts.by_channel.list(alloc) {
            Ok(counts) => counts,
            Err(memory) => return Err(memory),
        };
        let schemas = self.counts.schemas.len() as u64;
        let channels = self.counts.channels.len() as u64;
        return Ok(Tally {
            messages: self.counts.messages,
            attachments: self.tops.indexed.attachments.notes.len() as u64,
            metadata: self.tops.indexed.metadata.notes.len() as u64,
            chunks: self.tops.indexed.chunks.notes.len() as u64,
            any: self.counts.any,
            least: self.counts.least,
            greatest: self.counts.greatest,
            counts,
            schemas: IdCounts {
                in_section: schemas,
                in_file: schemas,
            },
            channels: IdCounts {
                in_section: channels,
                in_file: channels,
            },
        });
    }

    /// What is kept of the whole section, where the Data End was taken and this is known there.
    pub(crate) fn finish(self, end: DataEnd) -> Section
        ensures { (tops : List Top) → GatheredOf tops self → Good reading_limits tops → HasDataEnd tops
            → KnownAtDataEnd tops end → SectionOf tops result }
    {
        let DataEnd {
            tables,
            tally,
            behind,
        } = end;
        let Gathering {
            counts,
            at: _,
            tops: kept,
        } = self;
        let TopRecords {
            indexed,
            last: _,
            has_messages,
        } = kept;
        let RecordCounts {
            messages: _,
            any: _,
            least: _,
            greatest: _,
            by_channel: _,
            schemas,
            channels,
        } = counts;
        let IndexedRecords {
            chunks,
            attachments,
            metadata,
        } = indexed;
        Section {
            tables,
            chunks,
            attachments,
            metadata,
            tally,
            schemas,
            channels,
            has_messages,
            behind,
        }
    }
}
