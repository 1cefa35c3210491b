//! The indexes of a summary.
ghost use Rattle.std.specs.Prelude.{List, ℕ};
ghost use Rattle.mcap_model.specs.Places.{At};
ghost use Rattle.mcap_model.specs.Tops.{Top};
ghost use Rattle.mcap_model.specs.Made.{top};
ghost use Rattle.summary_read.specs.PartSteps.{cut_tops, AreInside};
ghost use Rattle.summary_check.specs.Body.{StandFrom};
ghost use Rattle.summary_check.specs.Told.{ToldOf, IndexTaken, IndexesTaken};

use crate::records::record_at;
use index_check::{Attachments, Chunks, MetadataList};
use mcap_model::Rule;
use mcap_wire::Cut;
use rec_index::{
    ATTACHMENT_INDEX, AttachmentIndex, CHUNK_INDEX, ChunkIndex, METADATA_INDEX, MetadataIndex,
};

// The rule that an index behind others breaks. What it tells of counts as named from then on.
fn take_index(
    chunks: &mut Chunks,
    attachments: &mut Attachments,
    metadata: &mut MetadataList,
    op: u8,
    content: &[u8],
) -> Option<Rule>
    ensures { (all : List Top) (n : ℕ) → ToldOf all n chunks.old attachments.old metadata.old
        → At all n (top op content.now)
        → IndexTaken all n (top op content.now) chunks.new attachments.new metadata.new result }
{
    if op == CHUNK_INDEX {
        let index = match ChunkIndex::parse(content) {
            Ok(index) => index,
            Err(_) => return None,
        };
        if chunks.take_index(&index) {
            return None;
        }
        return Some(Rule::V12);
    }
    if op == ATTACHMENT_INDEX {
        let index = match AttachmentIndex::parse(content) {
            Ok(index) => index,
            Err(_) => return None,
        };
        if attachments.take_index(&index) {
            return None;
        }
        return Some(Rule::V13);
    }
    if op == METADATA_INDEX {
        let index = match MetadataIndex::parse(content) {
            Ok(index) => index,
            Err(_) => return None,
        };
        if metadata.take_index(&index) {
            return None;
        }
        return Some(Rule::V13);
    }
    return None;
}

/// The first index among these records that isn't right, and the rule that it breaks.
pub(crate) fn take_indexes(
    chunks: &mut Chunks,
    attachments: &mut Attachments,
    metadata: &mut MetadataList,
    bytes: &[u8],
    cuts: &[Cut],
) -> Option<(usize, Rule)>
    requires { AreInside bytes.now cuts.now }
    ensures { (all : List Top) (base : ℕ) → StandFrom all base (cut_tops bytes.now cuts.now)
        → ToldOf all base chunks.old attachments.old metadata.old
        → IndexesTaken all base (cut_tops bytes.now cuts.now) chunks.new attachments.new metadata.new result }
{
    'records: for i in 0..cuts.len() {
        let record = record_at(bytes, cuts, i);
        match take_index(chunks, attachments, metadata, record.op, record.content) {
            None => {}
            Some(rule) => return Some((i, rule)),
        }
    }
    return None;
}
