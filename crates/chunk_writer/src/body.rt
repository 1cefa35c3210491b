//! The blocks of a file as they are built: the open chunk, and beside it the summary.
ghost use Rattle.std.specs.Prelude.{◌≡◌, ◌<◌, ◌≤◌, ℕ, List, Option, [], IfOk, OnOk, OnErr};
ghost use Rattle.mcap_wire.specs.Limits.{chunk_size_limit, record_count_limit};
ghost use Rattle.rec_data.specs.declared.owned.Rec.{Rec};
ghost use Rattle.chunk_build.specs.Chunker.{AreInner};
ghost use Rattle.chunk_writer.specs.Bodies.{IsBody, BodyTakes, TakesLast};

use chunk_build::Chunker;
use mcap_model::Block;
use mcap_wire::Memory;
use std::alloc::Global;
use summary_write::Summary;

/// The open chunk, and what was noted of the records and of the blocks before it.
#[derive(Drop)]
pub(crate) struct Body {
    pub(crate) chunker: Chunker,
    pub(crate) summary: Summary,
}

/// A body without a record.
pub(crate) fn begin(alloc: Global, size: u64, span: Option<u64>) -> Result<Body, Memory>
    requires some { 1 ≤ size }
    requires within { size ≤ chunk_size_limit }
    ensures { IfOk result (λ b. (at : ℕ) → IsBody size span at [] b) }
{
    let chunker = match Chunker::new(alloc, size, span) {
        Ok(chunker) => chunker,
        Err(memory) => return Err(memory),
    };
    let summary = match Summary::new(alloc) {
        Ok(summary) => summary,
        Err(memory) => return Err(memory),
    };
    return Ok(Body { chunker, summary });
}

/// Notes a framed record that is no extra and puts it into the open chunk, and gives the block that this closes. That isn't
/// noted yet.
pub(crate) fn take(body: &mut Body, framed: &[u8]) -> Result<Option<Block>, Memory>
    requires framed { (r : Rec) × AreInner framed.now r }
    requires few { body.old.summary.messages < record_count_limit }
    ensures ok { IfOk result (λ closed. (r : Rec) → AreInner framed.now r
        → (size : ℕ) (span : Option ℕ) (at : ℕ) (history : List Rec)
        → IsBody size span at history body.old → BodyTakes size span at history r closed body.new) }
    ensures blocks { OnOk result (body.new.summary.blocks ≡ body.old.summary.blocks) }
{
    match body.summary.note_framed(framed) {
        Ok(()) => {}
        Err(memory) => return Err(memory),
    }
    match body.chunker.put_framed(framed) {
        Ok(closed) => return Ok(closed),
        Err(memory) => return Err(memory),
    }
}

/// Gives the last block, where records wait for one, which isn't noted yet.
pub(crate) fn take_last(body: &mut Body) -> Result<Option<Block>, Memory>
    ensures ok { IfOk result (λ last. (size : ℕ) (span : Option ℕ) (at : ℕ) (history : List Rec)
        → IsBody size span at history body.old → TakesLast size span at history last body.new) }
    ensures blocks { OnOk result (body.new.summary.blocks ≡ body.old.summary.blocks) }
{
    match body.chunker.finish() {
        Ok(last) => return Ok(last),
        Err(memory) => return Err(memory),
    }
}
