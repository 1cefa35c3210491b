//! Where the records of a chunk stand in its content.
ghost use Rattle.mcap_model.specs.Made.{top};
ghost use Rattle.mcap_scan.specs.Heads.{LiesInside};

use rec_index::{CHUNK, Chunk};

/// From where to where the records of a Chunk stand in its content; nothing lies between where the record is another one.
pub(crate) fn inside_of(op: u8, content: &[u8]) -> (usize, usize)
    ensures { LiesInside (top op content.now) result.0 result.1 }
{
    if op != CHUNK {
        return (0, 0);
    }
    match Chunk::parse(content) {
        Ok(chunk) => {
            let from = 40 + chunk.compression.len();
            return (from, from + chunk.records.len());
        }
        Err(_) => return (0, 0),
    }
}
