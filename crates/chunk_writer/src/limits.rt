//! What a file may hold.
ghost use Rattle.std.specs.Prelude.{◌≡◌, ◌+◌, ◌<◌, ◌≤◌, length};
ghost use Rattle.mcap_wire.specs.Limits.{block_limit, file_limit};
ghost use Rattle.chunk_writer.specs.LimitSteps.{LimitKept};

use mcap_model::Stop;
use mcap_wire::FILE_LIMIT;

/// The most blocks of a file, 2^32 - 1.
const MOST_BLOCKS: u64 = 4_294_967_295;

/// Whether a piece with so many blocks may be appended behind so many blocks and bytes.
pub fn keep_limit(blocks: u64, bytes: u64, more: u64, piece: &[u8]) -> Result<(), Stop>
    requires few { blocks ≤ block_limit }
    requires small { bytes ≤ file_limit }
    requires one { more ≤ 1 }
    ensures { LimitKept blocks bytes (blocks + more) (bytes + length piece.now) result }
{
    let len = piece.len() as u64;
    if blocks + more > MOST_BLOCKS || len > FILE_LIMIT - bytes {
        return Err(Stop::Limit { blocks, bytes });
    }
    return Ok(());
}
