//! Why a reading didn't go through.
ghost use Rattle.std.specs.Prelude.{◌≡◌};
ghost use Rattle.mcap_model.specs.RefusalKinds.{is_memory_refusal};

use crate::rules::Rule;
use mcap_wire::Text;

/// Why a file isn't read, or not to its end. Offsets are in bytes from the file's front. Where a count of faults is told, the
/// reading failed outside.
#[derive(Debug, Drop)]
pub enum ReadingRefused {
    /// What is read from failed, and this is its count of faults.
    Fault { faults: u64 },
    /// That rule fails at that offset: of the record there; of a magic that is missing there, the first one at
    /// offset 0; or of a Footer that is missing there.
    Grammar { offset: u64, rule: Rule },
    /// The Chunk at that offset names that compression.
    Compressed { offset: u64, name: Text },
    /// A limit is passed at that offset: by the record there, with a content of more than 268,435,456 bytes or an end more than
    /// 2^40 bytes from the file's front, whose content isn't looked at; or by what else the function says that it bounds.
    Limit { offset: u64 },
    /// Memory lacked.
    Memory,
}

impl ReadingRefused {
    /// Whether memory lacked.
    pub fn is_memory(&self) -> bool
        ensures { result ≡ is_memory_refusal self.now }
    {
        match self {
            ReadingRefused::Memory => true,
            ReadingRefused::Fault { .. }
            | ReadingRefused::Grammar { .. }
            | ReadingRefused::Compressed { .. }
            | ReadingRefused::Limit { .. } => false,
        }
    }
}

/// Why a file isn't indexed (MCAP specification, "Summary Section").
#[derive(Clone, Copy, Debug)]
pub enum NotIndexed {
    /// The Footer says that there is no summary.
    NoSummary,
    /// The summary has no Statistics.
    NoStatistics,
    /// The Statistics states so many chunks, and so many Chunk Indexes were found.
    ChunkCount { stated: u32, found: u64 },
    /// The Chunk Index of the chunk at that offset meets the range and names no Message Index.
    NoMessageIndex { chunk: u64 },
    /// Messages in the range are on a channel of that id, of which the summary has no Channel.
    NoChannel { id: u16 },
}

/// Why nothing is read of a file by its index.
#[derive(Debug, Drop)]
pub enum IndexedRefused {
    /// The file isn't indexed. A scan can still show its messages.
    NotIndexed { why: NotIndexed },
    /// The file's ends, its summary, or what its index leads to isn't read. Where the index leads to nothing of its kind, V12
    /// fails at the Chunk Index, and V9 at the Message Index.
    Refused { why: ReadingRefused },
}
