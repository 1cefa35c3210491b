//! The blocks of a file that is being written.
ghost use Rattle.std.specs.Prelude.{◌≡◌, ◌++◌, OnOk, OnErr};

use mcap_io::Extent;
use mcap_wire::Memory;

/// A block that stands in its store: the extent that holds its bytes, its offset in the file, how long its framed Chunk is, the
/// first and the last log time of its messages (0 where it has none), and how many of its records are messages and how many
/// declare a schema or a channel.
#[derive(Drop)]
pub struct Entry<X> {
    pub extent: X,
    pub offset: u64,
    pub chunk_length: u64,
    pub start_time: u64,
    pub end_time: u64,
    pub messages: u64,
    pub declared: u64,
}

impl<X: Extent> Entry<X> {
    /// A copy. It takes no memory.
    pub fn same(&self) -> Entry<X>
        ensures { result ≡ self.now }
    {
        Entry {
            extent: self.extent.same(),
            offset: self.offset,
            chunk_length: self.chunk_length,
            start_time: self.start_time,
            end_time: self.end_time,
            messages: self.messages,
            declared: self.declared,
        }
    }
}

/// Adds copies of the entries, or none of them.
pub fn copy_all<X: Extent>(to: &mut Vec<Entry<X>>, from: &[Entry<X>]) -> Result<(), Memory>
    ensures copied { OnOk result (to.new.items ≡ to.old.items ++ from.now) }
    ensures kept { OnErr result (to.new.items ≡ to.old.items) }
{
    let held = to.len();
    for entry in from {
        if to.push(entry.same()).is_err() {
            to.truncate(held);
            return Err(Memory);
        }
    }
    return Ok(());
}
