//! The records inside a chunk, where they stand.
ghost use Rattle.std.specs.Prelude.{◌≡◌, ◌≤◌, ℕ, length};
ghost use Rattle.mcap_model.specs.Found.{FindsRecord};

use mcap_wire::{Cut, take_u64};

/// A record inside a chunk: its opcode, its offset among the chunk's records, and its content.
#[derive(Clone, Copy)]
pub struct Inner<'a> {
    pub op: u8,
    pub offset: u64,
    pub content: &'a [u8],
}

/// A walk over the records of a chunk. It ends where no whole record begins.
#[derive(Clone, Copy)]
pub struct InnerWalk<'a> {
    records: &'a [u8],
    at: usize,
    ghost within: { at ≤ length records.now },
}

// The record that stands at the offset, if a whole one does.
fn record_at(bytes: &[u8], at: usize) -> Option<Cut>
    requires { at ≤ length bytes.now }
    ensures { FindsRecord bytes.now at result }
{
    if at == bytes.len() {
        return None;
    }
    let (len, from) = match take_u64(bytes, at + 1) {
        Ok(read) => read,
        Err(_) => return None,
    };
    let op = bytes[at];
    if op == 0 {
        return None;
    }
    if len > (bytes.len() - from) as u64 {
        return None;
    }
    let from = from as u64;
    return Some(Cut {
        op,
        from,
        to: from + len,
    });
}

impl<'a> InnerWalk<'a> {
    ghost use Rattle.std.specs.Prelude.{◌↔◌, [], IsTrue};
    ghost use Rattle.mcap_model.specs.Walk.{walk_at, walk_rest, WalkSteps};

    /// A walk over these bytes.
    pub fn new(records: &'a [u8]) -> InnerWalk<'a>
        ensures at { walk_at result ≡ 0 }
        ensures rest { walk_rest result ≡ records.now }
    {
        InnerWalk { records, at: 0 }
    }

    /// Whether nothing is in front of it.
    pub fn is_whole(&self) -> bool
        ensures { IsTrue result ↔ (walk_rest self.now ≡ []) }
    {
        self.at == self.records.len()
    }

    /// The next record.
    pub fn next(&mut self) -> Option<Inner<'a>>
        ensures { WalkSteps (walk_at self.old) (walk_rest self.old) (walk_at self.new) (walk_rest self.new) result }
    {
        let offset = self.at;
        match record_at(self.records, offset) {
            Some(cut) => {
                self.at = cut.to as usize;
                return Some(Inner {
                    op: cut.op,
                    offset: offset as u64,
                    content: &self.records[cut.from as usize..cut.to as usize],
                });
            }
            None => return None,
        }
    }
}
