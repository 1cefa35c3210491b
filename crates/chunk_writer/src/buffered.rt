//! The records of a buffer as pieces.
ghost use Rattle.std.specs.Prelude.{◌≡◌, ◌≤◌, [], length, take, IfErr, OnOk};
ghost use Rattle.mcap_io.specs.Outside.{Adds};
ghost use Rattle.mcap_model.specs.History.{history_bytes};
ghost use Rattle.record_cache.proofs.Apart.{framed_some};
ghost use Rattle.chunk_writer.specs.Buffered.{framed_each, BeginsLast, AppendRefusedAt};
ghost use Rattle.chunk_writer.specs.Stops.{StopCause};

use crate::scribe::{append_through, refused};
use mcap_io::{LiveStore, Pieces};
use mcap_model::Stop;
use record_cache::Cache;

/// So many first records of a buffer, each a piece, and how many bytes they have.
#[derive(Clone, Copy)]
pub(crate) struct Buffered<'a> {
    pub(crate) full: &'a Cache,
    pub(crate) count: u64,
    pub(crate) len: u64,
    ghost spelled: { len ≡ length (history_bytes (take count full.now.records)) },
}

impl<'a> Pieces for Buffered<'a> {
    ghost list = { λ s. framed_each (take s.count s.full.now.records) };

    fn bytes(&self) -> &[u8] {
        &self.full.framed()[..self.len as usize]
    }

    fn end(&self, at: usize) -> usize {
        self.full.record(at as u64).next as usize
    }

    ghost some = { λ s. framed_some (take s.count s.full.now.records) };
}

// Where the last record of a buffer begins.
fn last_of(full: &Cache) -> u64
    requires { 1 ≤ length full.now.records }
    ensures { BeginsLast full.now.records result }
{
    let held = full.held();
    let mut last = 0;
    let mut next = full.record(last).next;
    'records: while next < held {
        last = next;
        next = full.record(last).next;
    }
    last
}

/// Appends the records of a buffer, each by itself and the last one through, so that none of them waits in the store. Where
/// one is refused, answers at which offset of their bytes it begins.
pub(crate) fn append_records<L: LiveStore>(store: &mut L, full: &Cache) -> Result<(), (u64, Stop)>
    ensures adds { OnOk result (Adds (L.state store.old).held (L.state store.new).held
        (history_bytes full.now.records)) }
    ensures through { OnOk result ((full.now.records ≡ [] → ⊥) → (L.state store.new).waiting ≡ 0) }
    ensures still { full.now.records ≡ [] → L.state store.new ≡ L.state store.old }
    ensures refused { IfErr result (λ e. AppendRefusedAt (L.state store.old).held (L.state store.new).held
        full.now.records e.0 e.1) }
    ensures cause { IfErr result (λ e. StopCause (L.state store.old).faults (L.state store.new).faults e.1) }
    ensures well { OnOk result ((L.state store.new).faults ≡ (L.state store.old).faults) }
{
    let count = full.count();
    if count == 0 {
        return Ok(());
    }
    let last = last_of(full);
    let front = Buffered {
        full,
        count: count - 1,
        len: last,
    };
    match store.append_each(&front) {
        Ok(()) => {}
        Err(refusal) => return Err((refusal.whole, refused(store, refusal.why))),
    }
    match append_through(store, full.record(last).framed) {
        Ok(_) => return Ok(()),
        Err(stop) => return Err((last, stop)),
    }
}
