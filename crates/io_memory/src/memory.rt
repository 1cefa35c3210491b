//! Sources, sinks and live stores in memory. They tell all of their bytes.
ghost use Rattle.std.proofs.Common.{◌∙◌};
ghost use Rattle.std.specs.Prelude.{refl, ◌≡◌, ◌+◌, ◌≤◌, ◌<◌, ◌↔◌, ℕ, List, length, [], Some, Ok, Contains, IsTrue, IsErr, IfOk, IfErr, OnOk, vec_len};
ghost use Rattle.std.specs.List.{concat};
ghost use Rattle.mcap_io.specs.Appending.{EachLeaves, EachCause};
ghost use Rattle.mcap_io.specs.Outside.{Adds};
ghost use Rattle.mcap_io.specs.OutsideCalls.{HasCause, ReadGives, Writes, AppendCause, AppendLeaves};
ghost use Rattle.mcap_io.specs.StoreAnswers.{GivesPart};
ghost use Rattle.io_memory.specs.Planned.{left_of, planned, next_call, WritesAsPlanned, AppendsAsPlanned, EachAsPlanned};

use mcap_io::{
    AppendRefused, EachRefused, Extent, Failed, LiveStore, LiveView, Pieces, Sink, Source, piece_at,
};
use std::alloc::{AllocError, Global};

/// A source that gives these bytes and never fails.
#[derive(Drop)]
pub struct QuietSource {
    bytes: Vec<u8>,
    next: usize,
    ghost within: { next ≤ vec_len bytes },
}

impl QuietSource {
    /// A source of these bytes.
    pub fn new(bytes: Vec<u8>) -> Self
        ensures { ⟦<QuietSource as Source>⟧.state result ≡ record { left = Some bytes.items; faults = 0 } }
    {
        QuietSource { bytes, next: 0 }
    }

    /// The bytes that are left.
    pub fn rest(&self) -> &[u8]
        ensures { left_of self.now.bytes.items self.now.next ≡ Some result.now }
    {
        &self.bytes[self.next..]
    }
}

impl Source for QuietSource {
    ghost state = { λ s. record { left = left_of s.bytes.items s.next; faults = 0 } };

    /// Its bytes are the same.
    ghost stays = { λ s t. t.bytes ≡ s.bytes };

    ghost stays_so = { λ s. refl };

    ghost stays_on = { λ s t u first second. second ∙ first };

    fn read(&mut self, out: &mut [u8]) -> Result<usize, Failed> {
        let rest = &self.bytes[self.next..];
        let n = rest.len().min(out.len());
        out[..n].copy_from_slice(&rest[..n]);
        self.next += n;
        Ok(n)
    }

    fn faults(&self) -> u64 {
        0
    }
}

// Which calls are to fail, by their numbers, and how many calls there were.
#[derive(Drop)]
pub(crate) struct Calls {
    failing: Vec<u64>,
    made: u64,
}

impl Calls {
    pub(crate) fn new(failing: Vec<u64>) -> Self
        ensures plan { result.failing ≡ failing }
        ensures made { result.made ≡ 0 }
    {
        Calls { failing, made: 0 }
    }

    pub(crate) fn made(&self) -> u64
        ensures { result ≡ self.now.made }
    {
        self.made
    }

    // Counts a call, and says whether it is one of those that fail.
    pub(crate) fn next_fails(&mut self) -> bool
        ensures planned { IsTrue result ↔ Contains self.old.failing.items self.old.made }
        ensures counted { self.new.made ≡ next_call self.old.made }
        ensures plan { self.new.failing ≡ self.old.failing }
    {
        let call = self.made;
        self.made = call.saturating_add(1);
        self.failing.contains(&call)
    }
}

/// A source that gives these bytes, and fails where it is told to.
#[derive(Drop)]
pub struct MemorySource {
    bytes: QuietSource,
    reads: Calls,
    faults: u64,
}

impl MemorySource {
    /// The reads that have room are numbered from 0. Those in the list fail, once each, and take nothing.
    pub fn new(bytes: Vec<u8>, failing: Vec<u64>) -> Self
        ensures tells { ⟦<MemorySource as Source>⟧.state result ≡ record { left = Some bytes.items; faults = 0 } }
        ensures plan { result.reads.failing ≡ failing }
        ensures made { result.reads.made ≡ 0 }
    {
        MemorySource {
            bytes: QuietSource::new(bytes),
            reads: Calls::new(failing),
            faults: 0,
        }
    }

    /// A source of the bytes that are left, which never fails.
    pub(crate) fn into_quiet(self) -> QuietSource
        ensures { result ≡ self.bytes }
    {
        self.bytes
    }
}

impl Source for MemorySource {
    ghost state = { λ s. record { left = left_of s.bytes.bytes.items s.bytes.next; faults = s.faults } };

    /// Its bytes and its plan are the same.
    ghost stays = { λ s t. (t.bytes.bytes ≡ s.bytes.bytes) × (t.reads.failing ≡ s.reads.failing) };

    ghost stays_so = { λ s. (refl, refl) };

    ghost stays_on = { λ s t u first second. (second.0 ∙ first.0, second.1 ∙ first.1) };

    fn read(&mut self, out: &mut [u8]) -> Result<usize, Failed>
        ensures bound { IfOk result (λ n. n ≤ length out.new) }
        ensures gives { ReadGives (left_of self.old.bytes.bytes.items self.old.bytes.next)
            (left_of self.new.bytes.bytes.items self.new.bytes.next) out.new result }
        ensures no_room { length out.new ≡ 0 → (result ≡ Ok 0) × (self.new ≡ self.old) }
        ensures cause { HasCause self.old.faults self.new.faults result }
        ensures stays { (self.new.bytes.bytes ≡ self.old.bytes.bytes)
            × (self.new.reads.failing ≡ self.old.reads.failing) }
        ensures planned { IsErr result
            ↔ (0 < length out.new) × Contains self.old.reads.failing.items self.old.reads.made }
        ensures counted { 0 < length out.new → self.new.reads.made ≡ next_call self.old.reads.made }
    {
        if out.is_empty() {
            return Ok(0);
        }
        if self.reads.next_fails() {
            self.faults = self.faults.saturating_add(1);
            return Err(Failed);
        }
        self.bytes.read(out)
    }

    fn faults(&self) -> u64 {
        self.faults
    }
}

/// A write or an append that is to fail: the number of the call, from 0, and how many bytes of the piece it takes.
#[derive(Clone, Copy, PartialEq, Eq)]
pub struct FailingWrite {
    pub call: u64,
    pub taken: u64,
}

// Which writes are to fail, and how many writes there were.
#[derive(Drop)]
struct PlannedWrites {
    failing: Vec<FailingWrite>,
    made: u64,
}

impl PlannedWrites {
    // Counts a write of so many bytes. Where it is to fail, says how many of them it takes.
    fn next_takes(&mut self, len: usize) -> Option<usize>
        ensures planned { result ≡ planned self.old.failing.items self.old.made len }
        ensures counted { self.new.made ≡ next_call self.old.made }
        ensures plan { self.new.failing ≡ self.old.failing }
    {
        let call = self.made;
        self.made = call.saturating_add(1);
        self.failing
            .iter()
            .find(|write| write.call == call)
            .map(|write| (write.taken as usize).min(len))
    }
}

/// A sink that keeps what it takes, and fails where it is told to. Want of memory is a fault too.
#[derive(Drop)]
pub struct MemorySink {
    bytes: Vec<u8>,
    writes: PlannedWrites,
    faults: u64,
}

impl MemorySink {
    /// An empty sink. The writes are numbered from 0.
    pub fn new(alloc: Global, failing: Vec<FailingWrite>) -> Self
        ensures tells { ⟦<MemorySink as Sink>⟧.state result ≡ record { took = Some []; faults = 0 } }
        ensures plan { result.writes.failing ≡ failing }
        ensures made { result.writes.made ≡ 0 }
    {
        MemorySink {
            bytes: Vec::new(alloc),
            writes: PlannedWrites { failing, made: 0 },
            faults: 0,
        }
    }

    /// The bytes that it took.
    pub fn bytes(&self) -> &[u8]
        ensures { (⟦<MemorySink as Sink>⟧.state self.now).took ≡ Some result.now }
    {
        &self.bytes
    }

    /// The same, by themselves.
    pub fn into_bytes(self) -> Vec<u8>
        ensures { (⟦<MemorySink as Sink>⟧.state self).took ≡ Some result.items }
    {
        let MemorySink {
            bytes,
            writes: _,
            faults: _,
        } = self;
        bytes
    }
}

impl Sink for MemorySink {
    ghost state = { λ s. record { took = Some s.bytes.items; faults = s.faults } };

    fn write(&mut self, bytes: &[u8]) -> Result<usize, Failed>
        ensures bound { IfOk result (λ n. n ≤ length bytes.now) }
        ensures goes_on { IfOk result (λ n. 0 < length bytes.now → 0 < n) }
        ensures takes { Writes (Some self.old.bytes.items) (Some self.new.bytes.items) bytes.now result }
        ensures cause { HasCause self.old.faults self.new.faults result }
        ensures planned { WritesAsPlanned
            (planned self.old.writes.failing.items self.old.writes.made (length bytes.now)) self.old.bytes
            self.new.bytes bytes.now result }
        ensures counted { self.new.writes.made ≡ next_call self.old.writes.made }
        ensures plan { self.new.writes.failing ≡ self.old.writes.failing }
    {
        let planned = self.writes.next_takes(bytes.len());
        let taken = planned.unwrap_or(bytes.len());
        let stored = self.bytes.extend_from_slice(&bytes[..taken]);
        if planned.is_some() || stored.is_err() {
            self.faults = self.faults.saturating_add(1);
            return Err(Failed);
        }
        Ok(taken)
    }

    fn faults(&self) -> u64 {
        self.faults
    }
}

/// The bytes that one append took. They are never let go, so that they can be read on any thread for good.
#[derive(Clone, Copy)]
pub struct Piece {
    bytes: &'static [u8],
}

impl Piece {
    /// The bytes.
    pub fn bytes(&self) -> &'static [u8]
        ensures { ⟦<Piece as Extent>⟧.tells self.now ≡ Some result.now }
    {
        self.bytes
    }
}

impl Extent for Piece {
    ghost tells = { λ piece. Some piece.bytes.now };

    ghost size = { λ piece. length piece.bytes.now };

    fn same(&self) -> Self {
        *self
    }

    fn len(&self) -> u64 {
        self.bytes.len() as u64
    }

    ghost sized = { λ piece bytes told. Prim.cc };
}

/// A view of pieces, which fails where it is told to.
#[derive(Drop)]
pub struct MemoryView {
    reads: Calls,
    faults: u64,
}

impl MemoryView {
    /// The reads are numbered from 0. Those in the list fail, once each.
    pub fn new(failing: Vec<u64>) -> Self
        ensures unused { ⟦<MemoryView as LiveView<Piece>>⟧.failures result ≡ 0 }
        ensures plan { result.reads.failing ≡ failing }
        ensures made { result.reads.made ≡ 0 }
    {
        MemoryView {
            reads: Calls::new(failing),
            faults: 0,
        }
    }
}

impl LiveView<Piece> for MemoryView {
    ghost failures = { λ view. view.faults };

    fn read_part(&mut self, extent: &Piece, from: u64, out: &mut [u8]) -> Result<(), Failed>
        requires { from + length out.old ≤ length extent.now.bytes.now }
        ensures gives { GivesPart (Some extent.now.bytes.now) from out.new result }
        ensures cause { HasCause self.old.faults self.new.faults result }
        ensures planned { IsErr result ↔ Contains self.old.reads.failing.items self.old.reads.made }
        ensures counted { self.new.reads.made ≡ next_call self.old.reads.made }
        ensures plan { self.new.reads.failing ≡ self.old.reads.failing }
    {
        if self.reads.next_fails() {
            self.faults = self.faults.saturating_add(1);
            return Err(Failed);
        }
        let at = from as usize;
        out.copy_from_slice(&extent.bytes[at..at + out.len()]);
        return Ok(());
    }

    fn faults(&self) -> u64 {
        self.faults
    }
}

/// A live store that keeps what is appended and never fails. It counts what was appended and not yet appended through.
#[derive(Drop)]
pub struct QuietLive {
    alloc: Global,
    bytes: Vec<u8>,
    waiting: u64,
}

impl QuietLive {
    /// An empty store.
    pub fn new(alloc: Global) -> Self
        ensures { ⟦<QuietLive as LiveStore>⟧.state result ≡ record { held = Some []; faults = 0; waiting = 0 } }
    {
        QuietLive {
            alloc,
            bytes: Vec::new(alloc),
            waiting: 0,
        }
    }

    /// The bytes that it holds.
    pub fn bytes(&self) -> &[u8]
        ensures { (⟦<QuietLive as LiveStore>⟧.state self.now).held ≡ Some result.now }
    {
        &self.bytes
    }

    /// How many of its bytes would still wait in a store over a file.
    pub fn waiting(&self) -> u64
        ensures { result ≡ (⟦<QuietLive as LiveStore>⟧.state self.now).waiting }
    {
        self.waiting
    }

    /// The bytes that it held.
    pub fn into_bytes(self) -> Vec<u8>
        ensures { (⟦<QuietLive as LiveStore>⟧.state self).held ≡ Some result.items }
    {
        let QuietLive {
            alloc: _,
            bytes,
            waiting: _,
        } = self;
        bytes
    }
}

impl LiveStore for QuietLive {
    type Extent = Piece;

    type View = MemoryView;

    ghost state = { λ s. record { held = Some s.bytes.items; faults = 0; waiting = s.waiting } };

    fn append(&mut self, bytes: &[u8]) -> Result<Piece, AppendRefused> {
        let Ok(copy) = Vec::from_slice(self.alloc, bytes) else {
            return Err(AppendRefused::Memory);
        };
        let Ok(()) = self.bytes.extend_from_slice(bytes) else {
            return Err(AppendRefused::Memory);
        };
        self.waiting = self.waiting.saturating_add(bytes.len() as u64);
        Ok(Piece { bytes: copy.leak() })
    }

    fn append_through(&mut self, bytes: &[u8]) -> Result<Piece, AppendRefused> {
        match self.append(bytes) {
            Ok(piece) => {
                self.waiting = 0;
                return Ok(piece);
            }
            Err(why) => return Err(why),
        }
    }

    fn view(&mut self) -> Result<MemoryView, Failed> {
        Ok(MemoryView::new(Vec::new(self.alloc)))
    }

    fn faults(&self) -> u64 {
        0
    }
}

/// A live store that keeps what is appended, and fails where it is told to.
#[derive(Drop)]
pub struct MemoryLive {
    store: QuietLive,
    appends: PlannedWrites,
    faults: u64,
}

impl MemoryLive {
    /// An empty store. The appends are numbered from 0.
    pub fn new(alloc: Global, failing: Vec<FailingWrite>) -> Self
        ensures tells { ⟦<MemoryLive as LiveStore>⟧.state result ≡ record { held = Some []; faults = 0; waiting = 0 } }
        ensures plan { result.appends.failing ≡ failing }
        ensures made { result.appends.made ≡ 0 }
    {
        MemoryLive {
            store: QuietLive::new(alloc),
            appends: PlannedWrites { failing, made: 0 },
            faults: 0,
        }
    }

    /// The bytes that it holds.
    pub fn bytes(&self) -> &[u8]
        ensures { (⟦<MemoryLive as LiveStore>⟧.state self.now).held ≡ Some result.now }
    {
        self.store.bytes()
    }

    /// How many of its bytes would still wait in a store over a file.
    pub fn waiting(&self) -> u64
        ensures { result ≡ (⟦<MemoryLive as LiveStore>⟧.state self.now).waiting }
    {
        self.store.waiting()
    }

    /// The bytes that it held.
    pub fn into_bytes(self) -> Vec<u8>
        ensures { (⟦<MemoryLive as LiveStore>⟧.state self).held ≡ Some result.items }
    {
        let MemoryLive {
            store,
            appends: _,
            faults: _,
        } = self;
        store.into_bytes()
    }
}

impl LiveStore for MemoryLive {
    type Extent = Piece;

    type View = MemoryView;

    ghost state = { λ s. record { held = Some s.store.bytes.items; faults = s.faults; waiting = s.store.waiting } };

    fn append(&mut self, bytes: &[u8]) -> Result<Piece, AppendRefused>
        ensures adds { IfOk result (λ e. Adds (Some self.old.store.bytes.items) (Some self.new.store.bytes.items)
            bytes.now) }
        ensures extent { IfOk result (λ e. (length e.bytes.now ≡ length bytes.now)
            × ((before : List ℕ) → Some self.old.store.bytes.items ≡ Some before → Some e.bytes.now ≡ Some bytes.now)) }
        ensures names { IfOk result (λ e. (told : List ℕ) → Some e.bytes.now ≡ Some told → told ≡ bytes.now) }
        ensures leaves { IfErr result (AppendLeaves (Some self.old.store.bytes.items) (Some self.new.store.bytes.items)
            bytes.now) }
        ensures cause { AppendCause self.old.faults self.new.faults result }
        ensures waits { self.new.store.waiting ≤ self.old.store.waiting + length bytes.now }
        ensures planned { AppendsAsPlanned
            (planned self.old.appends.failing.items self.old.appends.made (length bytes.now)) result }
        ensures counted { self.new.appends.made ≡ next_call self.old.appends.made }
        ensures plan { self.new.appends.failing ≡ self.old.appends.failing }
    {
        let Some(taken) = self.appends.next_takes(bytes.len()) else {
            return self.store.append(bytes);
        };
        let Ok(()) = self.store.bytes.extend_from_slice(&bytes[..taken]) else {
            return Err(AppendRefused::Memory);
        };
        self.store.waiting = self.store.waiting.saturating_add(taken as u64);
        self.faults = self.faults.saturating_add(1);
        Err(AppendRefused::Failed {
            taken: taken as u64,
        })
    }

    fn append_through(&mut self, bytes: &[u8]) -> Result<Piece, AppendRefused>
        ensures adds { IfOk result (λ e. Adds (Some self.old.store.bytes.items) (Some self.new.store.bytes.items)
            bytes.now) }
        ensures extent { IfOk result (λ e. (length e.bytes.now ≡ length bytes.now)
            × ((before : List ℕ) → Some self.old.store.bytes.items ≡ Some before → Some e.bytes.now ≡ Some bytes.now)) }
        ensures names { IfOk result (λ e. (told : List ℕ) → Some e.bytes.now ≡ Some told → told ≡ bytes.now) }
        ensures leaves { IfErr result (AppendLeaves (Some self.old.store.bytes.items) (Some self.new.store.bytes.items)
            bytes.now) }
        ensures cause { AppendCause self.old.faults self.new.faults result }
        ensures waits { self.new.store.waiting ≤ self.old.store.waiting + length bytes.now }
        ensures through { OnOk result (self.new.store.waiting ≡ 0) }
        ensures planned { AppendsAsPlanned
            (planned self.old.appends.failing.items self.old.appends.made (length bytes.now)) result }
        ensures counted { self.new.appends.made ≡ next_call self.old.appends.made }
        ensures plan { self.new.appends.failing ≡ self.old.appends.failing }
    {
        match self.append(bytes) {
            Ok(piece) => {
                self.store.waiting = 0;
                return Ok(piece);
            }
            Err(why) => return Err(why),
        }
    }

    fn append_each<P: Pieces>(&mut self, pieces: &P) -> Result<(), EachRefused>
        ensures adds { OnOk result (Adds (Some self.old.store.bytes.items) (Some self.new.store.bytes.items)
            (concat (P.list pieces.now))) }
        ensures leaves { IfErr result (EachLeaves (Some self.old.store.bytes.items) (Some self.new.store.bytes.items)
            (P.list pieces.now)) }
        ensures cause { EachCause self.old.faults self.new.faults result }
        ensures waits { self.new.store.waiting ≤ self.old.store.waiting + length (concat (P.list pieces.now)) }
        // Each piece is a call.
        ensures planned { EachAsPlanned self.old.appends.failing.items self.old.appends.made self.new.appends.made
            (P.list pieces.now) result }
        ensures plan { self.new.appends.failing ≡ self.old.appends.failing }
    {
        let len = pieces.bytes().len();
        let mut at = 0;
        'pieces: while at < len {
            let piece = piece_at(pieces, at);
            match self.append(piece.bytes) {
                Ok(_) => at = piece.end,
                Err(why) => {
                    return Err(EachRefused {
                        whole: at as u64,
                        why,
                    });
                }
            }
        }
        return Ok(());
    }

    fn view(&mut self) -> Result<MemoryView, Failed> {
        self.store.view()
    }

    fn faults(&self) -> u64 {
        self.faults
    }
}
