//! How much of its inputs a merge holds and asks for, and what it leaves where they fail or change while they are read again.
ghost use Rattle.std.specs.Prelude.{◌≡◌, ◌≤◌};
ghost use Rattle.io_files.specs.Files.{nothing};
ghost use Rattle.mcap_wire.specs.Limits.{chunk_size_limit};

use crate::merges::{CHANNEL_A, FIRST, counts, stand};
use crate::same::{holds, holds_at};
use crate::scribes::chunked;
use io_memory::{MemoryLive, MemoryStore, MemoryView, Piece, QuietLive, QuietStore};
use mcap_io::{AppendRefused, Failed, LiveStore, Store};
use mcap_merge::{MergeRefused, Merged, merge};
use mcap_model::ReadingRefused;
use std::alloc::Global;
use std::mem::swap;
use std::sync::atomic::AtomicU64;
use std::sync::atomic::Ordering::SeqCst;
use std::test::Fail;

// A Message of one byte on channel 1, of that sequence and log time. It has 32 bytes.
fn message(sequence: u8, log_time: u8) -> [u8; 32] {
    [
        5, 23, 0, 0, 0, 0, 0, 0, 0, 1, 0, sequence, 0, 0, 0, log_time, 0, 0, 0, 0, 0, 0, 0, 9, 0,
        0, 0, 0, 0, 0, 0, 0xaa,
    ]
}

// A file of the Channel, of 27 bytes, and a Message at each of both times, in chunks of that size. In chunks of 59 bytes it has
// 671, its second chunk begins at 173, and that one's only record at 222.
fn two_messages(
    alloc: Global,
    chunk: u64,
    first: [u8; 32],
    second: [u8; 32],
) -> Result<Vec<u8>, Fail>
    requires { (1 ≤ chunk) × (chunk ≤ chunk_size_limit) }
{
    chunked(alloc, chunk, &[CHANNEL_A, &first, &second])
}

// A merge: its answer and the new file.
#[derive(Drop)]
struct Merging {
    answer: Result<Merged, MergeRefused>,
    bytes: Vec<u8>,
}

// Merges the stores in chunks of that size.
fn merge_stores<T: Store>(alloc: Global, stores: &mut Vec<T>, chunk: u64) -> Result<Merging, Fail>
    requires { (1 ≤ chunk) × (chunk ≤ chunk_size_limit) }
{
    if stores.is_empty() || stores.len() > 64 {
        return Err(Fail::from("so many stores aren't tried"));
    }
    let live = MemoryLive::new(alloc, Vec::new(alloc));
    let (live, answer) = merge(alloc, stores, live, chunk);
    Ok(Merging {
        answer,
        bytes: live.into_bytes(),
    })
}

// Whether it is merged, and no fewer and no more bytes of chunks were held at one time than these.
fn holds_between(answer: &Result<Merged, MergeRefused>, least: u64, most: u64) -> bool {
    match answer {
        Ok(merged) => least <= merged.peak && merged.peak <= most,
        Err(_) => false,
    }
}

#[test]
fn two_copies_are_asked_for_at_most_twice_and_held_while_they_overlap(
    rt: HostRuntime,
) -> Result<(), Fail> {
    let alloc = rt.alloc();
    let mut stores = Vec::new(alloc);
    for _ in 0..2 {
        let file = two_messages(alloc, 59, message(1, 10), message(2, 11))?;
        holds_at(&rt, file.len() == 671, &file.len());
        stores.push(QuietStore::new(file))?;
    }
    let merging = merge_stores(alloc, &mut stores, 786_432)?;
    holds(&rt, counts(&merging.answer, 4, 5));
    holds(&rt, holds_between(&merging.answer, 59, 118));
    for store in stores.iter() {
        holds_at(&rt, store.asked() <= 1342, &store.asked());
    }
    Ok(())
}

// The messages of two files of one chunk each, of 91 bytes, and how much may be held of them. Of equal times that of the first
// file comes first.
fn merge_two(alloc: Global, first: [[u8; 32]; 2], second: [[u8; 32]; 2]) -> Result<Merging, Fail> {
    let [a, b] = first;
    let [c, d] = second;
    let mut stores = Vec::new(alloc);
    stores.push(QuietStore::new(two_messages(alloc, 786_432, a, b)?))?;
    stores.push(QuietStore::new(two_messages(alloc, 786_432, c, d)?))?;
    merge_stores(alloc, &mut stores, 786_432)
}

#[test]
fn inputs_of_the_same_times_are_held_together(rt: HostRuntime) -> Result<(), Fail> {
    let (a, b, c, d) = (
        message(1, 10),
        message(2, 20),
        message(3, 10),
        message(4, 20),
    );
    let merging = merge_two(rt.alloc(), [a, b], [c, d])?;
    holds(&rt, counts(&merging.answer, 4, 5));
    holds(&rt, holds_between(&merging.answer, 182, 182));
    let wanted: [&[u8]; 5] = [CHANNEL_A, &a, &c, &b, &d];
    holds(&rt, stand(merging.bytes.as_slice(), FIRST, &wanted));
    Ok(())
}

#[test]
fn inputs_one_behind_the_other_are_held_one_by_one(rt: HostRuntime) -> Result<(), Fail> {
    let (a, b, c, d) = (
        message(1, 10),
        message(2, 11),
        message(3, 20),
        message(4, 21),
    );
    let merging = merge_two(rt.alloc(), [c, d], [a, b])?;
    holds(&rt, counts(&merging.answer, 4, 5));
    holds(&rt, holds_between(&merging.answer, 91, 91));
    let wanted: [&[u8]; 5] = [CHANNEL_A, &a, &b, &c, &d];
    holds(&rt, stand(merging.bytes.as_slice(), FIRST, &wanted));
    Ok(())
}

#[test]
fn inputs_that_meet_at_one_time_keep_the_order_of_inputs(rt: HostRuntime) -> Result<(), Fail> {
    let (a, b, c, d) = (
        message(1, 10),
        message(2, 20),
        message(3, 20),
        message(4, 30),
    );
    let merging = merge_two(rt.alloc(), [a, b], [c, d])?;
    holds(&rt, counts(&merging.answer, 4, 5));
    holds(&rt, holds_between(&merging.answer, 91, 182));
    let wanted: [&[u8]; 5] = [CHANNEL_A, &a, &b, &c, &d];
    holds(&rt, stand(merging.bytes.as_slice(), FIRST, &wanted));
    Ok(())
}

#[test]
fn sixty_four_inputs_are_merged(rt: HostRuntime) -> Result<(), Fail> {
    let alloc = rt.alloc();
    let mut stores = Vec::new(alloc);
    for n in 0..64u8 {
        let file = two_messages(alloc, 59, message(n, 10), message(n, 11))?;
        stores.push(QuietStore::new(file))?;
    }
    let merging = merge_stores(alloc, &mut stores, 786_432)?;
    holds(&rt, counts(&merging.answer, 128, 129));
    // The chunks at 10 have 59 bytes each, and those at 11 have 32.
    holds(&rt, holds_between(&merging.answer, 59, 3776));
    let (first, second) = (message(0, 10), message(1, 10));
    let wanted: [&[u8]; 3] = [CHANNEL_A, &first, &second];
    holds(&rt, stand(merging.bytes.as_slice(), FIRST, &wanted));
    let last: &[u8] = &message(63, 11);
    holds(
        &rt,
        stand(merging.bytes.as_slice(), FIRST + 27 + 127 * 32, &[last]),
    );
    Ok(())
}

// ---- the order of calls

// The next number of a call.
fn next_call(calls: &AtomicU64) -> u64 {
    calls.fetch_add(1, SeqCst)
}

// A store that tells nothing and notes its last reading: the number of that call among all, where it begins, and its length.
#[derive(Drop)]
struct NumberedStore<'c> {
    store: QuietStore,
    calls: &'c AtomicU64,
    last_call: u64,
    last_at: u64,
    last_len: usize,
}

impl Store for NumberedStore<'_> {
    ghost state = { λ s. record
        { bytes = nothing; known = (⟦<QuietStore as Store>⟧.state s.store).known; faults = (⟦<QuietStore as Store>⟧.state s.store).faults; asked = (⟦<QuietStore as Store>⟧.state s.store).asked } };

    fn len(&mut self) -> Result<u64, Failed> {
        self.store.len()
    }

    fn read_at(&mut self, at: u64, out: &mut [u8]) -> Result<(), Failed> {
        self.last_call = next_call(self.calls);
        self.last_at = at;
        self.last_len = out.len();
        self.store.read_at(at, out)
    }

    fn asked(&self) -> u128 {
        self.store.asked()
    }

    fn faults(&self) -> u64 {
        self.store.faults()
    }

    ghost within = { λ s bytes told. Prim.cc };
}

// A live store that notes the number of its second append, which is that of the first block.
#[derive(Drop)]
struct NumberedLive<'c> {
    store: QuietLive,
    calls: &'c AtomicU64,
    appends: u64,
    block_call: u64,
}

impl NumberedLive<'_> {
    // Notes an append.
    fn note(&mut self)
        ensures { self.new.store ≡ self.old.store }
    {
        let call = next_call(self.calls);
        self.appends = self.appends.saturating_add(1);
        if self.appends == 2 {
            self.block_call = call;
        }
    }
}

impl LiveStore for NumberedLive<'_> {
    type Extent = Piece;

    type View = MemoryView;

    ghost state = { λ s. ⟦<QuietLive as LiveStore>⟧.state s.store };

    fn append(&mut self, bytes: &[u8]) -> Result<Piece, AppendRefused> {
        self.note();
        self.store.append(bytes)
    }

    fn append_through(&mut self, bytes: &[u8]) -> Result<Piece, AppendRefused> {
        self.note();
        self.store.append_through(bytes)
    }

    fn view(&mut self) -> Result<MemoryView, Failed> {
        self.store.view()
    }

    fn faults(&self) -> u64 {
        self.store.faults()
    }
}

// A store of the bytes whose calls are numbered.
fn numbered(bytes: Vec<u8>, calls: &AtomicU64) -> NumberedStore<'_> {
    NumberedStore {
        store: QuietStore::new(bytes),
        calls,
        last_call: 0,
        last_at: 0,
        last_len: 0,
    }
}

#[test]
fn the_first_block_is_written_before_the_last_chunk_is_read_again(
    rt: HostRuntime,
) -> Result<(), Fail> {
    let alloc = rt.alloc();
    let calls = AtomicU64::new(0);
    let mut stores = Vec::new(alloc);
    let early = two_messages(alloc, 59, message(1, 10), message(2, 11))?;
    let late = two_messages(alloc, 59, message(3, 20), message(4, 21))?;
    stores.push(numbered(early, &calls))?;
    stores.push(numbered(late, &calls))?;
    let live = NumberedLive {
        store: QuietLive::new(alloc),
        calls: &calls,
        appends: 0,
        block_call: 0,
    };
    let (live, answer) = merge(alloc, &mut stores, live, 59);
    holds(&rt, counts(&answer, 4, 5));
    holds(&rt, live.appends >= 2);
    let Some(last) = stores.pop() else {
        return Err(Fail::from("the stores are gone"));
    };
    holds_at(
        &rt,
        (last.last_at, last.last_len) == (222, 32),
        &last.last_at,
    );
    holds_at(&rt, live.block_call < last.last_call, &live.block_call);
    Ok(())
}

// ---- inputs that fail or change

#[test]
fn a_reading_that_fails_leaves_a_first_part(rt: HostRuntime) -> Result<(), Fail> {
    let alloc = rt.alloc();
    let mut whole = Vec::new(alloc);
    whole.push(QuietStore::new(two_messages(alloc, 59, message(1, 10), message(2, 11))?))?;
    let whole = merge_stores(alloc, &mut whole, 59)?;
    holds(&rt, counts(&whole.answer, 2, 3));
    let mut left = 0;
    for call in 0..64u64 {
        let mut failing = Vec::new(alloc);
        failing.push(call)?;
        let file = two_messages(alloc, 59, message(1, 10), message(2, 11))?;
        let mut stores = Vec::new(alloc);
        stores.push(MemoryStore::new(file, failing))?;
        let merging = merge_stores(alloc, &mut stores, 59)?;
        holds_at(
            &rt,
            whole.bytes.starts_with(merging.bytes.as_slice()),
            &call,
        );
        let Some(store) = stores.pop() else {
            return Err(Fail::from("the store is gone"));
        };
        if store.faults() == 0 {
            holds_at(&rt, merging.bytes.len() == whole.bytes.len(), &call);
            holds_at(&rt, left == 173, &left);
            return Ok(());
        }
        let is_told = matches!(
            merging.answer,
            Err(MergeRefused::Halted {
                input: 0,
                why: ReadingRefused::Fault { faults: 1 }
            })
        );
        holds_at(&rt, is_told, &call);
        left = merging.bytes.len();
    }
    Err(Fail::from("no run had fewer readings"))
}

// A store that tells nothing, and has other bytes once one behind the place was asked for.
#[derive(Drop)]
struct ChangingStore {
    bytes: Vec<u8>,
    later: Vec<u8>,
    place: usize,
    known: u64,
    asked: u128,
    faults: u64,
}

impl Store for ChangingStore {
    ghost state = { λ s. record { bytes = nothing; known = s.known; faults = s.faults; asked = s.asked } };

    fn len(&mut self) -> Result<u64, Failed> {
        let len = self.bytes.len() as u64;
        self.known = self.known.max(len);
        Ok(len)
    }

    fn read_at(&mut self, at: u64, out: &mut [u8]) -> Result<(), Failed> {
        self.asked = self.asked.saturating_add(out.len() as u128);
        let from = at as usize;
        if from > self.bytes.len() || out.len() > self.bytes.len() - from {
            self.faults = self.faults.saturating_add(1);
            return Err(Failed);
        }
        let end = from + out.len();
        out.copy_from_slice(&self.bytes[from..end]);
        if end > self.place {
            swap(&mut self.bytes, &mut self.later);
            self.place = usize::MAX;
        }
        Ok(())
    }

    fn asked(&self) -> u128 {
        self.asked
    }

    fn faults(&self) -> u64 {
        self.faults
    }

    ghost within = { λ s bytes told. Prim.cc };
}

// A store that changes once bytes behind the place were asked for.
fn changing(bytes: Vec<u8>, later: Vec<u8>, place: usize) -> ChangingStore {
    ChangingStore {
        bytes,
        later,
        place,
        known: 0,
        asked: 0,
        faults: 0,
    }
}

// The Data End of a file of two messages in chunks of 59 bytes begins there.
const DATA_END: usize = 285;

// A store whose second message has another log time once its Data End was read.
fn changed_store(alloc: Global) -> Result<ChangingStore, Fail> {
    let bytes = two_messages(alloc, 59, message(1, 10), message(2, 11))?;
    let later = two_messages(alloc, 59, message(1, 10), message(2, 12))?;
    Ok(changing(bytes, later, DATA_END))
}

#[test]
fn a_chunk_that_changed_is_named(rt: HostRuntime) -> Result<(), Fail> {
    let alloc = rt.alloc();
    let mut stores = Vec::new(alloc);
    stores.push(changed_store(alloc)?)?;
    let merging = merge_stores(alloc, &mut stores, 59)?;
    let is_named = matches!(
        merging.answer,
        Err(MergeRefused::Changed {
            input: 0,
            offset: 173
        })
    );
    holds(&rt, is_named);
    holds_at(&rt, merging.bytes.len() == 173, &merging.bytes.len());
    Ok(())
}

#[test]
fn a_second_input_that_changed_is_named_as_the_second(rt: HostRuntime) -> Result<(), Fail> {
    let alloc = rt.alloc();
    let mut stores = Vec::new(alloc);
    let same = two_messages(alloc, 59, message(3, 10), message(4, 11))?;
    stores.push(changing(same, Vec::new(alloc), usize::MAX))?;
    stores.push(changed_store(alloc)?)?;
    let merging = merge_stores(alloc, &mut stores, 59)?;
    let is_named = matches!(
        merging.answer,
        Err(MergeRefused::Changed {
            input: 1,
            offset: 173
        })
    );
    holds(&rt, is_named);
    Ok(())
}
