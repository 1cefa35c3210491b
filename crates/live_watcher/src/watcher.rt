//! One watcher of a recording.
ghost use Rattle.std.specs.Prelude.{◌≡◌, ◌⊎◌, ◌≤◌, ◌∷◌, ◌++◌, [], length, true, false, None, Some};
ghost use mathlib.Core.List.{IsPrefix};
ghost use Rattle.mcap_io.specs.Outside.{RisesOnce};
ghost use Rattle.mcap_model.specs.declared.ends.End.{End as Last};
ghost use Rattle.live_directory.specs.Published.{entries_of, end_of};
ghost use Rattle.live_directory.specs.Histories.{published_front, AtLeast};
ghost use Rattle.live_watcher.specs.declared.report.WatchEnd.{WatchEnd};
ghost use Rattle.live_watcher.specs.declared.report.WatchEnd.TheVariants as watch_ends;
ghost use Rattle.live_watcher.specs.Text.{sealed_by, unsealed, Doubles};
ghost use Rattle.live_watcher.specs.Watching.{WatcherState, new_watcher, written_by, HoldsAllSealed, Watches};
ghost use Rattle.live_watcher.specs.WatcherSteps.{MayFollow, IsTold, HasTold, WatchedSince, EndsUnsealed};

use crate::pieces::{put_end, put_front, put_unsealed};
use crate::report::{WatchEnd, WatchReport};
use live_directory::{Naming, Note, Reader};
use mcap_io::{Extent, LiveView, Sink};
use mcap_model::{End, Range};
use mcap_wire::Memory;
use std::alloc::Global;
use std::marker::Model;
use std::sync::Wait;
use std::sync::atomic::AtomicBool;
use std::sync::atomic::Ordering::SeqCst;
use std::thread::Parker;
use std::time::Duration;

/// How long a watcher rests between two looks, in nanoseconds. Nobody wakes it, so that publishing costs the writer nothing for
/// each watcher; a look takes no memory and copies nothing, so that two hundred of them in a second cost next to nothing.
const REST: u64 = 5_000_000;

/// A watcher: the reader of what is published, the view through which it reads blocks, the sink that it writes to, and the log
/// times that it replays. Contracts see what the reader knows, and what was written.
#[derive(Drop)]
pub struct Watcher<X: Extent, J: Naming, V: LiveView<X>, K: Sink> {
    reader: Reader<X, J>,
    range: Range,
    view: V,
    sink: K,
    fronts: Vec<u64>,
    end: Option<WatchEnd>,
}

impl<X: Extent, J: Naming, V: LiveView<X>, K: Sink> Model for Watcher<X, J, V, K> {
    ghost use Rattle.live_watcher.specs.Watching.{WatcherState};

    ghost Value = { WatcherState X };

    ghost view = { λ w. record {
      reader = w.reader;
      range = w.range;
      written = record { fronts = w.fronts.items; end = w.end; sink = K.state w.sink; failures = V.failures w.view };
    } };
}

/// What a watcher comes back with: its report, its view and its sink.
#[derive(Drop)]
pub struct Watched<V, K> {
    pub report: WatchReport,
    pub view: V,
    pub sink: K,
}

// Whether a front of so many blocks is to be replayed behind these: the first with a block, and then each that has at least
// twice as many as the last one.
fn is_due(fronts: &[u64], blocks: u64) -> bool
    ensures follows { result ≡ true → MayFollow fronts.now blocks }
    ensures some { result ≡ true → 1 ≤ blocks }
    ensures told { result ≡ false → IsTold fronts.now blocks }
{
    let count = fronts.len();
    if count == 0 {
        return blocks > 0;
    }
    blocks > 0 && blocks / 2 >= fronts[count - 1]
}

impl<X: Extent, J: Naming, V: LiveView<X>, K: Sink> Watcher<X, J, V, K> {
    /// A watcher that has written nothing. It replays the messages of the range.
    pub fn new(alloc: Global, reader: Reader<X, J>, view: V, sink: K, range: Range) -> Self
        ensures { result ≡ new_watcher reader range (K.state sink) (V.failures view) }
    {
        Watcher {
            reader,
            range,
            view,
            sink,
            fronts: Vec::new(alloc),
            end: None,
        }
    }

    // Writes the line of the front that the reader holds.
    fn write_front(&mut self, alloc: Global, blocks: u64)
        requires goes_on { self.old.written.end ≡ None }
        requires blocks { blocks ≡ length self.old.reader.entries }
        requires due { MayFollow self.old.written.fronts blocks }
        ensures since { (first : WatcherState X) → WatchedSince X.tells first self.old
            → WatchedSince X.tells first self.new }
        ensures reader { self.new.reader ≡ self.old.reader }
        ensures told { self.new.written.end ≡ None → self.new.written.fronts ≡ self.old.written.fronts ++ blocks ∷ [] }
    {
        if self.fronts.reserve(1).is_err() {
            self.end = Some(WatchEnd::Memory);
            return;
        }
        let put = put_front(
            alloc,
            self.reader.entries(),
            &mut self.view,
            self.range,
            &mut self.sink,
        );
        match put {
            Ok(()) => self.fronts.push_reserved(blocks),
            Err(why) => self.end = Some(why),
        }
    }

    // Writes the end, and the lines of all blocks.
    fn write_end(&mut self, alloc: Global, end: End)
        requires goes_on { self.old.written.end ≡ None }
        requires holds { HoldsAllSealed self.old.reader (sealed_by end) }
        ensures since { (first : WatcherState X) → WatchedSince X.tells first self.old
            → WatchedSince X.tells first self.new }
        ensures reader { self.new.reader ≡ self.old.reader }
        ensures ended { self.new.written.end ≡ None → ⊥ }
    {
        let put = put_end(
            alloc,
            self.reader.entries(),
            &mut self.view,
            self.range,
            &mut self.sink,
            end,
        );
        match put {
            Ok(()) => self.end = Some(WatchEnd::Whole),
            Err(why) => self.end = Some(why),
        }
    }

    // Takes in what is published, and replays it where it is all, or a front that is due.
    fn take_in<R: Wait>(&mut self, rt: &R, alloc: Global)
        requires goes_on { self.old.written.end ≡ None }
        ensures since { (first : WatcherState X) → WatchedSince X.tells first self.old
            → WatchedSince X.tells first self.new }
        ensures knows { IsPrefix self.old.reader.known self.new.reader.known }
        ensures rises { AtLeast (published_front self.old.reader.known) (published_front self.new.reader.known) }
        ensures ended { (end : Last) → end_of self.old.reader.known ≡ Some end → self.new.written.end ≡ None → ⊥ }
        ensures told { HasTold self.new }
    {
        // What the reader holds are first entries of what it knows.
        let _held = self.reader.entries();
        let front = match self.reader.refresh(rt) {
            Ok(front) => front,
            Err(Memory) => {
                self.end = Some(WatchEnd::Memory);
                return;
            }
        };
        match front.end {
            Some(end) => self.write_end(alloc, end),
            None => {
                if is_due(self.fronts.as_slice(), front.blocks) {
                    self.write_front(alloc, front.blocks);
                }
            }
        }
    }

    // Looks once at what is published, and says whether the watcher goes on.
    fn look<R: Wait>(&mut self, rt: &R, alloc: Global) -> bool
        ensures since { (first : WatcherState X) → WatchedSince X.tells first self.old
            → WatchedSince X.tells first self.new }
        ensures stays { (why : WatchEnd) → self.old.written.end ≡ Some why → self.new.written ≡ self.old.written }
        ensures told { HasTold self.new }
    {
        if self.end.is_some() {
            return false;
        }
        let front = self.reader.front();
        if front.end.is_some() || is_due(self.fronts.as_slice(), front.blocks) {
            self.take_in(rt, alloc);
        }
        self.end.is_none()
    }

    /// Watches what is published beside it: the first front with a block that it sees, and then each that has at least twice as
    /// many as the last one; and once it sees the end, all. It comes back when it has written its end, or was refused, or
    /// `tried`, which the writer raises once it has tried to seal the directory, was raised before it looked and found no end.
    /// One that has ended writes nothing more. The directory isn't closed before `finish`.
    pub fn run<R: Wait>(&mut self, rt: &R, alloc: Global, tried: &AtomicBool)
        ensures since { (first : WatcherState X) → WatchedSince X.tells first self.old
            → WatchedSince X.tells first self.new }
        ensures stays { (why : WatchEnd) → self.old.written.end ≡ Some why → self.new.written ≡ self.old.written }
        ensures told { HasTold self.new }
    {
        let parker = Parker::new();
        'looks: for _ in rt.forever() {
            // The flag is looked at before the directory, so that an end which stood before the flag isn't missed.
            let last = tried.load(SeqCst);
            if !self.look(rt, alloc) || last {
                return;
            }
            parker.park_timeout(rt, Duration::from_nanos(REST));
        }
        unreachable!()
    }

    // What a watcher that has ended comes back with.
    fn into_watched(self, end: WatchEnd) -> Watched<V, K>
        requires { self.written.end ≡ Some end }
        ensures { written_by (K.state result.sink) (V.failures result.view) result.report ≡ self.written }
    {
        let Watcher {
            reader: _,
            range: _,
            view,
            sink,
            fronts,
            end: _,
        } = self;
        Watched {
            report: WatchReport { fronts, end },
            view,
            sink,
        }
    }

    // Takes in what the note tells.
    fn learn(&mut self, note: &Note<X, J>)
        ensures since { (first : WatcherState X) → WatchedSince X.tells first self.old
            → WatchedSince X.tells first self.new }
        ensures stays { self.new.written ≡ self.old.written }
        ensures learnt { IsPrefix note.now self.new.reader.known }
        ensures rises { AtLeast (published_front note.now) (published_front self.new.reader.known) }
    {
        self.reader.learn(note);
    }

    // Writes the end, unless the watcher has ended, and says why it has.
    fn conclude<R: Wait>(&mut self, rt: &R, alloc: Global) -> WatchEnd
        requires sealed { (end : Last) × (end_of self.old.reader.known ≡ Some end) }
        ensures since { (first : WatcherState X) → WatchedSince X.tells first self.old
            → WatchedSince X.tells first self.new }
        ensures stays { (why : WatchEnd) → self.old.written.end ≡ Some why → self.new.written ≡ self.old.written }
        ensures knows { IsPrefix self.old.reader.known self.new.reader.known }
        ensures rises { AtLeast (published_front self.old.reader.known) (published_front self.new.reader.known) }
        ensures ended { self.new.written.end ≡ Some result }
    {
        match self.end {
            Some(end) => return end,
            None => {}
        }
        self.take_in(rt, alloc);
        match self.end {
            Some(end) => return end,
            None => unreachable!(),
        }
    }

    /// Writes what is left, once the threads of the recording were joined, where its directory was sealed: the note is that of
    /// the seal. The end and the lines of all blocks are written now, unless the watcher has ended. The directory isn't closed
    /// before.
    pub fn finish<R: Wait>(self, rt: &R, alloc: Global, note: &Note<X, J>) -> Watched<V, K>
        requires sealed { (end : Last) × (end_of note.now ≡ Some end) }
        ensures watches { (first : WatcherState X) (end : Last) → WatchedSince X.tells first self
            → end_of note.now ≡ Some end
            → Watches X.tells first.range (entries_of note.now) (sealed_by end) first.written
            (written_by (K.state result.sink) (V.failures result.view) result.report) }
        ensures stays { (why : WatchEnd) → self.written.end ≡ Some why
            → written_by (K.state result.sink) (V.failures result.view) result.report ≡ self.written }
    {
        let mut watcher = self;
        watcher.learn(note);
        let end = watcher.conclude(rt, alloc);
        let _held = watcher.reader.entries();
        watcher.into_watched(end)
    }

    // Waits until the note has all that the reader knows. It does at once: what is found was shown, and a note of all that is
    // shown has it, but that isn't said of a history of which each thread knows a beginning.
    fn await_note<R: Wait>(&self, rt: &R, note: &Note<X, J>)
        ensures { IsPrefix self.now.reader.known note.now }
    {
        for _ in rt.forever() {
            if self.reader.is_within(note) {
                return;
            }
        }
        unreachable!()
    }

    // Writes that there is no end, unless the watcher has ended, and says why it has.
    fn conclude_unsealed(&mut self) -> WatchEnd
        ensures since { (first : WatcherState X) → WatchedSince X.tells first self.old
            → EndsUnsealed X.tells first self.old.reader self.new.written }
        ensures reader { self.new.reader ≡ self.old.reader }
        ensures stays { (why : WatchEnd) → self.old.written.end ≡ Some why → self.new.written ≡ self.old.written }
        ensures ends { self.old.written.end ≡ None
            → (result ≡ watch_ends.Unsealed) ⊎ RisesOnce self.old.written.sink.faults self.new.written.sink.faults }
        ensures ended { self.new.written.end ≡ Some result }
    {
        match self.end {
            Some(end) => return end,
            None => {}
        }
        match put_unsealed(&mut self.sink) {
            Ok(()) => {
                self.end = Some(WatchEnd::Unsealed);
                return WatchEnd::Unsealed;
            }
            Err(why) => {
                self.end = Some(why);
                return why;
            }
        }
    }

    /// Writes that there is no end, unless the watcher has ended, once the threads of the recording were joined, where its
    /// directory wasn't sealed: the note is that of what readers find there.
    pub fn finish_unsealed<R: Wait>(self, rt: &R, note: &Note<X, J>) -> Watched<V, K>
        requires unsealed { end_of note.now ≡ None }
        ensures watches { (first : WatcherState X) → WatchedSince X.tells first self
            → Watches X.tells first.range (entries_of note.now) unsealed first.written
            (written_by (K.state result.sink) (V.failures result.view) result.report) }
        ensures stays { (why : WatchEnd) → self.written.end ≡ Some why
            → written_by (K.state result.sink) (V.failures result.view) result.report ≡ self.written }
        ensures ends { self.written.end ≡ None
            → (result.report.end ≡ watch_ends.Unsealed)
            ⊎ RisesOnce self.written.sink.faults (K.state result.sink).faults }
    {
        let mut watcher = self;
        watcher.await_note(rt, note);
        let end = watcher.conclude_unsealed();
        let _held = watcher.reader.entries();
        watcher.into_watched(end)
    }
}
