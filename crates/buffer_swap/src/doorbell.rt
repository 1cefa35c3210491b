//! How a drain that rests is told that there may be something for it. It is told by flags, so that a ring is never lost: a ring
//! before the drain rests lets it not rest at all. What a ring or a rest does to threads is no part of any contract.
use std::sync::Wait;
use std::sync::atomic::AtomicBool;
use std::sync::atomic::Ordering::SeqCst;
use std::thread::{Parker, yield_now};
use std::time::Duration;

// How long a drain that was only roused lets more gather, in nanoseconds: a feed that goes on doesn't cost a swap for each
// message then, and what a slow one sent is taken within that time.
const GATHERING: u64 = 1_000_000;

#[derive(Drop)]
pub(crate) struct Doorbell {
    // Since the last swap the buffer was seen to be worth one.
    ripe: AtomicBool,
    // Since the last swap the buffer was seen to hold so much that the drain should have come.
    overdue: AtomicBool,
    // Since the last swap somebody waits for what there is.
    roused: AtomicBool,
    // An end was set: the drain rests no more.
    ended: AtomicBool,
    // The drain rests, or is about to.
    resting: AtomicBool,
    // Since the last swap something was accepted. It is changed in a turn alone.
    filled: AtomicBool,
    parker: Parker,
}

impl Doorbell {
    pub(crate) fn new() -> Doorbell {
        Doorbell {
            ripe: AtomicBool::new(false),
            overdue: AtomicBool::new(false),
            roused: AtomicBool::new(false),
            ended: AtomicBool::new(false),
            resting: AtomicBool::new(false),
            filled: AtomicBool::new(false),
            parker: Parker::new(),
        }
    }

    // The flags stand before this looks whether the drain rests, and the drain says that it rests before it looks at the flags:
    // so one of both sees the other.
    fn wake(&self) {
        if self.resting.load(SeqCst) {
            self.parker.unpark();
        }
    }

    /// Wakes the drain where it rests, and lets it not rest before its next swap. Behind an earlier ring it does nothing.
    pub(crate) fn ring(&self) {
        if self.ripe.load(SeqCst) {
            return;
        }
        self.ripe.store(true, SeqCst);
        self.wake();
    }

    /// The same, but the drain may let more gather for a moment.
    pub(crate) fn rouse(&self) {
        if self.roused.load(SeqCst) {
            return;
        }
        self.roused.store(true, SeqCst);
        self.wake();
    }

    /// Lets the system run another thread, once before the next swap: the drain may wait for this thread's processor. Else the
    /// buffer would grow for a whole slice of time, and leave the processor's cache.
    pub(crate) fn give_way(&self) {
        if self.overdue.load(SeqCst) {
            return;
        }
        self.overdue.store(true, SeqCst);
        yield_now();
    }

    /// Wakes the drain where it rests, and lets it never rest again.
    pub(crate) fn ring_for_good(&self) {
        self.ended.store(true, SeqCst);
        self.wake();
    }

    /// Notes that something was accepted, in the turn in which that was. Behind the first of a buffer it writes nothing, since
    /// a store that all threads see costs as much as a step of the turn.
    pub(crate) fn fill(&self) {
        if !self.filled.load(SeqCst) {
            self.filled.store(true, SeqCst);
        }
    }

    /// Whether something was accepted since the last swap.
    pub(crate) fn is_filled(&self) -> bool {
        self.filled.load(SeqCst)
    }

    /// Forgets the rings so far, in the turn of a swap: all that they were of is taken then.
    pub(crate) fn forget(&self) {
        self.filled.store(false, SeqCst);
        self.ripe.store(false, SeqCst);
        self.overdue.store(false, SeqCst);
        self.roused.store(false, SeqCst);
    }

    fn is_due(&self) -> bool {
        self.ripe.load(SeqCst) || self.ended.load(SeqCst)
    }

    // Sleeps until there is a ring, if there was none since the last swap.
    fn sleep<R: Wait>(&self, rt: &R) {
        for _ in rt.forever() {
            if self.is_due() || self.roused.load(SeqCst) {
                return;
            }
            self.parker.park(rt);
        }
    }

    /// Sleeps until there is a ring, if there was none since the last swap; where it was only roused it lets more gather. One
    /// thread at a time rests.
    pub(crate) fn rest<R: Wait>(&self, rt: &R) {
        self.resting.store(true, SeqCst);
        self.sleep(rt);
        if !self.is_due() {
            self.parker
                .park_timeout(rt, Duration::from_nanos(GATHERING));
        }
        self.resting.store(false, SeqCst);
    }
}
