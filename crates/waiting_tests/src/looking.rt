//! Waiting for a flag.
use std::hint::spin_loop;
use std::sync::atomic::AtomicBool;
use std::sync::atomic::Ordering::SeqCst;

// How often is looked before that is given up.
const LOOKS: u32 = 50_000_000;

/// Whether the flag was raised within that many looks.
pub(crate) fn is_raised(flag: &AtomicBool) -> bool {
    for _ in 0..LOOKS {
        if flag.load(SeqCst) {
            return true;
        }
        spin_loop();
    }
    false
}
