//! How a watcher ended.

use mcap_model::Rule;

/// Why a watcher ended.
#[derive(Clone, Copy, Debug, PartialEq, Eq)]
pub enum WatchEnd {
    /// The directory was sealed, and all was written.
    Whole,
    /// The directory wasn't sealed, and that was written.
    Unsealed,
    /// Its sink or its view failed: this is the count of faults of the one that did.
    Fault { faults: u64 },
    /// What the view reads breaks that rule at that offset of the file, as where another program changes it.
    Flaw { rule: Rule, offset: u64 },
    /// Memory lacked.
    Memory,
}

/// What a watcher has to report: how many blocks each front had whose line it wrote, and why it ended.
#[derive(Drop)]
pub struct WatchReport {
    pub fronts: Vec<u64>,
    pub end: WatchEnd,
}
