//! What is published.
use live_entry::Entry;
use mcap_model::End;
use std::collections::LinkedList;

/// How many blocks are published, and how the recording ended, once that is known.
#[derive(Clone, Copy, Debug, PartialEq, Eq)]
pub struct Front {
    pub blocks: u64,
    pub end: Option<End>,
}

/// What one call published: these entries, and an end where the call sealed the directory. No value of it is made.
pub struct Added<X> {
    pub entries: LinkedList<Entry<X>>,
    pub end: Option<End>,
}

/// The same, before it is published.
#[derive(Drop)]
pub struct Batch<X> {
    pub entries: Vec<Entry<X>>,
    pub end: Option<End>,
}
