//! What a check of a file comes to.

use crate::rules::Rule;

/// How many records of each kind a file has.
#[derive(Clone, Copy)]
pub struct Counts {
    pub messages: u64,
    pub channels: u64,
    pub schemas: u64,
    pub chunks: u64,
    pub attachments: u64,
    pub metadata: u64,
}

/// A file is valid and fully indexed; it is valid; or that rule fails at that offset.
#[derive(Clone, Copy)]
pub enum Verdict {
    Indexed { counts: Counts },
    Plain { counts: Counts },
    Flawed { rule: Rule, offset: u64 },
}
