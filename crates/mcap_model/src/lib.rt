//! What an MCAP file is: its records and rules, what a reading keeps of it and where it halts, its messages and their
//! replay, the file of a list of records, and what repairing keeps of one. `judge` says whether a record may stand behind
//! those before it; `scan_plain` and `replay_plain` are the plain, slow programs whose contracts are the definitions.
#![tactic(auto)]

mod block;
mod channel_table;
mod checked;
mod chunks;
mod contents;
mod ends;
mod inner;
mod options;
mod plain;
mod refusals;
mod replay;
mod replaying;
mod rules;
mod same;
mod showing;
mod table;
mod tables;
mod taking;
mod times;
mod topics;
mod tops;
mod views;

pub use block::{Block, IndexPart};
pub use channel_table::ChannelTable;
pub use checked::{Counts, Verdict};
pub use ends::{End, Stop};
pub use inner::{Inner, InnerWalk};
pub use options::{FileOptions, RecordOptions};
pub use plain::scan_plain;
pub use refusals::{IndexedRefused, NotIndexed, ReadingRefused};
pub use replay::{Place, Range, Replayed, Shown, Topic};
pub use replaying::{is_within, put_in_order, replay_plain};
pub use rules::Rule;
pub use table::Table;
pub use tables::{Ruling, Tables};
pub use topics::topics_of;
pub use tops::{Judged, judge, judge_first};
pub use views::{RecordView, view_record};
