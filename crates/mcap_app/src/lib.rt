//! The program: its words, and what each command does to the world and to both outputs.
#![tactic(auto)]

pub mod filtered_laws;
pub mod laws;
mod program;

pub use command_base::{BAD_WORDS_STATUS, Status, refuse_for_memory};
pub use command_record::RecordingReport;
pub use command_words::{
    Command, FileCommand, FileFilter, FileMerge, FileRecovery, FileSort, Generation, Inspection,
    Names, Playing, Printing, Recording, WordsRefused, parse_words,
};
pub use live_watcher::{WatchEnd, WatchReport};
pub use mcap_model::{End, ReadingRefused, Stop};
pub use program::{Exit, run};
pub use recorder::{
    Accepted, CallRefused, DeclaredAt, FeedEnd, FeedReport, Listing, Refusals, Refused, Report,
    WriterReport,
};
