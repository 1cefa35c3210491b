//! The outside over files: sources that read ahead, live stores that gather what is appended, stores that keep blocks, and
//! the world of files under names.
#![tactic(auto)]

mod ahead;
mod blocks;
mod files;
mod gather;
mod inputs;
mod store_files;
mod writer;

pub use files::{FileLive, FileSource, FileView, FileWorld, Stretch};
pub use store_files::FileStore;
pub use writer::WriterSink;
