//! The words of the program: which command they are.
#![tactic(auto)]

mod command;
mod command_line;
mod found;
mod options;
mod parse;
mod read;
mod rewriting;
mod selecting;
mod verbs;
mod watches;

pub use command::{
    Command, FileCommand, FileFilter, FileMerge, FileRecovery, FileSort, Generation, Inspection,
    Names, Playing, Printing, Recording, WordsRefused, usage,
};
pub use options::USUAL_CHUNK;
pub use parse::{USUAL_LIMIT, parse_words};
pub use watches::watch_names;
