//! Reading of a file by its summary: only the ends of the file and the summary are asked for.
#![tactic(auto)]

mod ends;
pub mod laws;
mod lists;
mod loaded;
mod loading;
mod records;
mod walk;

pub use loaded::Loaded;
pub use loading::load;
pub use records::breaks;
