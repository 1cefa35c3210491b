//! The commands that read one file and print of it: `info`, with the line of JSON that it prints, `check`, and `cat` by a
//! scan or by the indexes; and `play`, which reads a file and a script.
#![tactic(auto)]

mod cat;
mod channels;
mod checking;
mod counts;
mod describing;
mod file_command;
mod firsts;
mod indexed;
mod info;
pub mod laws;
mod members;
mod names;
mod playing;
mod schemas;
mod scripting;
mod two_files;
mod verdict;

pub use cat::print_file;
pub use checking::check_file;
pub use describing::describe_file;
pub use file_command::run_file_command;
pub use indexed::print_indexed;
pub use info::info_text;
pub use playing::play_file;
