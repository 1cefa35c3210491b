//! What every command has: what it says on standard error and the status that this gives, what the world and its counts
//! of faults show of it, lines of text that take no memory, and the ending of commands that read some files and write one.
#![tactic(auto)]

mod blaming;
mod complaining;
mod complaint;
mod faults;
mod file_reading;
mod file_writing;
mod inputs;
mod one_file;
mod refusing;
mod source_reading;
mod statuses;
mod store_reading;
mod waiting;

pub use blaming::{FailedParts, any_holds, failed_parts, has_some, holds_alone, is_part_failed};
pub use complaining::{complain_of, due_when, refuse_for_memory, refuse_words};
pub use complaint::Complaint;
pub use faults::{Counts, has_failed, rose};
pub use file_reading::{
    FileReading, ReadName, Reading, answer_reading, halt_of, has_lacked, print_reading,
};
pub use file_writing::{
    FailedNames, FileWriting, MOST_COMPLAINTS, answer_writing, complain_of_writing,
    input_complaints,
};
pub use inputs::{
    AsSources, AsStores, InputKind, Room, add_refused, is_failed, keep_inputs, make_room,
    open_inputs,
};
pub use one_file::{Faults, answer_file, faults_of};
pub use refusing::{index_lacks_memory, indexed_complaint, lacks_memory, reading_complaint};
pub use source_reading::{SourceReading, answer_source, read_source_name};
pub use statuses::{BAD_WORDS_STATUS, Status};
pub use store_reading::{StoreReading, answer_store, read_store_name};
