//! Filtering: of the records that a reading of a source keeps, those messages that are asked for are written as a new file, with
//! what they need.
#![tactic(auto)]

mod answers;
mod choices;
mod filtering;
mod history_laws;
mod laws;
mod needs;
mod picking;

pub use answers::{PickRefused, Picked};
pub use filtering::filter;
pub use history_laws::{
    askings_meet, filtered_histories_stand, filtered_twice_is_once, picked_are_asked,
};
pub use laws::{all_messages_are_kept, messages_are_those_picked};
