//! Ids by content: which ids the contents of a history have, a table that gives them, and what a channel of a feed is as it is
//! declared.
#![tactic(auto)]

mod describing;
mod ids;

pub use describing::{Described, KeptSchema, definition, definition_over, no_schema};
pub use ids::{give_ids, give_ids_sharing, id_of, id_of_channel, number_of};
