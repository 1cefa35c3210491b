//! Recovery: of whatever bytes a source gives, the records that a reading keeps are written as a new file. Extras are kept unchanged:
//! the Attachments, Metadata and records of applications that stand at top level.
#![tactic(auto)]

mod answers;
mod recovering;

pub use answers::{RecoverRefused, Recovered, Why};
pub use recovering::recover;
