//! The lane of one feed: it reads the feed, declares its channels and publishes its messages over a pass, and reports what
//! became of each message, in lists that are kept or only counted.
#![tactic(auto)]

mod feed;
mod ids;
mod lane;
pub mod laws;
mod list;
mod pass;
mod refused_list;
mod report;
mod section;
mod sizes;
mod store;
mod trace;

pub use feed::publish_feed;
pub use list::Listing;
pub use pass::Pass;
pub use refused_list::Refusals;
pub use report::{Accepted, DeclaredAt, FeedEnd, FeedReport, Refused};
