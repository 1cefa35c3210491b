//! Where a replay looks, and for what.
use mcap_model::{Range, Tables};
use mcap_wire::Text;

/// A Message Index: the offset of its chunk, its own, and the id of its channel.
#[derive(Clone, Copy)]
pub(crate) struct Spot {
    pub chunk: u64,
    pub list: u64,
    pub channel: u16,
}

/// What is asked for of a store of that length: a range of log times, and a topic, if one is given. The tables have the
/// first Channel of each id of the summary.
#[derive(Drop)]
pub(crate) struct Request<'a> {
    pub len: u64,
    pub range: Range,
    pub tables: &'a Tables,
    pub topic: Option<&'a Text>,
}
