//! Ids that are given, and why none are.

/// The id of a content: the one that it has, or a new one.
#[derive(Clone, Copy, PartialEq, Eq)]
pub enum Given {
    /// The content had this id before.
    Known(u16),
    /// The content was new, and this is the next number.
    New(u16),
}

/// The ids of a channel and of its schema. The schema's is missing exactly where the channel has none.
#[derive(Clone, Copy, PartialEq, Eq)]
pub struct GivenIds {
    pub schema: Option<Given>,
    pub channel: Given,
}

/// Why no ids are given. Where both kinds lack an id the schema's is named.
#[derive(Clone, Copy, PartialEq, Eq)]
pub enum IdRefused {
    /// The schema is new, and 65,535 schemas have ids.
    TooManySchemas,
    /// The channel is new, and 65,535 channels have ids.
    TooManyChannels,
    Memory,
}
