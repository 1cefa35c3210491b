//! The records of an MCAP file: each is parsed from a record's content, and framed onto the end of a vector.
#![tactic(auto)]

mod attachment;
mod channel;
mod footer;
mod header;
pub mod laws;
mod message;
mod metadata;
mod opcodes;
mod owned;
mod schema;
mod section;

pub use attachment::{Attachment, attachment_crc_place};
pub use channel::{Channel, ChannelDef};
pub use footer::Footer;
pub use header::Header;
pub use message::Message;
pub use metadata::Metadata;
pub use opcodes::{
    APPLICATION, ATTACHMENT, CHANNEL, DATA_END, FOOTER, HEADER, MESSAGE, METADATA, SCHEMA,
};
pub use owned::Rec;
pub use schema::{Schema, SchemaDef};
pub use section::DataEnd;
