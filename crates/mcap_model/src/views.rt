//! What a judged record shows, by its kind.
ghost use Rattle.mcap_model.specs.Made.{top};
ghost use Rattle.mcap_model.specs.Rules.{V6};
ghost use Rattle.mcap_model.specs.RecordViews.{IsView};

use rec_data::{
    ATTACHMENT, Attachment, CHANNEL, Channel, HEADER, Header, MESSAGE, METADATA, Message, Metadata,
    SCHEMA, Schema,
};
use rec_index::{CHUNK, Chunk, MESSAGE_INDEX, MessageIndex};

/// What a record shows whose content was judged by the layout of its kind (MCAP specification, "Records"). Records of other
/// kinds aren't looked into.
#[derive(Drop)]
pub enum RecordView<'a> {
    Header(Header<'a>),
    Schema(Schema<'a>),
    Channel(Channel<'a>),
    Message(Message<'a>),
    Chunk(Chunk<'a>),
    MessageIndex(MessageIndex<'a>),
    Attachment(Attachment<'a>),
    Metadata(Metadata<'a>),
    Other,
}

/// The record of that opcode and content, which meets its layout. What a record shows is borrowed from its content.
// Inlined, so that a caller that looks at some kinds parses no others, and no view goes through memory.
#[inline(always)]
pub fn view_record<'a>(op: u8, content: &'a [u8]) -> RecordView<'a>
    requires { V6 (top op content.now) }
    ensures { IsView op content.now result }
{
    match op {
        HEADER => match Header::parse(content) {
            Ok(header) => return RecordView::Header(header),
            Err(_) => unreachable!(),
        },
        SCHEMA => match Schema::parse(content) {
            Ok(schema) => return RecordView::Schema(schema),
            Err(_) => unreachable!(),
        },
        CHANNEL => match Channel::parse(content) {
            Ok(channel) => return RecordView::Channel(channel),
            Err(_) => unreachable!(),
        },
        MESSAGE => match Message::parse(content) {
            Ok(message) => return RecordView::Message(message),
            Err(_) => unreachable!(),
        },
        CHUNK => match Chunk::parse(content) {
            Ok(chunk) => return RecordView::Chunk(chunk),
            Err(_) => unreachable!(),
        },
        MESSAGE_INDEX => match MessageIndex::parse(content) {
            Ok(index) => return RecordView::MessageIndex(index),
            Err(_) => unreachable!(),
        },
        ATTACHMENT => match Attachment::parse(content) {
            Ok(attachment) => return RecordView::Attachment(attachment),
            Err(_) => unreachable!(),
        },
        METADATA => match Metadata::parse(content) {
            Ok(metadata) => return RecordView::Metadata(metadata),
            Err(_) => unreachable!(),
        },
        _ => return RecordView::Other,
    }
}
