//! What is framed is read back, and a content shows one record: each law as the contract of a function that does nothing.
ghost use Rattle.mcap_wire.specs.ContentReading.{RowReadsBack};
ghost use Rattle.rec_data.specs.Records.{header_kinds, data_end_kinds, schema_kinds, channel_kinds, attachment_kinds, metadata_kinds};
ghost use Rattle.rec_data.specs.Laws.{FootersReadBack, MessagesReadBack, MessagesAreLongEnough, MessagesChangeChannel, RecsReadBack};

/// A Header that is framed is read back, and no content shows two.
pub fn headers_read_back()
    ensures { RowReadsBack header_kinds }
{}

/// A Footer that is framed is read back, and no content shows two.
pub fn footers_read_back()
    ensures { FootersReadBack }
{}

/// A Data End that is framed is read back, and no content shows two.
pub fn data_ends_read_back()
    ensures { RowReadsBack data_end_kinds }
{}

/// A Schema that is framed is read back, and no content shows two.
pub fn schemas_read_back()
    ensures { RowReadsBack schema_kinds }
{}

/// A Channel that is framed is read back, and no content shows two.
pub fn channels_read_back()
    ensures { RowReadsBack channel_kinds }
{}

/// A Metadata that is framed is read back, and no content shows two.
pub fn metadata_read_back()
    ensures { RowReadsBack metadata_kinds }
{}

/// A Message that is framed is read back, and no content shows two.
pub fn messages_read_back()
    ensures { MessagesReadBack }
{}

/// A content is a Message exactly where it has at least 22 bytes.
pub fn messages_are_long_enough()
    ensures { MessagesAreLongEnough }
{}

/// The first two bytes of a Message are its channel's id, and nothing else of it depends on them.
pub fn messages_change_channel()
    ensures { MessagesChangeChannel }
{}

/// An Attachment that is framed is read back, and no content shows two.
pub fn attachments_read_back()
    ensures { RowReadsBack attachment_kinds }
{}

/// The bytes that a Schema, a Channel or a Message is framed to are that record, and no bytes are two.
pub fn recs_read_back()
    ensures { RecsReadBack }
{}
