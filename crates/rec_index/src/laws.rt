//! What is framed is read back, a content shows one record at most, and one that is refused shows none: each law as the contract of a function that does nothing.
ghost use Rattle.mcap_wire.specs.ContentReading.{RowReadsBack};
ghost use Rattle.rec_index.specs.Records.{summary_offset_kinds, metadata_index_kinds, attachment_index_kinds, chunk_kinds, message_index_kinds, chunk_index_kinds, statistics_kinds};

/// A Summary Offset that is framed is read back, and no content shows two.
pub fn summary_offsets_read_back()
    ensures { RowReadsBack summary_offset_kinds }
{}

/// A Metadata Index that is framed is read back, and no content shows two.
pub fn metadata_indexes_read_back()
    ensures { RowReadsBack metadata_index_kinds }
{}

/// An Attachment Index that is framed is read back, and no content shows two.
pub fn attachment_indexes_read_back()
    ensures { RowReadsBack attachment_index_kinds }
{}

/// A Chunk that is framed is read back, and no content shows two.
pub fn chunks_read_back()
    ensures { RowReadsBack chunk_kinds }
{}

/// A Message Index that is framed is read back, and no content shows two.
pub fn message_index_read_back()
    ensures { RowReadsBack message_index_kinds }
{}

/// A Chunk Index that is framed is read back, and no content shows two.
pub fn chunk_index_read_back()
    ensures { RowReadsBack chunk_index_kinds }
{}

/// A Statistics that is framed is read back, and no content shows two.
pub fn statistics_read_back()
    ensures { RowReadsBack statistics_kinds }
{}
