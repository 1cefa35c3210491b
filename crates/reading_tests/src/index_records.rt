//! The records of the indexes and of the summary: one of each kind, made by hand from the format. Each function reads a
//! content, says whether it shows its record, and frames that onto the end of a vector.
use crate::data_records::judged;
use mcap_wire::Bad;
use rec_index::*;

// Messages from 1 to 2, of 3 bytes with the CRC 0xdeadbeef before compression by "lz4" to the bytes 9 and 8.
pub(crate) const CHUNK_RECORD: &[u8] =
    b"\x06\x2d\0\0\0\0\0\0\0\x01\0\0\0\0\0\0\0\x02\0\0\0\0\0\0\0\x03\0\0\0\0\0\0\0\xef\xbe\xad\xde\x03\0\0\0lz4\x02\0\0\0\0\0\0\0\x09\x08";

// The channel 3, with a message logged at 5 that starts at 6.
pub(crate) const MESSAGE_INDEX_RECORD: &[u8] =
    b"\x07\x16\0\0\0\0\0\0\0\x03\0\x10\0\0\0\x05\0\0\0\0\0\0\0\x06\0\0\0\0\0\0\0";

// Messages from 1 to 2, the Chunk at 3 with 4 bytes, the Message Index of channel 5 at 6, 7 bytes of Message Indexes, the
// compression "z", 8 bytes compressed and 9 before.
pub(crate) const CHUNK_INDEX_RECORD: &[u8] =
    b"\x08\x4b\0\0\0\0\0\0\0\x01\0\0\0\0\0\0\0\x02\0\0\0\0\0\0\0\x03\0\0\0\0\0\0\0\x04\0\0\0\0\0\0\0\x0a\0\0\0\x05\0\x06\0\0\0\0\0\0\0\x07\0\0\0\0\0\0\0\x01\0\0\0z\x08\0\0\0\0\0\0\0\x09\0\0\0\0\0\0\0";

// The record at 1 with 2 bytes, logged at 3, created at 4, 5 bytes of data, the name "n" and the media type "t".
pub(crate) const ATTACHMENT_INDEX_RECORD: &[u8] =
    b"\x0a\x32\0\0\0\0\0\0\0\x01\0\0\0\0\0\0\0\x02\0\0\0\0\0\0\0\x03\0\0\0\0\0\0\0\x04\0\0\0\0\0\0\0\x05\0\0\0\0\0\0\0\x01\0\0\0n\x01\0\0\0t";

// 1 message, 2 schemas, 3 channels, 4 attachments, 5 metadata and 6 chunks, from 7 to 8, with 1 message on channel 9.
pub(crate) const STATISTICS_RECORD: &[u8] =
    b"\x0b\x38\0\0\0\0\0\0\0\x01\0\0\0\0\0\0\0\x02\0\x03\0\0\0\x04\0\0\0\x05\0\0\0\x06\0\0\0\x07\0\0\0\0\0\0\0\x08\0\0\0\0\0\0\0\x0a\0\0\0\x09\0\x01\0\0\0\0\0\0\0";

// The record at 0x0102 with 0x0304 bytes and the name "m".
pub(crate) const METADATA_INDEX_RECORD: &[u8] =
    b"\x0d\x15\0\0\0\0\0\0\0\x02\x01\0\0\0\0\0\0\x04\x03\0\0\0\0\0\0\x01\0\0\0m";

// The group of opcode 5, which starts at 0x0102 and has 0x0304 bytes.
pub(crate) const SUMMARY_OFFSET_RECORD: &[u8] =
    b"\x0e\x11\0\0\0\0\0\0\0\x05\x02\x01\0\0\0\0\0\0\x04\x03\0\0\0\0\0\0";

pub(crate) fn chunk(content: &[u8], out: &mut Vec<u8>) -> Result<bool, Bad> {
    let wanted = Chunk {
        message_start_time: 1,
        message_end_time: 2,
        uncompressed_size: 3,
        uncompressed_crc: 0xdead_beef,
        compression: "lz4",
        records: &[9, 8],
    };
    judged(Chunk::parse(content), &wanted, wanted.frame(out))
}

pub(crate) fn message_index(content: &[u8], out: &mut Vec<u8>) -> Result<bool, Bad> {
    match MessageIndex::parse(content) {
        Ok(index) => Ok(index.channel_id == 3 && index.frame(out) == Ok(())),
        Err(bad) => Err(bad),
    }
}

pub(crate) fn chunk_index(content: &[u8], out: &mut Vec<u8>) -> Result<bool, Bad> {
    match ChunkIndex::parse(content) {
        Ok(index) => {
            let numbers = [
                index.message_start_time,
                index.message_end_time,
                index.chunk_start_offset,
                index.chunk_length,
                index.message_index_length,
                index.compressed_size,
                index.uncompressed_size,
            ];
            let shown = numbers == [1, 2, 3, 4, 7, 8, 9] && index.compression == "z";
            Ok(shown && index.frame(out) == Ok(()))
        }
        Err(bad) => Err(bad),
    }
}

pub(crate) fn attachment_index(content: &[u8], out: &mut Vec<u8>) -> Result<bool, Bad> {
    let wanted = AttachmentIndex {
        offset: 1,
        length: 2,
        log_time: 3,
        create_time: 4,
        data_size: 5,
        name: "n",
        media_type: "t",
    };
    judged(AttachmentIndex::parse(content), &wanted, wanted.frame(out))
}

pub(crate) fn statistics(content: &[u8], out: &mut Vec<u8>) -> Result<bool, Bad> {
    match Statistics::parse(content) {
        Ok(statistics) => {
            let numbers = [
                statistics.message_count,
                statistics.schema_count as u64,
                statistics.channel_count as u64,
                statistics.attachment_count as u64,
                statistics.metadata_count as u64,
                statistics.chunk_count as u64,
                statistics.message_start_time,
                statistics.message_end_time,
            ];
            let shown = numbers == [1, 2, 3, 4, 5, 6, 7, 8];
            Ok(shown && statistics.frame(out) == Ok(()))
        }
        Err(bad) => Err(bad),
    }
}

pub(crate) fn metadata_index(content: &[u8], out: &mut Vec<u8>) -> Result<bool, Bad> {
    let wanted = MetadataIndex {
        offset: 0x0102,
        length: 0x0304,
        name: "m",
    };
    judged(MetadataIndex::parse(content), &wanted, wanted.frame(out))
}

pub(crate) fn summary_offset(content: &[u8], out: &mut Vec<u8>) -> Result<bool, Bad> {
    let wanted = SummaryOffset {
        group_opcode: 5,
        group_start: 0x0102,
        group_length: 0x0304,
    };
    judged(SummaryOffset::parse(content), &wanted, wanted.frame(out))
}
