//! The records of the data section: one of each kind, made by hand from the format. Each function reads a content, says
//! whether it shows its record, and frames that onto the end of a vector.
use mcap_wire::{Bad, Memory};
use rec_data::*;

// The profile "ros2" and the library "wire".
pub(crate) const HEADER_RECORD: &[u8] = b"\x01\x10\0\0\0\0\0\0\0\x04\0\0\0ros2\x04\0\0\0wire";

// A summary that starts at 0x0102, its offsets at 0x0304, and the CRC 0xdeadbeef.
pub(crate) const FOOTER_RECORD: &[u8] =
    b"\x02\x14\0\0\0\0\0\0\0\x02\x01\0\0\0\0\0\0\x04\x03\0\0\0\0\0\0\xef\xbe\xad\xde";

// The id 0x0102, the name "P", the encoding "ros" and the data 0xde 0xad.
pub(crate) const SCHEMA_RECORD: &[u8] =
    b"\x03\x14\0\0\0\0\0\0\0\x02\x01\x01\0\0\0P\x03\0\0\0ros\x02\0\0\0\xde\xad";

// The id 2, the schema 1, the topic "t", the encoding "e" and the map of "k" to "v".
pub(crate) const CHANNEL_RECORD: &[u8] =
    b"\x04\x1c\0\0\0\0\0\0\0\x02\0\x01\0\x01\0\0\0t\x01\0\0\0e\x0a\0\0\0\x01\0\0\0k\x01\0\0\0v";

// The channel 0x0102, the number 0x03040506, logged at 7, published at 2^56 + 8, with the data 0xaa 0xbb.
pub(crate) const MESSAGE_RECORD: &[u8] =
    b"\x05\x18\0\0\0\0\0\0\0\x02\x01\x06\x05\x04\x03\x07\0\0\0\0\0\0\0\x08\0\0\0\0\0\0\x01\xaa\xbb";

// Logged at 0x0102, created at 0x0304, the name "n", the media type "t", the data 1 2 3 and the CRC 0xdeadbeef.
pub(crate) const ATTACHMENT_RECORD: &[u8] =
    b"\x09\x29\0\0\0\0\0\0\0\x02\x01\0\0\0\0\0\0\x04\x03\0\0\0\0\0\0\x01\0\0\0n\x01\0\0\0t\x03\0\0\0\0\0\0\0\x01\x02\x03\xef\xbe\xad\xde";

// The name "n" and the map of "k" to "v".
pub(crate) const METADATA_RECORD: &[u8] =
    b"\x0c\x13\0\0\0\0\0\0\0\x01\0\0\0n\x0a\0\0\0\x01\0\0\0k\x01\0\0\0v";

// The CRC 0xdeadbeef.
pub(crate) const DATA_END_RECORD: &[u8] = b"\x0f\x04\0\0\0\0\0\0\0\xef\xbe\xad\xde";

// What the reading of a content came to: whether it is this record, which was framed.
pub(crate) fn judged<T: Copy + PartialEq>(
    read: Result<T, Bad>,
    wanted: &T,
    framed: Result<(), Memory>,
) -> Result<bool, Bad> {
    match read {
        Ok(read) => Ok(framed == Ok(()) && read == *wanted),
        Err(bad) => Err(bad),
    }
}

pub(crate) fn header(content: &[u8], out: &mut Vec<u8>) -> Result<bool, Bad> {
    let wanted = Header {
        profile: "ros2",
        library: "wire",
    };
    judged(Header::parse(content), &wanted, wanted.frame(out))
}

pub(crate) fn footer(content: &[u8], out: &mut Vec<u8>) -> Result<bool, Bad> {
    let wanted = Footer {
        summary_start: 0x0102,
        summary_offset_start: 0x0304,
        summary_crc: 0xdead_beef,
    };
    judged(Footer::parse(content), &wanted, wanted.frame(out))
}

pub(crate) fn schema(content: &[u8], out: &mut Vec<u8>) -> Result<bool, Bad> {
    let wanted = Schema {
        id: 0x0102,
        name: "P",
        encoding: "ros",
        payload: &[0xde, 0xad],
    };
    judged(Schema::parse(content), &wanted, wanted.frame(out))
}

pub(crate) fn channel(content: &[u8], out: &mut Vec<u8>) -> Result<bool, Bad> {
    match Channel::parse(content) {
        Ok(channel) => {
            let ids = channel.id == 2 && channel.schema_id == 1;
            let texts = channel.topic == "t" && channel.message_encoding == "e";
            Ok(ids && texts && channel.frame(out) == Ok(()))
        }
        Err(bad) => Err(bad),
    }
}

pub(crate) fn message(content: &[u8], out: &mut Vec<u8>) -> Result<bool, Bad> {
    let wanted = Message {
        channel_id: 0x0102,
        sequence: 0x0304_0506,
        log_time: 7,
        publish_time: 0x0100_0000_0000_0008,
        payload: &[0xaa, 0xbb],
    };
    judged(Message::parse(content), &wanted, wanted.frame(out))
}

pub(crate) fn attachment(content: &[u8], out: &mut Vec<u8>) -> Result<bool, Bad> {
    let wanted = Attachment {
        log_time: 0x0102,
        create_time: 0x0304,
        name: "n",
        media_type: "t",
        payload: &[1, 2, 3],
        crc: 0xdead_beef,
    };
    let read = judged(Attachment::parse(content), &wanted, wanted.frame(out));
    // The CRC stands behind 37 bytes.
    let place = judged(attachment_crc_place(content), &37, Ok(()));
    if read == place { read } else { Ok(false) }
}

pub(crate) fn metadata(content: &[u8], out: &mut Vec<u8>) -> Result<bool, Bad> {
    match Metadata::parse(content) {
        Ok(metadata) => Ok(metadata.name == "n" && metadata.frame(out) == Ok(())),
        Err(bad) => Err(bad),
    }
}

pub(crate) fn data_end(content: &[u8], out: &mut Vec<u8>) -> Result<bool, Bad> {
    let wanted = DataEnd {
        data_section_crc: 0xdead_beef,
    };
    judged(DataEnd::parse(content), &wanted, wanted.frame(out))
}
