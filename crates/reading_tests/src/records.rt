//! Each kind of record: read, written again, and refused.
use crate::data_records::*;
use crate::index_records::*;
use crate::same::holds_at;
use mcap_wire::{Bad, Memory, Why};
use rec_data::{ATTACHMENT, CHANNEL, DATA_END, FOOTER, HEADER, MESSAGE, METADATA, SCHEMA};
use rec_index::{
    ATTACHMENT_INDEX, CHUNK, CHUNK_INDEX, MESSAGE_INDEX, METADATA_INDEX, STATISTICS, SUMMARY_OFFSET,
};
use std::alloc::Global;

// A record of each kind, the length of a content that lacks the last byte of a field, and which field that is.
type Row = (u8, &'static [u8], usize, u8);

const RECORDS: [Row; 15] = [
    (HEADER, HEADER_RECORD, 15, 2),
    (FOOTER, FOOTER_RECORD, 15, 2),
    (SCHEMA, SCHEMA_RECORD, 19, 4),
    (CHANNEL, CHANNEL_RECORD, 27, 5),
    (MESSAGE, MESSAGE_RECORD, 21, 4),
    (CHUNK, CHUNK_RECORD, 44, 6),
    (MESSAGE_INDEX, MESSAGE_INDEX_RECORD, 21, 2),
    (CHUNK_INDEX, CHUNK_INDEX_RECORD, 45, 5),
    (ATTACHMENT, ATTACHMENT_RECORD, 36, 5),
    (ATTACHMENT_INDEX, ATTACHMENT_INDEX_RECORD, 49, 7),
    (STATISTICS, STATISTICS_RECORD, 55, 9),
    (METADATA, METADATA_RECORD, 18, 2),
    (METADATA_INDEX, METADATA_INDEX_RECORD, 20, 3),
    (SUMMARY_OFFSET, SUMMARY_OFFSET_RECORD, 0, 1),
    (DATA_END, DATA_END_RECORD, 3, 1),
];

// Reads a content of that kind, says whether it shows the fields of its record above, and frames these onto `out`.
fn read(op: u8, content: &[u8], out: &mut Vec<u8>) -> Result<bool, Bad> {
    match op {
        HEADER => header(content, out),
        FOOTER => footer(content, out),
        SCHEMA => schema(content, out),
        CHANNEL => channel(content, out),
        MESSAGE => message(content, out),
        ATTACHMENT => attachment(content, out),
        METADATA => metadata(content, out),
        DATA_END => data_end(content, out),
        _ => read_index(op, content, out),
    }
}

fn read_index(op: u8, content: &[u8], out: &mut Vec<u8>) -> Result<bool, Bad> {
    match op {
        CHUNK => chunk(content, out),
        MESSAGE_INDEX => message_index(content, out),
        CHUNK_INDEX => chunk_index(content, out),
        ATTACHMENT_INDEX => attachment_index(content, out),
        STATISTICS => statistics(content, out),
        METADATA_INDEX => metadata_index(content, out),
        SUMMARY_OFFSET => summary_offset(content, out),
        _ => Ok(false),
    }
}

// What is read of the front of a record's content.
fn read_front(op: u8, record: &[u8], len: usize, out: &mut Vec<u8>) -> Result<bool, Bad> {
    out.clear();
    let content = record.get(9..).unwrap_or(&[]);
    read(op, content.get(..len).unwrap_or(content), out)
}

// What reading gives with a byte behind the content.
fn read_with_more(alloc: Global, op: u8, record: &[u8]) -> Result<Result<bool, Bad>, Memory> {
    let mut more = Vec::from_slice(alloc, record.get(9..).unwrap_or(&[]))?;
    more.push(0)?;
    let mut out = Vec::new(alloc);
    Ok(read(op, &more, &mut out))
}

// What reading gives then: behind the data of a Message the byte is one of the data.
fn wanted_with_more(op: u8) -> Result<bool, Bad> {
    match op {
        MESSAGE => Ok(false),
        FOOTER => Err(Bad {
            field: 4,
            why: Why::BadLength,
        }),
        _ => Ok(true),
    }
}

// Whether a record is written again as it was, is refused where it is cut short, and may have a byte behind it or not.
fn is_read(alloc: Global, row: &Row, out: &mut Vec<u8>) -> bool {
    let (op, record, len, field) = *row;
    let is_shown = read_front(op, record, record.len(), out) == Ok(true);
    let is_again = out.as_slice() == record;
    let why = Why::Short;
    let is_refused = read_front(op, record, len, out) == Err(Bad { field, why });
    let more = read_with_more(alloc, op, record);
    is_shown && is_again && is_refused && more == Ok(wanted_with_more(op))
}

#[test]
fn each_record_is_read_and_written_and_refused_where_it_is_cut(rt: HostRuntime) {
    let mut out = Vec::new(rt.alloc());
    for row in &RECORDS {
        holds_at(&rt, is_read(rt.alloc(), row, &mut out), &row.0);
    }
}

// Contents, and which field of each is refused for what.
const REFUSED: [(u8, &[u8], u8, Why); 8] = [
    (HEADER, b"\x01\0\0\0a\x01\0\0\0\xff", 2, Why::BadText),
    // a lead byte whose continuation stands behind the text
    (HEADER, b"\x01\0\0\0\xc3\xa9\0\0\0\0", 1, Why::BadText),
    // the data's length is past the content
    (
        SCHEMA,
        b"\x01\0\0\0\0\0\0\0\0\0\xff\xff\xff\xff\0",
        4,
        Why::Short,
    ),
    // a value that is cut short by the end of the map
    (
        METADATA,
        b"\0\0\0\0\x06\0\0\0\x01\0\0\0a\0",
        2,
        Why::BadLength,
    ),
    (
        METADATA,
        b"\0\0\0\0\x0a\0\0\0\x01\0\0\0a\x01\0\0\0\xff",
        2,
        Why::BadText,
    ),
    // the key "" twice, and a second time without a value
    (
        METADATA,
        b"\0\0\0\0\x10\0\0\0\0\0\0\0\0\0\0\0\0\0\0\0\0\0\0\0",
        2,
        Why::DoubleKey,
    ),
    (
        METADATA,
        b"\0\0\0\0\x0c\0\0\0\0\0\0\0\0\0\0\0\0\0\0\0",
        2,
        Why::DoubleKey,
    ),
    (MESSAGE_INDEX, b"\0\0\x01\0\0\0\0", 2, Why::BadLength),
];

#[test]
fn contents_that_are_refused(rt: HostRuntime) {
    let mut out = Vec::new(rt.alloc());
    for (op, content, field, why) in REFUSED {
        holds_at(
            &rt,
            read(op, content, &mut out) == Err(Bad { field, why }),
            &content,
        );
    }
}
