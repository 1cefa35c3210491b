//! Texts, bytes and records that own what they hold.
use crate::data_records::{
    ATTACHMENT_RECORD, CHANNEL_RECORD, MESSAGE_RECORD, METADATA_RECORD, SCHEMA_RECORD,
};
use crate::same::holds_at;
use mcap_wire::{Memory, Text};
use rec_data::Rec;
use std::alloc::Global;
use std::test::Fail;

#[test]
fn a_text_is_its_bytes(rt: HostRuntime) -> Result<(), Fail> {
    let text = Text::copied(rt.alloc(), "na\u{ef}ve")?;
    let is = text.is("na\u{ef}ve") && !text.is("naive");
    let kept = text.into_vec().as_slice() == b"na\xc3\xafve".as_slice();
    holds_at(&rt, is && kept, &"a text");
    Ok(())
}

// Reads a record, and says whether it is framed as it was.
fn read(alloc: Global, bytes: &[u8]) -> Result<Option<bool>, Memory> {
    let Some(record) = Rec::from_framed(alloc, bytes)? else {
        return Ok(None);
    };
    let mut out = Vec::new(alloc);
    let is_framed = record.frame(&mut out) == Ok(()) && out.as_slice() == bytes;
    Ok(Some(is_framed && record.framed_len() == bytes.len() as u64))
}

// Records, of which the last two are an application's; and a head that is cut, an opcode of 0, a Header, a Message with a byte
// after it, a Channel whose topic isn't UTF-8, a Metadata without fields, and an opcode that is no application's.
const ROWS: [(&[u8], Option<bool>); 14] = [
    (SCHEMA_RECORD, Some(true)),
    (CHANNEL_RECORD, Some(true)),
    (MESSAGE_RECORD, Some(true)),
    (ATTACHMENT_RECORD, Some(true)),
    (METADATA_RECORD, Some(true)),
    (b"\x80\0\0\0\0\0\0\0\0", Some(true)),
    (b"\xff\x01\0\0\0\0\0\0\0\x55", Some(true)),
    (b"\x05\x17\0\0\0\0\0\0", None),
    (b"\0\0\0\0\0\0\0\0\0", None),
    (b"\x01\x08\0\0\0\0\0\0\0\0\0\0\0\0\0\0\0", None),
    (
        b"\x05\x16\0\0\0\0\0\0\0\x01\0\x01\0\0\0\x0a\0\0\0\0\0\0\0\x09\0\0\0\0\0\0\0\xaa",
        None,
    ),
    (
        b"\x04\x11\0\0\0\0\0\0\0\x01\0\0\0\x01\0\0\0\xff\0\0\0\0\0\0\0\0",
        None,
    ),
    (b"\x0c\0\0\0\0\0\0\0\0", None),
    (b"\x7f\0\0\0\0\0\0\0\0", None),
];

#[test]
fn a_record_is_owned_and_written_again_and_other_bytes_are_none(rt: HostRuntime) {
    for (bytes, wanted) in &ROWS {
        holds_at(&rt, read(rt.alloc(), bytes) == Ok(*wanted), bytes);
    }
}
