//! Recoveries of cut files, of broken ones and of those with extras, and into stores that fail.
use crate::same::holds_at;
use io_memory::{FailingWrite, MemoryLive, QuietSource};
use mcap_model::Stop;
use mcap_recover::{RecoverRefused, Recovered, Why, recover};
use std::alloc::Global;
use std::test::Fail;

// Each literal stands in a function, so that no goal of a test holds its bytes.

/// One Message on one Channel, in one chunk, as a recording writes it.
pub(crate) fn file() -> &'static [u8] {
    b"\x89MCAP0\r\n\
    \x01\x11\0\0\0\0\0\0\0\0\0\0\0\x09\0\0\0mcaprec 1\
    \x06\x63\0\0\0\0\0\0\0\x0a\0\0\0\0\0\0\0\x0a\0\0\0\0\0\0\0\x3b\0\0\0\0\0\0\0\xa8\x91\xbb\xd8\0\0\0\0\x3b\0\0\0\0\0\0\0\
    \x04\x12\0\0\0\0\0\0\0\x01\0\0\0\x02\0\0\0/a\0\0\0\0\0\0\0\0\
    \x05\x17\0\0\0\0\0\0\0\x01\0\x01\0\0\0\x0a\0\0\0\0\0\0\0\x09\0\0\0\0\0\0\0\xaa\
    \x07\x16\0\0\0\0\0\0\0\x01\0\x10\0\0\0\x0a\0\0\0\0\0\0\0\x1b\0\0\0\0\0\0\0\
    \x0f\x04\0\0\0\0\0\0\0\0\0\0\0\
    \x04\x12\0\0\0\0\0\0\0\x01\0\0\0\x02\0\0\0/a\0\0\0\0\0\0\0\0\
    \x0b\x38\0\0\0\0\0\0\0\x01\0\0\0\0\0\0\0\0\0\x01\0\0\0\0\0\0\0\0\0\0\0\x01\0\0\0\x0a\0\0\0\0\0\0\0\x0a\0\0\0\0\0\0\0\x0a\0\0\0\x01\0\x01\0\0\0\0\0\0\0\
    \x08\x4a\0\0\0\0\0\0\0\x0a\0\0\0\0\0\0\0\x0a\0\0\0\0\0\0\0\x22\0\0\0\0\0\0\0\x6c\0\0\0\0\0\0\0\x0a\0\0\0\x01\0\x8e\0\0\0\0\0\0\0\x1f\0\0\0\0\0\0\0\0\0\0\0\x3b\0\0\0\0\0\0\0\x3b\0\0\0\0\0\0\0\
    \x0e\x11\0\0\0\0\0\0\0\x04\xba\0\0\0\0\0\0\0\x1b\0\0\0\0\0\0\0\
    \x0e\x11\0\0\0\0\0\0\0\x0b\xd5\0\0\0\0\0\0\0\x41\0\0\0\0\0\0\0\
    \x0e\x11\0\0\0\0\0\0\0\x08\x16\x01\0\0\0\0\0\0\x53\0\0\0\0\0\0\0\
    \x02\x14\0\0\0\0\0\0\0\xba\0\0\0\0\0\0\0\x69\x01\0\0\0\0\0\0\xad\xc6\x25\xcc\
    \x89MCAP0\r\n"
}

// A file of no record.
fn empty_file() -> &'static [u8] {
    b"\x89MCAP0\r\n\
    \x01\x11\0\0\0\0\0\0\0\0\0\0\0\x09\0\0\0mcaprec\x201\
    \x0f\x04\0\0\0\0\0\0\0\0\0\0\0\
    \x0b.\0\0\0\0\0\0\0\0\0\0\0\0\0\0\0\0\0\0\0\0\0\0\0\0\0\0\0\0\0\0\0\0\0\0\0\0\0\0\0\0\0\0\0\0\0\0\0\0\0\0\0\0\0\
    \x0e\x11\0\0\0\0\0\0\0\x0b/\0\0\0\0\0\0\07\0\0\0\0\0\0\0\
    \x02\x14\0\0\0\0\0\0\0/\0\0\0\0\0\0\0f\0\0\0\0\0\0\0a\xc4\x15\xd9\
    \x89MCAP0\r\n"
}

// An Attachment and a Metadata without names and without contents.
fn attachment() -> &'static [u8] {
    b"\x09$\0\0\0\0\0\0\0\0\0\0\0\0\0\0\0\0\0\0\0\0\0\0\0\0\0\0\0\0\0\0\0\0\0\0\0\0\0\0\0\0\0\0\0"
}

fn metadata() -> &'static [u8] {
    b"\x0c\x08\0\0\0\0\0\0\0\0\0\0\0\0\0\0\0"
}

// A record of an application; one of an opcode that is nobody's; and a Chunk that holds both.
fn application() -> &'static [u8] {
    b"\x80\x03\0\0\0\0\0\0\0abc"
}

fn unknown() -> &'static [u8] {
    b"\x7f\0\0\0\0\0\0\0\0"
}

fn chunk_of_both() -> &'static [u8] {
    b"\x06=\0\0\0\0\0\0\0\0\0\0\0\0\0\0\0\0\0\0\0\0\0\0\0\x15\0\0\0\0\0\0\0\x0b\xa9\x9br\0\0\0\0\x15\0\0\0\0\0\0\0\x80\x03\0\0\0\0\0\0\0abc\x7f\0\0\0\0\0\0\0\0"
}

fn data_end() -> &'static [u8] {
    b"\x0f\x04\0\0\0\0\0\0\0\0\0\0\0"
}

// What stands behind the Data End of the file with the Attachment behind its block; with the Metadata; and with the application's
// record, the Metadata and the Attachment.
fn attachment_summary() -> &'static [u8] {
    b"\x04\x12\0\0\0\0\0\0\0\x01\0\0\0\x02\0\0\0/a\0\0\0\0\0\0\0\0\
    \x0b8\0\0\0\0\0\0\0\x01\0\0\0\0\0\0\0\0\0\x01\0\0\0\x01\0\0\0\0\0\0\0\x01\0\0\0\n\0\0\0\0\0\0\0\n\0\0\0\0\0\0\0\n\0\0\0\x01\0\x01\0\0\0\0\0\0\0\
    \x08J\0\0\0\0\0\0\0\n\0\0\0\0\0\0\0\n\0\0\0\0\0\0\0\x22\0\0\0\0\0\0\0l\0\0\0\0\0\0\0\n\0\0\0\x01\0\x8e\0\0\0\0\0\0\0\x1f\0\0\0\0\0\0\0\0\0\0\0;\0\0\0\0\0\0\0;\0\0\0\0\0\0\0\
    \n0\0\0\0\0\0\0\0\xad\0\0\0\0\0\0\0-\0\0\0\0\0\0\0\0\0\0\0\0\0\0\0\0\0\0\0\0\0\0\0\0\0\0\0\0\0\0\0\0\0\0\0\0\0\0\0\
    \x0e\x11\0\0\0\0\0\0\0\x04\xe7\0\0\0\0\0\0\0\x1b\0\0\0\0\0\0\0\
    \x0e\x11\0\0\0\0\0\0\0\x0b\x02\x01\0\0\0\0\0\0A\0\0\0\0\0\0\0\
    \x0e\x11\0\0\0\0\0\0\0\x08C\x01\0\0\0\0\0\0S\0\0\0\0\0\0\0\
    \x0e\x11\0\0\0\0\0\0\0\n\x96\x01\0\0\0\0\0\09\0\0\0\0\0\0\0\
    \x02\x14\0\0\0\0\0\0\0\xe7\0\0\0\0\0\0\0\xcf\x01\0\0\0\0\0\0\x89\xa6\x7fK\
    \x89MCAP0\r\n"
}

fn metadata_summary() -> &'static [u8] {
    b"\x04\x12\0\0\0\0\0\0\0\x01\0\0\0\x02\0\0\0/a\0\0\0\0\0\0\0\0\
    \x0b8\0\0\0\0\0\0\0\x01\0\0\0\0\0\0\0\0\0\x01\0\0\0\0\0\0\0\x01\0\0\0\x01\0\0\0\n\0\0\0\0\0\0\0\n\0\0\0\0\0\0\0\n\0\0\0\x01\0\x01\0\0\0\0\0\0\0\
    \x08J\0\0\0\0\0\0\0\n\0\0\0\0\0\0\0\n\0\0\0\0\0\0\0\x22\0\0\0\0\0\0\0l\0\0\0\0\0\0\0\n\0\0\0\x01\0\x8e\0\0\0\0\0\0\0\x1f\0\0\0\0\0\0\0\0\0\0\0;\0\0\0\0\0\0\0;\0\0\0\0\0\0\0\
    \r\x14\0\0\0\0\0\0\0\xad\0\0\0\0\0\0\0\x11\0\0\0\0\0\0\0\0\0\0\0\
    \x0e\x11\0\0\0\0\0\0\0\x04\xcb\0\0\0\0\0\0\0\x1b\0\0\0\0\0\0\0\
    \x0e\x11\0\0\0\0\0\0\0\x0b\xe6\0\0\0\0\0\0\0A\0\0\0\0\0\0\0\
    \x0e\x11\0\0\0\0\0\0\0\x08'\x01\0\0\0\0\0\0S\0\0\0\0\0\0\0\
    \x0e\x11\0\0\0\0\0\0\0\rz\x01\0\0\0\0\0\0\x1d\0\0\0\0\0\0\0\
    \x02\x14\0\0\0\0\0\0\0\xcb\0\0\0\0\0\0\0\x97\x01\0\0\0\0\0\0\xf3\xffr;\
    \x89MCAP0\r\n"
}

fn three_summary() -> &'static [u8] {
    b"\x04\x12\0\0\0\0\0\0\0\x01\0\0\0\x02\0\0\0/a\0\0\0\0\0\0\0\0\
    \x0b8\0\0\0\0\0\0\0\x01\0\0\0\0\0\0\0\0\0\x01\0\0\0\x01\0\0\0\x01\0\0\0\x01\0\0\0\n\0\0\0\0\0\0\0\n\0\0\0\0\0\0\0\n\0\0\0\x01\0\x01\0\0\0\0\0\0\0\
    \x08J\0\0\0\0\0\0\0\n\0\0\0\0\0\0\0\n\0\0\0\0\0\0\0\x22\0\0\0\0\0\0\0l\0\0\0\0\0\0\0\n\0\0\0\x01\0\x8e\0\0\0\0\0\0\0\x1f\0\0\0\0\0\0\0\0\0\0\0;\0\0\0\0\0\0\0;\0\0\0\0\0\0\0\
    \n0\0\0\0\0\0\0\0\xca\0\0\0\0\0\0\0-\0\0\0\0\0\0\0\0\0\0\0\0\0\0\0\0\0\0\0\0\0\0\0\0\0\0\0\0\0\0\0\0\0\0\0\0\0\0\0\
    \r\x14\0\0\0\0\0\0\0\xb9\0\0\0\0\0\0\0\x11\0\0\0\0\0\0\0\0\0\0\0\
    \x0e\x11\0\0\0\0\0\0\0\x04\x04\x01\0\0\0\0\0\0\x1b\0\0\0\0\0\0\0\
    \x0e\x11\0\0\0\0\0\0\0\x0b\x1f\x01\0\0\0\0\0\0A\0\0\0\0\0\0\0\
    \x0e\x11\0\0\0\0\0\0\0\x08`\x01\0\0\0\0\0\0S\0\0\0\0\0\0\0\
    \x0e\x11\0\0\0\0\0\0\0\n\xb3\x01\0\0\0\0\0\09\0\0\0\0\0\0\0\
    \x0e\x11\0\0\0\0\0\0\0\r\xec\x01\0\0\0\0\0\0\x1d\0\0\0\0\0\0\0\
    \x02\x14\0\0\0\0\0\0\0\x04\x01\0\0\0\0\0\0\x09\x02\0\0\0\0\0\0[$\xe7=\
    \x89MCAP0\r\n"
}

// A Channel with two pairs; the same with the pairs the other way round and two bytes behind its fields; and a Message on it.
fn channel() -> &'static [u8] {
    b"\x04&\0\0\0\0\0\0\0\x01\0\0\0\x02\0\0\0/a\0\0\0\0\x14\0\0\0\x01\0\0\0a\x01\0\0\01\x01\0\0\0b\x01\0\0\02"
}

fn channel_again() -> &'static [u8] {
    b"\x04(\0\0\0\0\0\0\0\x01\0\0\0\x02\0\0\0/a\0\0\0\0\x14\0\0\0\x01\0\0\0b\x01\0\0\02\x01\0\0\0a\x01\0\0\01\x07\x08"
}

fn message() -> &'static [u8] {
    b"\x05\x17\0\0\0\0\0\0\0\x01\0\x01\0\0\0\n\0\0\0\0\0\0\0\x09\0\0\0\0\0\0\0\xaa"
}

// What stands behind the Header of the file of the first Channel and the Message.
fn declared_once() -> &'static [u8] {
    b"\x06w\0\0\0\0\0\0\0\n\0\0\0\0\0\0\0\n\0\0\0\0\0\0\0O\0\0\0\0\0\0\0N\xb3\x01$\0\0\0\0O\0\0\0\0\0\0\0\x04&\0\0\0\0\0\0\0\x01\0\0\0\x02\0\0\0/a\0\0\0\0\x14\0\0\0\x01\0\0\0a\x01\0\0\01\x01\0\0\0b\x01\0\0\02\x05\x17\0\0\0\0\0\0\0\x01\0\x01\0\0\0\n\0\0\0\0\0\0\0\x09\0\0\0\0\0\0\0\xaa\
    \x07\x16\0\0\0\0\0\0\0\x01\0\x10\0\0\0\n\0\0\0\0\0\0\0/\0\0\0\0\0\0\0\
    \x0f\x04\0\0\0\0\0\0\0\0\0\0\0\
    \x04&\0\0\0\0\0\0\0\x01\0\0\0\x02\0\0\0/a\0\0\0\0\x14\0\0\0\x01\0\0\0a\x01\0\0\01\x01\0\0\0b\x01\0\0\02\
    \x0b8\0\0\0\0\0\0\0\x01\0\0\0\0\0\0\0\0\0\x01\0\0\0\0\0\0\0\0\0\0\0\x01\0\0\0\n\0\0\0\0\0\0\0\n\0\0\0\0\0\0\0\n\0\0\0\x01\0\x01\0\0\0\0\0\0\0\
    \x08J\0\0\0\0\0\0\0\n\0\0\0\0\0\0\0\n\0\0\0\0\0\0\0\x22\0\0\0\0\0\0\0\x80\0\0\0\0\0\0\0\n\0\0\0\x01\0\xa2\0\0\0\0\0\0\0\x1f\0\0\0\0\0\0\0\0\0\0\0O\0\0\0\0\0\0\0O\0\0\0\0\0\0\0\
    \x0e\x11\0\0\0\0\0\0\0\x04\xce\0\0\0\0\0\0\0/\0\0\0\0\0\0\0\
    \x0e\x11\0\0\0\0\0\0\0\x0b\xfd\0\0\0\0\0\0\0A\0\0\0\0\0\0\0\
    \x0e\x11\0\0\0\0\0\0\0\x08>\x01\0\0\0\0\0\0S\0\0\0\0\0\0\0\
    \x02\x14\0\0\0\0\0\0\0\xce\0\0\0\0\0\0\0\x91\x01\0\0\0\0\0\0\x1fO\x0fS\
    \x89MCAP0\r\n"
}

// A Chunk that names a compression, and the head of a record of 2^63 bytes.
fn compressed() -> &'static [u8] {
    b"\x06f\0\0\0\0\0\0\0\n\0\0\0\0\0\0\0\n\0\0\0\0\0\0\0;\0\0\0\0\0\0\0\xa8\x91\xbb\xd8\x03\0\0\0lz4;\0\0\0\0\0\0\0\x04\x12\0\0\0\0\0\0\0\x01\0\0\0\x02\0\0\0/a\0\0\0\0\0\0\0\0\x05\x17\0\0\0\0\0\0\0\x01\0\x01\0\0\0\n\0\0\0\0\0\0\0\x09\0\0\0\0\0\0\0\xaa"
}

fn huge() -> &'static [u8] {
    b"\x05\0\0\0\0\0\0\0\x80"
}

// What a recovery answered, and what the new store holds.
#[derive(Drop)]
struct Outcome {
    answer: Result<Recovered, RecoverRefused>,
    file: Vec<u8>,
}

// Recovers these bytes into a store whose appends fail as they are planned to.
fn recovered_into(
    alloc: Global,
    bytes: &[u8],
    failing: Vec<FailingWrite>,
) -> Result<Outcome, Fail> {
    let mut copy = Vec::new(alloc);
    copy.extend_from_slice(bytes)?;
    let mut source = QuietSource::new(copy);
    let (store, answer) = recover(alloc, &mut source, MemoryLive::new(alloc, failing), 786_432);
    Ok(Outcome {
        answer,
        file: store.into_bytes(),
    })
}

fn recovered(alloc: Global, bytes: &[u8]) -> Result<Outcome, Fail> {
    recovered_into(alloc, bytes, Vec::new(alloc))
}

// These parts, one behind the other.
fn joined(alloc: Global, parts: &[&[u8]]) -> Result<Vec<u8>, Fail> {
    let mut bytes = Vec::new(alloc);
    for part in parts {
        bytes.extend_from_slice(part)?;
    }
    Ok(bytes)
}

// The first bytes of the file.
fn front(len: usize) -> &'static [u8] {
    match file().get(..len) {
        Some(bytes) => bytes,
        None => file(),
    }
}

// An answer of no record or of the file's two, and of so many extras.
fn counted(messages: u64, extras: u64, at: u64, why: Why) -> Result<Recovered, RecoverRefused> {
    let records = if messages == 0 { 0 } else { 2 };
    Ok(Recovered {
        messages,
        records,
        extras,
        at,
        why,
    })
}

fn kept(messages: u64, at: u64, why: Why) -> Result<Recovered, RecoverRefused> {
    counted(messages, 0, at, why)
}

// Whether these records were recovered, or none since the magic is missing.
fn is_answer(
    found: &Result<Recovered, RecoverRefused>,
    wanted: &Result<Recovered, RecoverRefused>,
) -> bool {
    match (found, wanted) {
        (Ok(found), Ok(wanted)) => *found == *wanted,
        (Err(RecoverRefused::NoMagic), Err(RecoverRefused::NoMagic)) => true,
        _ => false,
    }
}

// Whether the store failed, and had failed so often by then.
fn has_failed_to_write(found: &Result<Recovered, RecoverRefused>, times: u64) -> bool {
    match found {
        Err(
            RecoverRefused::Stopped {
                stop: Stop::Fault { faults },
            },
        ) => *faults == times,
        _ => false,
    }
}

// What the first bytes of the file are recovered to: its Header ends at 34, its Chunk at 142, its Message Index at 173 and its
// Data End at 186.
fn cut_at(len: usize) -> (Result<Recovered, RecoverRefused>, &'static [u8]) {
    match len {
        0..=7 => (Err(RecoverRefused::NoMagic), front(0)),
        8..=33 => (kept(0, 8, Why::Short), empty_file()),
        34..=141 => (kept(0, 34, Why::Short), empty_file()),
        142..=172 => (kept(1, 142, Why::Short), file()),
        173..=185 => (kept(1, 173, Why::Short), file()),
        _ => (kept(1, 186, Why::Complete), file()),
    }
}

#[test]
fn each_cut_keeps_what_is_whole(rt: HostRuntime) -> Result<(), Fail> {
    let alloc = rt.alloc();
    holds_at(&rt, file().len() == 476, &file().len());
    holds_at(&rt, empty_file().len() == 165, &empty_file().len());
    for len in 0..477 {
        let found = recovered(alloc, front(len))?;
        let (answer, text) = cut_at(len);
        holds_at(&rt, is_answer(&found.answer, &answer), &len);
        holds_at(&rt, found.file.as_slice() == text, &len);
    }
    Ok(())
}

// An answer with all of the file's records and so many extras, up to its Data End.
fn whole(extras: u64, at: u64) -> Result<Recovered, RecoverRefused> {
    counted(1, extras, at, Why::Complete)
}

#[test]
fn extras_are_kept_and_indexed(rt: HostRuntime) -> Result<(), Fail> {
    let alloc = rt.alloc();
    let cut = joined(alloc, &[front(173), attachment(), data_end()])?;
    let text = joined(
        alloc,
        &[front(173), attachment(), data_end(), attachment_summary()],
    )?;
    let found = recovered(alloc, cut.as_slice())?;
    holds_at(&rt, is_answer(&found.answer, &whole(1, 231)), &found.answer);
    holds_at(&rt, text.len() == 604, &text.len());
    holds_at(&rt, found.file.as_slice() == text.as_slice(), &0);
    let cut = joined(alloc, &[front(173), metadata(), data_end()])?;
    let text = joined(
        alloc,
        &[front(173), metadata(), data_end(), metadata_summary()],
    )?;
    let found = recovered(alloc, cut.as_slice())?;
    holds_at(&rt, is_answer(&found.answer, &whole(1, 203)), &found.answer);
    holds_at(&rt, text.len() == 548, &text.len());
    holds_at(&rt, found.file.as_slice() == text.as_slice(), &1);
    Ok(())
}

// The file's Chunk and its Message Index.
fn block() -> &'static [u8] {
    match front(173).get(34..) {
        Some(block) => block,
        None => front(0),
    }
}

// Whether the bytes begin with these.
fn begins_with(bytes: &[u8], start: &[u8]) -> bool {
    match bytes.get(..start.len()) {
        Some(found) => found == start,
        None => false,
    }
}

// What is recovered of the first bytes of a file, which ends its Header at 34, an application's record at 46, its Chunk at 154, the
// Message Index at 185, a Metadata at 202, an Attachment at 247 and its Data End at 260; and how far the pieces reach that are whole,
// in their order in the new file.
fn cut_among_extras(len: usize) -> (Result<Recovered, RecoverRefused>, bool, usize) {
    match len {
        0..=7 => (Err(RecoverRefused::NoMagic), false, 0),
        8..=33 => (counted(0, 0, 8, Why::Short), false, 0),
        34..=45 => (counted(0, 0, 34, Why::Short), false, 0),
        46..=153 => (counted(0, 1, 46, Why::Short), false, 1),
        154..=184 => (counted(1, 1, 154, Why::Short), true, 1),
        185..=201 => (counted(1, 1, 185, Why::Short), true, 1),
        202..=246 => (counted(1, 2, 202, Why::Short), true, 2),
        247..=259 => (counted(1, 3, 247, Why::Short), true, 3),
        _ => (counted(1, 3, 260, Why::Complete), true, 3),
    }
}

// The new file up to its Data End: with the block or without, and with so many extras.
fn pieces(alloc: Global, with_block: bool, extras: usize) -> Result<Vec<u8>, Fail> {
    let block = if with_block { block() } else { front(0) };
    let first = if extras > 0 { application() } else { front(0) };
    let second = if extras > 1 { metadata() } else { front(0) };
    let third = if extras > 2 { attachment() } else { front(0) };
    joined(alloc, &[front(34), block, first, second, third, data_end()])
}

// Extras in front of a block and behind it stand behind it in the new file, in their order.
#[test]
fn each_cut_keeps_extras_that_are_whole(rt: HostRuntime) -> Result<(), Fail> {
    let alloc = rt.alloc();
    let cut = joined(
        alloc,
        &[
            front(34),
            application(),
            block(),
            metadata(),
            attachment(),
            data_end(),
        ],
    )?;
    for len in 0..261 {
        let found = recovered(alloc, cut.as_slice().get(..len).unwrap_or(front(0)))?;
        let (answer, with_block, extras) = cut_among_extras(len);
        holds_at(&rt, is_answer(&found.answer, &answer), &len);
        let text = pieces(alloc, with_block, extras)?;
        let begins = len < 8 || begins_with(found.file.as_slice(), text.as_slice());
        holds_at(&rt, begins, &len);
    }
    let found = recovered(alloc, cut.as_slice())?;
    let text = joined(
        alloc,
        &[pieces(alloc, true, 3)?.as_slice(), three_summary()],
    )?;
    holds_at(&rt, text.len() == 688, &text.len());
    holds_at(&rt, found.file.as_slice() == text.as_slice(), &text.len());
    Ok(())
}

// An application's record between two Chunks is an extra, one inside the second isn't, and no unknown record is.
#[test]
fn application_record_inside_a_chunk_is_dropped(rt: HostRuntime) -> Result<(), Fail> {
    let alloc = rt.alloc();
    let cut = joined(
        alloc,
        &[
            front(173),
            application(),
            chunk_of_both(),
            unknown(),
            data_end(),
        ],
    )?;
    let found = recovered(alloc, cut.as_slice())?;
    holds_at(&rt, is_answer(&found.answer, &whole(1, 277)), &found.answer);
    let text = pieces(alloc, true, 1)?;
    holds_at(
        &rt,
        begins_with(found.file.as_slice(), text.as_slice()),
        &found.file.len(),
    );
    Ok(())
}

#[test]
fn repeated_channel_is_left_out(rt: HostRuntime) -> Result<(), Fail> {
    let alloc = rt.alloc();
    let cut = joined(alloc, &[front(34), channel(), channel_again(), message()])?;
    let text = joined(alloc, &[front(34), declared_once()])?;
    let found = recovered(alloc, cut.as_slice())?;
    holds_at(
        &rt,
        is_answer(&found.answer, &kept(1, 162, Why::Short)),
        &found.answer,
    );
    holds_at(&rt, text.len() == 516, &text.len());
    holds_at(&rt, found.file.as_slice() == text.as_slice(), &text.len());
    Ok(())
}

#[test]
fn broken_files_say_why(rt: HostRuntime) -> Result<(), Fail> {
    let alloc = rt.alloc();
    let cut = joined(alloc, &[front(34), huge()])?;
    let found = recovered(alloc, cut.as_slice())?;
    holds_at(
        &rt,
        is_answer(&found.answer, &kept(0, 34, Why::Limit)),
        &found.answer,
    );
    holds_at(&rt, found.file.as_slice() == empty_file(), &0);
    let cut = joined(alloc, &[front(34), compressed(), message()])?;
    let found = recovered(alloc, cut.as_slice())?;
    holds_at(
        &rt,
        is_answer(&found.answer, &kept(0, 34, Why::Compressed)),
        &found.answer,
    );
    holds_at(&rt, found.file.as_slice() == empty_file(), &1);
    let cut = joined(alloc, &[front(8), channel(), message()])?;
    let found = recovered(alloc, cut.as_slice())?;
    holds_at(
        &rt,
        is_answer(&found.answer, &kept(0, 8, Why::Grammar)),
        &found.answer,
    );
    holds_at(&rt, found.file.as_slice() == empty_file(), &2);
    Ok(())
}

// One append that is to fail.
fn failing(alloc: Global, call: u64, taken: u64) -> Result<Vec<FailingWrite>, Fail> {
    let mut failing = Vec::new(alloc);
    failing.push(FailingWrite { call, taken })?;
    Ok(failing)
}

// The appends are the front, the block and the back. What stands after a fault is recovered to the whole file.
#[test]
fn failing_store_holds_first_pieces(rt: HostRuntime) -> Result<(), Fail> {
    let alloc = rt.alloc();
    for (call, taken, len) in [
        (0, 0, 0),
        (0, 5, 5),
        (1, 0, 34),
        (1, 5, 39),
        (2, 0, 173),
        (2, 5, 178),
    ] {
        let found = recovered_into(alloc, file(), failing(alloc, call, taken)?)?;
        holds_at(&rt, has_failed_to_write(&found.answer, 1), &len);
        holds_at(&rt, found.file.as_slice() == front(len), &len);
    }
    let found = recovered_into(alloc, file(), failing(alloc, 2, 0)?)?;
    let again = recovered(alloc, found.file.as_slice())?;
    holds_at(
        &rt,
        is_answer(&again.answer, &kept(1, 173, Why::Short)),
        &again.answer,
    );
    holds_at(&rt, again.file.as_slice() == file(), &173);
    Ok(())
}
