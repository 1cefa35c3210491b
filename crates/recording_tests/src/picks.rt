//! Which messages of a file are filtered into another.
use crate::recoveries::file;
use crate::same::holds_at;
use io_memory::{FailingWrite, MemoryLive, QuietSource};
use mcap_filter::{PickRefused, Picked, filter};
use mcap_model::{Range, ReadingRefused, Stop};
use mcap_recover::recover;
use mcap_wire::Text;
use std::alloc::Global;
use std::test::Fail;

// Each literal stands in a function, so that no goal of a test holds its bytes.

fn front() -> &'static [u8] {
    b"\x89MCAP0\x0d\x0a\x01\x11\0\0\0\0\0\0\0\0\0\0\0\x09\0\0\0mcaprec 1"
}

// Two Channels on one topic, the second with a Schema, each with what stands behind its fields; and a third on another topic.
fn first_channel() -> &'static [u8] {
    b"\x04\x12\0\0\0\0\0\0\0\x01\0\0\0\x02\0\0\0/a\0\0\0\0\0\0\0\0"
}

fn schema() -> &'static [u8] {
    b"\x03\x11\0\0\0\0\0\0\0\x07\0\x01\0\0\0S\0\0\0\0\x02\0\0\0hi"
}

fn second_channel() -> &'static [u8] {
    b"\x04\x16\0\0\0\0\0\0\0\x03\0\x07\0\x02\0\0\0/a\0\0\0\0\0\0\0\0rest"
}

fn second_written() -> &'static [u8] {
    b"\x04\x12\0\0\0\0\0\0\0\x03\0\x07\0\x02\0\0\0/a\0\0\0\0\0\0\0\0"
}

fn third_channel() -> &'static [u8] {
    b"\x04\x12\0\0\0\0\0\0\0\x02\0\x07\0\x02\0\0\0/b\0\0\0\0\0\0\0\0"
}

// Messages on the first channel at 10 and at 11, on the second at 10, and on the third at 10.
fn at_ten() -> &'static [u8] {
    b"\x05\x17\0\0\0\0\0\0\0\x01\0\x01\0\0\0\x0a\0\0\0\0\0\0\0\x09\0\0\0\0\0\0\0\xaa"
}

fn at_eleven() -> &'static [u8] {
    b"\x05\x17\0\0\0\0\0\0\0\x01\0\x02\0\0\0\x0b\0\0\0\0\0\0\0\x09\0\0\0\0\0\0\0\xaa"
}

fn on_second() -> &'static [u8] {
    b"\x05\x17\0\0\0\0\0\0\0\x03\0\x03\0\0\0\x0a\0\0\0\0\0\0\0\x09\0\0\0\0\0\0\0\xbb"
}

fn on_third() -> &'static [u8] {
    b"\x05\x17\0\0\0\0\0\0\0\x02\0\x04\0\0\0\x0a\0\0\0\0\0\0\0\x09\0\0\0\0\0\0\0\xcc"
}

fn metadata() -> &'static [u8] {
    b"\x0c\x08\0\0\0\0\0\0\0\0\0\0\0\0\0\0\0"
}

fn application() -> &'static [u8] {
    b"\x80\x03\0\0\0\0\0\0\0abc"
}

fn compressed() -> &'static [u8] {
    b"\x06f\0\0\0\0\0\0\0\n\0\0\0\0\0\0\0\n\0\0\0\0\0\0\0;\0\0\0\0\0\0\0\xa8\x91\xbb\xd8\x03\0\0\0lz4;\0\0\0\0\0\0\0\x04\x12\0\0\0\0\0\0\0\x01\0\0\0\x02\0\0\0/a\0\0\0\0\0\0\0\0\x05\x17\0\0\0\0\0\0\0\x01\0\x01\0\0\0\n\0\0\0\0\0\0\0\x09\0\0\0\0\0\0\0\xaa"
}

fn huge() -> &'static [u8] {
    b"\x05\0\0\0\0\0\0\0\x80"
}

fn data_end() -> &'static [u8] {
    b"\x0f\x04\0\0\0\0\0\0\0\0\0\0\0"
}

// The Header and these parts, one behind the other.
fn joined(alloc: Global, parts: &[&[u8]]) -> Result<Vec<u8>, Fail> {
    let mut bytes = Vec::new(alloc);
    bytes.extend_from_slice(front())?;
    for part in parts {
        bytes.extend_from_slice(part)?;
    }
    Ok(bytes)
}

// The file of these records, as a recovery writes it.
fn file_of(alloc: Global, parts: &[&[u8]]) -> Result<Vec<u8>, Fail> {
    let mut source = QuietSource::new(joined(alloc, parts)?);
    let store = MemoryLive::new(alloc, Vec::new(alloc));
    let (store, _answer) = recover(alloc, &mut source, store, 786_432);
    Ok(store.into_bytes())
}

// What a filtering answered, and what the new store holds.
#[derive(Drop)]
struct Outcome {
    answer: Result<Picked, PickRefused>,
    file: Vec<u8>,
}

// Filters these bytes into a store whose appends fail as they are planned to.
fn filtered_into(
    alloc: Global,
    bytes: Vec<u8>,
    range: Range,
    topic: Option<&str>,
    failing: Vec<FailingWrite>,
) -> Result<Outcome, Fail> {
    let mut source = QuietSource::new(bytes);
    let asked = Text::copied(alloc, topic.unwrap_or(""))?;
    let asked = if topic.is_some() { Some(&asked) } else { None };
    let store = MemoryLive::new(alloc, failing);
    let (store, answer) = filter(alloc, &mut source, store, range, asked, 786_432);
    Ok(Outcome {
        answer,
        file: store.into_bytes(),
    })
}

// From one time to before another.
fn times(start: u64, end: Option<u64>) -> Range {
    Range { start, end }
}

// Whether so many messages and records were picked, and the file is that of these records.
fn is_file(
    alloc: Global,
    found: &Outcome,
    messages: u64,
    records: u64,
    parts: &[&[u8]],
) -> Result<bool, Fail> {
    let text = file_of(alloc, parts)?;
    match &found.answer {
        Ok(picked) => Ok(
            picked.messages == messages
                && picked.records == records
                && found.file.as_slice() == text.as_slice(),
        ),
        Err(_) => Ok(false),
    }
}

// Two messages on one channel, at 10 and 11.
fn two(alloc: Global) -> Result<Vec<u8>, Fail> {
    joined(alloc, &[first_channel(), at_ten(), at_eleven(), data_end()])
}

#[test]
fn ends_of_a_range_and_another_topic(rt: HostRuntime) -> Result<(), Fail> {
    let alloc = rt.alloc();
    let none = Vec::new(alloc);
    let found = filtered_into(alloc, two(alloc)?, times(11, None), None, none)?;
    let is = is_file(
        alloc,
        &found,
        1,
        2,
        &[first_channel(), at_eleven(), data_end()],
    )?;
    holds_at(&rt, is && found.file.len() == 476, &found.answer);
    let none = Vec::new(alloc);
    let found = filtered_into(alloc, two(alloc)?, times(10, Some(11)), None, none)?;
    let is = is_file(
        alloc,
        &found,
        1,
        2,
        &[first_channel(), at_ten(), data_end()],
    )?;
    holds_at(&rt, is && found.file.as_slice() == file(), &found.answer);
    let none = Vec::new(alloc);
    let found = filtered_into(alloc, two(alloc)?, times(0, None), Some("/z"), none)?;
    let is = is_file(alloc, &found, 0, 0, &[data_end()])?;
    holds_at(&rt, is && found.file.len() == 165, &found.answer);
    Ok(())
}

// All of a file whose declarations stand before they are needed, and with extras among its records.
fn mixed(alloc: Global) -> Result<Vec<u8>, Fail> {
    joined(
        alloc,
        &[
            schema(),
            third_channel(),
            first_channel(),
            second_channel(),
            at_eleven(),
            application(),
            on_second(),
            on_third(),
            second_channel(),
            metadata(),
            at_ten(),
            data_end(),
        ],
    )
}

// Declarations stand directly before the first message that needs them, without what stands behind their fields; messages keep the
// order of the source, those of one time too; two channels are on one topic; and extras pass on, whatever is asked for.
#[test]
fn declarations_stand_where_they_are_needed(rt: HostRuntime) -> Result<(), Fail> {
    let alloc = rt.alloc();
    let none = Vec::new(alloc);
    let found = filtered_into(alloc, mixed(alloc)?, times(0, None), Some("/a"), none)?;
    let wanted: &[&[u8]] = &[
        first_channel(),
        at_eleven(),
        schema(),
        second_written(),
        on_second(),
        at_ten(),
        application(),
        metadata(),
        data_end(),
    ];
    holds_at(&rt, is_file(alloc, &found, 3, 6, wanted)?, &found.answer);
    let none = Vec::new(alloc);
    let found = filtered_into(alloc, mixed(alloc)?, times(0, None), Some("/b"), none)?;
    let wanted: &[&[u8]] = &[
        schema(),
        third_channel(),
        on_third(),
        application(),
        metadata(),
        data_end(),
    ];
    holds_at(&rt, is_file(alloc, &found, 1, 3, wanted)?, &found.answer);
    let none = Vec::new(alloc);
    let found = filtered_into(alloc, mixed(alloc)?, times(12, None), None, none)?;
    let wanted: &[&[u8]] = &[application(), metadata(), data_end()];
    holds_at(&rt, is_file(alloc, &found, 0, 0, wanted)?, &found.answer);
    Ok(())
}

// Where a reading of the source halts, and how: cut short, a rule that is broken, a compression, or a limit.
fn halt_of(found: &Outcome) -> (u64, u8) {
    match &found.answer {
        Err(
            PickRefused::Refused {
                why: ReadingRefused::Grammar { offset, rule: _ },
            },
        ) => (*offset, 1),
        Err(
            PickRefused::Refused {
                why: ReadingRefused::Compressed { offset, name: _ },
            },
        ) => (*offset, 2),
        Err(
            PickRefused::Refused {
                why: ReadingRefused::Limit { offset },
            },
        ) => (*offset, 3),
        _ => (0, 0),
    }
}

#[test]
fn sources_that_halt_are_refused(rt: HostRuntime) -> Result<(), Fail> {
    let alloc = rt.alloc();
    let none = Vec::new(alloc);
    let found = filtered_into(alloc, Vec::new(alloc), times(0, None), None, none)?;
    holds_at(&rt, halt_of(&found) == (0, 1) && found.file.is_empty(), &0);
    let rows: &[(&[&[u8]], (u64, u8))] = &[
        (&[first_channel(), at_ten()], (93, 1)),
        (&[at_ten(), data_end()], (34, 1)),
        (&[compressed(), data_end()], (34, 2)),
        (&[huge()], (34, 3)),
    ];
    for (parts, wanted) in rows {
        let none = Vec::new(alloc);
        let found = filtered_into(alloc, joined(alloc, parts)?, times(0, None), None, none)?;
        let held = found.file.as_slice() == front();
        holds_at(&rt, held && halt_of(&found) == *wanted, wanted);
    }
    Ok(())
}

// The second append fails, which is that of the block.
#[test]
fn failing_store_is_told(rt: HostRuntime) -> Result<(), Fail> {
    let alloc = rt.alloc();
    let mut failing = Vec::new(alloc);
    failing.push(FailingWrite { call: 1, taken: 5 })?;
    let found = filtered_into(alloc, two(alloc)?, times(0, None), None, failing)?;
    let is = match &found.answer {
        Err(
            PickRefused::Stopped {
                stop: Stop::Fault { faults },
            },
        ) => *faults == 1,
        _ => false,
    };
    holds_at(&rt, is && found.file.len() == 39, &found.answer);
    Ok(())
}
