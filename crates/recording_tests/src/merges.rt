//! Merges of small files, and of files that use more channels or schemas than there are ids.
ghost use Rattle.std.specs.Prelude.{◌<◌, ◌^◌, length};

use crate::recoveries::file;
use crate::same::{holds, holds_at};
use io_memory::{MemoryLive, QuietStore};
use mcap_merge::{MergeRefused, Merged, merge};
use mcap_model::{ReadingRefused, Rule};
use mcap_wire::{MAGIC, PairsRef};
use rec_data::{Channel, DataEnd, Header, Message, Schema};
use std::alloc::Global;
use std::test::Fail;

// Channel 1 of topic /a, and messages on it, the first at 10.
pub(crate) const CHANNEL_A: &[u8] = b"\x04\x12\0\0\0\0\0\0\0\x01\0\0\0\x02\0\0\0/a\0\0\0\0\0\0\0\0";

const MESSAGE_A: &[u8] =
    b"\x05\x17\0\0\0\0\0\0\0\x01\0\x01\0\0\0\x0a\0\0\0\0\0\0\0\x09\0\0\0\0\0\0\0\xaa";

// The same of channel 1 of topic /b.
const CHANNEL_B: &[u8] = b"\x04\x12\0\0\0\0\0\0\0\x01\0\0\0\x02\0\0\0/b\0\0\0\0\0\0\0\0";

const MESSAGE_B: &[u8] =
    b"\x05\x17\0\0\0\0\0\0\0\x01\0\x01\0\0\0\x0a\0\0\0\0\0\0\0\x09\0\0\0\0\0\0\0\xbb";

// Channel 4 of topic /a, and its fifth message, at 10.
const CHANNEL_C: &[u8] = b"\x04\x12\0\0\0\0\0\0\0\x04\0\0\0\x02\0\0\0/a\0\0\0\0\0\0\0\0";

const MESSAGE_C: &[u8] =
    b"\x05\x17\0\0\0\0\0\0\0\x04\0\x05\0\0\0\x0a\0\0\0\0\0\0\0\x09\0\0\0\0\0\0\0\xcc";

// Channel 1 of topic /a with the metadata k: v.
const CHANNEL_D: &[u8] =
    b"\x04\x1c\0\0\0\0\0\0\0\x01\0\0\0\x02\0\0\0/a\0\0\0\0\x0a\0\0\0\x01\0\0\0k\x01\0\0\0v";

// Records of applications, with no content and with some.
const APPLICATION_A: &[u8] = b"\x80\0\0\0\0\0\0\0\0";

const APPLICATION_B: &[u8] = b"\xff\x03\0\0\0\0\0\0\0xyz";

// Attachments without name and data, logged at 1 and at 2.
const ATTACHMENT_A: &[u8] =
    b"\x09\x24\0\0\0\0\0\0\0\x01\0\0\0\0\0\0\0\0\0\0\0\0\0\0\0\0\0\0\0\0\0\0\0\0\0\0\0\0\0\0\0\0\0\0\0";

const ATTACHMENT_B: &[u8] =
    b"\x09\x24\0\0\0\0\0\0\0\x02\0\0\0\0\0\0\0\0\0\0\0\0\0\0\0\0\0\0\0\0\0\0\0\0\0\0\0\0\0\0\0\0\0\0\0";

// Metadata m and n, with no pairs.
const METADATA_A: &[u8] = b"\x0c\x09\0\0\0\0\0\0\0\x01\0\0\0m\0\0\0\0";

const METADATA_B: &[u8] = b"\x0c\x09\0\0\0\0\0\0\0\x01\0\0\0n\0\0\0\0";

/// What stands in a merged file in front of its first record: the magic, a Header without profile, and the head of the Chunk.
pub(crate) const FIRST: usize = 83;

// A file of that profile and these records.
fn source(alloc: Global, profile: &str, records: &[&[u8]]) -> Result<QuietStore, Fail>
    requires { length profile.now < 2 ^ 32 }
{
    let mut out = Vec::new(alloc);
    out.extend_from_slice(&MAGIC)?;
    Header {
        profile,
        library: "",
    }
    .frame(&mut out)?;
    for record in records {
        out.extend_from_slice(record)?;
    }
    DataEnd {
        data_section_crc: 0,
    }
    .frame(&mut out)?;
    Ok(QuietStore::new(out))
}

// Two stores.
fn two(alloc: Global, a: QuietStore, b: QuietStore) -> Result<Vec<QuietStore>, Fail> {
    let mut stores = Vec::new(alloc);
    stores.push(a)?;
    stores.push(b)?;
    Ok(stores)
}

// What merging the stores in chunks of 786,432 bytes answers, and the new file.
fn merged(
    alloc: Global,
    stores: Vec<QuietStore>,
) -> Result<(Result<Merged, MergeRefused>, Vec<u8>), Fail> {
    if stores.is_empty() || stores.len() > 64 {
        return Err(Fail::from("so many stores aren't tried"));
    }
    let mut stores = stores;
    let live = MemoryLive::new(alloc, Vec::new(alloc));
    let (live, result) = merge(alloc, &mut stores, live, 786_432);
    Ok((result, live.into_bytes()))
}

/// Whether it is merged, with so many messages and records.
pub(crate) fn counts(found: &Result<Merged, MergeRefused>, messages: u64, records: u64) -> bool {
    match found {
        Ok(merged) => (merged.messages, merged.records) == (messages, records),
        Err(_) => false,
    }
}

/// Whether these records follow one another from the place on.
pub(crate) fn stand(bytes: &[u8], at: usize, records: &[&[u8]]) -> bool {
    let mut at = at;
    for record in records {
        match bytes.get(at..at.saturating_add(record.len())) {
            Some(found) => {
                if found != *record {
                    return false;
                }
            }
            None => return false,
        }
        at = at.saturating_add(record.len());
    }
    true
}

#[test]
fn a_numbered_file_is_merged_to_itself(rt: HostRuntime) -> Result<(), Fail> {
    let alloc = rt.alloc();
    let mut bytes = Vec::new(alloc);
    bytes.extend_from_slice(file())?;
    let mut stores = Vec::new(alloc);
    stores.push(QuietStore::new(bytes))?;
    let (result, bytes) = merged(alloc, stores)?;
    holds(&rt, counts(&result, 1, 2));
    holds(&rt, bytes.as_slice() == file());
    Ok(())
}

#[test]
fn the_same_file_twice_has_one_channel(rt: HostRuntime) -> Result<(), Fail> {
    let alloc = rt.alloc();
    let stores = two(
        alloc,
        source(alloc, "", &[CHANNEL_A, MESSAGE_A])?,
        source(alloc, "", &[CHANNEL_A, MESSAGE_A])?,
    )?;
    let (result, bytes) = merged(alloc, stores)?;
    holds(&rt, counts(&result, 2, 3));
    holds_at(&rt, bytes.len() == 524, &bytes.len());
    holds(
        &rt,
        stand(bytes.as_slice(), FIRST, &[CHANNEL_A, MESSAGE_A, MESSAGE_A]),
    );
    Ok(())
}

#[test]
fn three_files_are_merged_by_time_and_content(rt: HostRuntime) -> Result<(), Fail> {
    let alloc = rt.alloc();
    let mut stores = two(
        alloc,
        source(alloc, "p", &[CHANNEL_A, MESSAGE_A])?,
        source(alloc, "p", &[CHANNEL_B, MESSAGE_B])?,
    )?;
    stores.push(source(alloc, "q", &[CHANNEL_C, MESSAGE_C])?)?;
    let (result, bytes) = merged(alloc, stores)?;
    let wanted: [&[u8]; 5] = [
        CHANNEL_A,
        MESSAGE_A,
        b"\x04\x12\0\0\0\0\0\0\0\x02\0\0\0\x02\0\0\0/b\0\0\0\0\0\0\0\0",
        b"\x05\x17\0\0\0\0\0\0\0\x02\0\x01\0\0\0\x0a\0\0\0\0\0\0\0\x09\0\0\0\0\0\0\0\xbb",
        b"\x05\x17\0\0\0\0\0\0\0\x01\0\x05\0\0\0\x0a\0\0\0\0\0\0\0\x09\0\0\0\0\0\0\0\xcc",
    ];
    holds(&rt, counts(&result, 3, 5));
    holds(&rt, stand(bytes.as_slice(), FIRST, &wanted));
    Ok(())
}

#[test]
fn a_profile_of_all_inputs_is_kept(rt: HostRuntime) -> Result<(), Fail> {
    let alloc = rt.alloc();
    let stores = two(
        alloc,
        source(alloc, "p", &[CHANNEL_A, MESSAGE_A])?,
        source(alloc, "p", &[CHANNEL_B, MESSAGE_B])?,
    )?;
    let (result, bytes) = merged(alloc, stores)?;
    holds(&rt, counts(&result, 2, 4));
    holds(
        &rt,
        stand(bytes.as_slice(), 8, &[b"\x01\x12\0\0\0\0\0\0\0\x01\0\0\0p"]),
    );
    Ok(())
}

#[test]
fn channels_of_one_topic_and_other_metadata_are_two(rt: HostRuntime) -> Result<(), Fail> {
    let alloc = rt.alloc();
    let stores = two(
        alloc,
        source(alloc, "", &[CHANNEL_A, MESSAGE_A])?,
        source(alloc, "", &[CHANNEL_D, MESSAGE_A])?,
    )?;
    let (result, bytes) = merged(alloc, stores)?;
    let wanted: [&[u8]; 4] = [
        CHANNEL_A,
        MESSAGE_A,
        b"\x04\x1c\0\0\0\0\0\0\0\x02\0\0\0\x02\0\0\0/a\0\0\0\0\x0a\0\0\0\x01\0\0\0k\x01\0\0\0v",
        b"\x05\x17\0\0\0\0\0\0\0\x02\0\x01\0\0\0\x0a\0\0\0\0\0\0\0\x09\0\0\0\0\0\0\0\xaa",
    ];
    holds(&rt, counts(&result, 2, 4));
    holds(&rt, stand(bytes.as_slice(), FIRST, &wanted));
    Ok(())
}

#[test]
fn an_attachment_stands_behind_the_blocks(rt: HostRuntime) -> Result<(), Fail> {
    let alloc = rt.alloc();
    let attachment: &[u8] =
        b"\x09\x24\0\0\0\0\0\0\0\0\0\0\0\0\0\0\0\0\0\0\0\0\0\0\0\0\0\0\0\0\0\0\0\0\0\0\0\0\0\0\0\0\0\0\0";
    let mut stores = Vec::new(alloc);
    stores.push(source(alloc, "", &[CHANNEL_A, attachment, MESSAGE_A])?)?;
    let (result, bytes) = merged(alloc, stores)?;
    holds(&rt, counts(&result, 1, 2));
    holds_at(&rt, bytes.len() == 604, &bytes.len());
    holds(&rt, stand(bytes.as_slice(), 173, &[attachment]));
    Ok(())
}

// Two files that have a record of an application, an Attachment and a Metadata each, beside records of unknown opcodes below
// 0x80. The second one's channel and message stand in a chunk, with another record of an application.
fn with_extras(alloc: Global) -> Result<Vec<QuietStore>, Fail> {
    let chunk: &[u8] =
        b"\x06\x6d\0\0\0\0\0\0\0\x0a\0\0\0\0\0\0\0\x0a\0\0\0\0\0\0\0\x45\0\0\0\0\0\0\0\0\0\0\0\0\0\0\0\x45\0\0\0\0\0\0\0";
    let inside: &[u8] = b"\x80\x01\0\0\0\0\0\0\0i";
    let low: &[u8] = b"\x7f\x01\0\0\0\0\0\0\0q";
    let lowest: &[u8] = b"\x10\0\0\0\0\0\0\0\0";
    let first: [&[u8]; 6] = [
        APPLICATION_A,
        CHANNEL_A,
        ATTACHMENT_A,
        MESSAGE_A,
        low,
        METADATA_A,
    ];
    let second: [&[u8]; 8] = [
        METADATA_B,
        chunk,
        CHANNEL_B,
        MESSAGE_B,
        inside,
        lowest,
        APPLICATION_B,
        ATTACHMENT_B,
    ];
    two(
        alloc,
        source(alloc, "", &first)?,
        source(alloc, "", &second)?,
    )
}

// The records of the chunk end at 201, its two Message Indexes at 263.
#[test]
fn extras_stand_in_the_order_of_the_inputs(rt: HostRuntime) -> Result<(), Fail> {
    let alloc = rt.alloc();
    let (result, bytes) = merged(alloc, with_extras(alloc)?)?;
    let wanted: [&[u8]; 7] = [
        APPLICATION_A,
        ATTACHMENT_A,
        METADATA_A,
        METADATA_B,
        APPLICATION_B,
        ATTACHMENT_B,
        b"\x0f\x04\0\0\0\0\0\0\0\0\0\0\0",
    ];
    holds(&rt, counts(&result, 2, 4));
    holds(&rt, stand(bytes.as_slice(), 263, &wanted));
    Ok(())
}

#[test]
fn the_first_input_that_is_cut_short_is_named(rt: HostRuntime) -> Result<(), Fail> {
    let alloc = rt.alloc();
    let mut cut = Vec::new(alloc);
    cut.extend_from_slice(b"\x89MCAP0\r\n\x01\x08\0\0\0\0\0\0\0\0\0\0\0\0\0\0\0")?;
    let stores = two(
        alloc,
        source(alloc, "", &[CHANNEL_A, MESSAGE_A])?,
        QuietStore::new(cut),
    )?;
    let (result, bytes) = merged(alloc, stores)?;
    let is_named = matches!(
        result,
        Err(MergeRefused::Halted {
            input: 1,
            why: ReadingRefused::Grammar {
                offset: 25,
                rule: Rule::V4
            }
        })
    );
    holds(&rt, is_named);
    holds(&rt, bytes.is_empty());
    Ok(())
}

// Adds a Schema of that id and name.
fn add_schema(out: &mut Vec<u8>, id: u16, name: &str) -> Result<(), Fail> {
    if name.len() > 1000 {
        return Err(Fail::from("such a name isn't tried"));
    }
    Schema {
        id,
        name,
        encoding: "",
        payload: b"",
    }
    .frame(out)?;
    Ok(())
}

// Adds a Channel of that id and topic, and a Message on it.
fn add_channel(
    out: &mut Vec<u8>,
    id: u16,
    schema_id: u16,
    topic: &str,
    log_time: u64,
) -> Result<(), Fail> {
    if topic.len() > 1000 {
        return Err(Fail::from("such a topic isn't tried"));
    }
    Channel {
        id,
        schema_id,
        topic,
        message_encoding: "",
        metadata: PairsRef::of(&[]),
    }
    .frame(out)?;
    Message {
        channel_id: id,
        sequence: 1,
        log_time,
        publish_time: 9,
        payload: b"",
    }
    .frame(out)?;
    Ok(())
}

// A file of 40,000 Channels whose topics begin so, each with a Message at that time and, if this is wanted, a Schema of its own.
fn many(alloc: Global, front: &str, schemas: bool, log_time: u64) -> Result<QuietStore, Fail> {
    let mut records = Vec::new(alloc);
    for id in 1..40_001u16 {
        let name = format!(in alloc; "{front}{id}")?;
        if schemas {
            add_schema(&mut records, id, name.as_str())?;
            add_channel(&mut records, id, id, name.as_str(), log_time)?;
        } else {
            add_channel(&mut records, id, 0, name.as_str(), log_time)?;
        }
    }
    source(alloc, "", &[records.as_slice()])
}

#[test]
fn eighty_thousand_channels_are_too_many(rt: HostRuntime) -> Result<(), Fail> {
    let alloc = rt.alloc();
    let stores = two(
        alloc,
        many(alloc, "/a", false, 1)?,
        many(alloc, "/b", false, 2)?,
    )?;
    let (result, bytes) = merged(alloc, stores)?;
    holds(&rt, matches!(result, Err(MergeRefused::TooManyChannels)));
    holds(&rt, bytes.is_empty());
    Ok(())
}

// Ids of channels lack first, at the second file's messages; those of schemas lack at the third's.
#[test]
fn too_many_schemas_are_told_before_too_many_channels(rt: HostRuntime) -> Result<(), Fail> {
    let alloc = rt.alloc();
    let mut stores = two(
        alloc,
        many(alloc, "/a", false, 1)?,
        many(alloc, "/b", true, 2)?,
    )?;
    stores.push(many(alloc, "/c", true, 3)?)?;
    let (result, bytes) = merged(alloc, stores)?;
    holds(&rt, matches!(result, Err(MergeRefused::TooManySchemas)));
    holds(&rt, bytes.is_empty());
    Ok(())
}
