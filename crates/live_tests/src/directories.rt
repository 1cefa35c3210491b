//! A directory with readers beside its writer, which no whole run shows call by call.
ghost use Rattle.std.specs.Prelude.{◌≡◌, [], None, false, IfSome, IfOk};
ghost use Rattle.live_directory.specs.Published.{end_of};

use crate::untold::Untold;
use live_directory::{Directory, Front, Naming, Note, Opened, Reader, open_directory};
use live_entry::Entry;
use mcap_model::End;
use std::alloc::Global;
use std::marker::Brand;
use std::process::Abort;
use std::sync::Wait;
use std::test::*;
use std::thread::{Parker, Threads, for_each_mut, join};
use std::time::Duration;

fn front(blocks: u64, end: Option<End>) -> Front {
    Front { blocks, end }
}

// A block of a channel and a message at that offset.
fn entry_at(offset: u64) -> Entry<Untold> {
    Entry {
        extent: Untold {
            from: offset,
            len: 139,
        },
        offset,
        chunk_length: 108,
        start_time: 10,
        end_time: 10,
        messages: 1,
        declared: 1,
    }
}

// Publishes an entry at that offset.
fn publish_one<J: Naming, R: Wait>(
    rt: &R,
    alloc: Global,
    directory: &mut Directory<Untold, J>,
    offset: u64,
) -> Option<Note<Untold, J>>
    requires unsealed { end_of directory.old.shown ≡ None }
    requires first_want { directory.old.short ≡ false }
    ensures unsealed { end_of directory.new.shown ≡ None }
    ensures first_want { IfSome result (λ _. directory.new.short ≡ false) }
{
    let Ok(entries) = vec![in alloc; entry_at(offset)] else {
        return None;
    };
    match directory.publish(rt, entries) {
        Ok(note) => return Some(note),
        Err(_) => return None,
    }
}

// One reader, on one thread.
fn read_one<J: Naming, R: Wait + Abort>(
    rt: &R,
    alloc: Global,
    directory: &mut Directory<Untold, J>,
    reader: &mut Reader<Untold, J>,
) -> Result<(), Fail>
    requires unsealed { end_of directory.old.shown ≡ None }
    requires first_want { directory.old.short ≡ false }
{
    assert_eq!(rt; reader.front(), front(0, None));
    let note = publish_one(rt, alloc, directory, 34).ok_or("the first block")?;
    reader.learn(&note);
    assert_eq!(rt; reader.front(), front(1, None));
    assert_eq!(rt; reader.refresh(rt)?, front(1, None));
    assert_eq!(rt; reader.entries().len(), 1);
    assert_eq!(rt; reader.entries()[0].offset, 34);
    let note = directory.seal(rt, End::Closed)?;
    assert_eq!(rt; reader.front(), front(1, Some(End::Closed)));
    reader.learn(&note);
    assert_eq!(rt; reader.front(), front(1, Some(End::Closed)));
    assert_eq!(rt; reader.refresh(rt)?, front(1, Some(End::Closed)));
    assert_eq!(rt; reader.entries().len(), 1);
    Ok(())
}

fn one_reader_as<J: Naming, R: Wait + Abort>(
    rt: &R,
    alloc: Global,
    opened: Opened<Untold>,
) -> Result<(), Fail>
    requires { opened.seen.book ≡ J.book }
{
    let (mut directory, mut readers) = open_directory::<Untold, J, R>(alloc, rt, opened, 1)?;
    let answer = match readers.first_mut() {
        Some(reader) => read_one(rt, alloc, &mut directory, reader),
        None => Err(Fail::from("no reader")),
    };
    directory.close(rt);
    answer
}

#[test]
fn one_reader_finds_what_is_published(rt: HostRuntime) -> Result<(), Fail> {
    one_reader_as::<Brand, _>(&rt, rt.alloc(), Opened::new())
}

/// How long a reader rests between two looks, in nanoseconds. One that never rests is nearly always inside when its thread is
/// put aside, and then a publish waits for that thread's next turn.
const REST: u64 = 1_000_000;

// A reader beside the writer, which rests between two looks as a watcher does: its fronts never fall, it holds the entries that
// were published, as many as the front says, and an end stays. It goes on until it sees the end.
#[derive(Drop)]
struct Watch<J: Naming> {
    reader: Reader<Untold, J>,
    fronts: u64,
    blocks: u64,
    end: Option<End>,
    right: bool,
}

fn is_entry_at(entry: &Entry<Untold>, offset: u64) -> bool {
    let published = entry_at(offset);
    entry.offset == published.offset
        && entry.extent.from == published.extent.from
        && entry.extent.len == published.extent.len
        && entry.chunk_length == published.chunk_length
        && entry.start_time == published.start_time
        && entry.end_time == published.end_time
        && entry.messages == published.messages
        && entry.declared == published.declared
}

// Whether the entries behind the first ones are those that were published.
fn are_published(entries: &[Entry<Untold>], first: u64) -> bool {
    let mut offset = first.wrapping_mul(139).wrapping_add(34);
    for n in first as usize..entries.len() {
        if !is_entry_at(&entries[n], offset) {
            return false;
        }
        offset = offset.wrapping_add(139);
    }
    true
}

// Takes in a front that has moved, and says whether memory was there.
fn take_in<J: Naming, R: Wait>(rt: &R, watch: &mut Watch<J>, seen: Front) -> bool {
    let Ok(found) = watch.reader.refresh(rt) else {
        return false;
    };
    let entries = watch.reader.entries();
    watch.right &= watch.blocks <= seen.blocks && seen.blocks <= found.blocks;
    watch.right &= entries.len() as u64 == found.blocks;
    watch.right &= are_published(entries, watch.blocks);
    watch.right &= seen.end.is_none() || seen == found;
    watch.fronts = watch.fronts.saturating_add(1);
    watch.blocks = found.blocks;
    watch.end = found.end;
    true
}

fn follow_to_the_end<J: Naming, R: Wait>(rt: &R, watch: &mut Watch<J>) {
    let parker = Parker::new();
    'fronts: for _ in rt.forever() {
        let seen = watch.reader.front();
        if seen != front(watch.blocks, watch.end) && !take_in(rt, watch, seen) {
            watch.right = false;
            return;
        }
        if watch.end.is_some() {
            return;
        }
        parker.park_timeout(rt, Duration::from_nanos(REST));
    }
    unreachable!()
}

const BLOCKS: u64 = 100_000;

/// As many as a recording may have watchers.
const READERS: u32 = 16;

fn write<J: Naming, R: Wait>(
    rt: &R,
    alloc: Global,
    directory: &mut Directory<Untold, J>,
) -> Option<Note<Untold, J>>
    requires unsealed { end_of directory.old.shown ≡ None }
    requires first_want { directory.old.short ≡ false }
{
    // Where memory lacks it is sealed too, so that the readers come to an end.
    let mut offset = 34u64;
    'each: for _ in 0..BLOCKS {
        if publish_one(rt, alloc, directory, offset).is_none() {
            break;
        }
        offset = offset.wrapping_add(139);
    }
    directory.seal(rt, End::Closed).ok()
}

fn beside<J: Naming + Send + Sync, R: Threads + Wait + Sync>(
    rt: &R,
    alloc: Global,
    directory: &mut Directory<Untold, J>,
    watches: &mut [Watch<J>],
) -> Option<Note<Untold, J>>
    requires unsealed { end_of directory.old.shown ≡ None }
    requires first_want { directory.old.short ≡ false }
{
    let (_, note) = join(
        rt,
        || for_each_mut(
            rt,
            watches,
            READERS as usize,
            &|_, one| follow_to_the_end(rt, one),
        ),
        || -> Option<Note<Untold, J>>
            requires { (end_of directory.now.shown ≡ None) × (directory.now.short ≡ false) }
        { write(rt, alloc, directory) },
    );
    note
}

fn many_readers_as<J: Naming + Send + Sync, R: Threads + Wait + Abort + Sync>(
    rt: &R,
    alloc: Global,
    opened: Opened<Untold>,
) -> Result<(), Fail>
    requires { opened.seen.book ≡ J.book }
{
    let (mut directory, readers) = open_directory::<Untold, J, R>(alloc, rt, opened, READERS)?;
    let answer = watch_all(rt, alloc, &mut directory, readers);
    directory.close(rt);
    answer
}

fn watch_all<J: Naming + Send + Sync, R: Threads + Wait + Abort + Sync>(
    rt: &R,
    alloc: Global,
    directory: &mut Directory<Untold, J>,
    readers: Vec<Reader<Untold, J>>,
) -> Result<(), Fail>
    requires unsealed { end_of directory.old.shown ≡ None }
    requires first_want { directory.old.short ≡ false }
{
    let mut watches = Vec::new(alloc);
    for reader in readers {
        watches.push(Watch {
            reader,
            fronts: 0,
            blocks: 0,
            end: None,
            right: true,
        })?;
    }
    let note = beside(rt, alloc, directory, watches.as_mut_slice());
    assert!(rt; note.is_some());
    assert_eq!(rt; watches.len(), READERS as usize);
    for watch in watches.iter() {
        assert!(rt; watch.right);
        assert!(rt; watch.fronts > 0);
        assert_eq!(rt; watch.blocks, BLOCKS);
        assert_eq!(rt; watch.end, Some(End::Closed));
    }
    Ok(())
}

#[test]
fn fronts_never_fall_beside_the_writer(rt: HostRuntime) -> Result<(), Fail> {
    many_readers_as::<Brand, _>(&rt, rt.alloc(), Opened::new())
}

// Hands in entries, one a call, until memory lacks or there are five, and says how many.
fn hand_in<J: Naming, R: Wait>(rt: &R, alloc: Global, directory: &mut Directory<Untold, J>) -> u64
    requires unsealed { end_of directory.old.shown ≡ None }
    requires first_want { directory.old.short ≡ false }
    ensures unsealed { end_of directory.new.shown ≡ None }
{
    'entries: for count in 0..5u64 {
        let Ok(entries) = vec![in alloc; entry_at(count)] else {
            return count;
        };
        match directory.publish(rt, entries) {
            Ok(_) => {}
            Err(_) => return count + 1,
        }
    }
    return 5;
}

// What was handed in stands in the directory once that is sealed, though memory lacked in publishing it.
fn seal_all<J: Naming, R: Wait + Abort>(
    rt: &R,
    alloc: Global,
    directory: &mut Directory<Untold, J>,
    reader: &mut Reader<Untold, J>,
)
    requires unsealed { end_of directory.old.shown ≡ None }
    requires first_want { directory.old.short ≡ false }
{
    let count = hand_in(rt, alloc, directory);
    let Ok(note) = directory.seal(rt, End::Closed) else {
        return;
    };
    reader.learn(&note);
    let Ok(found) = reader.refresh(rt) else {
        return;
    };
    assert_eq!(rt; found, front(count, Some(End::Closed)));
    assert_eq!(rt; reader.entries().len() as u64, count);
    let mut offset = 0;
    for entry in reader.entries() {
        assert_eq!(rt; entry.offset, offset);
        offset = offset.wrapping_add(1);
    }
}

fn all_is_sealed_as<J: Naming, R: Wait + Abort>(rt: &R, alloc: Global, opened: Opened<Untold>)
    requires { opened.seen.book ≡ J.book }
{
    let Ok((mut directory, mut readers)) = open_directory::<Untold, J, R>(alloc, rt, opened, 1)
    else {
        return;
    };
    if let Some(reader) = readers.first_mut() {
        seal_all(rt, alloc, &mut directory, reader);
    }
    directory.close(rt);
}

#[test]
fn what_lacked_memory_is_sealed(rt: HostRuntime) {
    all_is_sealed_as::<Brand, _>(&rt, rt.alloc(), Opened::new())
}
