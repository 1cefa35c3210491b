//! What watchers write, at rows that are worked out by hand.
ghost use Rattle.std.specs.Prelude.{◌≡◌, None, Some, false, true, IfSome};
ghost use Rattle.mcap_model.specs.declared.ends.End.{End as Last};
ghost use Rattle.live_directory.specs.Published.{end_of};

use crate::fronts::played;
use crate::recorded::{Recorded, many_messages, two_blocks};
use crate::replays::holds_at;
use crate::untold::{FileView, Untold};
use io_memory::{FailingWrite, MemorySink};
use live_directory::{Directory, Naming, Note, Opened, Reader, open_directory};
use live_watcher::{WatchEnd, Watched, Watcher};
use mcap_model::{End, Range, Stop};
use std::alloc::Global;
use std::marker::Brand;
use std::process::Abort;
use std::sync::Wait;
use std::sync::atomic::AtomicBool;
use std::sync::atomic::Ordering::SeqCst;
use std::test::*;
use std::thread::{Threads, for_each_mut, join};

// Publishes the entry of that number.
fn publish_nth<J: Naming, R: Wait>(
    rt: &R,
    alloc: Global,
    directory: &mut Directory<Untold, J>,
    file: &Recorded,
    n: usize,
) -> bool
    requires unsealed { end_of directory.old.shown ≡ None }
    requires first_want { directory.old.short ≡ false }
    ensures unsealed { end_of directory.new.shown ≡ None }
    ensures first_want { result ≡ true → directory.new.short ≡ false }
{
    let Some(entry) = file.entries.get(n) else {
        return false;
    };
    let Ok(entries) = vec![in alloc; entry.same()] else {
        return false;
    };
    return directory.publish(rt, entries).is_ok();
}

// Publishes the first blocks of the file, one a call, and has the watcher look once behind each; then it seals the directory with
// that end, or doesn't, and has the watcher finish.
fn watch_blocks<J: Naming, R: Wait>(
    rt: &R,
    alloc: Global,
    directory: &mut Directory<Untold, J>,
    watcher: Watcher<Untold, J, FileView, MemorySink>,
    file: &Recorded,
    blocks: usize,
    end: Option<End>,
) -> Option<Watched<FileView, MemorySink>>
    requires unsealed { end_of directory.old.shown ≡ None }
    requires first_want { directory.old.short ≡ false }
{
    let mut watcher = watcher;
    let raised = AtomicBool::new(true);
    'blocks: for n in 0..blocks {
        if !publish_nth(rt, alloc, directory, file, n) {
            return None;
        }
        watcher.run(rt, alloc, &raised);
    }
    match end {
        Some(end) => match directory.seal(rt, end) {
            Ok(note) => return Some(watcher.finish(rt, alloc, &note)),
            Err(_) => return None,
        },
        None => {
            let note = directory.shown();
            return Some(watcher.finish_unsealed(rt, &note));
        }
    }
}

// A case: how many blocks of the file are published, how it is sealed, which times are watched, and which write of the sink
// fails, after three bytes.
#[derive(Clone, Copy)]
struct Case {
    blocks: usize,
    end: Option<End>,
    start: u64,
    failing: Option<u64>,
}

fn watcher_of<J: Naming>(
    alloc: Global,
    reader: Reader<Untold, J>,
    file: &Recorded,
    case: &Case,
) -> Option<Watcher<Untold, J, FileView, MemorySink>> {
    let mut failing = Vec::new(alloc);
    if let Some(call) = case.failing {
        failing.push(FailingWrite { call, taken: 3 }).ok()?;
    }
    let bytes = Vec::from_slice(alloc, &file.text).ok()?;
    let view = FileView::new(bytes, None);
    let range = Range {
        start: case.start,
        end: None,
    };
    let sink = MemorySink::new(alloc, failing);
    Some(Watcher::new(alloc, reader, view, sink, range))
}

// Runs a case.
fn watch_as<J: Naming, R: Wait>(
    rt: &R,
    alloc: Global,
    opened: Opened<Untold>,
    file: &Recorded,
    case: &Case,
) -> Result<Watched<FileView, MemorySink>, Fail>
    requires { opened.seen.book ≡ J.book }
{
    let (mut directory, mut readers) = open_directory::<Untold, J, R>(alloc, rt, opened, 1)?;
    let watched = match readers.pop() {
        Some(reader) => match watcher_of(alloc, reader, file, case) {
            Some(watcher) => watch_blocks(
                rt,
                alloc,
                &mut directory,
                watcher,
                file,
                case.blocks,
                case.end,
            ),
            None => None,
        },
        None => None,
    };
    directory.close(rt);
    Ok(watched.ok_or("memory")?)
}

fn make_case(blocks: usize, end: Option<End>, start: u64) -> Case {
    Case {
        blocks,
        end,
        start,
        failing: None,
    }
}

const STOPPED: End = End::Stopped { stop: Stop::Memory };

// What stands there: blocks, end, start, the text, the fronts of the report, and its end. The checksums are CRC-32 of
// `10 9 1 1 "/a" aa`, of that line and `11 9 1 2 "/a" aa`, and of the second alone, each with its end of line.
#[test]
fn watchers_write_fronts_and_ends(rt: HostRuntime) -> Result<(), Fail> {
    let alloc = rt.alloc();
    let file = two_blocks(alloc)?;
    let closed = Some(End::Closed);
    let rows: [(Case, &str, &[u64], WatchEnd); 6] = [
        (
            make_case(0, closed, 0),
            "end closed 0 0\n",
            &[],
            WatchEnd::Whole,
        ),
        (
            make_case(1, closed, 0),
            "front 1 1 3b53b508\nend closed 1 1\n10 9 1 1 \"/a\" aa\n",
            &[1],
            WatchEnd::Whole,
        ),
        (
            make_case(2, Some(STOPPED), 0),
            "front 1 1 3b53b508\nfront 2 2 34aa5417\nend stopped 2 2\n10 9 1 1 \"/a\" aa\n11 9 1 2 \"/a\" aa\n",
            &[1, 2],
            WatchEnd::Whole,
        ),
        (
            make_case(2, closed, 11),
            "front 1 0 00000000\nfront 2 1 7e0c9f9a\nend closed 2 1\n11 9 1 2 \"/a\" aa\n",
            &[1, 2],
            WatchEnd::Whole,
        ),
        (
            make_case(1, None, 0),
            "front 1 1 3b53b508\nend unsealed\n",
            &[1],
            WatchEnd::Unsealed,
        ),
        (
            make_case(0, None, 0),
            "end unsealed\n",
            &[],
            WatchEnd::Unsealed,
        ),
    ];
    let mut at = 0;
    for (case, text, fronts, end) in rows {
        let watched = watch_as::<Brand, _>(&rt, alloc, Opened::new(), &file, &case)?;
        holds_at(&rt, watched.sink.bytes() == text.as_bytes(), at);
        holds_at(&rt, watched.report.fronts.as_slice() == fronts, at);
        holds_at(&rt, watched.report.end == end, at);
        at = at.wrapping_add(1);
    }
    Ok(())
}

// The call of the sink that fails, after three bytes; the text that is left; and the fronts that were written.
#[test]
fn a_sink_that_fails_ends_its_watcher(rt: HostRuntime) -> Result<(), Fail> {
    let alloc = rt.alloc();
    let file = two_blocks(alloc)?;
    let rows: [(u64, &str, &[u64]); 2] = [(0, "fro", &[]), (1, "front 1 1 3b53b508\nend", &[1])];
    for (call, text, fronts) in rows {
        let mut case = make_case(1, Some(End::Closed), 0);
        case.failing = Some(call);
        let watched = watch_as::<Brand, _>(&rt, alloc, Opened::new(), &file, &case)?;
        let at = call as usize;
        holds_at(&rt, watched.sink.bytes() == text.as_bytes(), at);
        holds_at(&rt, watched.report.fronts.as_slice() == fronts, at);
        holds_at(&rt, watched.report.end == WatchEnd::Fault { faults: 1 }, at);
    }
    Ok(())
}

// Whether these are 1, 2, 4 and so on, as long as there are so many blocks.
fn are_doubled(fronts: &[u64], blocks: u64) -> bool {
    let mut next = 1u64;
    for front in fronts {
        if *front != next {
            return false;
        }
        next = next.saturating_mul(2);
    }
    next > blocks
}

#[test]
fn a_watcher_of_each_block_tells_fronts_that_double(rt: HostRuntime) -> Result<(), Fail> {
    let alloc = rt.alloc();
    let file = many_messages(alloc, 400, 60)?;
    let blocks = file.entries.len();
    let case = make_case(blocks, Some(End::Closed), 0);
    let watched = watch_as::<Brand, _>(&rt, alloc, Opened::new(), &file, &case)?;
    holds_at(&rt, blocks > 4, blocks);
    let fronts = watched.report.fronts.as_slice();
    holds_at(&rt, are_doubled(fronts, blocks as u64), blocks);
    Ok(())
}

// Publishes all blocks, seals, and raises the flag.
fn write_blocks<J: Naming, R: Wait>(
    rt: &R,
    alloc: Global,
    directory: &mut Directory<Untold, J>,
    file: &Recorded,
    tried: &AtomicBool,
) -> Option<Note<Untold, J>>
    requires unsealed { end_of directory.old.shown ≡ None }
    requires first_want { directory.old.short ≡ false }
    ensures { IfSome result (λ note. (end : Last) × (end_of note ≡ Some end)) }
{
    'blocks: for n in 0..file.entries.len() {
        if !publish_nth(rt, alloc, directory, file, n) {
            break;
        }
    }
    let note = directory.seal(rt, End::Closed).ok();
    tried.store(true, SeqCst);
    note
}

fn watch_beside<J: Naming + Send + Sync, R: Threads + Wait + Sync>(
    rt: &R,
    alloc: Global,
    directory: &mut Directory<Untold, J>,
    watchers: &mut [Watcher<Untold, J, FileView, MemorySink>],
    file: &Recorded,
) -> Option<Note<Untold, J>>
    requires unsealed { end_of directory.old.shown ≡ None }
    requires first_want { directory.old.short ≡ false }
    ensures { IfSome result (λ note. (end : Last) × (end_of note ≡ Some end)) }
{
    let tried = AtomicBool::new(false);
    let (_, note) = join(
        rt,
        || for_each_mut(rt, watchers, 4, &|_, one| one.run(rt, alloc, &tried)),
        || -> Option<Note<Untold, J>>
            requires { (end_of directory.now.shown ≡ None) × (directory.now.short ≡ false) }
            ensures { IfSome result (λ note. (end : Last) × (end_of note ≡ Some end)) }
        { write_blocks(rt, alloc, directory, file, &tried) },
    );
    note
}

// Whether a watcher wrote the lines of all messages behind its end, and fronts only before that.
fn wrote_all(watched: &Watched<FileView, MemorySink>, end: &[u8], lines: &[u8]) -> bool {
    let text = watched.sink.bytes();
    let tail = end.len().saturating_add(lines.len());
    let Some(start) = text.len().checked_sub(tail) else {
        return false;
    };
    let starts = start == 0 || text.starts_with(b"front ");
    let ends = text[start..].starts_with(end) && text.ends_with(lines);
    starts && ends && watched.report.end == WatchEnd::Whole
}

fn watch_all<J: Naming + Send + Sync, R: Threads + Wait + Abort + Sync>(
    rt: &R,
    alloc: Global,
    directory: &mut Directory<Untold, J>,
    readers: Vec<Reader<Untold, J>>,
    file: &Recorded,
) -> Result<(), Fail>
    requires unsealed { end_of directory.old.shown ≡ None }
    requires first_want { directory.old.short ≡ false }
{
    let all = make_case(0, None, 0);
    let mut watchers = Vec::new(alloc);
    for reader in readers {
        watchers.push(watcher_of(alloc, reader, file, &all).ok_or("a watcher")?)?;
    }
    let range = Range {
        start: 0,
        end: None,
    };
    let lines = played(alloc, &file.text, &file.entries, range)?;
    let blocks = file.entries.len();
    let end = format!(in alloc; "end closed {blocks} 60\n")?;
    let Some(note) = watch_beside(rt, alloc, directory, watchers.as_mut_slice(), file) else {
        return Err(Fail::from("no seal"));
    };
    for watcher in watchers {
        let watched = watcher.finish(rt, alloc, &note);
        let all_written = wrote_all(&watched, end.as_bytes(), lines.as_slice());
        holds_at(rt, all_written, blocks);
    }
    Ok(())
}

fn four_watchers_as<J: Naming + Send + Sync, R: Threads + Wait + Abort + Sync>(
    rt: &R,
    alloc: Global,
    opened: Opened<Untold>,
    file: &Recorded,
) -> Result<(), Fail>
    requires { opened.seen.book ≡ J.book }
{
    let (mut directory, readers) = open_directory::<Untold, J, R>(alloc, rt, opened, 4)?;
    let answer = watch_all(rt, alloc, &mut directory, readers, file);
    directory.close(rt);
    answer
}

#[test]
fn watchers_beside_the_writer_tell_all_at_the_end(rt: HostRuntime) -> Result<(), Fail> {
    let alloc = rt.alloc();
    let file = many_messages(alloc, 400, 60)?;
    four_watchers_as::<Brand, _>(&rt, alloc, Opened::new(), &file)
}
