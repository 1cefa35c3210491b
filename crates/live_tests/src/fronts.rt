//! Replays of the first blocks of longer files, each compared to a scan of the front of the file that they end.
ghost use Rattle.std.specs.Prelude.{◌≤◌};
ghost use Rattle.mcap_wire.specs.Limits.{chunk_size_limit};

use crate::recorded::{Recorded, many_messages};
use crate::replays::holds_at;
use crate::untold::{FileView, Untold};
use io_memory::QuietSource;
use live_entry::Entry;
use live_replay::replay_live;
use mcap_io::Extent;
use mcap_model::Range;
use std::alloc::Global;
use std::process::Abort;
use std::test::Fail;
use time_player::{cat_text, replay_scan};

// It stands in a function, so that no goal of a test holds its bytes.
fn data_end() -> &'static [u8] {
    b"\x0f\x04\0\0\0\0\0\0\0\0\0\0\0"
}

// The lines of a scan of the front of a file.
fn scanned(alloc: Global, front: &[u8], range: Range) -> Result<Vec<u8>, Fail> {
    let mut bytes = Vec::from_slice(alloc, front)?;
    bytes.extend_from_slice(data_end())?;
    let mut source = QuietSource::new(bytes);
    match replay_scan(alloc, &mut source, range, None) {
        Ok(played) => Ok(cat_text(alloc, &played)?.into_vec()),
        Err(_) => Err(Fail::from("no scan")),
    }
}

/// The lines of these blocks of the file.
pub(crate) fn played(
    alloc: Global,
    text: &[u8],
    entries: &[Entry<Untold>],
    range: Range,
) -> Result<Vec<u8>, Fail> {
    let mut view = FileView::new(Vec::from_slice(alloc, text)?, None);
    match replay_live(alloc, entries, &mut view, range) {
        Ok(played) => Ok(cat_text(alloc, &played)?.into_vec()),
        Err(_) => Err(Fail::from("no replay")),
    }
}

/// Where the first block of a file stands: behind the magic and a Header without a profile.
const FIRST_OFFSET: u64 = 34;

// Where the last of these blocks ends.
fn end_of(entries: &[Entry<Untold>]) -> u64 {
    match entries.last() {
        Some(entry) => entry.offset.saturating_add(entry.extent.len()),
        None => FIRST_OFFSET,
    }
}

// Whether the first n blocks give the lines of the front of the file.
fn is_alike(alloc: Global, file: &Recorded, n: usize, range: Range) -> Result<bool, Fail> {
    let entries = file.entries.get(..n).ok_or("blocks")?;
    let front = file.text.get(..end_of(entries) as usize).ok_or("a front")?;
    Ok(played(alloc, &file.text, entries, range)? == scanned(alloc, front, range)?)
}

// How many blocks there are, where for each number of them and six ranges they give the lines of the front of the file.
fn compare(rt: &impl Abort, alloc: Global, chunk: u64) -> Result<usize, Fail>
    requires some { 1 ≤ chunk }
    requires few { chunk ≤ chunk_size_limit }
{
    let file = many_messages(alloc, chunk, 120)?;
    let blocks = file.entries.len();
    let ranges = [
        (0, None),
        (5, Some(11)),
        (0, Some(1)),
        (22, None),
        (30, None),
        (7, Some(7)),
    ];
    for n in 0..=blocks {
        for (start, end) in ranges {
            let range = Range { start, end };
            holds_at(rt, is_alike(alloc, &file, n, range)?, n);
        }
    }
    Ok(blocks)
}

// A chunk of size 1 holds one record that closes it, one of 100,000 all of them.
#[test]
fn the_first_blocks_show_what_their_front_does(rt: HostRuntime) -> Result<(), Fail> {
    let alloc = rt.alloc();
    let most = compare(&rt, alloc, 1)?;
    holds_at(&rt, most > 100, most);
    compare(&rt, alloc, 100)?;
    compare(&rt, alloc, 400)?;
    compare(&rt, alloc, 4000)?;
    let fewest = compare(&rt, alloc, 100000)?;
    holds_at(&rt, fewest == 1, fewest);
    Ok(())
}
