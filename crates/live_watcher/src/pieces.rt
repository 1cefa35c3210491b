//! The pieces of a watch text: the line of a front, and what stands at the end.
ghost use Rattle.std.specs.Prelude.{◌≡◌, ◌++◌, length, IfOk, MatchResult};
ghost use Rattle.live_entry.specs.Entries.{EntriesFollow};
ghost use Rattle.live_watcher.specs.Text.{sealed_by, unsealed, unsealed_line, IsReplayText};
ghost use Rattle.live_watcher.specs.WatcherSteps.{IsFrontLineOf, IsEndTextOf};
ghost use Rattle.live_replay.specs.Answering.{RefusesReplay};
ghost use Rattle.live_watcher.specs.Putting.{sink_and_view, IsEndedBy, MakingFails, PutsPiece, PutsBytes};

use crate::lines::{line_of_end, line_of_front};
use crate::report::WatchEnd;
use live_entry::Entry;
use live_replay::replay_blocks;
use mcap_io::{Extent, LiveView, Short, Sink, write_all_of};
use mcap_model::{End, Range, ReadingRefused};
use mcap_wire::Memory;
use std::alloc::Global;
use text_line::Line;
use time_player::Printer;

// The messages that were replayed: how many they are, and their lines.
#[derive(Drop)]
struct Replayed {
    count: u64,
    text: Printer,
}

// Why a watcher ends whose replay was refused.
fn end_of_replay(why: ReadingRefused) -> WatchEnd
    requires { RefusesReplay why }
    ensures { IsEndedBy why result }
{
    match why {
        ReadingRefused::Fault { faults } => return WatchEnd::Fault { faults },
        ReadingRefused::Grammar { offset, rule } => return WatchEnd::Flaw { rule, offset },
        ReadingRefused::Memory => return WatchEnd::Memory,
        ReadingRefused::Compressed { .. } => unreachable!(),
        ReadingRefused::Limit { .. } => unreachable!(),
    }
}

// Replays the blocks of these entries.
fn replay<X: Extent, V: LiveView<X>>(
    alloc: Global,
    entries: &[Entry<X>],
    view: &mut V,
    range: Range,
) -> Result<Replayed, WatchEnd>
    requires { EntriesFollow X.tells entries.now }
    ensures replays { IfOk result (λ all. IsReplayText X.tells range entries.now all.count all.text) }
    ensures cause { MatchResult result
        (λ _. V.failures view.new ≡ V.failures view.old)
        (λ why. MakingFails X.tells entries.now (V.failures view.old) (V.failures view.new) why) }
{
    let kept = match replay_blocks(alloc, entries, view, range) {
        Ok(kept) => kept,
        Err(why) => return Err(end_of_replay(why)),
    };
    let count = kept.len() as u64;
    match Printer::of_kept(alloc, kept) {
        Ok(text) => return Ok(Replayed { count, text }),
        Err(Memory) => return Err(WatchEnd::Memory),
    }
}

// Writes all of the bytes.
fn put_bytes<K: Sink>(sink: &mut K, bytes: &[u8]) -> Result<(), WatchEnd>
    ensures { PutsBytes (K.state sink.old) (K.state sink.new) bytes.now result }
{
    match write_all_of(sink, bytes) {
        Ok(()) => return Ok(()),
        Err(Short { .. }) => {
            return Err(WatchEnd::Fault {
                faults: sink.faults(),
            });
        }
    }
}

// Writes all of the lines.
fn put_lines<K: Sink>(alloc: Global, sink: &mut K, text: &mut Printer) -> Result<(), WatchEnd>
    ensures { PutsBytes (K.state sink.old) (K.state sink.new) text.old result }
{
    match text.print(alloc, sink) {
        Ok(()) => return Ok(()),
        Err(Short { .. }) => {
            return Err(WatchEnd::Fault {
                faults: sink.faults(),
            });
        }
    }
}

// Writes a line, and the lines behind it.
fn put_both<K: Sink>(
    alloc: Global,
    sink: &mut K,
    line: &Line,
    text: &mut Printer,
) -> Result<(), WatchEnd>
    ensures { PutsBytes (K.state sink.old) (K.state sink.new) (line.now ++ text.old) result }
{
    match put_bytes(sink, line.as_bytes()) {
        Ok(()) => {}
        Err(why) => return Err(why),
    }
    match put_lines(alloc, sink, text) {
        Ok(()) => return Ok(()),
        Err(why) => return Err(why),
    }
}

/// Replays the blocks of these entries, and writes the line of this front.
pub(crate) fn put_front<X: Extent, V: LiveView<X>, K: Sink>(
    alloc: Global,
    entries: &[Entry<X>],
    view: &mut V,
    range: Range,
    sink: &mut K,
) -> Result<(), WatchEnd>
    requires { EntriesFollow X.tells entries.now }
    ensures { PutsPiece X.tells entries.now (IsFrontLineOf X.tells range entries.now (length entries.now))
        (sink_and_view (K.state sink.old) (V.failures view.old))
        (sink_and_view (K.state sink.new) (V.failures view.new)) result }
{
    let Replayed { count, text } = match replay(alloc, entries, view, range) {
        Ok(all) => all,
        Err(why) => return Err(why),
    };
    let line = line_of_front(entries.len() as u64, count, text.checksum());
    match put_bytes(sink, line.as_bytes()) {
        Ok(()) => return Ok(()),
        Err(why) => return Err(why),
    }
}

/// Replays the blocks of these entries, which are all, and writes the end with the lines of the replay.
pub(crate) fn put_end<X: Extent, V: LiveView<X>, K: Sink>(
    alloc: Global,
    entries: &[Entry<X>],
    view: &mut V,
    range: Range,
    sink: &mut K,
    end: End,
) -> Result<(), WatchEnd>
    requires { EntriesFollow X.tells entries.now }
    ensures { PutsPiece X.tells entries.now (IsEndTextOf X.tells range entries.now (sealed_by end))
        (sink_and_view (K.state sink.old) (V.failures view.old))
        (sink_and_view (K.state sink.new) (V.failures view.new)) result }
{
    let Replayed { count, mut text } = match replay(alloc, entries, view, range) {
        Ok(all) => all,
        Err(why) => return Err(why),
    };
    let line = line_of_end(end, entries.len() as u64, count);
    match put_both(alloc, sink, &line, &mut text) {
        Ok(()) => return Ok(()),
        Err(why) => return Err(why),
    }
}

/// Writes that there is no end.
pub(crate) fn put_unsealed<K: Sink>(sink: &mut K) -> Result<(), WatchEnd>
    ensures { PutsBytes (K.state sink.old) (K.state sink.new) unsealed_line result }
{
    put_bytes(sink, b"end unsealed\n")
}
