//! Sources, sinks and stores, and how each goes on behind a call that failed.
use crate::same::holds_at;
use io_files::WriterSink;
use io_memory::{
    FailingWrite, MemoryLive, MemorySink, MemorySource, Piece, QuietLive, QuietSource,
};
use mcap_io::*;
use std::alloc::Global;

// A copy of these items, or none of them where memory lacks: then the test that asked for it fails.
pub(crate) fn copied<T: Copy>(alloc: Global, items: &[T]) -> Vec<T> {
    match Vec::from_slice(alloc, items) {
        Ok(copy) => copy,
        Err(_) => Vec::new(alloc),
    }
}

// How long a stretch is to be, how that goes, what is read of it, and how often the source has failed by then.
pub(crate) type Stretch<'a> = (u64, Result<(), OutsideRefused>, &'a [u8], u64);

// Whether the source gives these stretches.
pub(crate) fn gives<S: Source>(
    source: &mut S,
    buffer: &mut Vec<u8>,
    stretches: &[Stretch<'_>],
) -> bool {
    for (len, answer, held, faults) in stretches {
        let got = read_up_to(source, buffer, *len);
        if got != *answer || buffer.as_slice() != *held || source.faults() != *faults {
            return false;
        }
    }
    true
}

// "abcdefghij", where the second read fails once.
#[test]
fn a_source_goes_on_behind_a_read_that_failed(rt: HostRuntime) {
    let mut source = MemorySource::new(copied(rt.alloc(), b"abcdefghij"), copied(rt.alloc(), &[1]));
    let mut buffer = Vec::new(rt.alloc());
    let stretches: [Stretch<'_>; 5] = [
        (4, Ok(()), b"abcd", 0),
        (3, Err(OutsideRefused::Failed), b"", 1),
        (3, Ok(()), b"efg", 1),
        (9, Ok(()), b"hij", 1),
        (9, Ok(()), b"", 1),
    ];
    holds_at(
        &rt,
        gives(&mut source, &mut buffer, &stretches),
        &"a source",
    );
}

// Whether a source of these bytes gives these stretches, and how much room that took is this.
fn takes_room(alloc: Global, bytes: &[u8], stretches: &[Stretch<'_>], room: usize) -> bool {
    let mut source = QuietSource::new(copied(alloc, bytes));
    let mut buffer = Vec::new(alloc);
    gives(&mut source, &mut buffer, stretches) && buffer.capacity() == room
}

// "ab", of which 256 MiB and more than any memory are asked for; and 99,999 bytes of 100,000.
#[test]
fn a_short_input_costs_little_room(rt: HostRuntime) {
    let sevens = [7; 100_000];
    let short: [Stretch<'_>; 2] = [(268_435_456, Ok(()), b"ab", 0), (u64::MAX, Ok(()), b"", 0)];
    holds_at(&rt, takes_room(rt.alloc(), b"ab", &short, 65_536), &"ab");
    let large = [(99_999, Ok(()), &sevens[..99_999], 0)];
    holds_at(
        &rt,
        takes_room(rt.alloc(), &sevens, &large, 99_999),
        &"sevens",
    );
}

// Whether the sink takes these pieces: how that goes, and how often the sink has failed by then.
fn takes<S: Sink>(sink: &mut S, pieces: &[(&[u8], Result<(), Short>, u64)]) -> bool {
    for (piece, answer, faults) in pieces {
        if write_all_of(sink, piece) != *answer || sink.faults() != *faults {
            return false;
        }
    }
    true
}

// The second write takes two bytes of its piece and fails.
#[test]
fn a_sink_goes_on_behind_a_write_that_failed(rt: HostRuntime) {
    let failing = copied(rt.alloc(), &[FailingWrite { call: 1, taken: 2 }]);
    let mut sink = MemorySink::new(rt.alloc(), failing);
    let pieces: [(&[u8], Result<(), Short>, u64); 3] = [
        (b"abc", Ok(()), 0),
        (b"defg", Err(Short { taken: 0 }), 1),
        (b"h", Ok(()), 1),
    ];
    let taken = takes(&mut sink, &pieces);
    holds_at(
        &rt,
        taken && sink.bytes() == b"abcdeh".as_slice(),
        &"a sink",
    );
}

#[test]
fn a_writer_takes_all_pieces(rt: HostRuntime) {
    let mut sink = WriterSink::new(Vec::new(rt.alloc()));
    let taken = takes(&mut sink, &[(b"ab", Ok(()), 0), (b"cd", Ok(()), 0)]);
    let is = taken && sink.into_inner().as_slice() == b"abcd".as_slice();
    holds_at(&rt, is, &"a writer");
}

// Whether the store takes each of these pieces and tells where it stands, or is refused so. The first is appended and the
// others are passed through.
fn tells_pieces<L: LiveStore<Extent = Piece>>(
    store: &mut L,
    pieces: &[(&[u8], Result<(), AppendRefused>)],
) -> bool {
    let mut through = false;
    for (bytes, answer) in pieces {
        let appended = match through {
            false => store.append(bytes),
            true => store.append_through(bytes),
        };
        through = true;
        let as_wanted = match appended {
            Ok(piece) => {
                *answer == Ok(())
                    && piece.same().bytes() == *bytes
                    && piece.len() == bytes.len() as u64
            }
            Err(why) => *answer == Err(why),
        };
        if !as_wanted {
            return false;
        }
    }
    true
}

#[test]
fn a_live_store_tells_where_each_piece_stands(rt: HostRuntime) {
    let failing = copied(rt.alloc(), &[FailingWrite { call: 1, taken: 1 }]);
    let mut store = MemoryLive::new(rt.alloc(), failing);
    let pieces: [(&[u8], Result<(), AppendRefused>); 3] = [
        (b"ab", Ok(())),
        (b"cd", Err(AppendRefused::Failed { taken: 1 })),
        (b"ef", Ok(())),
    ];
    let told = tells_pieces(&mut store, &pieces);
    holds_at(
        &rt,
        told && store.bytes() == b"abcef".as_slice(),
        &"a store",
    );
}

#[test]
fn a_quiet_store_takes_all_pieces(rt: HostRuntime) {
    let mut store = QuietLive::new(rt.alloc());
    let told = tells_pieces(&mut store, &[(b"xyz", Ok(())), (b"w", Ok(()))]);
    let is = told && store.bytes() == b"xyzw".as_slice() && store.faults() == 0;
    holds_at(&rt, is, &"a quiet store");
}
