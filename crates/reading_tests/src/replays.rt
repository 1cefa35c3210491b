//! What a replay gives of a small file, by a scan and by the plain scan.
use crate::same::holds_at;
use crate::sources::quiet;
use io_memory::MemorySink;
use mcap_model::{Range, Replayed, Shown, replay_plain, scan_plain};
use mcap_wire::Text;
use std::alloc::Global;
use std::test::Fail;
use time_player::{Printer, cat_text, replay_scan};

// A Header; a Channel 1 of "/a" and a Channel 2 of a topic with a quote and a line feed; a Message of log time 20; a Chunk
// with a Channel 3 of "/a", a Message on it of log time 10, and one on Channel 2 of log time 20; a Message of the last
// log time with no data; one of log time 10; a Data End; and four bytes behind it.
const MIXED: &[u8] =
    b"\x89MCAP0\x0d\x0a\x01\x08\0\0\0\0\0\0\0\0\0\0\0\0\0\0\0\x04\x12\0\0\0\0\0\0\0\x01\0\0\0\x02\0\0\0/a\0\0\0\0\0\0\0\0\x04\x17\0\0\0\0\0\0\0\x02\0\0\0\x07\0\0\0/b \"x\"\x0a\0\0\0\0\0\0\0\0\x05\x17\0\0\0\0\0\0\0\x01\0\x01\0\0\0\x14\0\0\0\0\0\0\0\x07\0\0\0\0\0\0\0\x01\x06\x84\0\0\0\0\0\0\0\x0a\0\0\0\0\0\0\0\x14\0\0\0\0\0\0\0\\\0\0\0\0\0\0\0[\xbb\x05/\0\0\0\0\\\0\0\0\0\0\0\0\x04\x12\0\0\0\0\0\0\0\x03\0\0\0\x02\0\0\0/a\0\0\0\0\0\0\0\0\x05\x17\0\0\0\0\0\0\0\x03\0\x02\0\0\0\x0a\0\0\0\0\0\0\0\x09\0\0\0\0\0\0\0\xaa\x05\x18\0\0\0\0\0\0\0\x02\0\x03\0\0\0\x14\0\0\0\0\0\0\0\x08\0\0\0\0\0\0\0\0\xff\x05\x16\0\0\0\0\0\0\0\x01\0\x04\0\0\0\xff\xff\xff\xff\xff\xff\xff\xff\x06\0\0\0\0\0\0\0\x05\x17\0\0\0\0\0\0\0\x02\0\x05\0\0\0\x0a\0\0\0\0\0\0\0\x0a\0\0\0\0\0\0\0Z\x0f\x04\0\0\0\0\0\0\0\0\0\0\0left";

const IN_FILE_ORDER: &str = "\
20 7 1 1 \"/a\" 01
10 9 3 2 \"/a\" aa
20 8 2 3 \"/b \\\"x\\\"\\n\" 00ff
18446744073709551615 6 1 4 \"/a\" -
10 10 2 5 \"/b \\\"x\\\"\\n\" 5a
";

const ALL: &str = "\
10 9 3 2 \"/a\" aa
10 10 2 5 \"/b \\\"x\\\"\\n\" 5a
20 7 1 1 \"/a\" 01
20 8 2 3 \"/b \\\"x\\\"\\n\" 00ff
18446744073709551615 6 1 4 \"/a\" -
";

const ON_A: &str = "\
10 9 3 2 \"/a\" aa
20 7 1 1 \"/a\" 01
18446744073709551615 6 1 4 \"/a\" -
";

const FROM_10_BEFORE_20: &str = "\
10 9 3 2 \"/a\" aa
10 10 2 5 \"/b \\\"x\\\"\\n\" 5a
";

const LAST: &str = "18446744073709551615 6 1 4 \"/a\" -\n";

/// What is wanted of messages: their lines, and their places.
#[derive(Clone, Copy)]
pub(crate) struct Wanted<'a> {
    pub lines: &'a str,
    pub places: &'a [(u64, u64)],
}

fn are_at(shown: &[Shown], places: &[(u64, u64)]) -> bool {
    if shown.len() != places.len() {
        return false;
    }
    for i in 0..places.len() {
        let place = &shown[i].place;
        if (place.top, place.inner) != places[i] {
            return false;
        }
    }
    true
}

/// Whether these are the messages.
pub(crate) fn are_shown(alloc: Global, played: &Replayed, wanted: Wanted) -> bool {
    match cat_text(alloc, played) {
        Ok(text) => {
            text.as_slice() == wanted.lines.as_bytes() && are_at(&played.shown, wanted.places)
        }
        Err(_) => false,
    }
}

// Whether these lines are printed of the messages.
fn are_printed(alloc: Global, played: Replayed, lines: &str) -> bool {
    let Ok(mut printer) = Printer::new(alloc, played) else {
        return false;
    };
    let mut sink = MemorySink::new(alloc, Vec::new(alloc));
    printer.print(alloc, &mut sink).is_ok() && sink.bytes() == lines.as_bytes()
}

// Whether a replay of the file gives these messages, and leaves what stands behind its Data End.
fn replays_file(alloc: Global, range: Range, topic: Option<&Text>, wanted: Wanted) -> bool {
    let Ok(mut source) = quiet(alloc, MIXED) else {
        return false;
    };
    let found = match replay_scan(alloc, &mut source, range, topic) {
        Ok(played) => {
            are_shown(alloc, &played, wanted) && are_printed(alloc, played, wanted.lines)
        }
        Err(_) => false,
    };
    found && source.rest() == b"left".as_slice()
}

// Whether the plain replay of the file gives these messages.
fn replays_plainly(alloc: Global, range: Range, topic: Option<&Text>, wanted: Wanted) -> bool {
    let Ok(all) = scan_plain(alloc, MIXED) else {
        return false;
    };
    match replay_plain(alloc, &all, range, topic) {
        Ok(played) => are_shown(alloc, &played, wanted),
        Err(_) => false,
    }
}

// The Messages stand at 84, at 27 and 59 in the Chunk at 116, at 257 and at 288. The end of a range is outside it, the last
// nanosecond too; and a start behind the end asks for nothing.
#[test]
fn messages_come_by_log_time_and_place(rt: HostRuntime) -> Result<(), Fail> {
    let alloc = rt.alloc();
    let asked = Text::copied(alloc, "/a")?;
    let rows: [(u64, Option<u64>, bool, &str, &[(u64, u64)]); 8] = [
        (
            0,
            None,
            false,
            ALL,
            &[(116, 27), (288, 0), (84, 0), (116, 59), (257, 0)],
        ),
        (0, None, true, ON_A, &[(116, 27), (84, 0), (257, 0)]),
        (
            10,
            Some(20),
            false,
            FROM_10_BEFORE_20,
            &[(116, 27), (288, 0)],
        ),
        (21, None, false, LAST, &[(257, 0)]),
        (0, Some(10), false, "", &[]),
        (11, Some(20), false, "", &[]),
        (21, Some(18_446_744_073_709_551_615), false, "", &[]),
        (30, Some(10), false, "", &[]),
    ];
    for (start, end, on_a, lines, places) in rows {
        let range = Range { start, end };
        let topic = if on_a { Some(&asked) } else { None };
        let wanted = Wanted { lines, places };
        let found = replays_file(alloc, range, topic, wanted)
            && replays_plainly(alloc, range, topic, wanted);
        holds_at(&rt, found, &(start, end));
    }
    Ok(())
}

#[test]
fn the_plain_scan_gives_messages_in_file_order(rt: HostRuntime) -> Result<(), Fail> {
    let Ok(all) = scan_plain(rt.alloc(), MIXED) else {
        holds_at(&rt, false, &"the file");
        return Ok(());
    };
    let wanted = Wanted {
        lines: IN_FILE_ORDER,
        places: &[(84, 0), (116, 27), (116, 59), (257, 0), (288, 0)],
    };
    holds_at(&rt, are_shown(rt.alloc(), &all, wanted), &"the file");
    Ok(())
}
