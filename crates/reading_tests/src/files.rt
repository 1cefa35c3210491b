//! The world of files.
use crate::outside::{Stretch, gives};
use crate::same::holds_at;
use io_files::FileWorld;
use mcap_io::{Extent, Failed, LiveStore, LiveView, OutsideRefused, Source, Store, World};
use std::alloc::Global;
use std::fs;
use std::rt::Files;
use std::test::Fail;

// Whether the opening of an output fails. What is opened in spite of that is taken back.
fn refuses_output<W: World>(world: &mut W, name: &str) -> bool {
    match world.live(name) {
        Ok(live) => {
            let _kept = world.keep_live(name, live);
            false
        }
        Err(why) => why == OutsideRefused::Failed,
    }
}

// Whether the source gives these stretches.
fn gives_all<S: Source>(alloc: Global, source: &mut S, stretches: &[Stretch<'_>]) -> bool {
    let mut buffer = Vec::new(alloc);
    gives(source, &mut buffer, stretches)
}

// Whether a source of that name gives these stretches and is kept, and while it is open the output isn't opened.
fn gives_back<W: World>(
    alloc: Global,
    world: &mut W,
    (name, output): (&str, &str),
    stretches: &[Stretch<'_>],
) -> Result<bool, OutsideRefused> {
    let mut source = match world.source(name) {
        Ok(source) => source,
        Err(why) => return Err(why),
    };
    let refused = refuses_output(world, output);
    let given = gives_all(alloc, &mut source, stretches);
    let kept = world.keep_source(name, source);
    Ok(kept == Ok(()) && refused && given)
}

// Whether the file has these bytes: two are read, then all that follow.
fn has<W: World>(alloc: Global, world: &mut W, bytes: &[u8]) -> bool {
    let (front, rest) = bytes.split_at(bytes.len().min(2));
    let stretches: [Stretch<'_>; 3] = [
        (2, Ok(()), front, 0),
        (400_000, Ok(()), rest, 0),
        (9, Ok(()), b"", 0),
    ];
    gives_back(alloc, world, ("record", "./record"), &stretches) == Ok(true)
}

// Where a piece ends, whether it is passed through, and how many bytes the file has then.
type Step = (usize, bool, usize);

// Whether a live store takes the bytes in pieces.
fn takes_pieces<W: World, L: LiveStore>(
    alloc: Global,
    world: &mut W,
    live: &mut L,
    bytes: &[u8],
    pieces: &[Step],
) -> bool {
    let mut from = 0;
    for (to, through, stored) in pieces {
        let piece = bytes.get(from..*to).unwrap_or(&[]);
        let appended = match through {
            true => live.append_through(piece).is_ok(),
            false => live.append(piece).is_ok(),
        };
        let is_stored = has(alloc, world, bytes.get(..*stored).unwrap_or(&[]));
        if !appended || !is_stored {
            return false;
        }
        from = *to;
    }
    true
}

// The same of one that is opened for it, and is kept.
fn keeps<W: World>(alloc: Global, world: &mut W, bytes: &[u8], pieces: &[Step]) -> bool {
    let Ok(mut live) = world.live("record") else {
        return false;
    };
    let taken = takes_pieces(alloc, world, &mut live, bytes, pieces);
    let kept = world.keep_live("record", live);
    kept == Ok(()) && taken
}

// A piece of 300,000 bytes goes past the buffer, with what waits there; three bytes wait until one is passed through.
const PIECES: [Step; 4] = [
    (2, false, 0),
    (300_002, false, 300_002),
    (300_005, false, 300_002),
    (300_006, true, 300_006),
];

// Whether a store of what was kept gives two bytes where two blocks meet that are read ahead; and once the file is cut, a
// read of what was never read fails, and the next one of the front gives it.
fn gives_what_is_left<T: Store>(rt: &impl Files, store: &mut T) -> bool {
    if store.len() != Ok(300_006) {
        return false;
    }
    let mut room = [1; 2];
    let met = store.read_at(16_383, &mut room) == Ok(()) && room == [0, 7];
    let cut = fs::write(rt, "record", &[0; 3]).is_ok();
    let refused = store.read_at(300_004, &mut room) == Err(Failed);
    let given = store.read_at(0, &mut room) == Ok(()) && room == [0, 0];
    met && cut && refused && given && (store.asked(), store.faults()) == (6, 1)
}

// Whether it does, of a file that isn't opened as an output while it is open as a store.
fn stores<W: World>(rt: &impl Files, world: &mut W) -> bool {
    let Ok(mut store) = world.store("record") else {
        return false;
    };
    let refused = refuses_output(world, "./record");
    let given = gives_what_is_left(rt, &mut store);
    world.keep_store("record", store) == Ok(()) && refused && given
}

// Whether a folder is no store.
fn refuses_folder<W: World>(world: &mut W) -> bool {
    match world.store(".") {
        Ok(store) => {
            let _kept = world.keep_store(".", store);
            false
        }
        Err(why) => why == OutsideRefused::Failed,
    }
}

// Whether a world goes so. What isn't there isn't opened; behind the keeping of its inputs a file is opened as an
// output, and is emptied. The faults are a refused output for each look at the pieces and for the store, the folder, and the
// name that isn't there.
fn goes<W: World>(rt: &impl Files, alloc: Global, world: &mut W, bytes: &[u8]) -> bool {
    let taken = keeps(alloc, world, bytes, &PIECES);
    let stored = stores(rt, world);
    let refused = refuses_folder(world);
    let missing = gives_back(alloc, world, ("none", "none"), &[]) == Err(OutsideRefused::Failed);
    let emptied = keeps(alloc, world, &[], &[(0, true, 0)]);
    let counted = (world.faults(), world.input_faults(), world.output_faults()) == (8, 1, 0);
    taken && stored && refused && missing && emptied && counted
}

// Zeros up to where the second block of the file begins, then sevens, and other bytes at the end.
fn content(alloc: Global) -> Result<Vec<u8>, Fail> {
    let mut bytes = vec![in alloc; 0; 16_384]?;
    bytes.resize(300_002, 7)?;
    bytes.extend_from_slice(b"cdef")?;
    Ok(bytes)
}

// Whether the world of files goes so.
fn goes_here(rt: &HostRuntime, bytes: &[u8]) -> bool {
    let mut world = FileWorld::new(rt);
    goes(rt, rt.alloc(), &mut world, bytes)
}

#[test]
fn a_file_gives_back_what_was_kept_at_any_place(rt: HostRuntime) -> Result<(), Fail> {
    let bytes = content(rt.alloc())?;
    holds_at(&rt, goes_here(&rt, &bytes), &"a world");
    fs::remove_file(&rt, "record")?;
    Ok(())
}

// Whether the view gives the first four bytes of what an append gave, or can't.
fn shows<X: Extent, V: LiveView<X>>(
    view: &mut V,
    extent: &X,
    bytes: Result<&[u8], Failed>,
) -> bool {
    if extent.len() < 4 {
        return false;
    }
    let mut room = [0; 4];
    match view.read_part(extent, 0, &mut room) {
        Ok(()) => bytes == Ok(room.as_slice()),
        Err(Failed) => bytes == Err(Failed),
    }
}

// Whether a view reads what is with the system, in any order, while the store goes on; and not what waits.
fn shows_growth<L: LiveStore>(live: &mut L, view: &mut L::View) -> bool {
    let Ok(first) = live.append_through(b"abcd") else {
        return false;
    };
    let begun = shows(view, &first, Ok(b"abcd"));
    let Ok(second) = live.append(b"efgh") else {
        return false;
    };
    let waits = shows(view, &second, Err(Failed));
    let Ok(third) = live.append_through(b"ijkl") else {
        return false;
    };
    let grown = shows(view, &third, Ok(b"ijkl")) && shows(view, &first, Ok(b"abcd"));
    begun && waits && grown && shows(view, &second, Ok(b"efgh"))
}

// The same of a store and its view that a world gives, and takes back with the one fault of the view. The reads of the view
// don't move the place where the store writes.
fn grows<W: World>(alloc: Global, world: &mut W) -> bool {
    let Ok(mut live) = world.live("grown") else {
        return false;
    };
    let shown = match live.view() {
        Ok(mut view) => {
            let shown = shows_growth(&mut live, &mut view);
            world.keep_view(view);
            shown
        }
        Err(Failed) => false,
    };
    let kept = world.keep_live("grown", live);
    let stretches: [Stretch<'_>; 2] = [(12, Ok(()), b"abcdefghijkl", 0), (1, Ok(()), b"", 0)];
    let whole = gives_back(alloc, world, ("grown", "./grown"), &stretches) == Ok(true);
    shown && kept == Ok(()) && whole && (world.watch_faults(), world.output_faults()) == (1, 0)
}

// Whether it does in the world of files.
fn grows_here(rt: &HostRuntime) -> bool {
    let mut world = FileWorld::new(rt);
    grows(rt.alloc(), &mut world)
}

#[test]
fn a_view_reads_a_file_while_it_grows(rt: HostRuntime) -> Result<(), Fail> {
    holds_at(&rt, grows_here(&rt), &"a view");
    fs::remove_file(&rt, "grown")?;
    Ok(())
}
