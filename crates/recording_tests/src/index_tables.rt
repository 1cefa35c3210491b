//! The entries of a Message Index in a range, in the order of time and offset.
use crate::same::holds_at;
use live_replay::{IndexTable, TimeAt};
use mcap_model::Range;
use mcap_wire::EntriesRef;
use rec_index::MessageIndex;
use std::alloc::Global;

// Whether of these entries just those, in this order, lie in the range.
fn lie_between(alloc: Global, entries: &[(u64, u64)], range: Range, wanted: &[TimeAt]) -> bool {
    let index = MessageIndex {
        channel_id: 1,
        entries: EntriesRef::of(entries),
    };
    match IndexTable::of(alloc, &index) {
        Ok(table) => table.between(range) == wanted,
        Err(_) => false,
    }
}

// Entries, in their order.
const FIRST: TimeAt = TimeAt {
    time: 10,
    offset: 32,
};

const SECOND: TimeAt = TimeAt {
    time: 10,
    offset: 70,
};

const THIRD: TimeAt = TimeAt {
    time: 11,
    offset: 0,
};

const LAST: TimeAt = TimeAt {
    time: 12,
    offset: 5,
};

const MIXED: &[(u64, u64)] = &[(12, 5), (10, 70), (11, 0), (10, 32), (10, 32)];

// Entries, the start and the end of a range, and those that lie in it.
type Row = (&'static [(u64, u64)], u64, Option<u64>, &'static [TimeAt]);

const ROWS: &[Row] = &[
    (MIXED, 0, None, &[FIRST, FIRST, SECOND, THIRD, LAST]),
    (MIXED, 11, None, &[THIRD, LAST]),
    (MIXED, 10, Some(11), &[FIRST, FIRST, SECOND]),
    (MIXED, 12, Some(10), &[]),
    (&[], 0, None, &[]),
];

#[test]
fn entries_of_a_range_in_order(rt: HostRuntime) {
    for (entries, start, end, wanted) in ROWS {
        let range = Range {
            start: *start,
            end: *end,
        };
        let lie = lie_between(rt.alloc(), entries, range, wanted);
        holds_at(&rt, lie, start);
    }
}
