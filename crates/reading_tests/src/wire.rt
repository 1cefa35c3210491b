//! Fields, maps and the heads of records as bytes.
use crate::same::holds_at;
use mcap_wire::*;
use std::alloc::Global;
use std::test::Fail;

// The magic, and one field of each kind, one behind the other: 0x2a, 0x1234, 0x12345678, 2^56 + 2, the text "foo", the
// bytes 7 and 8 behind a length of four bytes, the same behind one of eight, and the head of a Data End.
const FIELDS: &[u8] =
    b"\x89MCAP0\r\n\x2a\x34\x12\x78\x56\x34\x12\x02\0\0\0\0\0\0\x01\x03\0\0\0foo\x02\0\0\0\x07\x08\x02\0\0\0\0\0\0\0\x07\x08\x0f\x04\0\0\0\0\0\0\0";

fn put_numbers(out: &mut Vec<u8>) -> Result<(), Memory> {
    put_bytes(out, &MAGIC)?;
    put_u8(out, 0x2a)?;
    put_u16(out, 0x1234)?;
    put_u32(out, 0x1234_5678)?;
    put_u64(out, 0x0100_0000_0000_0002)
}

fn put_stretches(out: &mut Vec<u8>) -> Result<(), Memory> {
    put_text(out, "foo")?;
    put_bytes32(out, &[7, 8])?;
    put_bytes64(out, &[7, 8])?;
    put_head(out, 0x0f, 4)
}

#[test]
fn each_field_is_written(rt: HostRuntime) -> Result<(), Fail> {
    let mut out = Vec::new(rt.alloc());
    put_numbers(&mut out)?;
    put_stretches(&mut out)?;
    holds_at(&rt, out.as_slice() == FIELDS, &"fields");
    Ok(())
}

// A map of "b" to "2" and "a" to "": two pairs in 19 bytes; one of 0x0201 to 3 and 1 to 0: two counts in 20 bytes; and an
// array of the entry 5 and 6.
const MAPS: &[u8] =
    b"\x13\0\0\0\x01\0\0\0b\x01\0\0\x002\x01\0\0\0a\0\0\0\0\x14\0\0\0\x01\x02\x03\0\0\0\0\0\0\0\x01\0\0\0\0\0\0\0\0\0\x10\0\0\0\x05\0\0\0\0\0\0\0\x06\0\0\0\0\0\0\0";

fn pairs_again(out: &mut Vec<u8>) -> bool {
    let Ok((pairs, end)) = take_pairs(MAPS, 0) else {
        return false;
    };
    end == 23
        && pairs.count() == 2
        && pairs.item(1) == ("a", "")
        && put_pairs(out, &pairs) == Ok(())
}

fn counts_again(out: &mut Vec<u8>) -> bool {
    let Ok((counts, end)) = take_counts(MAPS, 23) else {
        return false;
    };
    end == 47
        && counts.count() == 2
        && counts.item(0) == (0x0201, 3)
        && put_counts(out, &counts) == Ok(())
}

fn entries_again(out: &mut Vec<u8>) -> bool {
    let Ok((entries, end)) = take_entries(MAPS, 47) else {
        return false;
    };
    end == 67
        && entries.count() == 1
        && entries.item(0) == (5, 6)
        && put_entries(out, &entries) == Ok(())
}

#[test]
fn maps_and_arrays_are_read_and_written(rt: HostRuntime) {
    let mut out = Vec::new(rt.alloc());
    let read = pairs_again(&mut out) && counts_again(&mut out) && entries_again(&mut out);
    holds_at(&rt, read && out.as_slice() == MAPS, &"maps");
}

// Whether there are two pairs, and the first has this key.
fn begins_with(pairs: &[(Text, Text)], key: &str) -> bool {
    match pairs {
        [first, _] => first.0.is(key),
        _ => false,
    }
}

#[test]
fn a_map_is_copied_and_sorted(rt: HostRuntime) -> Result<(), Fail> {
    let (pairs, _end) = take_pairs(MAPS, 0)?;
    let list = PairList::copied(rt.alloc(), &pairs)?;
    holds_at(&rt, begins_with(&list.into_vec(), "b"), &"a copy");
    let sorted = Pairs::sorted(rt.alloc(), &pairs)?;
    holds_at(&rt, begins_with(&sorted.into_vec(), "a"), &"a sorted copy");
    Ok(())
}

// A map with each key of two bytes, the largest first.
fn descending(alloc: Global) -> Result<Vec<u8>, Memory> {
    let mut out = Vec::new(alloc);
    put_u32(&mut out, 655_360)?;
    for i in 0..=u16::MAX {
        put_u16(&mut out, u16::MAX - i)?;
        put_u64(&mut out, 7)?;
    }
    Ok(out)
}

// How many counts a map has, and the last of them; or why it isn't read.
fn last_count(content: &[u8]) -> Result<(usize, (u16, u64)), Why> {
    match take_counts(content, 0) {
        Ok((counts, _)) => {
            let count = counts.count();
            if count == 0 {
                return Ok((0, (0, 0)));
            }
            Ok((count, counts.item(count - 1)))
        }
        Err(why) => Err(why),
    }
}

#[test]
fn a_map_of_all_keys_in_another_order_is_read(rt: HostRuntime) -> Result<(), Fail> {
    let content = descending(rt.alloc())?;
    holds_at(
        &rt,
        last_count(&content) == Ok((65_536, (0, 7))),
        &"all keys",
    );
    Ok(())
}

// Maps of counts: a length past the end, a key that is cut, a count that is cut, the key 7 twice, the second time without its
// count, and so the key 6.
const BAD_COUNTS: [(&[u8], Why); 5] = [
    (b"\x0a\0\0\0\0", Why::Short),
    (b"\x01\0\0\0\x07", Why::BadLength),
    (b"\x09\0\0\0\x07\0\0\0\0\0\0\0\0", Why::BadLength),
    (b"\x0c\0\0\0\x07\0\0\0\0\0\0\0\0\0\x07\0", Why::DoubleKey),
    (b"\x0c\0\0\0\x07\0\0\0\0\0\0\0\0\0\x06\0", Why::BadLength),
];

#[test]
fn maps_of_counts_that_are_refused(rt: HostRuntime) {
    for (content, why) in BAD_COUNTS {
        holds_at(&rt, last_count(content) == Err(why), &content);
    }
}

// A Data End and a byte behind it.
const DATA_END: &[u8] = b"\x0f\x04\0\0\0\0\0\0\0\xef\xbe\xad\xde\0";

// Bytes, what they are as a head, and what as a record: a head that is cut, a record that is cut, a whole one, an opcode of 0
// in a cut head and in a whole one, and records of more than 256 MiB and of as many.
const HEADS: [(&[u8], Result<Head, HeadFault>, Result<Cut, CutFault>); 7] = [
    (
        b"\x0f\x04\0\0\0\0\0\0",
        Err(HeadFault::Short),
        Err(CutFault::Short),
    ),
    (
        b"\x0f\x04\0\0\0\0\0\0\0\xef\xbe\xad",
        Ok(Head { op: 0x0f, len: 4 }),
        Err(CutFault::Short),
    ),
    (
        DATA_END,
        Ok(Head { op: 0x0f, len: 4 }),
        Ok(Cut {
            op: 0x0f,
            from: 9,
            to: 13,
        }),
    ),
    (
        b"\0\x04\0\0\0\0\0\0",
        Err(HeadFault::Short),
        Err(CutFault::Short),
    ),
    (
        b"\0\0\0\0\0\0\0\0\x80",
        Err(HeadFault::ZeroOp),
        Err(CutFault::ZeroOp),
    ),
    (
        b"\x01\x01\0\0\x10\0\0\0\0",
        Ok(Head {
            op: 1,
            len: 0x1000_0001,
        }),
        Err(CutFault::TooLong { len: 0x1000_0001 }),
    ),
    (
        b"\x01\0\0\0\x10\0\0\0\0",
        Ok(Head {
            op: 1,
            len: 0x1000_0000,
        }),
        Err(CutFault::Short),
    ),
];

#[test]
fn the_first_fault_of_a_record_is_told(rt: HostRuntime) {
    for (bytes, head, answer) in HEADS {
        let told = take_head(bytes, 0) == head && cut(bytes, 0) == answer;
        holds_at(&rt, told, &bytes);
    }
}
