//! The last ids.
use crate::contents::{channel, schema};
use crate::same::{holds, holds_at};
use id_table::{Given, GivenIds, IdRefused, IdTable};
use std::alloc::Global;
use std::test::Fail;

const NO_PAIRS: &[u8] = b"\0\0\0\0";

// The ids that the channel of a topic and a schema is given, or why none are.
fn declared(
    table: &mut IdTable,
    alloc: Global,
    topic: &str,
    wanted: Option<(&str, &[u8])>,
) -> Result<Result<GivenIds, IdRefused>, Fail> {
    if topic.len() > 1000 {
        return Err(Fail::from("such a topic isn't tried"));
    }
    let d = channel(alloc, topic, NO_PAIRS, schema(alloc, wanted)?)?;
    Ok(table.declare(&d))
}

// Gives all ids: the content with the number i gets the ids i and i.
fn fill(table: &mut IdTable, alloc: Global) -> Result<(), Fail> {
    for i in 1..65536u32 {
        let name = format!(in alloc; "{i}")?;
        let _given = declared(table, alloc, name.as_str(), Some((name.as_str(), &[])))?;
    }
    Ok(())
}

// A topic, a schema, and what is answered.
type Row = (
    &'static str,
    Option<(&'static str, &'static [u8])>,
    Result<GivenIds, IdRefused>,
);

const LAST: GivenIds = GivenIds {
    schema: Some(Given::Known(65535)),
    channel: Given::Known(65535),
};

const ROWS: &[Row] = &[
    ("65535", Some(("65535", &[])), Ok(LAST)),
    ("7", Some(("8", &[1])), Err(IdRefused::TooManySchemas)),
    ("7", Some(("8", &[])), Err(IdRefused::TooManyChannels)),
    ("7", None, Err(IdRefused::TooManyChannels)),
];

// How many rows the table answers as is wanted once it is full, up to the first that differs.
fn rows_answered(table: &mut IdTable, alloc: Global) -> Result<u64, Fail> {
    fill(table, alloc)?;
    let mut count = 0u64;
    for (topic, schema, want) in ROWS {
        if declared(table, alloc, topic, *schema)? != *want {
            return Ok(count);
        }
        count = count.saturating_add(1);
    }
    Ok(count)
}

// The same of a new table.
fn rows_of(alloc: Global) -> Result<u64, Fail> {
    let mut table = IdTable::new(alloc)?;
    rows_answered(&mut table, alloc)
}

#[test]
fn ids_end_at_65535_and_the_schemas_end_is_told_first(rt: HostRuntime) -> Result<(), Fail> {
    let count = rows_of(rt.alloc())?;
    holds_at(&rt, count == 4, &count);
    Ok(())
}
