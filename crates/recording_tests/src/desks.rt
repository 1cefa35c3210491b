//! Desks that are full, swapped, closed and stopped, ids by content, and the order of refusals.
ghost use Rattle.std.specs.Prelude.{◌≡◌, ◌≤◌};
ghost use Rattle.history_ids.specs.DeclarationFits.{DefFits};

use crate::contents::{channel, schema};
use crate::same::holds_at;
use mcap_model::{End, Stop};
use rec_data::ChannelDef;
use record_cache::Cache;
use record_core::{CallRefused, Declared, Desk, NewMessage};
use std::alloc::Global;
use std::test::Fail;

// Maps as they stand in a Channel: none, `k` = `v`, and two pairs in both orders.
const NO_PAIRS: &[u8] = b"\0\0\0\0";

const ONE_PAIR: &[u8] = b"\x0a\0\0\0\x01\0\0\0k\x01\0\0\0v";

const TWO_PAIRS: &[u8] = b"\x14\0\0\0\x01\0\0\0a\x01\0\0\0b\x01\0\0\0k\x01\0\0\0v";

const TWO_PAIRS_TURNED: &[u8] = b"\x14\0\0\0\x01\0\0\0k\x01\0\0\0v\x01\0\0\0a\x01\0\0\0b";

const FAULT: Stop = Stop::Fault { faults: 1 };

// A call of a desk, and what it answers. The channel `/a` with these pairs is declared, and perhaps a schema of 26 bytes; so
// many bytes are published on a channel; a swap gives so many bytes or, where there are none, the end and the number of records;
// and an end is set, and its place answered.
enum Call {
    Declare(&'static [u8], bool, Result<Declared, CallRefused>),
    Publish(u16, usize, Result<u64, CallRefused>),
    Swap(Result<u64, (Option<End>, u64)>),
    Close(u64),
    Stop(u64),
}

// A call, and how many bytes the desk holds then.
type Step = (Call, u64);

// No call changes the limit.
fn declare(desk: &mut Desk, channel: &ChannelDef) -> Result<Declared, CallRefused>
    requires { DefFits channel.now }
    ensures { desk.new.limit ≡ desk.old.limit }
{
    let answer = desk.declare(channel);
    answer
}

fn publish(desk: &mut Desk, m: &NewMessage<'_>) -> Result<u64, CallRefused>
    ensures { desk.new.limit ≡ desk.old.limit }
{
    let answer = desk.publish(m);
    answer
}

fn declares(
    alloc: Global,
    desk: &mut Desk,
    pairs: &[u8],
    with_schema: bool,
    wanted: &Result<Declared, CallRefused>,
) -> Result<bool, Fail>
    ensures { desk.new.limit ≡ desk.old.limit }
{
    let content: Option<(&str, &[u8])> = if with_schema {
        Some(("s", &[1, 2]))
    } else {
        None
    };
    let channel = channel(alloc, "/a", pairs, schema(alloc, content)?)?;
    Ok(declare(desk, &channel) == *wanted)
}

fn publishes(
    alloc: Global,
    desk: &mut Desk,
    channel: u16,
    len: usize,
    wanted: &Result<u64, CallRefused>,
) -> Result<bool, Fail>
    ensures { desk.new.limit ≡ desk.old.limit }
{
    let payload = Vec::from_elem(alloc, 0xaau8, len)?;
    let message = NewMessage {
        channel,
        sequence: 1,
        log_time: 10,
        publish_time: 9,
        payload: payload.as_slice(),
    };
    Ok(publish(desk, &message) == *wanted)
}

fn swaps(
    alloc: Global,
    desk: &mut Desk,
    limit: u64,
    wanted: &Result<u64, (Option<End>, u64)>,
) -> Result<bool, Fail>
    requires same { desk.old.limit ≡ limit }
    requires small { limit ≤ 1000 }
    ensures { desk.new.limit ≡ limit }
{
    match desk.swap(Cache::new(alloc, limit)?) {
        Ok(full) => return Ok(Ok(full.held()) == *wanted),
        Err(empty) => return Ok(Err((empty.end, empty.at)) == *wanted),
    }
}

fn answers_so(alloc: Global, desk: &mut Desk, limit: u64, call: &Call) -> Result<bool, Fail>
    requires same { desk.old.limit ≡ limit }
    requires small { limit ≤ 1000 }
    ensures { desk.new.limit ≡ limit }
{
    match call {
        Call::Declare(pairs, schema, wanted) => declares(alloc, desk, pairs, *schema, wanted),
        Call::Publish(channel, len, wanted) => publishes(alloc, desk, *channel, *len, wanted),
        Call::Swap(wanted) => swaps(alloc, desk, limit, wanted),
        Call::Close(at) => Ok(desk.close() == *at),
        Call::Stop(at) => Ok(desk.stop(FAULT) == *at),
    }
}

// How many of these steps the desk of that limit answers as is wanted, up to the first that differs.
fn steps_answered(alloc: Global, desk: &mut Desk, limit: u64, steps: &[Step]) -> Result<u64, Fail>
    requires same { desk.old.limit ≡ limit }
    requires small { limit ≤ 1000 }
{
    let mut count = 0u64;
    'steps: for (call, held) in steps {
        if !answers_so(alloc, desk, limit, call)? || desk.held() != *held {
            return Ok(count);
        }
        count = count.saturating_add(1);
    }
    Ok(count)
}

// The same of a new desk. Each way out of a function that owns one is proved to drop it, so it has one.
fn steps_of(alloc: Global, limit: u64, steps: &[Step]) -> Result<u64, Fail>
    requires { limit ≤ 1000 }
{
    let mut desk = Desk::open(alloc, limit)?;
    steps_answered(alloc, &mut desk, limit, steps)
}

// A Channel of `/a` has 27 bytes, 37 with one pair and 47 with two, a Schema 26, and a Message of one byte 32.
const CONTENTS: &[Step] = &[
    (
        Call::Declare(
            NO_PAIRS,
            false,
            Ok(Declared {
                channel: 1,
                first: 0,
                count: 1,
            }),
        ),
        27,
    ),
    (
        Call::Declare(
            NO_PAIRS,
            false,
            Ok(Declared {
                channel: 1,
                first: 1,
                count: 0,
            }),
        ),
        27,
    ),
    (
        Call::Declare(
            ONE_PAIR,
            false,
            Ok(Declared {
                channel: 2,
                first: 1,
                count: 1,
            }),
        ),
        64,
    ),
    (
        Call::Declare(
            TWO_PAIRS,
            false,
            Ok(Declared {
                channel: 3,
                first: 2,
                count: 1,
            }),
        ),
        111,
    ),
    (
        Call::Declare(
            TWO_PAIRS_TURNED,
            false,
            Ok(Declared {
                channel: 3,
                first: 3,
                count: 0,
            }),
        ),
        111,
    ),
    (
        Call::Declare(
            NO_PAIRS,
            true,
            Ok(Declared {
                channel: 4,
                first: 3,
                count: 2,
            }),
        ),
        164,
    ),
    (
        Call::Declare(
            NO_PAIRS,
            true,
            Ok(Declared {
                channel: 4,
                first: 5,
                count: 0,
            }),
        ),
        164,
    ),
    (Call::Publish(0, 1, Err(CallRefused::UnknownChannel)), 164),
    (Call::Publish(5, 1, Err(CallRefused::UnknownChannel)), 164),
    (Call::Publish(4, 1, Ok(5)), 196),
];

const LIMIT_1: &[Step] = &[
    (Call::Swap(Err((None, 0))), 0),
    (
        Call::Declare(
            NO_PAIRS,
            false,
            Ok(Declared {
                channel: 1,
                first: 0,
                count: 1,
            }),
        ),
        27,
    ),
    (
        Call::Publish(
            1,
            1,
            Err(CallRefused::Full {
                held: 27,
                from: 0,
                to: 1,
            }),
        ),
        27,
    ),
    (Call::Swap(Ok(27)), 0),
    (Call::Publish(1, 1, Ok(1)), 32),
    (
        Call::Publish(
            1,
            1,
            Err(CallRefused::Full {
                held: 32,
                from: 1,
                to: 2,
            }),
        ),
        32,
    ),
    (
        Call::Declare(
            NO_PAIRS,
            false,
            Ok(Declared {
                channel: 1,
                first: 2,
                count: 0,
            }),
        ),
        32,
    ),
    (
        Call::Declare(
            NO_PAIRS,
            true,
            Err(CallRefused::Full {
                held: 32,
                from: 1,
                to: 2,
            }),
        ),
        32,
    ),
    (Call::Swap(Ok(32)), 0),
    (Call::Publish(1, 1, Ok(2)), 32),
];

// The second declaration finds one byte less than the limit.
const LIMIT_28: &[Step] = &[
    (
        Call::Declare(
            NO_PAIRS,
            false,
            Ok(Declared {
                channel: 1,
                first: 0,
                count: 1,
            }),
        ),
        27,
    ),
    (
        Call::Declare(
            NO_PAIRS,
            true,
            Ok(Declared {
                channel: 2,
                first: 1,
                count: 2,
            }),
        ),
        80,
    ),
    (
        Call::Publish(
            1,
            1,
            Err(CallRefused::Full {
                held: 80,
                from: 0,
                to: 3,
            }),
        ),
        80,
    ),
];

// A Message has 31 bytes beside its data.
const LARGEST: &[Step] = &[
    (
        Call::Declare(
            NO_PAIRS,
            false,
            Ok(Declared {
                channel: 1,
                first: 0,
                count: 1,
            }),
        ),
        27,
    ),
    (
        Call::Publish(
            1,
            33_554_433,
            Err(CallRefused::TooLarge { len: 33_554_433 }),
        ),
        27,
    ),
    (
        Call::Publish(
            9,
            33_554_433,
            Err(CallRefused::TooLarge { len: 33_554_433 }),
        ),
        27,
    ),
    (Call::Publish(1, 33_554_432, Ok(1)), 33_554_490),
];

const CLOSED: &[Step] = &[
    (
        Call::Declare(
            NO_PAIRS,
            false,
            Ok(Declared {
                channel: 1,
                first: 0,
                count: 1,
            }),
        ),
        27,
    ),
    (Call::Publish(1, 1, Ok(1)), 59),
    (Call::Publish(9, 1, Err(CallRefused::UnknownChannel)), 59),
    (Call::Close(2), 59),
    (Call::Publish(1, 1, Err(CallRefused::Closed { at: 2 })), 59),
    (Call::Publish(9, 1, Err(CallRefused::Closed { at: 2 })), 59),
    (
        Call::Declare(NO_PAIRS, false, Err(CallRefused::Closed { at: 2 })),
        59,
    ),
    (
        Call::Declare(NO_PAIRS, true, Err(CallRefused::Closed { at: 2 })),
        59,
    ),
    (Call::Stop(2), 59),
    (Call::Publish(1, 1, Err(CallRefused::Closed { at: 2 })), 59),
    (Call::Swap(Ok(59)), 0),
    (Call::Swap(Err((Some(End::Closed), 2))), 0),
];

const STOPPED: &[Step] = &[
    (Call::Stop(0), 0),
    (Call::Close(0), 0),
    (
        Call::Publish(1, 1, Err(CallRefused::Stopped { at: 0, stop: FAULT })),
        0,
    ),
    (
        Call::Declare(
            NO_PAIRS,
            false,
            Err(CallRefused::Stopped { at: 0, stop: FAULT }),
        ),
        0,
    ),
    (Call::Swap(Err((Some(End::Stopped { stop: FAULT }), 0))), 0),
];

const PUBLISH_SWAP_CLOSE: &[Step] = &[
    (
        Call::Declare(
            NO_PAIRS,
            false,
            Ok(Declared {
                channel: 1,
                first: 0,
                count: 1,
            }),
        ),
        27,
    ),
    (Call::Publish(1, 1, Ok(1)), 59),
    (Call::Swap(Ok(59)), 0),
    (Call::Close(2), 0),
];

const SWAP_PUBLISH_CLOSE: &[Step] = &[
    (
        Call::Declare(
            NO_PAIRS,
            false,
            Ok(Declared {
                channel: 1,
                first: 0,
                count: 1,
            }),
        ),
        27,
    ),
    (Call::Swap(Ok(27)), 0),
    (Call::Publish(1, 1, Ok(1)), 32),
    (Call::Close(2), 32),
];

const SWAP_CLOSE_PUBLISH: &[Step] = &[
    (
        Call::Declare(
            NO_PAIRS,
            false,
            Ok(Declared {
                channel: 1,
                first: 0,
                count: 1,
            }),
        ),
        27,
    ),
    (Call::Swap(Ok(27)), 0),
    (Call::Close(1), 0),
    (Call::Publish(1, 1, Err(CallRefused::Closed { at: 1 })), 0),
];

const CLOSE_PUBLISH_SWAP: &[Step] = &[
    (
        Call::Declare(
            NO_PAIRS,
            false,
            Ok(Declared {
                channel: 1,
                first: 0,
                count: 1,
            }),
        ),
        27,
    ),
    (Call::Close(1), 27),
    (Call::Publish(1, 1, Err(CallRefused::Closed { at: 1 })), 27),
    (Call::Swap(Ok(27)), 0),
];

const CLOSE_SWAP_PUBLISH: &[Step] = &[
    (
        Call::Declare(
            NO_PAIRS,
            false,
            Ok(Declared {
                channel: 1,
                first: 0,
                count: 1,
            }),
        ),
        27,
    ),
    (Call::Close(1), 27),
    (Call::Swap(Ok(27)), 0),
    (Call::Publish(1, 1, Err(CallRefused::Closed { at: 1 })), 0),
];

// What it shows, the limit, and the calls.
const SCRIPTS: &[(&str, u64, &[Step])] = &[
    (
        "contents have one id whatever the order of their metadata",
        1000,
        CONTENTS,
    ),
    ("a full desk refuses until a swap", 1, LIMIT_1),
    ("two records of a declaration are tested once", 28, LIMIT_28),
    ("the largest data is taken", 1000, LARGEST),
    (
        "a closed desk refuses and its first end stands",
        1000,
        CLOSED,
    ),
    ("a stopped desk tells why", 1000, STOPPED),
    ("publish, swap, close", 1000, PUBLISH_SWAP_CLOSE),
    ("swap, publish, close", 1000, SWAP_PUBLISH_CLOSE),
    ("swap, close, publish", 1000, SWAP_CLOSE_PUBLISH),
    ("close, publish, swap", 1000, CLOSE_PUBLISH_SWAP),
    ("close, swap, publish", 1000, CLOSE_SWAP_PUBLISH),
];

#[test]
fn each_call_answers_as_the_machine_steps(rt: HostRuntime) -> Result<(), Fail> {
    for (what, limit, steps) in SCRIPTS {
        if *limit > 1000 {
            return Err(Fail::from("a limit of at most 1000 is wanted"));
        }
        let count = steps_of(rt.alloc(), *limit, steps)?;
        holds_at(&rt, count == steps.len() as u64, &(*what, count));
    }
    Ok(())
}
