//! The generator of a feed's messages.
ghost use Rattle.std.specs.Prelude.{◌≡◌, ◌≤◌, ◌++◌, vec_capacity, OnOk, OnErr};
ghost use Rattle.mcap_wire.specs.Layout.{framed};
ghost use Rattle.mcap_wire.specs.Writing.{LacksRoom};
ghost use Rattle.rec_data.specs.Records.{message_opcode, message_text};
ghost use Rattle.command_generate.specs.Generator.{first_state, next_state, upper_bits, generated_message};

use mcap_wire::Memory;
use rec_data::Message;

/// What a state is multiplied with, and what is added then.
const FACTOR: u64 = 6_364_136_223_846_793_005;

const INCREMENT: u64 = 1_442_695_040_888_963_407;

/// How many low bits of a state its number lacks.
const LOW_BITS: u32 = 33;

/// The nanoseconds from one message to the next. What a number adds is less.
const STEP: u64 = 1_000;

/// The most bytes of a message's data.
const MOST_DATA: usize = 63;

/// The id of the one channel.
pub(crate) const CHANNEL_ID: u16 = 1;

/// The bytes that the longest record of a message has.
pub(crate) const RECORD_ROOM: usize = 31 + MOST_DATA;

/// The state before the first message.
pub(crate) fn begin(seed: u64, feed: u64) -> u64
    ensures { result ≡ first_state seed feed }
{
    seed.wrapping_add(feed)
}

/// The state of the next message.
pub(crate) fn advance(state: u64) -> u64
    ensures { result ≡ next_state state }
{
    state.wrapping_mul(FACTOR).wrapping_add(INCREMENT)
}

/// The number of a state.
pub(crate) fn draw(state: u64) -> u64
    ensures { result ≡ upper_bits state }
{
    state >> LOW_BITS
}

/// Appends the record of the message of that index and number.
pub(crate) fn put_message(out: &mut Vec<u8>, index: u32, number: u64) -> Result<(), Memory>
    ensures ok { OnOk result (out.new.items
        ≡ out.old.items ++ framed message_opcode (message_text 1 (generated_message index number))) }
    ensures full { OnErr result (LacksRoom out.old RECORD_ROOM) }
    ensures capacity { vec_capacity out.old ≤ vec_capacity out.new }
{
    let data = [(number % 256) as u8; MOST_DATA];
    let len = (number % (MOST_DATA as u64 + 1)) as usize;
    let time = STEP * index as u64 + number % STEP;
    let message = Message {
        channel_id: CHANNEL_ID,
        sequence: index,
        log_time: time,
        publish_time: time,
        payload: &data[..len],
    };
    message.frame(out)
}
