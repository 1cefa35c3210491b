//! The line that is printed of a message.
ghost use Rattle.std.specs.Prelude.{◌≡◌, ◌+◌, ◌*◌, ◌^◌, ◌<◌, ◌≤◌, ◌++◌, ◌∷◌, [], length, vec_len, vec_capacity, drop, OnOk, OnErr, MatchOption};
ghost use Rattle.mcap_wire.specs.Writing.{HasRoom, LacksRoom};
ghost use Rattle.time_player.specs.Text.{data_text};
ghost use Rattle.time_player.specs.Lent.{shown_of};
ghost use Rattle.time_player.specs.Lines.{spaced_number, numbers_of, line_of, line_room};

use crate::hex::add_hex;
use crate::lent::{Lent, lend};
use itoa::write_digits;
use mcap_model::Shown;
use mcap_wire::{Memory, add_bytes, make_room};

/// The length of four numbers of 20 digits, with a space behind each.
const NUMBERS: usize = 84;

// Appends the data of a message, or a dash where there is none.
fn add_data(out: &mut Vec<u8>, payload: &[u8])
    requires { HasRoom out.old (1 + 2 * length payload.now) }
    ensures items { out.new.items ≡ out.old.items ++ data_text payload.now }
    ensures len { vec_len out.new ≤ vec_len out.old + (1 + 2 * length payload.now) }
    ensures capacity { vec_capacity out.old ≤ vec_capacity out.new }
{
    if payload.is_empty() {
        add_bytes(out, b"-");
    } else {
        add_hex(out, payload);
    }
}

// Writes a number in decimal digits, and a space behind it that ends at `end`, and says where it begins.
#[inline(always)]
fn write_number(number: u64, text: &mut [u8; NUMBERS], end: usize) -> usize
    requires { (21 ≤ end) × (end ≤ 84) }
    ensures below { end ≤ result + 21 }
    ensures len { result + length (spaced_number number) ≡ end }
    ensures written { drop result text.new ≡ spaced_number number ++ drop end text.old }
{
    text[end - 1] = b' ';
    write_digits(number, text, end - 1)
}

// Appends the numbers of a message, each with a space behind it. They are written from the last to the first.
fn add_numbers(out: &mut Vec<u8>, message: &Lent)
    requires { HasRoom out.old 84 }
    ensures items { out.new.items ≡ out.old.items ++ numbers_of (shown_of message.now) }
    ensures len { vec_len out.new ≤ vec_len out.old + 84 }
    ensures capacity { vec_capacity out.old ≤ vec_capacity out.new }
{
    let mut text = [0; NUMBERS];
    let sequence = write_number(message.sequence as u64, &mut text, NUMBERS);
    let channel = write_number(message.channel as u64, &mut text, sequence);
    let publish_time = write_number(message.publish_time, &mut text, channel);
    // A recorder without times of publishing sets the log time in their place (MCAP specification, "Message (op=0x05)").
    if message.log_time == message.publish_time {
        add_bytes(out, &text[publish_time..channel]);
        add_bytes(out, &text[publish_time..]);
        return;
    }
    let log_time = write_number(message.log_time, &mut text, publish_time);
    add_bytes(out, &text[log_time..]);
}

/// Appends the line of a message, where there is room for it.
pub(crate) fn write_line(out: &mut Vec<u8>, message: &Lent, quoted: &[u8])
    requires { HasRoom out.old (line_room (shown_of message.now) quoted.now) }
    ensures items { out.new.items ≡ out.old.items ++ line_of (shown_of message.now) quoted.now }
    ensures capacity { vec_capacity out.old ≤ vec_capacity out.new }
{
    add_numbers(out, message);
    add_bytes(out, quoted);
    add_bytes(out, b" ");
    add_data(out, message.payload);
    add_bytes(out, b"\n");
}

/// The room that the line of a message takes at most, if it can be had at all.
pub(crate) fn room_of(message: &Lent, quoted: &[u8]) -> Option<usize>
    ensures { MatchOption result (2 ^ 64 ≤ line_room (shown_of message.now) quoted.now)
        (λ n. n ≡ line_room (shown_of message.now) quoted.now) }
{
    let digits = match message.payload.len().checked_mul(2) {
        Some(digits) => digits,
        None => return None,
    };
    match digits.checked_add(quoted.len()) {
        Some(texts) => return texts.checked_add(87),
        None => return None,
    }
}

/// Appends the line of a message; `quoted` is the topic of its channel as a JSON string. Memory lacks only where the vector
/// has no room for the line, and then the vector keeps its bytes.
pub fn add_line(out: &mut Vec<u8>, shown: &Shown, quoted: &[u8]) -> Result<(), Memory>
    ensures ok { OnOk result (out.new.items ≡ out.old.items ++ line_of shown.now quoted.now) }
    ensures err { OnErr result (out.new.items ≡ out.old.items) }
    ensures full { OnErr result (LacksRoom out.old (line_room shown.now quoted.now)) }
    ensures capacity { vec_capacity out.old ≤ vec_capacity out.new }
{
    let message = lend(shown);
    let room = match room_of(&message, quoted) {
        Some(room) => room,
        None => return Err(Memory),
    };
    match make_room(out, room) {
        Ok(()) => {}
        Err(memory) => return Err(memory),
    }
    write_line(out, &message, quoted);
    return Ok(());
}
