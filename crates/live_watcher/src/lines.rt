//! The lines of fronts and ends. They take no memory.
ghost use Rattle.std.specs.Prelude.{◌≡◌, ◌+◌, ◌<◌, ◌≤◌, ◌++◌, ◌∷◌, [], length};
ghost use Rattle.time_player.specs.Text.{hex_digit};
ghost use Rattle.live_watcher.specs.Text.{hex_text, front_line, end_word, end_line};

use mcap_model::End;
use text_line::{LINE_ROOM, Line};

/// How many hexadecimal digits a CRC-32 has.
const CRC_DIGITS: u32 = 8;

// A hexadecimal digit, in lower case.
fn digit_text(digit: u32) -> &'static str
    requires { digit < 16 }
    ensures { result.now ≡ hex_digit digit ∷ [] }
{
    match digit {
        0 => "0",
        1 => "1",
        2 => "2",
        3 => "3",
        4 => "4",
        5 => "5",
        6 => "6",
        7 => "7",
        8 => "8",
        9 => "9",
        10 => "a",
        11 => "b",
        12 => "c",
        13 => "d",
        14 => "e",
        _ => "f",
    }
}

// Puts a number behind the line, in so many hexadecimal digits.
fn push_hex(line: &mut Line, number: u32, digits: u32)
    requires { length line.old + digits ≤ LINE_ROOM }
    ensures text { line.new ≡ line.old ++ hex_text digits number }
    ensures len { length line.new ≡ length line.old + digits }
{
    if digits == 0 {
        return;
    }
    push_hex(line, number / 16, digits - 1);
    line.push_text(digit_text(number % 16));
}

/// The line of a front: how many blocks it has, how many messages of them were replayed, and the CRC-32 of their lines.
#[tactic(auto, unfolding(crate::specs::Text::front_line))]
pub(crate) fn line_of_front(blocks: u64, messages: u64, crc: u32) -> Line
    ensures { result ≡ front_line blocks messages crc }
{
    let mut line = Line::new();
    line.push_text("front ");
    line.push_number(blocks);
    line.push_text(" ");
    line.push_number(messages);
    line.push_text(" ");
    push_hex(&mut line, crc, CRC_DIGITS);
    line.push_text("\n");
    line
}

// The word for how a recording ended.
fn word_of(end: End) -> &'static str
    ensures word { result.now ≡ end_word end }
    ensures short { length result.now ≤ 7 }
{
    match end {
        End::Closed => "closed",
        End::Stopped { .. } => "stopped",
    }
}

/// The line of an end: how the recording ended, how many blocks it has, and how many messages of them were replayed.
#[tactic(auto, unfolding(crate::specs::Text::end_line))]
pub(crate) fn line_of_end(end: End, blocks: u64, messages: u64) -> Line
    ensures { result ≡ end_line end blocks messages }
{
    let mut line = Line::new();
    line.push_text("end ");
    line.push_text(word_of(end));
    line.push_text(" ");
    line.push_number(blocks);
    line.push_text(" ");
    line.push_number(messages);
    line.push_text("\n");
    line
}
