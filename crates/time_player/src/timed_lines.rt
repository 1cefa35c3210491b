//! The lines of messages with their log times, of which stretches are printed.
ghost use Rattle.std.specs.Prelude.{◌≡◌, ◌+◌, ◌-◌, ◌<◌, ◌≤◌, ◌++◌, [], length, take, drop, OnOk, vec_len, vec_capacity};
ghost use Rattle.mcap_model.specs.Places.{Each};
ghost use Rattle.mcap_wire.specs.Writing.{HasRoom};
ghost use Rattle.time_player.specs.Lines.{lines_of, HasLineRoom};
ghost use Rattle.time_player.specs.Messages.{messages_in};
ghost use Rattle.time_player.specs.Putting.{Puts};
ghost use Rattle.time_player.specs.Stretches.{moment_line, stretches_text, stretch_text, held_lines, LiesWithin, HasStretchRoom};

use crate::line::write_line;
use crate::lines::{quote_topics, spelled};
use crate::messages::Messages;
use crate::pieces::write_in_pieces;
use crate::printer::{PIECE, longest_line, make_piece};
use crate::replay::KeptReplay;
use mcap_io::{Failed, Sink};
use mcap_model::Table;
use mcap_wire::{Memory, add_bytes};
use std::alloc::Global;
use std::marker::Model;
use text_line::Line;

/// The most bytes of the line of a moment.
const MOMENT_ROOM: usize = 49;

/// The messages from the place `from` on and before the place `to`, and the moment that is printed in front of them.
#[derive(Clone, Copy)]
pub struct Stretch {
    pub moment: u64,
    pub from: usize,
    pub to: usize,
}

/// The lines of messages that are kept, with all the memory that printing them takes. Contracts see each line, and the log
/// time of its message.
#[derive(Drop)]
pub struct TimedLines {
    messages: Messages,
    quoted: Table,
    // It has room for a piece and the longest line.
    piece: Vec<u8>,
}

impl Model for TimedLines {
    ghost use Rattle.std.specs.Prelude.{List, vec_capacity};
    ghost use Rattle.time_player.specs.Stretches.{TimedLine, held_lines, HasStretchRoom};
    ghost use Rattle.time_player.specs.Messages.{messages_in};

    ghost Value = { List TimedLine };

    ghost view = { λ l. held_lines l.quoted (messages_in l.messages) };

    ghost invariant = { λ l. HasStretchRoom (messages_in l.messages) l.quoted (vec_capacity l.piece) };
}

// The line of a moment at which so many messages are shown.
#[tactic(auto, unfolding(crate::specs::Stretches::moment_line))]
fn line_of_moment(moment: u64, count: u64) -> Line
    ensures text { result ≡ moment_line moment count }
    ensures len { length result ≤ 49 }
{
    let mut line = Line::new();
    line.push_text("moment ");
    line.push_number(moment);
    line.push_text(" ");
    line.push_number(count);
    line.push_text("\n");
    line
}

// Writes the piece out where it has at least so many bytes.
fn write_long<K: Sink>(piece: &mut Vec<u8>, least: usize, sink: &mut K) -> Result<(), Failed>
    requires { 1 ≤ least }
    ensures puts { Puts (K.state sink.old) (K.state sink.new) piece.old.items piece.new.items [] result }
    ensures short { OnOk result (vec_len piece.new < least) }
    ensures capacity { vec_capacity piece.old ≤ vec_capacity piece.new }
{
    if piece.len() < least {
        return Ok(());
    }
    match write_in_pieces(sink, piece) {
        Ok(()) => {
            piece.clear();
            return Ok(());
        }
        Err(_) => return Err(Failed),
    }
}

// Puts the lines from one place on and before another after the piece, which is written where it is long.
fn put_lines<K: Sink>(
    messages: &Messages,
    quoted: &Table,
    from: usize,
    to: usize,
    piece: &mut Vec<u8>,
    sink: &mut K,
) -> Result<(), Failed>
    requires order { from ≤ to }
    requires within { to ≤ length (messages_in messages.now) }
    requires room { HasLineRoom (messages_in messages.now) quoted.now (vec_capacity piece.old) }
    requires short { vec_len piece.old < 65536 }
    ensures puts { Puts (K.state sink.old) (K.state sink.new) piece.old.items piece.new.items
        (lines_of quoted.now (take (to - from) (drop from (messages_in messages.now)))) result }
    ensures short { OnOk result (vec_len piece.new < 65536) }
    ensures capacity { vec_capacity piece.old ≤ vec_capacity piece.new }
{
    'messages: for i in from..to {
        let message = messages.get(i);
        write_line(piece, &message, spelled(quoted, message.channel));
        match write_long(piece, PIECE, sink) {
            Ok(()) => {}
            Err(failed) => return Err(failed),
        }
    }
    return Ok(());
}

// Puts the line of a stretch's moment and the lines of its messages after the piece.
fn put_stretch<K: Sink>(
    messages: &Messages,
    quoted: &Table,
    stretch: &Stretch,
    piece: &mut Vec<u8>,
    sink: &mut K,
) -> Result<(), Failed>
    requires within { LiesWithin (length (messages_in messages.now)) stretch.now }
    requires room { HasStretchRoom (messages_in messages.now) quoted.now (vec_capacity piece.old) }
    requires short { vec_len piece.old < 65536 }
    ensures puts { Puts (K.state sink.old) (K.state sink.new) piece.old.items piece.new.items
        (stretch_text (held_lines quoted.now (messages_in messages.now)) stretch.now) result }
    ensures short { OnOk result (vec_len piece.new < 65536) }
    ensures capacity { vec_capacity piece.old ≤ vec_capacity piece.new }
{
    let line = line_of_moment(stretch.moment, (stretch.to - stretch.from) as u64);
    add_bytes(piece, line.as_bytes());
    match write_long(piece, PIECE, sink) {
        Ok(()) => {}
        Err(failed) => return Err(failed),
    }
    return put_lines(messages, quoted, stretch.from, stretch.to, piece, sink);
}

// Puts the stretches after the piece, in their order.
fn put_stretches<K: Sink>(
    messages: &Messages,
    quoted: &Table,
    stretches: &[Stretch],
    piece: &mut Vec<u8>,
    sink: &mut K,
) -> Result<(), Failed>
    requires within { Each (LiesWithin (length (messages_in messages.now))) stretches.now }
    requires room { HasStretchRoom (messages_in messages.now) quoted.now (vec_capacity piece.old) }
    requires short { vec_len piece.old < 65536 }
    ensures puts { Puts (K.state sink.old) (K.state sink.new) piece.old.items piece.new.items
        (stretches_text (held_lines quoted.now (messages_in messages.now)) stretches.now) result }
{
    'stretches: for stretch in stretches {
        match put_stretch(messages, quoted, stretch, piece, sink) {
            Ok(()) => {}
            Err(failed) => return Err(failed),
        }
    }
    return Ok(());
}

impl TimedLines {
    ghost use Rattle.std.specs.Prelude.{List, IfOk, slice_index, map, ℕ};
    ghost use Rattle.mcap_model.specs.Scan.{Seen};
    ghost use Rattle.mcap_model.specs.Showing.{Shows};
    ghost use Rattle.time_player.specs.Stretches.{TimedLine, timed_lines};

    /// Takes messages over that are kept, and makes room for printing their lines.
    pub fn of_kept(alloc: Global, replayed: KeptReplay) -> Result<TimedLines, Memory>
        ensures { IfOk result (λ lines. (messages : List Seen) → Shows replayed messages
            → lines ≡ timed_lines messages) }
    {
        let (topics, kept) = replayed.into_parts();
        let quoted = match quote_topics(alloc, &topics) {
            Ok(quoted) => quoted,
            Err(memory) => return Err(memory),
        };
        let messages = Messages::Kept { kept };
        let longest = match longest_line(&messages, &quoted) {
            Some(longest) => longest.max(MOMENT_ROOM),
            None => return Err(Memory),
        };
        let piece = match make_piece(alloc, longest) {
            Ok(piece) => piece,
            Err(memory) => return Err(memory),
        };
        return Ok(TimedLines {
            messages,
            quoted,
            piece,
        });
    }

    /// How many lines there are.
    pub fn len(&self) -> usize
        ensures { result ≡ length self.now }
    {
        self.messages.len()
    }

    /// The log time of the message of the line at that place.
    pub fn log_time(&self, i: usize) -> u64
        requires { i < length self.now }
        ensures { result ≡ slice_index (map (λ (l : TimedLine). l.time) self.now) i }
    {
        self.messages.get(i).log_time
    }

    /// Writes all stretches in their order, of each `moment M COUNT` and its lines. It takes no memory, and writes some 64 KiB at
    /// once.
    pub fn print<K: Sink>(self, sink: &mut K, stretches: &[Stretch]) -> Result<(), Failed>
        requires { Each (LiesWithin (length self)) stretches.now }
        ensures { Puts (K.state sink.old) (K.state sink.new) [] [] (stretches_text self stretches.now) result }
    {
        let TimedLines {
            messages,
            quoted,
            piece,
        } = self;
        let mut piece = piece;
        piece.clear();
        match put_stretches(&messages, &quoted, stretches, &mut piece, sink) {
            Ok(()) => return write_long(&mut piece, 1, sink),
            Err(failed) => return Err(failed),
        }
    }
}
