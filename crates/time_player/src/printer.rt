//! Printing the lines of messages in pieces.
ghost use Rattle.std.specs.Prelude.{◌≡◌, ◌+◌, ◌≤◌, List, [], IfOk, IfSome, vec_capacity};
ghost use Rattle.mcap_crc.specs.Remainder.{remainder};
ghost use Rattle.mcap_io.specs.OutsideCalls.{WritesAll};
ghost use Rattle.mcap_model.specs.Places.{Each};
ghost use Rattle.time_player.specs.Lines.{EachDeclaredOnce, spelling, line_room, lines_of, HasLineRoom};
ghost use Rattle.time_player.specs.Messages.{messages_in};
ghost use Rattle.time_player.specs.Printing.{CountsAllBut, piece_limit};

use crate::line::{room_of, write_line};
use crate::lines::{quote_topics, spelled};
use crate::messages::Messages;
use crate::pieces::write_in_pieces;
use crate::replay::KeptReplay;
use mcap_crc::Crc;
use mcap_io::{Short, Sink};
use mcap_model::{Replayed, Table};
use mcap_wire::Memory;
use std::alloc::Global;
use std::marker::Model;
use std::mem;

/// From how many bytes on a piece is written.
pub(crate) const PIECE: usize = 65_536;

/// The lines of messages that are to be printed, with all the memory that this takes. Contracts see their text.
#[derive(Drop)]
pub struct Printer {
    messages: Messages,
    quoted: Table,
    // It has room for a piece and the longest line.
    piece: Vec<u8>,
}

impl Model for Printer {
    ghost use Rattle.std.specs.Prelude.{List, ℕ, vec_capacity};

    ghost Value = { List ℕ };

    ghost use Rattle.time_player.specs.Lines.{lines_of, HasLineRoom};
    ghost use Rattle.time_player.specs.Messages.{messages_in};

    ghost view = { λ p. lines_of p.quoted (messages_in p.messages) };

    ghost invariant = { λ p. HasLineRoom (messages_in p.messages) p.quoted (vec_capacity p.piece) };
}

/// The room that the longest line takes, if it can be had at all.
pub(crate) fn longest_line(messages: &Messages, quoted: &Table) -> Option<usize>
    requires { EachDeclaredOnce quoted.now }
    ensures { IfSome result (λ n. Each (λ s. line_room s (spelling quoted.now s.channel) ≤ n)
        (messages_in messages.now)) }
{
    let mut longest = 0;
    'messages: for i in 0..messages.len() {
        let message = messages.get(i);
        match room_of(&message, spelled(quoted, message.channel)) {
            Some(room) => longest = room.max(longest),
            None => return None,
        }
    }
    return Some(longest);
}

/// An empty piece, with room for that much after it.
pub(crate) fn make_piece(alloc: Global, longest: usize) -> Result<Vec<u8>, Memory>
    ensures { IfOk result (λ piece. 65536 + longest ≤ vec_capacity piece) }
{
    let room = match longest.checked_add(PIECE) {
        Some(room) => room,
        None => return Err(Memory),
    };
    match Vec::with_capacity(alloc, room) {
        Ok(piece) => return Ok(piece),
        Err(_) => return Err(Memory),
    }
}

// Writes the lines of messages.
fn write_lines<K: Sink>(
    messages: &Messages,
    quoted: &Table,
    piece: Vec<u8>,
    sink: &mut K,
) -> Result<(), Short>
    requires { HasLineRoom (messages_in messages.now) quoted.now (vec_capacity piece) }
    ensures written { WritesAll (K.state sink.old) (K.state sink.new) (lines_of quoted.now (messages_in messages.now))
        result }
    ensures counted { CountsAllBut piece_limit (K.state sink.old).took (K.state sink.new).took result }
    ensures silent { lines_of quoted.now (messages_in messages.now) ≡ [] → K.state sink.new ≡ K.state sink.old }
{
    let mut piece = piece;
    let mut taken = 0usize;
    piece.clear();
    'messages: for i in 0..messages.len() {
        let message = messages.get(i);
        write_line(&mut piece, &message, spelled(quoted, message.channel));
        if piece.len() < PIECE {
            continue;
        }
        match write_in_pieces(sink, &piece) {
            Ok(()) => {}
            Err(short) => {
                return Err(Short {
                    taken: taken.saturating_add(short.taken),
                });
            }
        }
        taken = taken.saturating_add(piece.len());
        piece.clear();
    }
    if piece.is_empty() {
        return Ok(());
    }
    match write_in_pieces(sink, &piece) {
        Ok(()) => return Ok(()),
        Err(short) => {
            return Err(Short {
                taken: taken.saturating_add(short.taken),
            });
        }
    }
}

// The CRC-32 of the lines of messages. One line at a time stands in the piece.
fn sum_lines(messages: &Messages, quoted: &Table, piece: Vec<u8>) -> u32
    requires { HasLineRoom (messages_in messages.now) quoted.now (vec_capacity piece) }
    ensures { result ≡ remainder (lines_of quoted.now (messages_in messages.now)) }
{
    let mut piece = piece;
    let mut crc = Crc::new();
    'messages: for i in 0..messages.len() {
        let message = messages.get(i);
        piece.clear();
        write_line(&mut piece, &message, spelled(quoted, message.channel));
        crc.update(&piece);
    }
    return crc.value();
}

impl Printer {
    ghost use Rattle.mcap_model.specs.Scan.{Seen};
    ghost use Rattle.mcap_model.specs.Showing.{Shows};
    ghost use Rattle.time_player.specs.Text.{cat_text as text_of};

    /// Takes messages over, and makes room for their lines; `quoted` has the topics of their channels.
    fn of(alloc: Global, messages: Messages, quoted: Table) -> Result<Printer, Memory>
        requires { EachDeclaredOnce quoted }
        ensures { IfOk result (λ text. text ≡ lines_of quoted (messages_in messages)) }
    {
        let longest = match longest_line(&messages, &quoted) {
            Some(longest) => longest,
            None => return Err(Memory),
        };
        let piece = match make_piece(alloc, longest) {
            Ok(piece) => piece,
            Err(memory) => return Err(memory),
        };
        return Ok(Printer {
            messages,
            quoted,
            piece,
        });
    }

    /// Takes messages over, and makes room for their lines.
    pub fn new(alloc: Global, replayed: Replayed) -> Result<Printer, Memory>
        ensures { IfOk result (λ text. (messages : List Seen) → Shows replayed messages → text ≡ text_of messages) }
    {
        let Replayed { topics, shown } = replayed;
        let quoted = match quote_topics(alloc, &topics) {
            Ok(quoted) => quoted,
            Err(memory) => return Err(memory),
        };
        match Printer::of(alloc, Messages::Owned { shown }, quoted) {
            Ok(text) => return Ok(text),
            Err(memory) => return Err(memory),
        }
    }

    /// Takes messages over that are kept, and makes room for their lines.
    pub fn of_kept(alloc: Global, replayed: KeptReplay) -> Result<Printer, Memory>
        ensures { IfOk result (λ text. (messages : List Seen) → Shows replayed messages → text ≡ text_of messages) }
    {
        let (topics, kept) = replayed.into_parts();
        let quoted = match quote_topics(alloc, &topics) {
            Ok(quoted) => quoted,
            Err(memory) => return Err(memory),
        };
        match Printer::of(alloc, Messages::Kept { kept }, quoted) {
            Ok(text) => return Ok(text),
            Err(memory) => return Err(memory),
        }
    }

    /// Writes all of the text, and of an empty one nothing. It takes no memory, and the messages are dropped once all is
    /// written. Of what a sink took before it failed all but 128 KiB at most are counted.
    pub fn print<K: Sink>(&mut self, alloc: Global, sink: &mut K) -> Result<(), Short>
        ensures written { WritesAll (K.state sink.old) (K.state sink.new) self.old result }
        ensures counted { CountsAllBut piece_limit (K.state sink.old).took (K.state sink.new).took result }
        ensures silent { self.old ≡ [] → K.state sink.new ≡ K.state sink.old }
        ensures left { self.new ≡ [] }
    {
        let none = Messages::Owned {
            shown: Vec::new(alloc),
        };
        let messages = mem::replace(&mut self.messages, none);
        let piece = mem::replace(&mut self.piece, Vec::new(alloc));
        write_lines(&messages, &self.quoted, piece, sink)
    }

    /// The CRC-32 of the text, in place of printing it. It takes no memory.
    pub fn checksum(self) -> u32
        ensures { result ≡ remainder self }
    {
        let Printer {
            messages,
            quoted,
            piece,
        } = self;
        sum_lines(&messages, &quoted, piece)
    }
}
