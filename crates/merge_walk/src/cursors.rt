//! How far the messages of the loaded pieces were given.
ghost use Rattle.std.specs.Prelude.{◌≡◌, ◌↔◌, ◌<◌, ◌≤◌, IsTrue, length};
ghost use Rattle.mcap_model.specs.Places.{At, Each};
ghost use Rattle.merge_walk.specs.declared.turns.Turn.{Turn as Coming};
ghost use Rattle.merge_walk.specs.declared.turns.WalkRefused.{WalkRefused as Refusal};
ghost use Rattle.merge_walk.specs.declared.turns.WalkRefused.TheVariants as refusals;
ghost use Rattle.merge_walk.specs.Cursors.{HasLeft, IsNext, MakesCursor, EarlierOf, PieceTurnNotBehind, FindsFirstCursor, TurnBeforePiece, TellsBefore};

use crate::heads::{are_within, put_in_order};
use crate::pieces::Piece;
use crate::turns::WalkRefused;
use mcap_model::ReadingRefused;
use mcap_scan::{MessageHead, list_heads};
use std::alloc::Global;

/// A piece that is loaded, its messages in their order, and how many of them were given. One is left, but for the time between
/// two steps.
#[derive(Drop)]
pub(crate) struct Cursor {
    pub piece: Piece,
    pub heads: Vec<MessageHead>,
    pub given: usize,
}

/// The piece isn't what it was when it was surveyed.
pub(crate) fn changed(piece: &Piece) -> WalkRefused
    ensures { result ≡ refusals.Changed piece.now.input piece.now.span.offset }
{
    WalkRefused::Changed {
        input: piece.input,
        offset: piece.span.offset,
    }
}

/// A piece that was loaded with these bytes. Bytes that can't be those that were surveyed are refused.
pub(crate) fn cursor_of(alloc: Global, piece: Piece, bytes: &[u8]) -> Result<Cursor, WalkRefused>
    ensures { MakesCursor piece bytes.now result }
{
    let mut heads = Vec::new(alloc);
    match list_heads(&mut heads, bytes) {
        Ok(()) => {}
        Err(_) => return Err(WalkRefused::Refused {
            input: piece.input,
            why: ReadingRefused::Memory,
        }),
    }
    put_in_order(&mut heads);
    if heads.is_empty() {
        return Err(changed(&piece));
    }
    if heads.len() != piece.span.messages as usize {
        return Err(changed(&piece));
    }
    if !are_within(&heads, &piece.span) {
        return Err(changed(&piece));
    }
    return Ok(Cursor {
        piece,
        heads,
        given: 0,
    });
}

impl Cursor {
    /// The message that comes next.
    pub(crate) fn next_head(&self) -> MessageHead
        requires { HasLeft self.now }
        ensures { At self.now.heads.items self.now.given result }
    {
        self.heads[self.given]
    }

    /// Whether all of its messages were given.
    pub(crate) fn is_over(&self) -> bool
        ensures { IsTrue result ↔ (length self.now.heads.items ≤ self.now.given) }
    {
        self.given >= self.heads.len()
    }
}

// Whether the next message of a piece doesn't come behind that of another.
fn is_not_behind(one: &Cursor, other: &Cursor) -> bool
    requires left { HasLeft one.now }
    requires others { HasLeft other.now }
    ensures { (t u : Coming) → IsNext one.now t → IsNext other.now u → IsTrue result ↔ PieceTurnNotBehind t u }
{
    let (a, b) = (one.next_head(), other.next_head());
    if a.time != b.time {
        return a.time < b.time;
    }
    if one.piece.input != other.piece.input {
        return one.piece.input < other.piece.input;
    }
    return one.piece.span.at <= other.piece.span.at;
}

// Of two pieces that whose next message comes first.
fn earlier(cursors: &[Cursor], first: usize, i: usize) -> usize
    requires one { first < length cursors.now }
    requires other { i < length cursors.now }
    requires left { Each HasLeft cursors.now }
    ensures { EarlierOf cursors.now first i result }
{
    if is_not_behind(&cursors[first], &cursors[i]) {
        return first;
    }
    return i;
}

/// The piece whose next message comes first.
pub(crate) fn first_due(cursors: &[Cursor]) -> Option<usize>
    requires { Each HasLeft cursors.now }
    ensures { FindsFirstCursor cursors.now result }
{
    if cursors.len() == 0 {
        return None;
    }
    let mut first = 0;
    'pieces: for i in 1..cursors.len() {
        first = earlier(cursors, first, i);
    }
    return Some(first);
}

// Whether the next message of a piece comes before all of one that isn't loaded.
fn is_before(cursor: &Cursor, piece: &Piece) -> bool
    requires { HasLeft cursor.now }
    ensures { (t : Coming) → IsNext cursor.now t → IsTrue result ↔ TurnBeforePiece t piece.now }
{
    let time = cursor.next_head().time;
    if time != piece.span.least {
        return time < piece.span.least;
    }
    if cursor.piece.input != piece.input {
        return cursor.piece.input < piece.input;
    }
    return cursor.piece.span.at < piece.span.at;
}

/// Whether there is a next message of the piece at that place, and it comes before all of one that isn't loaded.
pub(crate) fn comes_before(cursors: &[Cursor], due: Option<usize>, piece: &Piece) -> bool
    requires left { Each HasLeft cursors.now }
    requires due { FindsFirstCursor cursors.now due }
    ensures { TellsBefore cursors.now due piece.now result }
{
    match due {
        Some(i) => return is_before(&cursors[i], piece),
        None => return false,
    }
}
