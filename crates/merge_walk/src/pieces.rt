//! The pieces of inputs, in the order in which they are loaded.
ghost use Rattle.std.specs.Prelude.{◌≡◌, ◌↔◌, ◌++◌, OnOk, IsTrue, IsPermutation};
ghost use Rattle.merge_walk.specs.Pieces.{pieces_with, PieceNotBehind, PiecesInOrder};

use crate::Span;
use mcap_wire::Memory;

/// A span of an input.
#[derive(Clone, Copy)]
pub struct Piece {
    pub input: u32,
    pub span: Span,
}

// Whether a piece isn't loaded behind another.
fn is_not_behind(one: &Piece, other: &Piece) -> bool
    ensures { IsTrue result ↔ PieceNotBehind one.now other.now }
{
    if one.span.least != other.span.least {
        return one.span.least < other.span.least;
    }
    if one.input != other.input {
        return one.input < other.input;
    }
    return one.span.at <= other.span.at;
}

// Whether no piece comes behind the next.
fn is_in_order(pieces: &[Piece]) -> bool
    ensures { IsTrue result ↔ PiecesInOrder pieces.now }
{
    'pieces: for i in 1..pieces.len() {
        if !is_not_behind(&pieces[i - 1], &pieces[i]) {
            return false;
        }
    }
    return true;
}

/// Adds the spans of an input.
pub fn pieces_of(pieces: &mut Vec<Piece>, input: u32, spans: &[Span]) -> Result<(), Memory>
    ensures { OnOk result (pieces.new.items ≡ pieces.old.items ++ pieces_with input spans.now) }
{
    'spans: for i in 0..spans.len() {
        match pieces.push(Piece {
            input,
            span: spans[i],
        }) {
            Ok(()) => {}
            Err(_) => return Err(Memory),
        }
    }
    return Ok(());
}

/// Puts pieces in the order of their least times, of their inputs, and of where they begin. Those that are in order already
/// cost no sort.
pub(crate) fn put_in_order(pieces: &mut Vec<Piece>)
    ensures same { IsPermutation pieces.old.items pieces.new.items }
    ensures order { PiecesInOrder pieces.new.items }
{
    if is_in_order(pieces) {
        return;
    }
    pieces.sort_unstable_by_key(|p| (p.span.least, p.input, p.span.at));
}
