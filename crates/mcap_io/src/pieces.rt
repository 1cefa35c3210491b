//! Bytes that are cut into pieces.
ghost use Rattle.std.specs.Prelude.{◌≡◌, ◌≤◌, ◌<◌, ℕ, List, length, All};
ghost use Rattle.std.specs.List.{concat};
ghost use Rattle.mcap_io.specs.Appending.{BeginsAt, EndsAt, IsPieceAt, FallsIn};

use crate::outside::{AppendRefused, EachRefused};

/// Bytes that are cut into pieces.
pub trait Pieces {
    /// The pieces, in their order.
    ghost list: { Self → List (List ℕ) };

    /// The bytes of all pieces.
    fn bytes(&self) -> &[u8]
        ensures { result.now ≡ concat (list self.now) };

    /// Where the piece ends that begins there.
    fn end(&self, at: usize) -> usize
        requires { BeginsAt (list self.now) at }
        ensures { EndsAt (list self.now) at result };

    /// No piece is empty.
    ghost some: { (p : Self) → All (λ piece. 0 < length piece) (list p) };
}

/// A piece, and where it ends.
#[derive(Clone, Copy)]
pub struct PieceAt<'a> {
    pub bytes: &'a [u8],
    pub end: usize,
}

/// The piece that begins there.
pub fn piece_at<P: Pieces>(pieces: &P, at: usize) -> PieceAt<'_>
    requires { BeginsAt (P.list pieces.now) at }
    ensures { IsPieceAt (P.list pieces.now) at result.bytes.now result.end }
{
    let bytes = pieces.bytes();
    let end = pieces.end(at);
    PieceAt {
        bytes: &bytes[at..end],
        end,
    }
}

/// The piece in which a failure fell that took so many first bytes of all: those before it were taken whole.
pub fn refused_in<P: Pieces>(pieces: &P, taken: usize) -> EachRefused
    requires some { 0 < length (concat (P.list pieces.now)) }
    requires within { taken ≤ length (concat (P.list pieces.now)) }
    ensures { FallsIn (P.list pieces.now) taken result }
{
    let len = pieces.bytes().len();
    let mut at = 0;
    'pieces: loop {
        let end = pieces.end(at);
        if taken < end || end == len {
            return EachRefused {
                whole: at as u64,
                why: AppendRefused::Failed {
                    taken: (taken - at) as u64,
                },
            };
        }
        at = end;
    }
}
