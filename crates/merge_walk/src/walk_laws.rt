//! When a walk finds a piece changed, each law as the contract of a function that does nothing.
ghost use Rattle.merge_walk.specs.WalkLaws.{SurveyedBytesFit, ToldPiecesStay};

/// Bytes whose messages were logged when a span says, and are as many, as a survey's are, can be those of the span.
pub fn surveyed_bytes_fit()
    ensures { SurveyedBytesFit }
{}

/// Where each piece's input tells, the bytes that stand there can be those of the piece's span, and no two pieces begin at one
/// place, no piece is found changed.
pub fn told_pieces_stay()
    ensures { ToldPiecesStay }
{}
