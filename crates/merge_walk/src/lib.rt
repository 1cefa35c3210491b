//! The messages of several inputs in the order of log time, input and place: a first reading of an input tells where they
//! stand and when they were logged, and then their bytes are loaded piece by piece and let go.
#![tactic(auto)]

mod cursors;
mod heads;
mod noting;
mod parts;
mod pieces;
mod spans;
mod survey_laws;
mod surveying;
#[cfg(test)]
mod tests;
mod times;
mod turns;
mod walk;
mod walk_laws;
mod window;

pub use noting::note_spans;
pub use parts::Loadable;
pub use pieces::{Piece, pieces_of};
pub use spans::Span;
pub use survey_laws::{silent_records_have_none, spans_tell_times};
pub use surveying::{Survey, survey_source};
pub use turns::{Turn, WalkRefused};
pub use walk::Walk;
pub use walk_laws::{surveyed_bytes_fit, told_pieces_stay};
pub use window::Window;
