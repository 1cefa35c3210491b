//! The outside as the recorder sees it: sources, sinks, stores, live stores and the world that opens and keeps them,
//! each with a meaning that contracts can name and a count of its faults.
#![tactic(auto)]

mod front;
mod outside;
mod pieces;
mod room;
mod store;
mod store_part;
mod store_source;
mod stretch;

pub use front::StoreFront;
pub use outside::{
    AppendRefused, EachRefused, Extent, Failed, LiveStore, LiveView, ObjectKind, OutsideRefused,
    Short, Sink, Source, World,
};
pub use pieces::{PieceAt, Pieces, piece_at, refused_in};
pub use room::Room;
pub use store::Store;
pub use store_part::read_part;
pub use store_source::StoreSource;
pub use stretch::{read_up_to, write_all_of};
