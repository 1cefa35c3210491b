//! The layout of an MCAP file: little-endian numbers, strings and framed records, read from slices and written to vectors.
#![tactic(auto)]

mod arrays;
mod blobs;
mod counts;
mod faults;
mod heads;
mod key_passes;
pub mod laws;
mod maps;
mod marks;
mod pair_bytes;
mod pair_list;
mod pairs;
mod reading;
mod room;
mod sameness;
mod texts;
mod writing;

pub use arrays::{EntriesRef, add_entries, put_entries, take_entries};
pub use blobs::Bytes;
pub use counts::{CountsRef, add_counts, put_counts, take_counts};
pub use faults::{
    Bad, CONTENT_LIMIT, Cut, CutFault, FILE_LIMIT, HEAD_LENGTH, Head, HeadFault, MAGIC, Memory,
    Why, at_field,
};
pub use heads::{cut, take_head};
pub use maps::{add_pairs, put_pairs, take_pairs};
pub use pair_list::{PairList, Pairs};
pub use pairs::PairsRef;
pub use reading::{take_bytes32, take_bytes64, take_text, take_u8, take_u16, take_u32, take_u64};
pub use room::{
    add_bytes, add_bytes32, add_bytes64, add_head, add_text, add_u8, add_u16, add_u32, add_u64,
    make_room,
};
pub use texts::Text;
pub use writing::{
    put_bytes, put_bytes32, put_bytes64, put_head, put_text, put_u8, put_u16, put_u32, put_u64,
};
