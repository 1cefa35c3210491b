//! What is loaded.

/// A part of an input: the number of the input, and where the part stands there, in bytes.
#[derive(Clone, Copy, Debug, PartialEq, Eq)]
pub struct Loadable {
    pub input: u32,
    pub offset: u64,
    pub length: u64,
}
