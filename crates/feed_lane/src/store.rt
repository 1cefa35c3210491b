//! What a list has of its members.

/// The members, or how many there are.
#[derive(Drop)]
pub(crate) enum Store<T> {
    Kept(Vec<T>),
    Counted(u64),
}
