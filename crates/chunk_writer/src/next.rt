//! What is to be appended next.
use mcap_model::Block;

/// Nothing, as the record waits for its block; or the block that it closed; or the record itself, which stands
/// at top level: where there are no blocks, or as an extra among them.
#[derive(Drop)]
pub(crate) enum Next {
    Waits,
    Block { block: Block },
    Record,
    Aside,
}
