//! What a record is.

use source::head::Head;

/// A record; the literals and numbers of an item stand beside it.
#[derive(Clone, Copy)]
pub(crate) enum Found {
    /// An item's head.
    Item(Head),
    /// The count of the last record.
    Last(u32),
}
