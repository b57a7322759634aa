//! A source over the bytes of a record file.
pub mod items;
pub mod marks;

use source::head::Mark;

/// A cursor of a record file. Its items are those from there on.
#[derive(Clone, Copy)]
pub struct RecordSource<'a> {
    bytes: &'a [u8],
    // where the next record begins, the records before it, and the additions among them
    mark: Mark,
}
