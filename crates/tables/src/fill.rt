//! One kind of table for every kind of element: a lent slice, filled from the front.
pub mod ops;

// A lent slice with its length beside it: memory is the caller's, and nothing here allocates.
/// The first `len` slots of the slice are filled; a `len` beyond the slice fills it whole.
#[derive(Drop)]
pub struct Fill<'a, T> {
    slots: &'a mut [T],
    len: usize,
}
