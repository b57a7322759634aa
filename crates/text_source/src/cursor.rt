//! A source over the bytes of a text.
pub mod items;
pub mod marks;
mod reads;

/// A cursor in a text: what is left of the partial proof from there on.
#[derive(Clone, Copy)]
pub struct TextSource<'a> {
    bytes: &'a [u8],
    // where the next line begins, and how many lines stand before it; no `Mark`, since a text counts
    // no additions
    at: usize,
    lines: usize,
}
