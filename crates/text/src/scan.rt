//! What a scan finds.

/// The next token of a line, or how the line ends; and the text behind it.
#[derive(Clone, Copy, PartialEq, Eq, Debug)]
pub enum Scan<'a> {
    /// A decimal number within the limit.
    Number(i32, &'a [u8]),
    /// Any other word.
    Word(&'a [u8], &'a [u8]),
    /// No token is left, and a line feed ends the line.
    LineEnd(&'a [u8]),
    /// No token is left, and the text ends here.
    TextEnd,
}
