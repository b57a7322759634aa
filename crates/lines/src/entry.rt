//! A slot of the table of lines.
use formula::span::Span;

// `alive` is no Option round the rest: a walk goes on through a dead line's link.
/// A line: its number, whether it is alive, its runs of the two other tables, and the line before
/// it in its bucket.
#[derive(Clone, Copy, PartialEq, Eq, Debug, Default)]
pub struct Row {
    pub number: u32,
    pub alive: bool,
    pub literals: Span,
    pub hints: Span,
    pub link: usize,
}

// Links and heads are plain indices, with no Option: a lent slot holds anything before it is written.

/// A line, and the last line of the bucket that has the slot's index. The heads of buckets stand in
/// unfilled slots too.
#[derive(Clone, Copy, PartialEq, Eq, Debug, Default)]
pub struct Entry {
    pub row: Row,
    pub head: usize,
}
