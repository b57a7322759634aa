//! What a look answers.

/// The first item of a source: its kind, number, counts and place.
#[derive(Clone, Copy, PartialEq, Eq, Debug)]
pub enum Head {
    /// An addition's number, how many literals and hints it has, and its place.
    Addition(u32, usize, usize, usize),
    /// How many numbers a deletion has, and its place.
    Deletion(usize, usize),
}

/// Where a source goes on behind the item that a look answered: what it means is the source's own.
#[derive(Clone, Copy, PartialEq, Eq, Debug)]
pub struct Mark {
    pub at: usize,
    pub place: usize,
    pub additions: usize,
}
