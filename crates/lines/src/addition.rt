//! A line that is offered.

/// An added clause as its proof has it: its number, its literals, and the hints by which it follows.
#[derive(Clone, Copy)]
pub struct Addition<'a> {
    pub number: u32,
    pub literals: &'a [i32],
    pub hints: &'a [u32],
}
