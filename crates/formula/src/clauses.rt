//! A formula file behind its header.
ghost use Rattle.std.specs.Prelude.{◌+◌, ◌^◌, ◌<◌, ◌≤◌, length};

/// What the header announces.
#[derive(Clone, Copy)]
pub(crate) struct Header {
    pub(crate) variables: usize,
    pub(crate) clauses: usize,
    ghost some: { 1 ≤ variables },
    ghost low: { variables ≤ 4096 },
    ghost few: { clauses ≤ 65536 },
}

/// The clauses that are left: the text of their lines, how many lines stand before it, and how many
/// clauses.
#[derive(Clone, Copy)]
pub(crate) struct Clauses<'a> {
    pub(crate) header: Header,
    pub(crate) rest: &'a [u8],
    pub(crate) lines: usize,
    pub(crate) count: usize,
    ghost numbered: { lines + length rest.now < 2 ^ 64 },
    ghost due: { count ≤ header.clauses },
}
