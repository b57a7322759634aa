//! Where a clause lies in the table of literals.
ghost use Rattle.std.specs.Prelude.{◌≡◌};
ghost use Rattle.formula.specs.Spans.{part};

/// The run of `len` literals from `at` on.
#[derive(Clone, Copy, PartialEq, Eq, Debug, Default)]
pub struct Span {
    pub at: usize,
    pub len: usize,
}

impl Span {
    /// The run that the span is of a table: of one that reaches beyond it, what the table has.
    pub fn of<T>(self, table: &[T]) -> &[T]
        ensures { result.now ≡ part self table.now }
    {
        let rest = &table[self.at.min(table.len())..];
        &rest[..self.len.min(rest.len())]
    }
}
