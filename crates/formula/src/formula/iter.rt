//! The clauses of a formula, one after the other.
ghost use Rattle.std.specs.Prelude.{◌≡◌};
ghost use Rattle.std.specs.Iterator.{YieldsFirstRef, item_count};
ghost use Rattle.formula.specs.Formulas.{clauses_of};
ghost use Rattle.formula.specs.Iters.{clauses_left};

use crate::formula::Formula;
use crate::span::Span;

/// The clauses of a formula that are left.
#[derive(Clone, Copy)]
pub struct Iter<'a> {
    literals: &'a [i32],
    spans: &'a [Span],
}

impl<'a> Iterator for Iter<'a> {
    type Item = &'a [i32];

    ghost next_gives = { YieldsFirstRef clauses_left };

    ghost remaining = { item_count clauses_left };

    fn next(&mut self) -> Option<&'a [i32]> {
        let (span, others) = self.spans.split_first()?;
        self.spans = others;
        Some(span.of(self.literals))
    }
}

impl<'f> Formula<'f> {
    /// The clauses, in the order of their numbers.
    pub fn clauses(&self) -> Iter<'_>
        ensures { clauses_left result ≡ clauses_of self.now }
    {
        Iter {
            literals: self.literals.as_slice(),
            spans: self.spans.as_slice(),
        }
    }
}
