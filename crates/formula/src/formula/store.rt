//! The tables of a formula, and what they hold.
ghost use Rattle.std.specs.Prelude.{◌≡◌, ◌+◌, ◌≤◌, [], length, IfSome};
ghost use Rattle.std.specs.Option.{option_map};
ghost use Rattle.formula.specs.Spans.{part, Ranged};
ghost use Rattle.formula.specs.Formulas.{variables_of, clauses_of, literal_slots, span_slots, numbered};

use crate::formula::Formula;
use crate::span::Span;
use tables::fill::Fill;

impl<'f> Formula<'f> {
    /// A formula of no clause over one variable; the lent slots stay as they are.
    pub fn over(literals: &'f mut [i32], spans: &'f mut [Span]) -> Formula<'f>
        ensures variables { variables_of result ≡ 1 }
        ensures clauses { clauses_of result ≡ [] }
        ensures literals { literal_slots result ≡ literals.old }
        ensures spans { span_slots result ≡ spans.old }
        ensures lenders { (result.literals.slots.ghost_name ≡ literals.entry.ghost_name) × (result.spans.slots.ghost_name ≡ spans.entry.ghost_name) }
    {
        Formula {
            literals: Fill::new(literals),
            spans: Fill::new(spans),
            variables: 1,
        }
    }

    /// V: the variables are 1 to V.
    pub fn variables(&self) -> usize
        ensures is { result ≡ variables_of self.now }
        ensures limits { (1 ≤ result) × (result ≤ 4096) }
    {
        self.variables
    }

    /// How many clauses there are.
    pub fn count(&self) -> usize
        ensures is { result ≡ length (clauses_of self.now) }
        ensures limits { result ≤ 65536 }
    {
        self.spans.len()
    }

    /// The literals of the clause with this number, counted from 1.
    pub fn clause(&self, number: usize) -> Option<&[i32]>
        ensures is { option_map (λ x. x.now) result ≡ numbered (clauses_of self.now) number }
        ensures limits { IfSome result (λ c. Ranged (variables_of self.now) c.now) }
    {
        let span = self.spans.get(number.checked_sub(1)?)?;
        // by index and not `of`: every span ends within the table, so that no bound is looked at
        Some(&self.literals.as_slice()[span.at..span.at + span.len])
    }
}
