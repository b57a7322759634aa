//! The clause that a number names.
ghost use Rattle.std.specs.Prelude.{◌≡◌, IfSome};
ghost use Rattle.std.specs.Option.{option_map};
ghost use Rattle.formula.specs.Spans.{Ranged};
ghost use Rattle.lines.specs.Tables.{variables_in, named_in};

use crate::lines::Lines;

impl<'b, 'f, 't> Lines<'b, 'f, 't> {
    // Inlined: a check asks twice for the clause of each hint, and a call each time shows in its time.
    /// The literals of the clause that a number names, in the formula's table or in that of the lines.
    #[inline]
    pub fn clause(&self, number: u32) -> Option<&[i32]>
        ensures is { option_map (λ x. x.now) result ≡ named_in self.now number }
        ensures limits { IfSome result (λ c. Ranged (variables_in self.now) c.now) }
    {
        if number as usize <= self.formula.count() {
            return self.formula.clause(number as usize);
        }
        let entry = self.entries.get(self.find(number)?)?;
        Some(entry.row.literals.of(self.literals.as_slice()))
    }
}
