//! Variables of literals.
ghost use Rattle.std.specs.Prelude.{◌≡◌, pos};
ghost use Rattle.formula.specs.Clauses.{has_variable};

/// Whether the variable stands among the literals, in either sign.
pub fn has_variable(literals: &[i32], variable: u32) -> bool
    ensures { result ≡ has_variable (pos variable) literals.now }
{
    literals.iter().any(|k| k.unsigned_abs() == variable)
}
