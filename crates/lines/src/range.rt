//! Whether literals are of a formula's variables.
ghost use Rattle.std.specs.Prelude.{◌≡◌};
ghost use Rattle.lines.specs.Held.{strange, outside};

// A literal of no variable from 1 to `variables`.
fn is_strange(variables: usize, literal: i32) -> bool
    ensures { result ≡ strange variables literal }
{
    !(1..=variables).contains(&(literal.unsigned_abs() as usize))
}

/// Whether some literal is of no variable from 1 to `variables`.
pub fn is_outside(variables: usize, literals: &[i32]) -> bool
    ensures { result ≡ outside variables literals.now }
{
    literals.iter().any(|l| is_strange(variables, *l))
}
