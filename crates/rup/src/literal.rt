//! The byte of a literal, and literals that repeat a variable.
ghost use Rattle.std.specs.Prelude.{◌≡◌, ◌≤◌, unsigned_abs};
ghost use Rattle.rup.specs.Bytes.{byte_of};
ghost use Rattle.rup.specs.Verdicts.{twice};

use formula::variable::has_variable;

// Literal v has byte 2v − 2, and −v has byte 2v − 1.
pub(crate) fn byte_of(literal: i32) -> usize
    requires { 1 ≤ unsigned_abs literal }
    ensures { result ≡ byte_of literal }
{
    let v = literal.unsigned_abs() as usize;
    2 * v - 2 + usize::from(literal < 0)
}

// Whether some variable stands twice, in either sign.
pub(crate) fn is_twice(literals: &[i32]) -> bool
    ensures { result ≡ twice literals.now }
{
    let mut rest = literals;
    while let [literal, others @ ..] = rest {
        if has_variable(others, literal.unsigned_abs()) {
            return true;
        }
        rest = others;
    }
    false
}
