//! Lists of numbers as a text has them.
ghost use Rattle.std.specs.Prelude.{◌≡◌, ℕ, List, Some, decimal, refl};
ghost use Rattle.std.specs.Fmt.{signed_decimal};
ghost use Rattle.plain_text.specs.Texts.{spaced};

use std::fmt;

/// A number that a text has in decimal.
pub trait Decimal: fmt::Display {
    ghost digits: { Self → List ℕ };

    /// It is printed so.
    ghost printed: { (x : Self) → Self.Display.output x ≡ Some (digits x) };
}

impl Decimal for i32 {
    ghost digits = { signed_decimal };

    ghost printed = { λ x. refl };
}

impl Decimal for u32 {
    ghost digits = { decimal };

    ghost printed = { λ x. refl };
}

/// Numbers with a space behind each.
#[derive(Clone, Copy)]
pub struct Spaced<'a, T>(pub &'a [T]);

impl<T: Decimal> fmt::Display for Spaced<'_, T> {
    ghost output = { λ s. Some (spaced T.digits s.0.now) };

    fn fmt<W: fmt::Write>(&self, f: &mut fmt::Formatter<W>) -> fmt::Result {
        for number in self.0 {
            write!(f, "{number} ")?;
        }
        Ok(())
    }
}
