//! The numbers that a line has runs of.
ghost use Rattle.std.specs.Prelude.{◌≡◌, ℤ, Option};
ghost use Rattle.text_source.specs.Parse.{literal, signless};

// A type of numbers that a run has, and which numbers of a text it keeps.
pub(crate) trait Kept: Copy {
    ghost keep: { ℤ → Option Self };

    fn kept(z: i32) -> Option<Self>
        ensures { result ≡ keep z };
}

// A literal.
impl Kept for i32 {
    ghost keep = { literal };

    fn kept(z: i32) -> Option<i32> {
        Some(z)
    }
}

// A hint or deleted number.
impl Kept for u32 {
    ghost keep = { signless };

    fn kept(z: i32) -> Option<u32> {
        u32::try_from(z).ok()
    }
}
