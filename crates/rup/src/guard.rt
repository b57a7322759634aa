//! Bytes that are zero on every way out.
ghost use Rattle.std.specs.Prelude.{◌≡◌, length, replicate};

// Holds the bytes that a check writes to, and blanks them at its end.
pub(crate) struct Blank<'a>(pub(crate) &'a mut [u8]);

impl Drop for Blank<'_> {
    fn drop(self)
        ensures { self.exit.0.now ≡ replicate (length self.entry.0.now) 0 }
    {
        self.0.fill(0);
        let Blank(_) = self;
    }
}
