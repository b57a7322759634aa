//! The assignment bytes, lent by the caller: one for each literal, 1 where the literal is false.
ghost use Rattle.std.specs.Prelude.{◌≡◌, ℕ, ◌<◌, ◌≤◌, length, slice_index};

pub mod clean;

/// Bytes, of which so many from the front are known to be zero: a long run tests them once.
#[derive(Drop)]
pub struct AssignmentBytes<'a> {
    pub(crate) bytes: &'a mut [u8],
    known: usize,
    ghost within: { known ≤ length bytes.now },
    ghost zero: { (k : ℕ) → k < known → slice_index bytes.now k ≡ 0 },
}
