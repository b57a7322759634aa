//! Making assignment bytes of lent memory, and the test that they are zero.
ghost use Rattle.std.specs.Prelude.{◌≡◌, ◌≤◌, length, take};
ghost use Rattle.rup.specs.Assignments.{bytes_of, SameLender};
ghost use Rattle.rup.specs.Bytes.{all_zero, clean};

use crate::assignment::AssignmentBytes;

// One pass with no early end, which a compiler can do many bytes at a time: `all` takes 15 times as long.
fn is_zero(bytes: &[u8]) -> bool
    ensures { result ≡ all_zero bytes.now }
{
    bytes.iter().fold(true, |zero, b| zero & (*b == 0))
}

impl<'a> AssignmentBytes<'a> {
    /// Over lent bytes, whatever they hold.
    pub fn over(bytes: &'a mut [u8]) -> AssignmentBytes<'a>
        ensures bytes { bytes_of result ≡ bytes.old }
        ensures lender { result.bytes.ghost_name ≡ bytes.entry.ghost_name }
    {
        AssignmentBytes { bytes, known: 0 }
    }

    // Whether the first `n` bytes are zero.
    fn is_zero_to(&self, n: usize) -> bool
        requires { n ≤ length (bytes_of self.now) }
        ensures { result ≡ all_zero (take n (bytes_of self.now)) }
    {
        is_zero(&self.bytes[0..n])
    }

    /// Whether there are bytes for the literals of so many variables, all zero. What is found zero
    /// is not tested again.
    pub fn is_clean(&mut self, variables: usize) -> bool
        ensures answer { result ≡ clean variables (bytes_of self.old) }
        ensures bytes { bytes_of self.new ≡ bytes_of self.old }
        ensures lender { SameLender self.old self.new }
    {
        if self.bytes.len() / 2 < variables {
            return false;
        }
        let n = 2 * variables;
        if n <= self.known {
            return true;
        }
        if !self.is_zero_to(n) {
            return false;
        }
        self.known = n;
        true
    }
}
