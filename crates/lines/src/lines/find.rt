//! Where the line is that a number names.
ghost use Rattle.std.specs.Prelude.{◌≡◌, ◌<◌, ◌≤◌, ◌&&◌, ◌==◌};
ghost use Rattle.lines.specs.Held.{place_named};
ghost use Rattle.lines.specs.Index.{bucket_of};
ghost use Rattle.lines.specs.Tables.{held_in};

use crate::entry::Row;
use crate::heads::head_at;
use crate::lines::Lines;

// Buckets by hand and no map of the library: there is no heap.
// The bucket, of `size`, of a number behind `o` clauses. Numbers mostly come close behind o, so the
// division is rare.
pub(crate) fn bucket(o: usize, size: usize, number: u32) -> usize
    requires some { 0 < size }
    requires few { o ≤ 65536 }
    ensures is { result ≡ bucket_of o size number }
    ensures low { result < size }
{
    let d = (number as usize).saturating_sub(o + 1);
    if d < size { d } else { d % size }
}

// Whether a number names this line.
fn is_named(row: Row, number: u32) -> bool
    ensures { result ≡ (row.alive && row.number == number) }
{
    row.alive && row.number == number
}

impl<'b, 'f, 't> Lines<'b, 'f, 't> {
    /// The place, from 0, of the line that is alive and has this number; of several, of the last.
    pub fn find(&self, number: u32) -> Option<usize>
        ensures { result ≡ place_named (held_in self.now) number }
    {
        let mut before = self.entries.as_slice();
        if before.is_empty() {
            return None;
        }
        let b = bucket(self.formula.count(), self.entries.capacity(), number);
        let mut t = head_at(&self.entries, b);
        while let Some(entry) = before.get(t) {
            if is_named(entry.row, number) {
                return Some(t);
            }
            before = &before[..t];
            t = entry.row.link;
        }
        None
    }
}
