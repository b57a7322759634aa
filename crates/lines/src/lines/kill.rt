//! The death of a line.
ghost use Rattle.std.specs.Prelude.{◌≡◌, map, length, is_some};
ghost use Rattle.lines.specs.Held.{place_named};
ghost use Rattle.lines.specs.Tables.{held_in, AfterKill};

use crate::entry::{Entry, Row};
use crate::lines::Lines;

impl<'b, 'f, 't> Lines<'b, 'f, 't> {
    /// Makes the line that a number names dead: it stays held, and no number names it; false, and
    /// nothing changed, where there is none.
    pub fn kill(&mut self, number: u32) -> bool
        ensures answer { result ≡ is_some (place_named (held_in self.old) number) }
        ensures after { AfterKill (place_named (held_in self.old) number) self.old self.new }
    {
        // false and no `?`: whether there was one
        let Some(t) = self.find(number) else {
            return false;
        };
        let Some(entry) = self.entries.get(t) else {
            return false;
        };
        let row = Row {
            alive: false,
            ..entry.row
        };
        self.entries.set(t, Entry { row, ..entry })
    }
}
