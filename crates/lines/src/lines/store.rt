//! One more line.
ghost use Rattle.std.specs.Prelude.{◌≡◌, ◌+◌, ◌<◌, ◌≤◌, true, false, [], ◌∷◌, ◌++◌, map, length, slice_index, slice_set};
ghost use Rattle.tables.specs.Filled.{filled, slots_of, capacity_of, over, SameLender};
ghost use Rattle.formula.specs.Spans.{Ranged};
ghost use Rattle.lines.specs.Rows.{row_of, rows_of, heads_of};
ghost use Rattle.lines.specs.Tables.{variables_in, line_of, storable, Stored, AfterStore};

use crate::addition::Addition;
use crate::entry::{Entry, Row};
use crate::heads::{head_at, set_head};
use crate::lines::Lines;
use crate::lines::find::bucket;
use crate::range::is_outside;
use formula::span::Span;
use tables::fill::Fill;

// Puts elements behind the others, for which there is space: the run that they are. A public one, for
// `Formula::add` too, would answer an Option of which both know that it is Some.
fn put<T: Copy>(table: &mut Fill<T>, xs: &[T]) -> Span
    requires { length (filled table.old) + length xs.now ≤ capacity_of table.old }
    ensures run { result ≡ record { at = length (filled table.old); len = length xs.now } }
    ensures list { filled table.new ≡ filled table.old ++ xs.now }
    ensures slots { slots_of table.new ≡ over (slots_of table.old) (length (filled table.old)) xs.now }
    ensures lender { SameLender table.old table.new }
{
    let run = Span {
        at: table.len(),
        len: xs.len(),
    };
    let _ = table.extend(xs);
    run
}

// Puts a line behind the others and at the head of bucket `b`; its link is the head before it.
fn insert(entries: &mut Fill<Entry>, b: usize, number: u32, literals: Span, hints: Span)
    requires space { length (filled entries.old) < capacity_of entries.old }
    ensures rows { rows_of entries.new ≡ rows_of entries.old ++ (record { number = number; alive = true; literals = literals; hints = hints; link = slice_index (heads_of entries.old) b } ∷ []) }
    ensures slots { map row_of (slots_of entries.new) ≡ slice_set (map row_of (slots_of entries.old)) (length (filled entries.old)) (record { number = number; alive = true; literals = literals; hints = hints; link = slice_index (heads_of entries.old) b }) }
    ensures heads { heads_of entries.new ≡ slice_set (heads_of entries.old) b (length (filled entries.old)) }
    ensures lender { SameLender entries.old entries.new }
{
    let t = entries.len();
    let row = Row {
        number,
        alive: true,
        literals,
        hints,
        link: head_at(entries, b),
    };
    let head = head_at(entries, t);
    let _ = entries.push(Entry { row, head });
    set_head(entries, b, t);
}

impl<'b, 'f, 't> Lines<'b, 'f, 't> {
    // Puts a line behind the others, for which there is space.
    fn add(&mut self, line: Addition)
        requires ranged { Ranged (variables_in self.old) line.literals.now }
        requires literals { length (filled self.old.literals) + length line.literals.now ≤ capacity_of self.old.literals }
        requires hints { length (filled self.old.hints) + length line.hints.now ≤ capacity_of self.old.hints }
        requires entries { length (filled self.old.entries) < capacity_of self.old.entries }
        ensures { Stored self.old self.new (line_of line.entry) }
    {
        let b = bucket(self.formula.count(), self.entries.capacity(), line.number);
        let literals = put(&mut self.literals, line.literals);
        let hints = put(&mut self.hints, line.hints);
        insert(&mut self.entries, b, line.number, literals, hints);
    }

    /// Puts a line behind the others, alive; false, and nothing changed, where a literal is of none
    /// of the formula's variables, or where there is no space.
    #[tactic(auto, using(crate::proofs::Counts::space_left, crate::proofs::Ranges::inside_ranged))]
    pub fn store(&mut self, line: Addition) -> bool
        ensures answer { result ≡ storable self.old (line_of line.entry) }
        ensures after { AfterStore result self.old self.new (line_of line.entry) }
    {
        if is_outside(self.formula.variables(), line.literals)
            || !self.has_space(line.literals.len(), line.hints.len())
        {
            return false;
        }
        self.add(line);
        true
    }
}
