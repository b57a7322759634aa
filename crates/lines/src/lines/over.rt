//! Making and emptying the tables, and what they have space for.
ghost use Rattle.std.specs.Prelude.{◌≡◌, ◌≤◌, [], map, length};
ghost use Rattle.tables.specs.Filled.{filled, slots_of};
ghost use Rattle.lines.specs.Held.{all_of, space_for};
ghost use Rattle.lines.specs.Tables.{variables_in, held_in, sizes_of, literal_slots, hint_slots, Same};

use crate::entry::Entry;
use crate::lines::Lines;
use formula::formula::Formula;
use tables::fill::Fill;

impl<'b, 'f, 't> Lines<'b, 'f, 't> {
    /// No line yet, over lent slices whose slots stay as they are.
    pub fn over(
        formula: &'b Formula<'f>,
        literals: &'t mut [i32],
        hints: &'t mut [u32],
        entries: &'t mut [Entry],
    ) -> Lines<'b, 'f, 't>
        ensures held { held_in result ≡ [] }
        ensures formula { result.formula ≡ formula.entry }
        ensures literals { (literal_slots result ≡ literals.old) × (result.literals.slots.ghost_name ≡ literals.entry.ghost_name) }
        ensures hints { (hint_slots result ≡ hints.old) × (result.hints.slots.ghost_name ≡ hints.entry.ghost_name) }
        ensures entries { (slots_of result.entries ≡ entries.old) × (result.entries.slots.ghost_name ≡ entries.entry.ghost_name) }
    {
        Lines {
            formula,
            literals: Fill::new(literals),
            hints: Fill::new(hints),
            entries: Fill::new(entries),
        }
    }

    /// Forgets all lines; the slots stay as they are.
    pub fn clear(&mut self)
        ensures held { held_in self.new ≡ [] }
        ensures literals { literal_slots self.new ≡ literal_slots self.old }
        ensures hints { hint_slots self.new ≡ hint_slots self.old }
        ensures entries { slots_of self.new.entries ≡ slots_of self.old.entries }
        ensures same { Same self.old self.new }
    {
        self.literals.clear();
        self.hints.clear();
        self.entries.clear();
    }

    /// V: the literals are of the variables 1 to V.
    pub fn variables(&self) -> usize
        ensures is { result ≡ variables_in self.now }
        ensures limit { result ≤ 4096 }
    {
        self.formula.variables()
    }

    /// How many lines are held, the dead ones too.
    pub fn count(&self) -> usize
        ensures { result ≡ length (held_in self.now) }
    {
        self.entries.len()
    }

    /// Whether there is space for one more line of so many literals and hints.
    #[tactic(auto, using(crate::proofs::Counts::space_left))]
    pub fn has_space(&self, literals: usize, hints: usize) -> bool
        ensures { result ≡ space_for (sizes_of self.now) (all_of (held_in self.now)) literals hints }
    {
        self.entries.space() > 0 && literals <= self.literals.space() && hints <= self.hints.space()
    }
}
