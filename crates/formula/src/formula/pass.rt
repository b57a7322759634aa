//! How clauses come into the tables of a formula: the second pass over its file.
ghost use Rattle.std.specs.Prelude.{◌≡◌, ◌+◌, ◌<◌, ◌≤◌, List, [], length};
ghost use Rattle.tables.specs.Filled.{filled, capacity_of};
ghost use Rattle.formula.specs.Clauses.{Clause};
ghost use Rattle.formula.specs.Formulas.{variables_of};
ghost use Rattle.formula.specs.Cursors.{reads_on};
ghost use Rattle.formula.specs.Reading.{formula};
ghost use Rattle.formula.specs.Reads.{Added, Holds};
ghost use Rattle.formula.specs.Spans.{Ranged};
ghost use Rattle.formula.specs.Surveys.{Sized};

use crate::clauses::Header;
use crate::formula::Formula;
use crate::span::Span;
use crate::survey::Survey;

impl<'f> Formula<'f> {
    // Empties the tables, for clauses over the header's variables.
    fn start(&mut self, header: Header)
        ensures { Holds self.old self.new header.variables [] }
    {
        self.literals.clear();
        self.spans.clear();
        self.variables = header.variables;
    }

    // Puts one more clause behind the others.
    fn add(&mut self, clause: &[i32])
        requires ranged { Ranged (variables_of self.old) clause.now }
        requires few { length (filled self.old.spans) < 65536 }
        requires space { (length (filled self.old.literals) + length clause.now ≤ capacity_of self.old.literals) × (length (filled self.old.spans) < capacity_of self.old.spans) }
        ensures { Added self.old self.new clause.now }
    {
        let s = Span {
            at: self.literals.len(),
            len: clause.len(),
        };
        let _ = self.literals.extend(clause);
        let _ = self.spans.push(s);
    }

    // The second pass: the clauses that the survey found go into the tables.
    pub(crate) fn fill(&mut self, found: Survey<'_>)
        requires found { Sized found }
        requires space { (found.literals ≤ capacity_of self.old.literals) × (found.clauses.header.clauses ≤ capacity_of self.old.spans) }
        ensures { (cs : List Clause) → reads_on found.entry.clauses [] ≡ formula found.entry.clauses.header.variables cs → Holds self.old self.new found.entry.clauses.header.variables cs }
    {
        let mut clauses = found.clauses;
        let mut out = [0i32; 64];
        self.start(clauses.header);
        while let Ok(Some(clause)) = clauses.next(&mut out) {
            self.add(clause);
        }
    }
}
