//! The counts and the clauses of a formula, as the program prints them.
ghost use Rattle.std.specs.Prelude.{Some, length};
ghost use Rattle.formula.specs.Formulas.{variables_of, clauses_of};
ghost use Rattle.formula.specs.Laws.{clause_text};
ghost use Rattle.formula_text.specs.Texts.{summary, clause_texts, description};

use formula::formula::Formula;
use plain_text::numbers::Spaced;
use std::fmt;

/// The line of counts.
#[derive(Clone, Copy)]
pub struct Summary<'a, 'f>(pub &'a Formula<'f>);

impl fmt::Display for Summary<'_, '_> {
    ghost output = { λ s. Some (summary (variables_of s.0.now) (length (clauses_of s.0.now))) };

    fn fmt<W: fmt::Write>(&self, f: &mut fmt::Formatter<W>) -> fmt::Result {
        let variables = self.0.variables();
        let clauses = self.0.count();
        writeln!(f, "formula variables={variables} clauses={clauses}")
    }
}

// The line of a clause.
#[derive(Clone, Copy)]
struct ClauseLine<'a>(&'a [i32]);

impl fmt::Display for ClauseLine<'_> {
    ghost output = { λ l. Some (clause_text l.0.now) };

    #[tactic(auto, using(crate::proofs::ClauseTexts::clause_text_lem))]
    fn fmt<W: fmt::Write>(&self, f: &mut fmt::Formatter<W>) -> fmt::Result {
        let literals = Spaced(self.0);
        writeln!(f, "{literals}0")
    }
}

// A line for each clause.
#[derive(Clone, Copy)]
struct Clauses<'a, 'f>(&'a Formula<'f>);

impl fmt::Display for Clauses<'_, '_> {
    ghost output = { λ s. Some (clause_texts (clauses_of s.0.now)) };

    fn fmt<W: fmt::Write>(&self, f: &mut fmt::Formatter<W>) -> fmt::Result {
        for clause in self.0.clauses() {
            let line = ClauseLine(clause);
            write!(f, "{line}")?;
        }
        Ok(())
    }
}

/// What a formula is: the line of counts, then a line for each clause.
#[derive(Clone, Copy)]
pub struct Description<'a, 'f>(pub &'a Formula<'f>);

impl fmt::Display for Description<'_, '_> {
    ghost output = { λ d. Some (description (variables_of d.0.now) (clauses_of d.0.now)) };

    fn fmt<W: fmt::Write>(&self, f: &mut fmt::Formatter<W>) -> fmt::Result {
        let summary = Summary(self.0);
        let clauses = Clauses(self.0);
        write!(f, "{summary}{clauses}")
    }
}
