//! The reader of formula files.
ghost use Rattle.std.specs.Prelude.{◌≡◌};
ghost use Rattle.formula.specs.Laws.{Laws};
ghost use Rattle.formula.specs.Reads.{read_into, answer_of, After};

use crate::formula::Formula;
use crate::survey::survey_file;
use answers::fault::Fault;
use answers::refusal::Refusal;

impl<'f> Formula<'f> {
    /// Reads a formula file in place of what the formula was, or refuses and changes nothing.
    #[tactic(auto, using(crate::proofs::AllLaws::laws))]
    pub fn read(&mut self, text: &[u8]) -> Result<(), Refusal>
        ensures answer { result ≡ answer_of (read_into self.old text.now) }
        ensures tables { After (read_into self.old text.now) self.old self.new }
        ensures laws { Laws }
    {
        let found = survey_file(text)?;
        if found.literals > self.literals.capacity()
            || found.clauses.header.clauses > self.spans.capacity()
        {
            return Err(Refusal::at(Fault::NoSpace, 0));
        }
        self.fill(found);
        Ok(())
    }
}
