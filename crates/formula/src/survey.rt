//! The first pass over a formula file: it checks everything, counts, and writes nothing.
ghost use Rattle.formula.specs.Surveys.{Surveyed};

use crate::clauses::Clauses;
use answers::fault::Fault;
use answers::refusal::Refusal;

/// What a formula file holds: its clauses, and how many literals they have.
#[derive(Clone, Copy)]
pub(crate) struct Survey<'a> {
    pub(crate) clauses: Clauses<'a>,
    pub(crate) literals: usize,
}

// The whole file, but for the space that it takes.
pub(crate) fn survey_file(text: &[u8]) -> Result<Survey<'_>, Refusal>
    ensures { Surveyed text.now result }
{
    let clauses = Clauses::of(text)?;
    let mut left = clauses;
    let mut out = [0i32; 64];
    let mut literals = 0;
    while let Some(clause) = left.next(&mut out)? {
        literals += clause.len();
    }
    if left.count != clauses.header.clauses {
        return Err(Refusal::at(Fault::ClauseCount, 0));
    }
    Ok(Survey { clauses, literals })
}
