//! A refusal, as every call answers it.
ghost use Rattle.std.specs.Prelude.{◌≡◌, Some};
ghost use Rattle.answers.specs.Refusals.{refusal_at, refusal_text};

use crate::fault::Fault;
use std::fmt;

// Numbers and no Option: a refusal is answered and printed as four numbers.
/// What is wrong and where: the solver, the place of the item in its file (or the text line of the
/// formula) and the position of the hint, each counted from 1 and 0 where it has no meaning.
#[derive(Clone, Copy, PartialEq, Eq, Debug)]
pub struct Refusal {
    pub fault: Fault,
    pub solver: usize,
    pub place: usize,
    pub hint: usize,
}

impl Refusal {
    /// A refusal that names a place and neither solver nor hint.
    pub fn at(fault: Fault, place: usize) -> Refusal
        ensures { result ≡ refusal_at fault place }
    {
        Refusal {
            fault,
            solver: 0,
            place,
            hint: 0,
        }
    }
}

impl fmt::Display for Refusal {
    ghost output = { λ r. Some (refusal_text r) };

    fn fmt<W: fmt::Write>(&self, f: &mut fmt::Formatter<W>) -> fmt::Result {
        let number = self.fault.number();
        let solver = self.solver;
        let place = self.place;
        let hint = self.hint;
        write!(
            f,
            "refused number={number} solver={solver} place={place} hint={hint}"
        )
    }
}
