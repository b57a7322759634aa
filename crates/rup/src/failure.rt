//! Why a check refuses a line.
ghost use Rattle.std.specs.Prelude.{◌≡◌};

use answers::fault::Fault;
use answers::refusal::Refusal;

// A hint of 0 and no Option, as in the refusal that it becomes.
/// What is wrong with the line, and the position, from 1, of the hint that tells, 0 where none does.
#[derive(Clone, Copy, PartialEq, Eq, Debug)]
pub struct Failure {
    pub fault: Fault,
    pub hint: usize,
}

impl Failure {
    pub(crate) fn at(fault: Fault, hint: usize) -> Failure
        ensures { result ≡ record { fault = fault; hint = hint } }
    {
        Failure { fault, hint }
    }

    // As the refusal of a line of a solver, at a place of its file.
    pub(crate) fn refusal(self, solver: usize, place: usize) -> Refusal
        ensures { result ≡ record { fault = self.fault; solver = solver; place = place; hint = self.hint } }
    {
        Refusal {
            fault: self.fault,
            solver,
            place,
            hint: self.hint,
        }
    }
}
