//! A line that is offered: checked, and stored where it follows and there is space.
ghost use Rattle.std.specs.Prelude.{◌≡◌};
ghost use Rattle.lines.specs.Tables.{line_of};
ghost use Rattle.rup.specs.Assignments.{bytes_of, SameLender};
ghost use Rattle.rup.specs.Offers.{offered, AfterOffer};

use crate::assignment::AssignmentBytes;
use crate::check::check;
use crate::failure::Failure;
use answers::fault::Fault;
use answers::refusal::Refusal;
use lines::addition::Addition;
use lines::lines::Lines;

/// Offers a line of a solver, at a place of its file, where the number `next` would be its turn.
/// Answers the position of the hint at which the conflict came, and stores the line; a refusal
/// changes nothing.
pub fn offer(
    lines: &mut Lines,
    assignment: &mut AssignmentBytes,
    solver: usize,
    place: usize,
    next: usize,
    line: Addition,
) -> Result<usize, Refusal>
    ensures answer { result ≡ offered lines.old (bytes_of assignment.old) solver place next (line_of line.entry) }
    ensures lines { AfterOffer result lines.old lines.new (line_of line.entry) }
    ensures bytes { bytes_of assignment.new ≡ bytes_of assignment.old }
    ensures lender { SameLender assignment.old assignment.new }
{
    if !assignment.is_clean(lines.variables()) {
        return Err(Failure::at(Fault::AssignmentBytes, 0).refusal(solver, 0));
    }
    if line.number as usize != next {
        return Err(Failure::at(Fault::NotNext, 0).refusal(solver, place));
    }
    let hint = check(lines, assignment, line).map_err(|failure| failure.refusal(solver, place))?;
    if !lines.store(line) {
        return Err(Failure::at(Fault::NoSpace, 0).refusal(solver, place));
    }
    Ok(hint)
}
