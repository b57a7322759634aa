//! The check of a line.
ghost use Rattle.std.specs.Prelude.{◌≡◌};
ghost use Rattle.lines.specs.Tables.{variables_in, named_in, line_of};
ghost use Rattle.rup.specs.Assignments.{bytes_of, SameLender};
ghost use Rattle.rup.specs.Laws.{Laws};
ghost use Rattle.rup.specs.Verdicts.{verdict, on_clean};

use crate::assignment::AssignmentBytes;
use crate::failure::Failure;
use crate::hints::unknown_hint;
use crate::literal::is_twice;
use crate::propagation::propagate;
use answers::fault::Fault;
use lines::addition::Addition;
use lines::lines::Lines;
use lines::range::is_outside;

/// Whether a line follows from the formula's clauses and the lines held, whatever its number. The
/// bytes are as they were on every way out.
#[tactic(auto, using(crate::proofs::AllLaws::laws, crate::proofs::Shown::clean_zeros))]
pub fn check(
    lines: &Lines,
    assignment: &mut AssignmentBytes,
    line: Addition,
) -> Result<usize, Failure>
    ensures answer { result ≡ on_clean (variables_in lines.now) (bytes_of assignment.old) (verdict (variables_in lines.now) (named_in lines.now) (line_of line.entry)) }
    ensures bytes { bytes_of assignment.new ≡ bytes_of assignment.old }
    ensures lender { SameLender assignment.old assignment.new }
    ensures laws { Laws }
{
    let variables = lines.variables();
    if !assignment.is_clean(variables) {
        return Err(Failure::at(Fault::AssignmentBytes, 0));
    }
    if is_outside(variables, line.literals) {
        return Err(Failure::at(Fault::LineVariableAbove, 0));
    }
    if is_twice(line.literals) {
        return Err(Failure::at(Fault::LineVariableTwice, 0));
    }
    if let Some(p) = unknown_hint(lines, line.hints) {
        return Err(Failure::at(Fault::UnknownHint, p));
    }
    propagate(lines, &mut assignment.bytes[0..2 * variables], line)
}
