//! Unit propagation through the clauses that hints name.
ghost use Rattle.std.specs.Prelude.{◌≡◌, ◌*◌, List, length, replicate, ℤ, Ok};
ghost use Rattle.formula.specs.Clauses.{Clause};
ghost use Rattle.formula.specs.Spans.{Ranged};
ghost use Rattle.lines.specs.Tables.{variables_in, named_in};
ghost use Rattle.rup.specs.Bytes.{Shows};
ghost use Rattle.rup.specs.Propagation.{gather, walk as walked};

use crate::failure::Failure;
use crate::guard::Blank;
use crate::literal::byte_of;
use answers::fault::Fault;
use lines::addition::Addition;
use lines::lines::Lines;

// Labelled loops, left from inside, are a rule of the project here: so a verdict is set, not returned.
// Goes through the clauses of hints, each of which names one.
fn walk(lines: &Lines, hints: &[u32], bytes: &mut [u8]) -> Result<usize, Failure>
    requires { length bytes.old ≡ 2 * variables_in lines.now }
    ensures { (cs : List Clause) (falses : List ℤ) → gather (named_in lines.now) 0 hints.now ≡ Ok cs → Shows (variables_in lines.now) bytes.old falses → result ≡ walked falses 0 cs }
{
    let mut verdict = Err(Failure::at(Fault::NoConflict, hints.len()));
    'hints: for (p, h) in hints.iter().enumerate() {
        let Some(clause) = lines.clause(*h) else {
            verdict = Err(Failure::at(Fault::UnknownHint, p + 1));
            break 'hints;
        };
        let mut unit = None;
        'literals: for l in clause {
            if bytes[byte_of(*l)] != 0 {
                continue 'literals;
            }
            match unit {
                None => unit = Some(*l),
                Some(_) => {
                    verdict = Err(Failure::at(Fault::HintNotUnit, p + 1));
                    break 'hints;
                }
            }
        }
        match unit {
            Some(l) => bytes[byte_of(-l)] = 1,
            None => {
                verdict = Ok(p + 1);
                break 'hints;
            }
        }
    }
    verdict
}

// From the literals of a line made false, on bytes that are zero, and zero again afterwards.
pub(crate) fn propagate(lines: &Lines, bytes: &mut [u8], line: Addition) -> Result<usize, Failure>
    requires zero { bytes.old ≡ replicate (2 * variables_in lines.now) 0 }
    requires ranged { Ranged (variables_in lines.now) line.literals.now }
    ensures answer { (cs : List Clause) → gather (named_in lines.now) 0 line.entry.hints.now ≡ Ok cs → result ≡ walked line.entry.literals.now 0 cs }
    ensures bytes { bytes.new ≡ bytes.old }
{
    let guard = Blank(bytes);
    for l in line.literals {
        guard.0[byte_of(*l)] = 1;
    }
    walk(lines, line.hints, guard.0)
}
