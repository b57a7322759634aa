//! Formulas and the tables that tests lend.
use formula::formula::Formula;
use formula::span::Span;
use lines::addition::Addition;
use lines::entry::{Entry, Row};
use lines::lines::Lines;
use rup::assignment::AssignmentBytes;
use rup::check::check;
use rup::failure::Failure;

/// The sample: five clauses over three variables, which nothing satisfies.
pub(crate) const SAMPLE: &[u8] = b"p cnf 3 5\n1 2 0\n1 -2 0\n-1 3 0\n-1 -3 2 0\n-2 -3 0\n";

pub(crate) const SPAN: Span = Span { at: 7, len: 7 };

/// What stands in every entry before: a head and a link that lead nowhere sensible.
pub(crate) const ENTRY: Entry = Entry {
    row: Row {
        number: 6,
        alive: true,
        literals: SPAN,
        hints: SPAN,
        link: 1,
    },
    head: 3,
};

/// The position of the hint at which the conflict came, or the number of what is wrong and the
/// position of the hint that tells.
pub(crate) type Told = Result<usize, (u8, usize)>;

fn told(verdict: Result<usize, Failure>) -> Told {
    verdict.map_err(|failure| (failure.fault.number(), failure.hint))
}

/// The verdict on a line against a formula alone, on these bytes.
pub(crate) fn verdict_on(
    text: &[u8],
    literals: &[i32],
    hints: &[u32],
    bytes: &mut [u8],
) -> Option<Told> {
    let mut table = [0i32; 80];
    let mut spans = [SPAN; 8];
    let mut formula = Formula::over(&mut table, &mut spans);
    formula.read(text).ok()?;
    let mut no_literals = [0i32; 1];
    let mut no_hints = [0u32; 1];
    let mut no_entries = [ENTRY; 1];
    let lines = Lines::over(&formula, &mut no_literals, &mut no_hints, &mut no_entries);
    let mut assignment = AssignmentBytes::over(bytes);
    let line = Addition {
        number: 1,
        literals,
        hints,
    };
    Some(told(check(&lines, &mut assignment, line)))
}
