//! Lines found by number, whatever numbers there are.
use crate::jobs::{ENTRY, SAMPLE, SPAN};
use formula::formula::Formula;
use lines::addition::Addition;
use lines::lines::Lines;
use std::process::Abort;
use std::test::Fail;

// Each test lends its own tables: a helper could not hand out what lies over its own arrays.

/// What is done: a line of a number stored or killed, with the answer, or a number looked for.
#[derive(Clone, Copy)]
enum Step {
    Store(u32, bool),
    Kill(u32, bool),
    Find(u32, Option<usize>),
    Clear,
}

// Eight slots behind five clauses: 6, 14, 22, .. and 7, 15, .. fall into one bucket each, and so do
// all numbers up to 6.
static STEPS: [Step; 49] = [
    Step::Find(6, None),
    Step::Kill(6, false),
    Step::Store(6, true),
    Step::Store(14, true),
    Step::Store(7, true),
    Step::Store(22, true),
    Step::Store(4294967295, true),
    Step::Find(6, Some(0)),
    Step::Find(14, Some(1)),
    Step::Find(7, Some(2)),
    Step::Find(22, Some(3)),
    Step::Find(4294967295, Some(4)),
    Step::Find(30, None),
    Step::Find(15, None),
    Step::Find(8, None),
    Step::Find(0, None),
    Step::Find(4294967294, None),
    // of two lines of one number the last is found, and behind its death the one before
    Step::Store(14, true),
    Step::Find(14, Some(5)),
    Step::Kill(14, true),
    Step::Find(14, Some(1)),
    Step::Find(22, Some(3)),
    Step::Find(6, Some(0)),
    Step::Kill(14, true),
    Step::Find(14, None),
    Step::Kill(14, false),
    Step::Find(6, Some(0)),
    // the dead stay held, and a number can be given again
    Step::Store(14, true),
    Step::Find(14, Some(6)),
    Step::Kill(22, true),
    Step::Find(22, None),
    Step::Find(14, Some(6)),
    // a number of a formula clause
    Step::Store(3, true),
    Step::Find(3, Some(7)),
    Step::Find(6, Some(0)),
    Step::Find(5, None),
    // no slot is left
    Step::Store(9, false),
    Step::Find(9, None),
    Step::Kill(3, true),
    Step::Store(9, false),
    Step::Clear,
    Step::Find(6, None),
    Step::Find(14, None),
    Step::Find(7, None),
    Step::Kill(7, false),
    Step::Store(22, true),
    Step::Find(22, Some(0)),
    Step::Find(14, None),
    Step::Find(6, None),
];

fn expect(rt: &impl Abort, case: usize, lines: &mut Lines, s: Step) -> Result<(), Fail> {
    match s {
        Step::Store(number, stored) => {
            let line = Addition {
                number,
                literals: &[1],
                hints: &[],
            };
            assert_eq!(rt; lines.store(line), stored, "step {case}");
            Ok(())
        }
        Step::Kill(number, alive) => {
            assert_eq!(rt; lines.kill(number), alive, "step {case}");
            Ok(())
        },
        Step::Find(number, place) => {
            assert!(rt; lines.find(number) == place, "step {case}");
            Ok(())
        },
        Step::Clear => {
            lines.clear();
            assert_eq!(rt; lines.count(), 0, "step {case}");
            Ok(())
        }
    }
}

#[test]
fn buckets(rt: HostRuntime) -> Result<(), Fail> {
    let mut table = [0i32; 12];
    let mut spans = [SPAN; 5];
    let mut formula = Formula::over(&mut table, &mut spans);
    formula.read(SAMPLE)?;
    let mut literals = [0i32; 8];
    let mut hints = [0u32; 0];
    let mut entries = [ENTRY; 8];
    let mut lines = Lines::over(&formula, &mut literals, &mut hints, &mut entries);
    for (i, s) in STEPS.iter().enumerate() {
        expect(&rt, i, &mut lines, *s)?;
    }
    assert_eq!(rt; lines.count(), 1);
    Ok(())
}

/// A line with a literal that no variable has, or more of them than there is space for.
#[derive(Clone, Copy)]
struct Case(&'static [i32], &'static [u32], bool);

static CASES: [Case; 7] = [
    Case(&[4], &[], false),
    Case(&[1, 0], &[], false),
    Case(&[1, 2, 3], &[], false),
    Case(&[1, 2], &[1, 2], false),
    Case(&[3, 3], &[99], true),
    Case(&[], &[], true),
    Case(&[], &[], false),
];

#[test]
fn stores(rt: HostRuntime) -> Result<(), Fail> {
    let mut table = [0i32; 12];
    let mut spans = [SPAN; 5];
    let mut formula = Formula::over(&mut table, &mut spans);
    formula.read(SAMPLE)?;
    let mut literals = [77i32; 2];
    let mut hints = [77u32; 1];
    let mut entries = [ENTRY; 2];
    let mut lines = Lines::over(&formula, &mut literals, &mut hints, &mut entries);
    for (i, c) in CASES.iter().enumerate() {
        let Case(literals, hints, stored) = *c;
        let line = Addition {
            number: 6,
            literals,
            hints,
        };
        assert_eq!(rt; lines.store(line), stored, "case {i}");
    }
    assert_eq!(rt; literals, [3, 3]);
    assert_eq!(rt; hints, [99]);
    Ok(())
}

// The clause of a number is the formula's up to 5, then a line's.
#[test]
fn clauses(rt: HostRuntime) -> Result<(), Fail> {
    let mut table = [0i32; 12];
    let mut spans = [SPAN; 5];
    let mut formula = Formula::over(&mut table, &mut spans);
    formula.read(SAMPLE)?;
    let mut literals = [0i32; 4];
    let mut hints = [0u32; 1];
    let mut entries = [ENTRY; 3];
    let mut lines = Lines::over(&formula, &mut literals, &mut hints, &mut entries);
    let six = Addition {
        number: 6,
        literals: &[2, -3],
        hints: &[],
    };
    let five = Addition {
        number: 5,
        literals: &[1],
        hints: &[],
    };
    assert!(rt; lines.store(six));
    assert!(rt; lines.store(five));
    assert!(rt; lines.clause(0).is_none());
    assert!(rt; lines.clause(1) == Some([1, 2].as_slice()));
    assert!(rt; lines.clause(5) == Some([-2, -3].as_slice()));
    assert!(rt; lines.clause(6) == Some([2, -3].as_slice()));
    assert!(rt; lines.clause(7).is_none());
    assert!(rt; lines.kill(6));
    assert!(rt; lines.clause(6).is_none());
    Ok(())
}
