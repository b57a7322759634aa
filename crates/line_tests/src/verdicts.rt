//! Lines with the verdict and hint position that the rules give them.
use crate::jobs::{SAMPLE, Told, verdict_on};

/// A formula, a line's literals and hints, and the verdict.
#[derive(Clone, Copy)]
struct Case(&'static [u8], &'static [i32], &'static [u32], Told);

// No clause.
const NONE: &[u8] = b"p cnf 3 0\n";

// An empty clause, and a unit clause.
const EMPTY: &[u8] = b"p cnf 2 2\n0\n1 0\n";

// The highest variable.
const WIDE: &[u8] = b"p cnf 4096 2\n-4096 0\n4096 1 0\n";

static CASES: [Case; 47] = [
    Case(SAMPLE, &[1], &[1, 2], Ok(2)),
    Case(SAMPLE, &[1], &[2, 1], Ok(2)),
    Case(SAMPLE, &[1], &[1, 2, 3], Ok(2)),
    Case(SAMPLE, &[1], &[1], Err((28, 1))),
    Case(SAMPLE, &[3], &[1, 2], Err((27, 1))),
    Case(SAMPLE, &[-1, -3], &[4, 5], Ok(2)),
    Case(SAMPLE, &[-1, -3], &[5, 4], Ok(2)),
    Case(SAMPLE, &[-3, -1], &[4, 5], Ok(2)),
    Case(SAMPLE, &[-1, -3], &[4], Err((28, 1))),
    Case(SAMPLE, &[-1], &[3, 4, 5], Ok(3)),
    Case(SAMPLE, &[-1], &[4, 3, 5], Err((27, 1))),
    Case(SAMPLE, &[-1], &[3, 1, 5], Err((27, 2))),
    // a clause of which all literals are false at once
    Case(SAMPLE, &[1, 2], &[1], Ok(1)),
    Case(SAMPLE, &[2, 1], &[1, 4], Ok(1)),
    Case(SAMPLE, &[1, 2, 3], &[1], Ok(1)),
    // a hint twice: its one literal is true by then, and the walk goes on
    Case(SAMPLE, &[1], &[1, 1, 2], Ok(3)),
    Case(SAMPLE, &[1], &[1, 1], Err((28, 2))),
    Case(SAMPLE, &[1], &[1, 2, 2, 2], Ok(2)),
    // no hints, no literals
    Case(SAMPLE, &[1], &[], Err((28, 0))),
    Case(SAMPLE, &[], &[], Err((28, 0))),
    Case(SAMPLE, &[], &[1], Err((27, 1))),
    // a variable above V, all literals looked at before any is held against another
    Case(SAMPLE, &[4], &[1], Err((23, 0))),
    Case(SAMPLE, &[-4], &[1], Err((23, 0))),
    Case(SAMPLE, &[1, 1, 4], &[99], Err((23, 0))),
    Case(SAMPLE, &[4097], &[], Err((23, 0))),
    Case(SAMPLE, &[2147483647], &[], Err((23, 0))),
    Case(SAMPLE, &[-2147483648], &[], Err((23, 0))),
    Case(SAMPLE, &[0], &[1], Err((23, 0))),
    // a variable twice, in either sign
    Case(SAMPLE, &[1, 1], &[1, 2], Err((24, 0))),
    Case(SAMPLE, &[1, -1], &[1, 2], Err((24, 0))),
    Case(SAMPLE, &[2, 3, -2], &[99], Err((24, 0))),
    // a hint that names nothing, the first counts, behind the conflict and behind a 27 too
    Case(SAMPLE, &[1], &[6], Err((26, 1))),
    Case(SAMPLE, &[1], &[1, 6], Err((26, 2))),
    Case(SAMPLE, &[1], &[1, 2, 6], Err((26, 3))),
    Case(SAMPLE, &[3], &[1, 7, 6], Err((26, 2))),
    Case(SAMPLE, &[1], &[0], Err((26, 1))),
    Case(SAMPLE, &[1], &[1, 2, 4294967295], Err((26, 3))),
    // no clause: no line follows
    Case(NONE, &[1], &[], Err((28, 0))),
    Case(NONE, &[1], &[1], Err((26, 1))),
    Case(NONE, &[], &[0], Err((26, 1))),
    // the formula's own empty clause
    Case(EMPTY, &[], &[1], Ok(1)),
    Case(EMPTY, &[2], &[2, 1], Ok(2)),
    Case(EMPTY, &[-1], &[2], Err((28, 1))),
    // V = 4,096
    Case(WIDE, &[-4096], &[1], Ok(1)),
    Case(WIDE, &[4096], &[1], Err((28, 1))),
    Case(WIDE, &[1], &[1, 2], Ok(2)),
    Case(WIDE, &[4097], &[1], Err((23, 0))),
];

#[test]
fn verdicts(rt: HostRuntime) {
    for (i, c) in CASES.iter().enumerate() {
        let Case(text, literals, hints, verdict) = *c;
        let mut bytes = [0u8; 8200];
        let found = verdict_on(text, literals, hints, &mut bytes);
        assert!(rt; found == Some(verdict), "case {i}");
        assert!(rt; bytes == [0u8; 8200], "bytes of case {i}");
    }
}
