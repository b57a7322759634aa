//! Lines at the limits of a file, and beyond them.
use crate::jobs::{Told, verdict_on};
use std::process::Abort;
use std::test::Fail;

// One clause of the literals 1 to 64.
const CLAUSE: &[u8] =
    b"p cnf 100 1\n1 2 3 4 5 6 7 8 9 10 11 12 13 14 15 16 17 18 19 20 21 22 23 24 25 26 27 28 29 30 31 32 33 34 35 36 37 38 39 40 41 42 43 44 45 46 47 48 49 50 51 52 53 54 55 56 57 58 59 60 61 62 63 64 0\n";

// A variable and its opposite.
const PAIR: &[u8] = b"p cnf 2 2\n1 0\n-1 0\n";

/// How many of the literals 1, 2 .. the line has, and the verdict with the clause as its hint.
#[derive(Clone, Copy)]
struct Literals(usize, Told);

static LITERALS: [Literals; 5] = [
    Literals(64, Ok(1)),
    Literals(65, Ok(1)),
    Literals(100, Ok(1)),
    Literals(63, Err((28, 1))),
    Literals(62, Err((27, 1))),
];

fn expect_literals(rt: &impl Abort, case: usize, c: Literals) -> Result<(), Fail> {
    let Literals(count, verdict) = c;
    let mut literals = [0i32; 100];
    for (l, next) in literals.iter_mut().zip(1..=100) {
        *l = next;
    }
    assert!(rt; count <= 100, "case {case}");
    let mut bytes = [0u8; 200];
    let found = verdict_on(CLAUSE, &literals[0..count], &[1], &mut bytes);
    assert!(rt; found == Some(verdict), "case {case}");
    Ok(())
}

#[test]
fn many_literals(rt: HostRuntime) -> Result<(), Fail> {
    for (i, c) in LITERALS.iter().enumerate() {
        expect_literals(&rt, i, *c)?;
    }
    Ok(())
}

/// How many hints to the unit clause come first, whether one to its opposite follows, the verdict.
#[derive(Clone, Copy)]
struct Hints(usize, bool, Told);

static HINTS: [Hints; 6] = [
    Hints(255, true, Ok(256)),
    Hints(256, false, Err((28, 256))),
    Hints(255, false, Err((28, 255))),
    Hints(0, true, Err((28, 1))),
    Hints(256, true, Ok(257)),
    Hints(299, true, Ok(300)),
];

fn expect_hints(rt: &impl Abort, case: usize, c: Hints) -> Result<(), Fail> {
    let Hints(count, opposite, verdict) = c;
    assert!(rt; count < 300, "case {case}");
    let mut hints = [1u32; 300];
    let mut end = count;
    if opposite {
        hints[count] = 2;
        end = count + 1;
    }
    let mut bytes = [0u8; 4];
    let found = verdict_on(PAIR, &[2], &hints[0..end], &mut bytes);
    assert!(rt; found == Some(verdict), "case {case}");
    Ok(())
}

#[test]
fn many_hints(rt: HostRuntime) -> Result<(), Fail> {
    for (i, c) in HINTS.iter().enumerate() {
        expect_hints(&rt, i, *c)?;
    }
    Ok(())
}
