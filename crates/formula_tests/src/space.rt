//! Tables too short, and several texts read into one formula.
use crate::cases::{LITERAL, SPAN, answer};
use crate::contents::{Content, holds};
use formula::formula::Formula;
use std::alloc::Global;
use std::process::Abort;
use std::test::Fail;

/// A text, the lent slots and entries, and the number and line of a refusal.
#[derive(Clone, Copy)]
struct Room(&'static [u8], usize, usize, Result<(), (u8, usize)>);

// Three literals in three clauses.
const TEXT: &[u8] = b"p cnf 3 3\n1 -2 0\n0\n3 0\n";

static ROOMS: [Room; 18] = [
    Room(TEXT, 3, 3, Ok(())),
    Room(TEXT, 4, 4, Ok(())),
    Room(TEXT, 2, 3, Err((4, 0))),
    Room(TEXT, 3, 2, Err((4, 0))),
    Room(TEXT, 2, 2, Err((4, 0))),
    Room(TEXT, 0, 4, Err((4, 0))),
    Room(TEXT, 4, 0, Err((4, 0))),
    Room(TEXT, 0, 0, Err((4, 0))),
    Room(b"p cnf 3 0\n", 0, 0, Ok(())),
    Room(b"p cnf 3 1\n0\n", 0, 1, Ok(())),
    Room(b"p cnf 3 1\n0\n", 1, 0, Err((4, 0))),
    Room(b"p cnf 3 1\n1 2 3 0\n", 3, 1, Ok(())),
    Room(b"p cnf 3 1\n1 2 3 0\n", 2, 1, Err((4, 0))),
    Room(b"p cnf 0 3\n1 0\n2 0\n3 0\n", 0, 0, Err((10, 1))),
    Room(b"p cnf 3 3\n1 0\n2 0\n3 x\n", 0, 0, Err((11, 4))),
    Room(b"p cnf 3 3\n1 0\n2 0\n4 0\n", 1, 1, Err((12, 4))),
    Room(b"p cnf 3 3\n1 0\n2 0\n", 1, 1, Err((15, 0))),
    Room(b"p cnf 3 2\n1 0\n2 0\n3 0\n", 1, 1, Err((15, 4))),
];

/// A text read into a formula that stands, the number of a refusal, and what the formula then holds.
#[derive(Clone, Copy)]
struct Step(&'static [u8], Result<(), u8>, Content);

const THREE: Content = Content(3, 3, &[1, -2, 0, 0, 3, 0]);

const ONE: Content = Content(9, 1, &[-9, 0]);

const WIDE: Content = Content(4096, 3, &[0, 4096, 1, 2, 0, -1, 0]);

static STEPS: [Step; 11] = [
    Step(b"p cnf 3 1\n1 1 0\n", Err(13), Content(1, 0, &[])),
    Step(TEXT, Ok(()), THREE),
    Step(b"p cnf 9 2\n9 8 0\nx 0\n", Err(11), THREE),
    Step(b"p cnf 9 1\n9 8 7 6 5 0\n", Err(4), THREE),
    Step(b"p cnf 9 4\n0\n0\n0\n0\n", Err(4), THREE),
    Step(b"p cnf 9 1\n-9 0\n", Ok(()), ONE),
    Step(b"", Err(10), ONE),
    Step(b"p cnf 4096 3\n0\n4096 1 2 0\n-1 0\n", Ok(()), WIDE),
    Step(b"p cnf 4096 3\n1 0\n2 0\n", Err(15), WIDE),
    Step(b"p cnf 2 0", Ok(()), Content(2, 0, &[])),
    Step(TEXT, Ok(()), THREE),
];

fn expect_room(rt: &impl Abort, case: usize, r: Room) -> Result<(), Fail> {
    let Room(text, slots, entries, wanted) = r;
    let mut literals = [LITERAL; 4];
    let mut spans = [SPAN; 4];
    assert!(rt; slots <= 4, "case {case}");
    assert!(rt; entries <= 4, "case {case}");
    let found = answer(text, &mut literals[..slots], &mut spans[..entries]);
    assert_eq!(rt;
        found,
        wanted.map_err(|(number, line)| (number, 0, line, 0)),
        "case {case}"
    );
    if wanted.is_err() {
        assert_eq!(rt; literals, [LITERAL; 4], "case {case}");
        assert_eq!(rt; spans, [SPAN; 4], "case {case}");
    }
    Ok(())
}

#[test]
fn rooms(rt: HostRuntime) -> Result<(), Fail> {
    for (i, r) in ROOMS.iter().enumerate() {
        expect_room(&rt, i, *r)?;
    }
    Ok(())
}

// The text is read or refused with this number, and the formula then holds the content.
fn expect_step(
    rt: &impl Abort,
    case: usize,
    heap: Global,
    f: &mut Formula,
    s: Step,
) -> Result<(), Fail> {
    let Step(text, wanted, content) = s;
    let found = f.read(text).map_err(|e| e.fault.number());
    assert_eq!(rt; found, wanted, "step {case}");
    holds(rt, case, heap, f, content)
}

#[test]
fn several_texts(rt: HostRuntime) -> Result<(), Fail> {
    let mut literals = [LITERAL; 4];
    let mut spans = [SPAN; 3];
    let mut f = Formula::over(&mut literals, &mut spans);
    for (i, s) in STEPS.iter().enumerate() {
        expect_step(&rt, i, rt.alloc(), &mut f, *s)?;
    }
    Ok(())
}

// A refused reading behind a good one leaves the slots that the good one wrote.
#[test]
fn slots_stay(rt: HostRuntime) -> Result<(), Fail> {
    let mut literals = [LITERAL; 4];
    let mut spans = [SPAN; 4];
    let mut more_literals = [LITERAL; 4];
    let mut more_spans = [SPAN; 4];
    let mut f = Formula::over(&mut literals, &mut spans);
    f.read(TEXT)?;
    let mut g = Formula::over(&mut more_literals, &mut more_spans);
    g.read(TEXT)?;
    assert!(rt; g.read(b"p cnf 9 2\n9 8 0\n7 7 0\n").is_err());
    assert!(rt; g.read(b"p cnf 9 5\n9 0\n8 0\n7 0\n6 0\n5 0\n").is_err());
    assert_eq!(rt; literals, more_literals);
    assert_eq!(rt; spans, more_spans);
    Ok(())
}
