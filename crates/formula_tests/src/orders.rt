//! Several faults in one text: the first token from the left in the first faulty line counts.
use crate::cases::{Case, expect_all};
use std::test::Fail;

static ONE_LINE: [Case; 20] = [
    Case(b"p cnf 3 1\nx 1 1 0\n", 11, 2),
    Case(b"p cnf 3 1\n1 1 x 0\n", 13, 2),
    Case(b"p cnf 3 1\nx 4 0\n", 11, 2),
    Case(b"p cnf 3 1\n4 x 0\n", 12, 2),
    Case(b"p cnf 3 1\n4 1 1 0\n", 12, 2),
    Case(b"p cnf 3 1\n1 1 4 0\n", 13, 2),
    Case(b"p cnf 3 1\n4 4 0\n", 12, 2),
    Case(b"p cnf 3 1\n4 -4 0\n", 12, 2),
    Case(b"p cnf 3 1\n1 4 1 0\n", 12, 2),
    Case(b"p cnf 3 1\n1 -1 4 0\n", 13, 2),
    Case(b"p cnf 3 1\n1 1\n", 13, 2),
    Case(b"p cnf 3 1\n4\n", 12, 2),
    Case(b"p cnf 3 1\n4 0 0\n", 12, 2),
    Case(b"p cnf 3 1\n1 1 0 0\n", 13, 2),
    Case(b"p cnf 3 1\n1 0 4\n", 11, 2),
    Case(b"p cnf 3 1\n1 0 1 0\n", 11, 2),
    Case(b"p cnf 3 1\n1 0 x\n", 11, 2),
    Case(b"p cnf 3 1\n1 4 01 0\n", 12, 2),
    Case(b"p cnf 3 1\n01 4 0\n", 11, 2),
    Case(b"p cnf 3 1\n1 1 -0\n", 13, 2),
];

static TWO_LINES: [Case; 13] = [
    Case(b"p cnf 3 2\n1 1 0\nx 0\n", 13, 2),
    Case(b"p cnf 3 2\nx 0\n1 1 0\n", 11, 2),
    Case(b"p cnf 3 2\n4 0\n1 1 0\n", 12, 2),
    Case(b"p cnf 3 2\n1 1 0\n4 0\n", 13, 2),
    Case(b"p cnf 3 2\n4 0\nx 0\n", 12, 2),
    Case(b"p cnf 3 2\nx 0\n4 0\n", 11, 2),
    Case(b"p cnf 3 2\n1\nx 0\n", 11, 2),
    Case(b"p cnf 3 2\n1 0\n4 0\n", 12, 3),
    Case(b"p cnf 3 2\n1 0\n-1 1 0\n", 13, 3),
    Case(b"p cnf 3 2\n1 0\n2\n", 11, 3),
    Case(b"p cnf 0 2\n1 1 0\n", 10, 1),
    Case(b"x\np cnf 3 1\n", 10, 1),
    Case(b"p cnf 3 2\n1 1 0\n2 0\n3 0\n", 13, 2),
];

static SURPLUS: [Case; 32] = [
    Case(b"p cnf 3 0\n1 0\n", 15, 2),
    Case(b"p cnf 3 0\n0\n", 15, 2),
    Case(b"p cnf 3 0\n0", 15, 2),
    Case(b"p cnf 3 0\nx\n", 11, 2),
    Case(b"p cnf 3 0\n4 0\n", 12, 2),
    Case(b"p cnf 3 1\n1 0\n2 0\n", 15, 3),
    Case(b"p cnf 3 1\n1 0\n1 0\n", 15, 3),
    Case(b"p cnf 3 1\n1 0\n0\n", 15, 3),
    Case(b"p cnf 3 1\n1 0\n1\n", 15, 3),
    Case(b"p cnf 3 1\n1 0\n1 x 0\n", 15, 3),
    Case(b"p cnf 3 1\n1 0\n1 1 0\n", 15, 3),
    Case(b"p cnf 3 1\n1 0\n1 4 0\n", 15, 3),
    Case(b"p cnf 3 1\n1 0\n0 x\n", 15, 3),
    Case(b"p cnf 3 1\n1 0\n0 0\n", 15, 3),
    Case(b"p cnf 3 1\n1 0\nx 0\n", 11, 3),
    Case(b"p cnf 3 1\n1 0\n99 0\n", 12, 3),
    Case(b"p cnf 3 1\n1 0\n-4 0\n", 12, 3),
    Case(b"p cnf 3 1\n1 0\n4 x 0\n", 12, 3),
    Case(b"p cnf 3 1\n1 0\n01 0\n", 11, 3),
    Case(b"p cnf 3 1\n1 0\n-0\n", 11, 3),
    Case(b"p cnf 3 1\n1 0\n0x\n", 11, 3),
    Case(b"p cnf 3 1\n1 0\n\r\n", 11, 3),
    Case(b"p cnf 3 1\n1 0\n c\n", 11, 3),
    Case(b"p cnf 3 1\n1 0\np cnf 3 1\n", 11, 3),
    Case(b"p cnf 3 1\n1 0\n2 0\nx 0\n", 15, 3),
    Case(b"p cnf 3 1\n1 0\nx 0\n2 0\n", 11, 3),
    Case(b"p cnf 3 1\n1 0\n2147483648 0\n", 11, 3),
    Case(b"p cnf 3 1\n1 0\n2147483647 0\n", 12, 3),
    Case(b"p cnf 3 1\n1 0\n\nc\n2 0\n", 15, 5),
    Case(b"p cnf 3 1\n1 1 0\n2 0\n", 13, 2),
    Case(b"p cnf 3 1\nx 0\n2 0\n", 11, 2),
    Case(b"p cnf 3 2\n1 0\n2 0\n\n3 0", 15, 5),
];

static FEW: [Case; 15] = [
    Case(b"p cnf 3 1\n", 15, 0),
    Case(b"p cnf 3 1", 15, 0),
    Case(b"p cnf 3 1\n\n \t\n", 15, 0),
    Case(b"p cnf 3 1\nc 1 0\n", 15, 0),
    Case(b"p cnf 3 2\n1 0\n", 15, 0),
    Case(b"p cnf 3 2\n1 0", 15, 0),
    Case(b"p cnf 3 2\n0\n\n", 15, 0),
    Case(b"p cnf 3 2\n1 0\nc 2 0\n", 15, 0),
    Case(b"p cnf 3 2\nx 0\n", 11, 2),
    Case(b"p cnf 3 3\n1 0\n4 0\n", 12, 3),
    Case(b"p cnf 3 2\n1 1 0", 13, 2),
    Case(b"p cnf 3 2\n1 0 2 0\n", 11, 2),
    Case(b"p cnf 3 2\n1 2\n", 11, 2),
    Case(b"p cnf 3 3\n1 0\n \n2", 11, 4),
    Case(b"p cnf 4 5\n1 0\n2 0\n3 0\n4 0\n", 15, 0),
];

#[test]
fn one_line(rt: HostRuntime) -> Result<(), Fail> {
    expect_all(&rt, &ONE_LINE)
}

#[test]
fn two_lines(rt: HostRuntime) -> Result<(), Fail> {
    expect_all(&rt, &TWO_LINES)
}

#[test]
fn surplus(rt: HostRuntime) -> Result<(), Fail> {
    expect_all(&rt, &SURPLUS)
}

#[test]
fn too_few(rt: HostRuntime) -> Result<(), Fail> {
    expect_all(&rt, &FEW)
}
