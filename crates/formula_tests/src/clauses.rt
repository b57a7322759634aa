//! Faults within a clause.
use crate::cases::{Case, expect_all};
use std::test::Fail;

static SHAPES: [Case; 31] = [
    Case(b"p cnf 9 1\nx 0\n", 11, 2),
    Case(b"p cnf 9 1\n1 x 0\n", 11, 2),
    Case(b"p cnf 9 1\n-0 0\n", 11, 2),
    Case(b"p cnf 9 1\n+1 0\n", 11, 2),
    Case(b"p cnf 9 1\n01 0\n", 11, 2),
    Case(b"p cnf 9 1\n00\n", 11, 2),
    Case(b"p cnf 9 1\n-01 0\n", 11, 2),
    Case(b"p cnf 9 1\n- 0\n", 11, 2),
    Case(b"p cnf 9 1\n--1 0\n", 11, 2),
    Case(b"p cnf 9 1\n1- 0\n", 11, 2),
    Case(b"p cnf 9 1\n1-2 0\n", 11, 2),
    Case(b"p cnf 9 1\n1.0 0\n", 11, 2),
    Case(b"p cnf 9 1\n1,2 0\n", 11, 2),
    Case(b"p cnf 9 1\n0x1 0\n", 11, 2),
    Case(b"p cnf 9 1\n1 0c\n", 11, 2),
    Case(b"p cnf 9 1\n1 -0\n", 11, 2),
    Case(b"p cnf 9 1\n1 +0\n", 11, 2),
    Case(b"p cnf 9 1\n1 c 0\n", 11, 2),
    Case(b"p cnf 9 1\nC note\n", 11, 2),
    Case(b"p cnf 9 1\n c note\n", 11, 2),
    Case(b"p cnf 9 1\n\tc\n", 11, 2),
    Case(b"p cnf 9 1\n%\n0\n", 11, 2),
    Case(b"p cnf 9 1\np cnf 9 1\n1 0\n", 11, 2),
    Case(b"p cnf 9 1\np\n", 11, 2),
    Case(b"p cnf 9 1\n2147483648 0\n", 11, 2),
    Case(b"p cnf 9 1\n-2147483648 0\n", 11, 2),
    Case(b"p cnf 9 1\n4294967297 0\n", 11, 2),
    Case(b"p cnf 9 1\n-4294967297 0\n", 11, 2),
    Case(b"p cnf 9 1\n18446744073709551617 0\n", 11, 2),
    Case(
        b"p cnf 9 1\n340282366920938463463374607431768211457 0\n",
        11,
        2,
    ),
    Case(b"p cnf 9 1\n00000000000000000001 0\n", 11, 2),
];

static ENDS: [Case; 13] = [
    Case(b"p cnf 9 1\n1\n", 11, 2),
    Case(b"p cnf 9 1\n1", 11, 2),
    Case(b"p cnf 9 1\n1 2 \t", 11, 2),
    Case(b"p cnf 9 1\n-9\n0\n", 11, 2),
    Case(b"p cnf 9 1\n1 0 0\n", 11, 2),
    Case(b"p cnf 9 1\n0 0\n", 11, 2),
    Case(b"p cnf 9 1\n1 0 2 0\n", 11, 2),
    Case(b"p cnf 9 1\n1 0 2\n", 11, 2),
    Case(b"p cnf 9 1\n0 x\n", 11, 2),
    Case(b"p cnf 9 1\n1 0 c\n", 11, 2),
    Case(b"p cnf 9 1\n1 0 10\n", 11, 2),
    Case(b"p cnf 9 1\n1 0 1", 11, 2),
    Case(b"p cnf 9 1\n1 0 -", 11, 2),
];

static BYTES: [Case; 16] = [
    Case(b"p cnf 9 1\n1 0\r\n", 11, 2),
    Case(b"p cnf 9 1\n1 0 \r\n", 11, 2),
    Case(b"p cnf 9 1\n1\r 0\n", 11, 2),
    Case(b"p cnf 9 1\n1\r2 0\n", 11, 2),
    Case(b"p cnf 9 1\n\r\n1 0\n", 11, 2),
    Case(b"p cnf 9 1\n\r", 11, 2),
    Case(b"p cnf 9 1\n1\0 0\n", 11, 2),
    Case(b"p cnf 9 1\n1 0\0", 11, 2),
    Case(b"p cnf 9 1\n\0\n1 0\n", 11, 2),
    Case(b"p cnf 9 1\n1\x0c0\n", 11, 2),
    Case(b"p cnf 9 1\n1\x0b0\n", 11, 2),
    Case(b"p cnf 9 1\n\xff 0\n", 11, 2),
    Case(b"p cnf 9 1\n1\xa00\n", 11, 2),
    Case(b"p cnf 9 1\n1\x852 0\n", 11, 2),
    Case(b"p cnf 9 1\n\x7f1 0\n", 11, 2),
    Case(b"p cnf 9 1\n\xb1 0\n", 11, 2),
];

static LINES: [Case; 5] = [
    Case(b"c\n\np cnf 9 2\nc\n1 0\n\n \nx 0\n", 11, 8),
    Case(b"p cnf 9 2\n1 0\n2 0 0", 11, 3),
    Case(b"\n\np cnf 9 1\n\n\n\n10 0", 12, 7),
    Case(b"p cnf 9 1\nc x\nc 1 1\n1 1 0\n", 13, 4),
    Case(b"c \r\0\xff\np cnf 9 1\nc \r\0\xff\nx\n", 11, 4),
];

static ABOVE: [Case; 12] = [
    Case(b"p cnf 1 1\n2 0\n", 12, 2),
    Case(b"p cnf 1 1\n-2 0\n", 12, 2),
    Case(b"p cnf 1 1\n1 2 0\n", 12, 2),
    Case(b"p cnf 9 1\n10 0\n", 12, 2),
    Case(b"p cnf 9 1\n-10 0\n", 12, 2),
    Case(b"p cnf 9 1\n9 -10 0\n", 12, 2),
    Case(b"p cnf 4096 1\n4097 0\n", 12, 2),
    Case(b"p cnf 4096 1\n-4097 0\n", 12, 2),
    Case(b"p cnf 4095 1\n4096 0\n", 12, 2),
    Case(b"p cnf 9 1\n2147483647 0\n", 12, 2),
    Case(b"p cnf 9 1\n-2147483647 0\n", 12, 2),
    Case(b"p cnf 4096 1\n2147483647 0\n", 12, 2),
];

static TWICE: [Case; 8] = [
    Case(b"p cnf 9 1\n1 1 0\n", 13, 2),
    Case(b"p cnf 9 1\n1 -1 0\n", 13, 2),
    Case(b"p cnf 9 1\n-1 1 0\n", 13, 2),
    Case(b"p cnf 9 1\n-1 -1 0\n", 13, 2),
    Case(b"p cnf 9 1\n1 2 3 4 1 0\n", 13, 2),
    Case(b"p cnf 9 1\n1 2 3 4 -2 0\n", 13, 2),
    Case(b"p cnf 9 1\n9 8 -9 0\n", 13, 2),
    Case(b"p cnf 9 1\n1 2 2 1 0", 13, 2),
];

#[test]
fn shapes(rt: HostRuntime) -> Result<(), Fail> {
    expect_all(&rt, &SHAPES)
}

#[test]
fn ends(rt: HostRuntime) -> Result<(), Fail> {
    expect_all(&rt, &ENDS)
}

#[test]
fn bytes(rt: HostRuntime) -> Result<(), Fail> {
    expect_all(&rt, &BYTES)
}

#[test]
fn lines(rt: HostRuntime) -> Result<(), Fail> {
    expect_all(&rt, &LINES)
}

#[test]
fn above(rt: HostRuntime) -> Result<(), Fail> {
    expect_all(&rt, &ABOVE)
}

#[test]
fn twice(rt: HostRuntime) -> Result<(), Fail> {
    expect_all(&rt, &TWICE)
}
