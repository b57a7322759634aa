//! Words in a text line that are no numbers, or none that may stand there.
use crate::listings::{Case, expect_texts};
use std::test::Fail;

const FAULT: &str = "ending number=21 place=1\n";

static OWN: [Case; 21] = [
    Case(b"x 1 0 0\n", FAULT),
    Case(b"-1 1 0 0\n", FAULT),
    Case(b"0 1 0 0\n", FAULT),
    Case(b"0 0 0\n", FAULT),
    Case(b"-0 1 0 0\n", FAULT),
    Case(b"+1 1 0 0\n", FAULT),
    Case(b"01 1 0 0\n", FAULT),
    Case(b"00 1 0 0\n", FAULT),
    Case(b"- 1 0 0\n", FAULT),
    Case(b"1x 1 0 0\n", FAULT),
    Case(b"2147483648 1 0 0\n", FAULT),
    Case(b"-2147483647 1 0 0\n", FAULT),
    Case(b"4294967297 1 0 0\n", FAULT),
    Case(b"18446744073709551617 0 0\n", FAULT),
    Case(b"340282366920938463463374607431768211457 0 0\n", FAULT),
    Case(b"-1 d 1 0\n", FAULT),
    Case(b"-0 d 1 0\n", FAULT),
    Case(b"01 d 1 0\n", FAULT),
    Case(b"00 d 1 0\n", FAULT),
    Case(b"+1 d 1 0\n", FAULT),
    Case(b"2147483648 d 1 0\n", FAULT),
];

static LITERALS: [Case; 21] = [
    Case(b"1 x 0 0\n", FAULT),
    Case(b"1 2 x 0 0\n", FAULT),
    Case(b"1 -0 0 0\n", FAULT),
    Case(b"1 +2 0 0\n", FAULT),
    Case(b"1 02 0 0\n", FAULT),
    Case(b"1 -02 0 0\n", FAULT),
    Case(b"1 00 0\n", FAULT),
    Case(b"1 2147483648 0 0\n", FAULT),
    Case(b"1 -2147483648 0 0\n", FAULT),
    Case(b"1 4294967297 0 0\n", FAULT),
    Case(b"1 -4294967297 0 0\n", FAULT),
    Case(b"1 18446744073709551618 0 0\n", FAULT),
    Case(b"1 - 0 0\n", FAULT),
    Case(b"1 --2 0 0\n", FAULT),
    Case(b"1 2- 0 0\n", FAULT),
    Case(b"1 2-3 0 0\n", FAULT),
    Case(b"1 2,3 0 0\n", FAULT),
    Case(b"1 2.0 0 0\n", FAULT),
    Case(b"1 0x2 0 0\n", FAULT),
    Case(b"1 2 -0 0\n", FAULT),
    Case(b"1 2 +0 0\n", FAULT),
];

static HINTS: [Case; 14] = [
    Case(b"1 2 0 -3 0\n", FAULT),
    Case(b"1 2 0 3 -4 0\n", FAULT),
    Case(b"9 1 2 0 -3 4 5 -6 7 0\n", FAULT),
    Case(b"9 1 0 4 -6 7 0\n", FAULT),
    Case(b"1 2 0 x 0\n", FAULT),
    Case(b"1 2 0 -0\n", FAULT),
    Case(b"1 2 0 03 0\n", FAULT),
    Case(b"1 2 0 +3 0\n", FAULT),
    Case(b"1 2 0 2147483648 0\n", FAULT),
    Case(b"1 2 0 -2147483647 0\n", FAULT),
    Case(b"1 2 0 4294967299 0\n", FAULT),
    Case(b"1 2 0 3 00\n", FAULT),
    Case(b"1 2 0 d 0\n", FAULT),
    Case(b"1 0 -1 0\n", FAULT),
];

static DELETED: [Case; 12] = [
    Case(b"1 d -2 0\n", FAULT),
    Case(b"1 d 2 -3 0\n", FAULT),
    Case(b"1 d x 0\n", FAULT),
    Case(b"1 d 02 0\n", FAULT),
    Case(b"1 d +2 0\n", FAULT),
    Case(b"1 d 2147483648 0\n", FAULT),
    Case(b"1 d -2147483647 0\n", FAULT),
    Case(b"1 d 4294967298 0\n", FAULT),
    Case(b"1 d -0\n", FAULT),
    Case(b"1 d 00\n", FAULT),
    Case(b"1 d d 0\n", FAULT),
    Case(b"1 d 2 d 0\n", FAULT),
];

#[test]
fn own(rt: HostRuntime) -> Result<(), Fail> {
    expect_texts(&rt, rt.alloc(), &OWN)
}

#[test]
fn literals(rt: HostRuntime) -> Result<(), Fail> {
    expect_texts(&rt, rt.alloc(), &LITERALS)
}

#[test]
fn hints(rt: HostRuntime) -> Result<(), Fail> {
    expect_texts(&rt, rt.alloc(), &HINTS)
}

#[test]
fn deleted(rt: HostRuntime) -> Result<(), Fail> {
    expect_texts(&rt, rt.alloc(), &DELETED)
}
