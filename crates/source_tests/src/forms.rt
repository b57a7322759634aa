//! Lines of another form, and the place of the first faulty line.
use crate::listings::{Case, expect_texts};
use std::test::Fail;

const FAULT: &str = "ending number=21 place=1\n";

static WORDS: [Case; 17] = [
    Case(b"c\n", FAULT),
    Case(b"c note\n", FAULT),
    Case(b"c 1 0 0\n", FAULT),
    Case(b"d 1 0\n", FAULT),
    Case(b"d\n", FAULT),
    Case(b"1 D 2 0\n", FAULT),
    Case(b"1 dd 2 0\n", FAULT),
    Case(b"1 d2 0\n", FAULT),
    Case(b"1 d0\n", FAULT),
    Case(b"1d 2 0\n", FAULT),
    Case(b"1 2 d 3 0\n", FAULT),
    Case(b"1 c 2 0\n", FAULT),
    Case(b"p cnf 1 1\n", FAULT),
    Case(b"%\n", FAULT),
    Case(b"a 1 0 0\n", FAULT),
    Case(b"1 -d 2 0\n", FAULT),
    Case(b"0 D 0\n", FAULT),
];

static SHORT: [Case; 23] = [
    Case(b"1\n", FAULT),
    Case(b"1", FAULT),
    Case(b"0\n", FAULT),
    Case(b"0", FAULT),
    Case(b" 1 \t\n", FAULT),
    Case(b"-1\n", FAULT),
    Case(b"1 d\n", FAULT),
    Case(b"1 d", FAULT),
    Case(b"1 d 2\n", FAULT),
    Case(b"1 d 2", FAULT),
    Case(b"1 0\n", FAULT),
    Case(b"1 0", FAULT),
    Case(b"1 2\n", FAULT),
    Case(b"1 2", FAULT),
    Case(b"1 2 0\n", FAULT),
    Case(b"1 2 0", FAULT),
    Case(b"1 2 0 3\n", FAULT),
    Case(b"1 2 0 3 \t", FAULT),
    Case(b"1 2 0 3 \n0\n", FAULT),
    Case(b"1\n2 0 0\n", FAULT),
    Case(b"1 2\n0 3 0\n", FAULT),
    Case(b"1 d 2\n0\n", FAULT),
    Case(b"0 0\n", FAULT),
];

static SURPLUS: [Case; 14] = [
    Case(b"1 2 0 3 0 4\n", FAULT),
    Case(b"1 2 0 3 0 0\n", FAULT),
    Case(b"1 2 0 0 0\n", FAULT),
    Case(b"1 2 0 0 x\n", FAULT),
    Case(b"1 2 0 3 0 c\n", FAULT),
    Case(b"1 2 0 3 0 -", FAULT),
    Case(b"1 2 0 3 0 4 0\n", FAULT),
    Case(b"1 0 0 0\n", FAULT),
    Case(b"1 d 2 0 0\n", FAULT),
    Case(b"1 d 2 0 3\n", FAULT),
    Case(b"1 d 0 c\n", FAULT),
    Case(b"1 d 0 d\n", FAULT),
    Case(b"1 d 0 0", FAULT),
    Case(b"1 0 0 2 0 0\n", FAULT),
];

static PLACES: [Case; 14] = [
    Case(
        b"1 2 0 0\nx\n",
        "place=1 1 2 0 0\nending number=21 place=2\n",
    ),
    Case(
        b"\n\n1 0 0\n\nc\n2 0 0\n",
        "place=3 1 0 0\nending number=21 place=5\n",
    ),
    Case(
        b"1 d 2 0\n\n \n2 2 0 3\n3 0 0\n",
        "place=1 0 d 2 0\nending number=21 place=4\n",
    ),
    Case(
        b"1 0 0\n2 0 0\n0 0 0\n",
        "place=1 1 0 0\nplace=2 2 0 0\nending number=21 place=3\n",
    ),
    Case(b"1 0 0\n2 0", "place=1 1 0 0\nending number=21 place=2\n"),
    Case(
        b"1 0 0\n2 0 0 0\n3 x\n",
        "place=1 1 0 0\nending number=21 place=2\n",
    ),
    Case(b"\n\nx", "ending number=21 place=3\n"),
    Case(b"\t\n\n\n\n\n\n\n\n\n1\n", "ending number=21 place=10\n"),
    Case(b"c note\n1 0 0\n", "ending number=21 place=1\n"),
    Case(
        b"1 0 0\nc note\n2 0 0\n",
        "place=1 1 0 0\nending number=21 place=2\n",
    ),
    Case(
        b"8 1 0 2 3 0\n9 1 2 0 -3 4 5 0\n10 0 8 0\n",
        "place=1 8 1 0 2 3 0\nending number=21 place=2\n",
    ),
    Case(
        b"0 d 1 0\n0 D 1 0\n",
        "place=1 0 d 1 0\nending number=21 place=2\n",
    ),
    Case(b"x\ny\n", "ending number=21 place=1\n"),
    Case(
        b"1 0 0\n\n \t\n\r\n",
        "place=1 1 0 0\nending number=21 place=4\n",
    ),
];

#[test]
fn words(rt: HostRuntime) -> Result<(), Fail> {
    expect_texts(&rt, rt.alloc(), &WORDS)
}

#[test]
fn short(rt: HostRuntime) -> Result<(), Fail> {
    expect_texts(&rt, rt.alloc(), &SHORT)
}

#[test]
fn surplus(rt: HostRuntime) -> Result<(), Fail> {
    expect_texts(&rt, rt.alloc(), &SURPLUS)
}

#[test]
fn places(rt: HostRuntime) -> Result<(), Fail> {
    expect_texts(&rt, rt.alloc(), &PLACES)
}
