//! Texts without a fault, and the places of their items.
use crate::listings::{Case, expect_texts};
use std::test::Fail;

const END: &str = "ending number=20 place=0\n";

static NOTHING: [Case; 6] = [
    Case(b"", END),
    Case(b"\n", END),
    Case(b" ", END),
    Case(b"\t\n", END),
    Case(b"\n\n\n", END),
    Case(b" \t \n\n\t", END),
];

static ADDITIONS: [Case; 16] = [
    Case(
        b"6 1 0 1 2 0\n",
        "place=1 6 1 0 1 2 0\nending number=20 place=0\n",
    ),
    Case(
        b"6 1 0 1 2 0",
        "place=1 6 1 0 1 2 0\nending number=20 place=0\n",
    ),
    Case(
        b"6 0 1 2 0\n",
        "place=1 6 0 1 2 0\nending number=20 place=0\n",
    ),
    Case(b"6 0 0\n", "place=1 6 0 0\nending number=20 place=0\n"),
    Case(b"6 0 0", "place=1 6 0 0\nending number=20 place=0\n"),
    Case(b"6 0 0 \t", "place=1 6 0 0\nending number=20 place=0\n"),
    Case(
        b"6 1 -2 0 0\n",
        "place=1 6 1 -2 0 0\nending number=20 place=0\n",
    ),
    Case(b"1 0 1 0\n", "place=1 1 0 1 0\nending number=20 place=0\n"),
    Case(
        b"1 -1 0 1 0\n",
        "place=1 1 -1 0 1 0\nending number=20 place=0\n",
    ),
    Case(
        b" \t6\t1  -2 \t0 5\t0 \t\n",
        "place=1 6 1 -2 0 5 0\nending number=20 place=0\n",
    ),
    Case(
        b"10 20 -30 0 40 50 60 0\n",
        "place=1 10 20 -30 0 40 50 60 0\nending number=20 place=0\n",
    ),
    Case(
        b"1 1 1 -1 0 3 3 0\n",
        "place=1 1 1 1 -1 0 3 3 0\nending number=20 place=0\n",
    ),
    Case(
        b"2147483647 1 0 1 0\n",
        "place=1 2147483647 1 0 1 0\nending number=20 place=0\n",
    ),
    Case(
        b"7 2147483647 -2147483647 0 2147483647 0",
        "place=1 7 2147483647 -2147483647 0 2147483647 0\nending number=20 place=0\n",
    ),
    Case(
        b"2147483646 2147483646 -2147483646 0 2147483646 1 0\n",
        "place=1 2147483646 2147483646 -2147483646 0 2147483646 1 0\nending number=20 place=0\n",
    ),
    Case(
        b"1234567890 987654321 -1000000000 0 1999999999 0\n",
        "place=1 1234567890 987654321 -1000000000 0 1999999999 0\nending number=20 place=0\n",
    ),
];

static DELETIONS: [Case; 10] = [
    Case(
        b"6 d 1 2 0\n",
        "place=1 0 d 1 2 0\nending number=20 place=0\n",
    ),
    Case(
        b"6 d 1 2 0",
        "place=1 0 d 1 2 0\nending number=20 place=0\n",
    ),
    Case(b"0 d 3 0\n", "place=1 0 d 3 0\nending number=20 place=0\n"),
    Case(b"5 d 0\n", "place=1 0 d 0\nending number=20 place=0\n"),
    Case(b"0 d 0", "place=1 0 d 0\nending number=20 place=0\n"),
    Case(
        b"\t0\td\t1\t0\t",
        "place=1 0 d 1 0\nending number=20 place=0\n",
    ),
    Case(
        b"  9  d  8  7  0  \n",
        "place=1 0 d 8 7 0\nending number=20 place=0\n",
    ),
    Case(
        b"1 d 4 4 4 0\n",
        "place=1 0 d 4 4 4 0\nending number=20 place=0\n",
    ),
    Case(
        b"2147483647 d 2147483647 0",
        "place=1 0 d 2147483647 0\nending number=20 place=0\n",
    ),
    Case(
        b"3 d 10 200 3000 0\n",
        "place=1 0 d 10 200 3000 0\nending number=20 place=0\n",
    ),
];

static SEVERAL: [Case; 8] = [
    Case(
        b"7 1 0 1 0\n7 d 1 2 0\n8 0 7 3 0\n",
        "place=1 7 1 0 1 0\nplace=2 0 d 1 2 0\nplace=3 8 0 7 3 0\nending number=20 place=0\n",
    ),
    Case(
        b"\n \n7 1 0 1 0\n\n\t\n7 d 2 0\n\n8 0 7 0\n\n",
        "place=3 7 1 0 1 0\nplace=6 0 d 2 0\nplace=8 8 0 7 0\nending number=20 place=0\n",
    ),
    Case(
        b"2 1 0 0\n1 2 0 0\n2 1 0 0\n",
        "place=1 2 1 0 0\nplace=2 1 2 0 0\nplace=3 2 1 0 0\nending number=20 place=0\n",
    ),
    Case(
        b"1 0 0\n\n\n\n\n\n\n\n\n2 0 0",
        "place=1 1 0 0\nplace=10 2 0 0\nending number=20 place=0\n",
    ),
    Case(b"\n6 0 0\n \t", "place=2 6 0 0\nending number=20 place=0\n"),
    Case(
        b"\t\n\n0 d 1 0",
        "place=3 0 d 1 0\nending number=20 place=0\n",
    ),
    Case(
        b"0 d 1 0\n0 d 1 0\n0 d 0\n",
        "place=1 0 d 1 0\nplace=2 0 d 1 0\nplace=3 0 d 0\nending number=20 place=0\n",
    ),
    Case(
        b"9 1 2 3 0 4 5 6 0\n10 -1 0 0\n11 0 9 0\n",
        "place=1 9 1 2 3 0 4 5 6 0\nplace=2 10 -1 0 0\nplace=3 11 0 9 0\nending number=20 place=0\n",
    ),
];

#[test]
fn nothing(rt: HostRuntime) -> Result<(), Fail> {
    expect_texts(&rt, rt.alloc(), &NOTHING)
}

#[test]
fn additions(rt: HostRuntime) -> Result<(), Fail> {
    expect_texts(&rt, rt.alloc(), &ADDITIONS)
}

#[test]
fn deletions(rt: HostRuntime) -> Result<(), Fail> {
    expect_texts(&rt, rt.alloc(), &DELETIONS)
}

#[test]
fn several(rt: HostRuntime) -> Result<(), Fail> {
    expect_texts(&rt, rt.alloc(), &SEVERAL)
}
