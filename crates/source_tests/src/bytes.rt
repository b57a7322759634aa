//! Bytes in a text that part no tokens.
use crate::listings::{Case, expect_texts};
use std::test::Fail;

const FAULT: &str = "ending number=21 place=1\n";

static RETURNS: [Case; 12] = [
    Case(b"1 2 0 3 0\r\n", FAULT),
    Case(b"1 2 0 3 0 \r\n", FAULT),
    Case(b"1 2 0 3 0\r", FAULT),
    Case(b"\r\n1 0 0\n", FAULT),
    Case(b"\r", FAULT),
    Case(b"1\r2 0 0\n", FAULT),
    Case(b"1\r 2 0 0\n", FAULT),
    Case(b"1 2\r0 0\n", FAULT),
    Case(b"1 d\r 0\n", FAULT),
    Case(b"1 d 2 0\r\n", FAULT),
    Case(b"1 d\r\n", FAULT),
    Case(b"1 0 0\r\n2 0 0\r\n", FAULT),
];

static OTHERS: [Case; 15] = [
    Case(b"1 2\0 0 0\n", FAULT),
    Case(b"\0", FAULT),
    Case(b"\0\n1 0 0\n", FAULT),
    Case(b"1 2 0 0\0", FAULT),
    Case(b"1\02 0 0\n", FAULT),
    Case(b"1\x0c2 0 0\n", FAULT),
    Case(b"1\x0b0 0\n", FAULT),
    Case(b"1\xa02 0 0\n", FAULT),
    Case(b"1\x852 0 0\n", FAULT),
    Case(b"\xff", FAULT),
    Case(b"\xef\xbb\xbf1 0 0\n", FAULT),
    Case(b"1 \xb1 0 0\n", FAULT),
    Case(b"1 d\x7f 0\n", FAULT),
    Case(b"1 \xe4 1 0\n", FAULT),
    Case(b"1 0 0 \xff\n", FAULT),
];

static LATER: [Case; 5] = [
    Case(b"1 0 0\n\r\n", "place=1 1 0 0\nending number=21 place=2\n"),
    Case(b"\n\r\n1 0 0\n", "ending number=21 place=2\n"),
    Case(
        b"1 0 0\n2 0 0\r\n",
        "place=1 1 0 0\nending number=21 place=2\n",
    ),
    Case(
        b"0 d 4 0\n\n\0",
        "place=1 0 d 4 0\nending number=21 place=3\n",
    ),
    Case(
        b"6 1 0 2 0\n \n7 1\xa0 0 0",
        "place=1 6 1 0 2 0\nending number=21 place=3\n",
    ),
];

#[test]
fn returns(rt: HostRuntime) -> Result<(), Fail> {
    expect_texts(&rt, rt.alloc(), &RETURNS)
}

#[test]
fn others(rt: HostRuntime) -> Result<(), Fail> {
    expect_texts(&rt, rt.alloc(), &OTHERS)
}

#[test]
fn later(rt: HostRuntime) -> Result<(), Fail> {
    expect_texts(&rt, rt.alloc(), &LATER)
}
