//! Faults of the header.
use crate::cases::{Case, expect_all};
use std::test::Fail;

static ABSENT: [Case; 9] = [
    Case(b"", 10, 0),
    Case(b"\n", 10, 0),
    Case(b" ", 10, 0),
    Case(b"\n\n \t\n", 10, 0),
    Case(b"c", 10, 0),
    Case(b"c\n", 10, 0),
    Case(b"c p cnf 1 0\n", 10, 0),
    Case(b"cnf 1 0\n", 10, 0),
    Case(b"c\n\nc 1 0\n  ", 10, 0),
];

static WORDS: [Case; 26] = [
    Case(b"p\n", 10, 1),
    Case(b"p cnf\n", 10, 1),
    Case(b"p cnf 1\n", 10, 1),
    Case(b"p cnf 1", 10, 1),
    Case(b"p cnf 1\n0\n", 10, 1),
    Case(b"p cnf 1 1 0\n1 0\n", 10, 1),
    Case(b"p cnf 1 0 c\n", 10, 1),
    Case(b"P cnf 1 0\n", 10, 1),
    Case(b"p CNF 1 0\n", 10, 1),
    Case(b"p cnF 1 0\n", 10, 1),
    Case(b"p cn 1 0\n", 10, 1),
    Case(b"p cnff 1 0\n", 10, 1),
    Case(b"p dnf 1 0\n", 10, 1),
    Case(b"pp cnf 1 0\n", 10, 1),
    Case(b"q cnf 1 0\n", 10, 1),
    Case(b"pcnf 1 1\n", 10, 1),
    Case(b"p cnf1 1\n", 10, 1),
    Case(b"p 1 0\n", 10, 1),
    Case(b"cnf\n1 0\n", 10, 2),
    Case(b"1 0\np cnf 1 1\n", 10, 1),
    Case(b"0\n", 10, 1),
    Case(b" c note\np cnf 1 0\n", 10, 1),
    Case(b"\tc\np cnf 1 0\n", 10, 1),
    Case(b"C note\np cnf 1 0\n", 10, 1),
    Case(b"\n\nc note\nq cnf 1 0\n", 10, 4),
    Case(b"c\n \n\t\nc\np cnf 1\n", 10, 5),
];

static COUNTS: [Case; 24] = [
    Case(b"p cnf 0 0\n", 10, 1),
    Case(b"p cnf 4097 0\n", 10, 1),
    Case(b"p cnf 1 65537\n", 10, 1),
    Case(b"p cnf 4097 65537\n", 10, 1),
    Case(b"p cnf -1 1\n", 10, 1),
    Case(b"p cnf 1 -1\n", 10, 1),
    Case(b"p cnf 1 -0\n", 10, 1),
    Case(b"p cnf +1 0\n", 10, 1),
    Case(b"p cnf 1 +0\n", 10, 1),
    Case(b"p cnf 01 0\n", 10, 1),
    Case(b"p cnf 1 00\n", 10, 1),
    Case(b"p cnf 1 01\n1 0\n", 10, 1),
    Case(b"p cnf x 0\n", 10, 1),
    Case(b"p cnf 1 x\n", 10, 1),
    Case(b"p cnf 1x 0\n", 10, 1),
    Case(b"p cnf 2147483647 0\n", 10, 1),
    Case(b"p cnf 2147483648 0\n", 10, 1),
    Case(b"p cnf 1 2147483648\n", 10, 1),
    Case(b"p cnf 4294967297 0\n", 10, 1),
    Case(b"p cnf 18446744073709551617 0\n", 10, 1),
    Case(b"p cnf 1 18446744073709551616\n", 10, 1),
    Case(b"p cnf 0 1\nx 0\n", 10, 1),
    Case(b"p cnf 1 65536\n", 15, 0),
    Case(b"p cnf 4096 65536\n0\n", 15, 0),
];

static BYTES: [Case; 12] = [
    Case(b"p cnf 1 0\r\n", 10, 1),
    Case(b"p cnf 1 0 \r\n", 10, 1),
    Case(b"p cnf 1 0\0", 10, 1),
    Case(b"\r\np cnf 1 0\n", 10, 1),
    Case(b"\0\np cnf 1 0\n", 10, 1),
    Case(b"\x0c\np cnf 1 0\n", 10, 1),
    Case(b"p\0cnf 1 0\n", 10, 1),
    Case(b"p\rcnf 1 0\n", 10, 1),
    Case(b"p\x0bcnf 1 0\n", 10, 1),
    Case(b"p cnf\x0c1 0\n", 10, 1),
    Case(b"p\xa0cnf 1 0\n", 10, 1),
    Case(b"\xef\xbb\xbfp cnf 1 0\n", 10, 1),
];

#[test]
fn absent(rt: HostRuntime) -> Result<(), Fail> {
    expect_all(&rt, &ABSENT)
}

#[test]
fn words(rt: HostRuntime) -> Result<(), Fail> {
    expect_all(&rt, &WORDS)
}

#[test]
fn counts(rt: HostRuntime) -> Result<(), Fail> {
    expect_all(&rt, &COUNTS)
}

#[test]
fn bytes(rt: HostRuntime) -> Result<(), Fail> {
    expect_all(&rt, &BYTES)
}
