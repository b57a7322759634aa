//! Faulty record files, and the places of the faults.
use crate::listings::{Case, expect_files};
use std::test::Fail;

const FAULT: &str = "ending number=29 place=1\n";

const LIMIT: &str = "ending number=25 place=1\n";

static MARKS: [Case; 16] = [
    Case(b"", FAULT),
    Case(b"L", FAULT),
    Case(b"\0", FAULT),
    Case(b"LB\0\0\0\0", FAULT),
    Case(b"LF\0\0\0\0", FAULT),
    Case(b"la\0\0\0\x06\0\0\0", FAULT),
    Case(b"le\0\0\0\0", FAULT),
    Case(b"AL\0\0\0\x06\0\0\0", FAULT),
    Case(b"EL\0\0\0\0", FAULT),
    Case(b"XX", FAULT),
    Case(b"\0\0", FAULT),
    Case(b" LE\0\0\0\0", FAULT),
    Case(b"\nLE\0\0\0\0", FAULT),
    Case(b"6 1 0 1 2 0\n", FAULT),
    Case(b"XA\0\0\0\x06\0\0\0LE\0\0\0\x01", FAULT),
    Case(b"\xcc\x41\0\0\0\x06\0\0\0LE\0\0\0\x01", FAULT),
];

static NUMBERS: [Case; 13] = [
    Case(b"LA\0\0\0\0\0\0\0LE\0\0\0\x01", FAULT),
    Case(b"LA\x80\0\0\0\0\0\0LE\0\0\0\x01", FAULT),
    Case(b"LA\xff\xff\xff\xff\0\0\0LE\0\0\0\x01", FAULT),
    Case(b"LA\0\0\0\x06\x01\0\0\0\0\0\0LE\0\0\0\x01", FAULT),
    Case(b"LA\0\0\0\x06\x01\0\0\x80\0\0\0LE\0\0\0\x01", FAULT),
    Case(b"LA\0\0\0\x06\x02\0\0\0\0\0\x01\0\0\0\0LE\0\0\0\x01", FAULT),
    Case(b"LA\0\0\0\x06\0\0\x01\0\0\0\0LE\0\0\0\x01", FAULT),
    Case(b"LA\0\0\0\x06\0\0\x01\x80\0\0\0LE\0\0\0\x01", FAULT),
    Case(b"LA\0\0\0\x06\0\0\x01\xff\xff\xff\xff LE\0\0\0\x01", FAULT),
    Case(b"LA\0\0\0\x06\0\0\x02\0\0\0\x01\0\0\0\0LE\0\0\0\x01", FAULT),
    Case(b"LD\0\x01\0\0\0\0LE\0\0\0\0", FAULT),
    Case(b"LD\0\x01\x80\0\0\0LE\0\0\0\0", FAULT),
    Case(b"LD\0\x02\0\0\0\x01\xff\xff\xff\xff LE\0\0\0\0", FAULT),
];

static COUNTS: [Case; 29] = [
    Case(b"LA\0\0\0\x06\x41", LIMIT),
    Case(b"LA\0\0\0\x06\xff", LIMIT),
    Case(b"LA\0\0\0\x06\x41\0\0", LIMIT),
    Case(b"LA\0\0\0\x06\x41\xff\xff", LIMIT),
    Case(b"LA\0\0\0\x06\0\x01\x01", LIMIT),
    Case(b"LA\0\0\0\x06\0\x02\0", LIMIT),
    Case(b"LA\0\0\0\x06\x40\x01\x01", LIMIT),
    Case(b"LA\0\0\0\x06\0\xff\xff", LIMIT),
    Case(b"LA\0\0\0\x06\x01\x01\x01\0\0\0\0", LIMIT),
    Case(b"LA\x7f\xff\xff\xff\x80", LIMIT),
    Case(b"LD\x01\x01", LIMIT),
    Case(b"LD\x02\0", LIMIT),
    Case(b"LD\xff\xff", LIMIT),
    Case(b"LD\x01\x01\0\0\0\0", LIMIT),
    Case(b"LA\0\0\0\0\x41\0\0", FAULT),
    Case(b"LA\x80\0\0\0\xff\xff\xff", FAULT),
    Case(b"LA\0\0\0\0\0\x01\x01", FAULT),
    Case(b"LA\0\0\0\x06", FAULT),
    Case(b"LA\0\0\0\x06\0", FAULT),
    Case(b"LA\0\0\0\x06\0\x01", FAULT),
    Case(b"LA\0\0\0\x06\0\xff", FAULT),
    Case(b"LA\0\0\0\x06\x40\xff", FAULT),
    Case(b"LD", FAULT),
    Case(b"LD\x01", FAULT),
    Case(b"LD\xff", FAULT),
    Case(b"LA\0\0\0", FAULT),
    Case(b"LA\xff", FAULT),
    Case(b"LA\0\0\0\x06\x40\x01\0", FAULT),
    Case(b"LD\x01\0", FAULT),
];

static LAST: [Case; 27] = [
    Case(b"LE", FAULT),
    Case(b"LE\0", FAULT),
    Case(b"LE\0\0\0", FAULT),
    Case(b"LE\0\0\0\x01", FAULT),
    Case(b"LE\x80\0\0\0", FAULT),
    Case(b"LE\xff\xff\xff\xff", FAULT),
    Case(b"LE\0\0\0\x01x", FAULT),
    Case(b"LE\0\0\0\x01LE\0\0\0\0", FAULT),
    Case(b"LE\x01\0\0\0", FAULT),
    Case(b"LE\0\0\0\0x", "ending number=29 place=2\n"),
    Case(b"LE\0\0\0\0\0", "ending number=29 place=2\n"),
    Case(b"LE\0\0\0\0\n", "ending number=29 place=2\n"),
    Case(b"LE\0\0\0\0LE\0\0\0\0", "ending number=29 place=2\n"),
    Case(
        b"LE\0\0\0\0LA\0\0\0\x06\x01\0\x02\0\0\0\x01\0\0\0\x01\0\0\0\x02LE\0\0\0\x01",
        "ending number=29 place=2\n",
    ),
    Case(b"LE\0\0\0\0LD\xff\xff", "ending number=29 place=2\n"),
    Case(
        b"LA\0\0\0\x06\x01\0\x02\0\0\0\x01\0\0\0\x01\0\0\0\x02",
        "place=1 6 1 0 1 2 0\nending number=29 place=2\n",
    ),
    Case(
        b"LD\0\x01\0\0\0\x05",
        "place=1 0 d 5 0\nending number=29 place=2\n",
    ),
    Case(
        b"LA\0\0\0\x06\x01\0\x02\0\0\0\x01\0\0\0\x01\0\0\0\x02LD\0\x01\0\0\0\x05LA\0\0\0\x06\x01\0\x02\0\0\0\x01\0\0\0\x01\0\0\0\x02",
        "place=1 6 1 0 1 2 0\nplace=2 0 d 5 0\nplace=3 6 1 0 1 2 0\nending number=29 place=4\n",
    ),
    Case(
        b"LA\0\0\0\x06\x01\0\x02\0\0\0\x01\0\0\0\x01\0\0\0\x02LE\0\0\0\0",
        "place=1 6 1 0 1 2 0\nending number=29 place=2\n",
    ),
    Case(
        b"LA\0\0\0\x06\x01\0\x02\0\0\0\x01\0\0\0\x01\0\0\0\x02LE\0\0\0\x02",
        "place=1 6 1 0 1 2 0\nending number=29 place=2\n",
    ),
    Case(
        b"LA\0\0\0\x06\x01\0\x02\0\0\0\x01\0\0\0\x01\0\0\0\x02LE\x01\0\0\0",
        "place=1 6 1 0 1 2 0\nending number=29 place=2\n",
    ),
    Case(
        b"LD\0\x01\0\0\0\x05LE\0\0\0\x01",
        "place=1 0 d 5 0\nending number=29 place=2\n",
    ),
    Case(
        b"LA\0\0\0\x06\x01\0\x02\0\0\0\x01\0\0\0\x01\0\0\0\x02LD\0\x01\0\0\0\x05LE\0\0\0\x02",
        "place=1 6 1 0 1 2 0\nplace=2 0 d 5 0\nending number=29 place=3\n",
    ),
    Case(
        b"LA\0\0\0\x06\x01\0\x02\0\0\0\x01\0\0\0\x01\0\0\0\x02LD\0\x01\0\0\0\x05LE\0\0\0\x02x",
        "place=1 6 1 0 1 2 0\nplace=2 0 d 5 0\nending number=29 place=3\n",
    ),
    Case(
        b"LA\0\0\0\x06\x01\0\x02\0\0\0\x01\0\0\0\x01\0\0\0\x02LD\0\x01\0\0\0\x05LE\0\0\0\x01x",
        "place=1 6 1 0 1 2 0\nplace=2 0 d 5 0\nending number=29 place=4\n",
    ),
    Case(
        b"LA\0\0\0\x06\x01\0\x02\0\0\0\x01\0\0\0\x01\0\0\0\x02LE\0\0\0\x01LD\0\x01\0\0\0\x05",
        "place=1 6 1 0 1 2 0\nending number=29 place=3\n",
    ),
    Case(
        b"LA\0\0\0\x06\x01\0\x02\0\0\0\x01\0\0\0\x01\0\0\0\x02LE\x80\0\0\x01",
        "place=1 6 1 0 1 2 0\nending number=29 place=2\n",
    ),
];

static PLACES: [Case; 9] = [
    Case(
        b"LA\0\0\0\x06\x01\0\x02\0\0\0\x01\0\0\0\x01\0\0\0\x02LB",
        "place=1 6 1 0 1 2 0\nending number=29 place=2\n",
    ),
    Case(
        b"LA\0\0\0\x06\x01\0\x02\0\0\0\x01\0\0\0\x01\0\0\0\x02L",
        "place=1 6 1 0 1 2 0\nending number=29 place=2\n",
    ),
    Case(
        b"LD\0\x01\0\0\0\x05LD\0\x01\0\0\0\x05LD\x01\x01",
        "place=1 0 d 5 0\nplace=2 0 d 5 0\nending number=25 place=3\n",
    ),
    Case(
        b"LD\0\x01\0\0\0\x05LA\0\0\0\x06\x01\0\x02\0\0\0\x01\0\0\0\x01\0\0\0\x02LA\0\0\0\x07\x41",
        "place=1 0 d 5 0\nplace=2 6 1 0 1 2 0\nending number=25 place=3\n",
    ),
    Case(
        b"LA\0\0\0\x06\x01\0\x02\0\0\0\x01\0\0\0\x01\0\0\0\x02LA\0\0\0\0\0\0\0LE\0\0\0\x02",
        "place=1 6 1 0 1 2 0\nending number=29 place=2\n",
    ),
    Case(
        b"LA\0\0\0\x06\x01\0\x02\0\0\0\x01\0\0\0\x01\0\0\0\x02LA\0\0\0\x07\x01\0\0\0\0\0\0LA\0\0\0\x06\x01\0\x02\0\0\0\x01\0\0\0\x01\0\0\0\x02LE\0\0\0\x03",
        "place=1 6 1 0 1 2 0\nending number=29 place=2\n",
    ),
    Case(
        b"LA\0\0\0\x06\x01\0\x02\0\0\0\x01\0\0\0\x01\0\0\0\x02LD\0\x01\0\0\0\x05LA\0\0\0\x07\0\0\x01\0\0\0",
        "place=1 6 1 0 1 2 0\nplace=2 0 d 5 0\nending number=29 place=3\n",
    ),
    Case(
        b"LA\0\0\0\x06\x01\0\x02\0\0\0\x01\0\0\0\x01\0\0\0\x02\nLE\0\0\0\x01",
        "place=1 6 1 0 1 2 0\nending number=29 place=2\n",
    ),
    Case(
        b"LD\0\x01\0\0\0\x05LD\0\x02\0\0\0\x01LE\0\0\0\0",
        "place=1 0 d 5 0\nplace=2 0 d 1 1279590400 0\nending number=29 place=3\n",
    ),
];

#[test]
fn marks(rt: HostRuntime) -> Result<(), Fail> {
    expect_files(&rt, rt.alloc(), &MARKS)
}

#[test]
fn numbers(rt: HostRuntime) -> Result<(), Fail> {
    expect_files(&rt, rt.alloc(), &NUMBERS)
}

#[test]
fn counts(rt: HostRuntime) -> Result<(), Fail> {
    expect_files(&rt, rt.alloc(), &COUNTS)
}

#[test]
fn last(rt: HostRuntime) -> Result<(), Fail> {
    expect_files(&rt, rt.alloc(), &LAST)
}

#[test]
fn places(rt: HostRuntime) -> Result<(), Fail> {
    expect_files(&rt, rt.alloc(), &PLACES)
}
