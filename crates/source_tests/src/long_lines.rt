//! Text lines at the limits: 64 literals, 256 hints, 256 deleted numbers.
use crate::listings::expect_text;
use std::alloc::{AllocError, Global};
use std::process::Abort;
use std::test::Fail;

/// A text by its front, how many numbers from 1 on follow, its middle, how many follow there, and
/// its rest.
#[derive(Clone, Copy)]
struct Long(&'static str, u16, &'static str, u16, &'static str);

/// A text and its list.
#[derive(Clone, Copy)]
struct Over(Long, &'static str);

const FAULT: &str = "ending number=21 place=1\n";

const LIMIT: &str = "ending number=25 place=1\n";

// The list of each shows the line as it is.
static FULL: [Long; 9] = [
    Long("7 ", 64, "0 ", 0, "0\n"),
    Long("7 ", 63, "0 ", 0, "0\n"),
    Long("7 ", 63, "-64 0 ", 1, "0\n"),
    Long("7 ", 64, "0 ", 256, "0\n"),
    Long("7 -1 0 ", 256, "", 0, "0\n"),
    Long("7 0 ", 256, "", 0, "0\n"),
    Long("7 0 ", 255, "2147483647 ", 0, "0\n"),
    Long("0 d ", 256, "", 0, "0\n"),
    Long("0 d ", 255, "2147483647 ", 0, "0\n"),
];

static LITERALS: [Over; 26] = [
    Over(Long("7 ", 65, "0 ", 0, "0\n"), LIMIT),
    Over(Long("7 ", 64, "-65 0 ", 0, "0\n"), LIMIT),
    Over(Long("7 ", 64, "2147483647 0 ", 0, "0\n"), LIMIT),
    Over(Long("7 ", 64, "-2147483647 0 ", 0, "0\n"), LIMIT),
    Over(Long("7 ", 300, "0 ", 0, "0\n"), LIMIT),
    Over(Long("7 ", 65, "", 0, "\n"), LIMIT),
    Over(Long("7 ", 65, "", 0, ""), LIMIT),
    Over(Long("7 ", 65, "x ", 0, "0 0\n"), LIMIT),
    Over(Long("7 ", 65, "0 -1 ", 0, "0\n"), LIMIT),
    Over(Long("7 ", 65, "0 ", 257, "0\n"), LIMIT),
    Over(Long("7 ", 65, "0 1 0 ", 0, "0\n"), LIMIT),
    Over(Long("7 ", 65, "d ", 0, "0\n"), LIMIT),
    Over(Long("7 ", 64, "x ", 0, "0 0\n"), FAULT),
    Over(Long("7 ", 64, "065 ", 0, "0 0\n"), FAULT),
    Over(Long("7 ", 64, "-0 ", 0, "0 0\n"), FAULT),
    Over(Long("7 ", 64, "2147483648 ", 0, "0 0\n"), FAULT),
    Over(Long("7 ", 64, "d ", 0, "0 0\n"), FAULT),
    Over(Long("7 ", 64, "", 0, "\n"), FAULT),
    Over(Long("7 ", 64, "", 0, ""), FAULT),
    Over(Long("7 ", 64, "0 ", 0, "\n"), FAULT),
    Over(Long("7 ", 63, "x ", 65, "0 0\n"), FAULT),
    Over(Long("0 ", 65, "0 ", 0, "0\n"), FAULT),
    Over(Long("x ", 65, "0 ", 0, "0\n"), FAULT),
    Over(Long("-7 ", 65, "0 ", 0, "0\n"), FAULT),
    Over(
        Long("6 0 0\n\n8 ", 65, "0 ", 0, "0\n9 0 0\n"),
        "place=1 6 0 0\nending number=25 place=3\n",
    ),
    Over(
        Long("6 d 4 0\n\n8 ", 64, "x ", 0, "0 0\n9 0 0\n"),
        "place=1 0 d 4 0\nending number=21 place=3\n",
    ),
];

static HINTS: [Over; 20] = [
    Over(Long("7 1 0 ", 257, "", 0, "0\n"), LIMIT),
    Over(Long("7 0 ", 257, "", 0, "0\n"), LIMIT),
    Over(Long("7 ", 64, "0 ", 257, "0\n"), LIMIT),
    Over(Long("7 1 0 ", 256, "2147483647 ", 0, "0\n"), LIMIT),
    Over(Long("7 1 0 ", 600, "", 0, "0\n"), LIMIT),
    Over(Long("7 1 0 ", 257, "", 0, "\n"), LIMIT),
    Over(Long("7 1 0 ", 257, "", 0, ""), LIMIT),
    Over(Long("7 1 0 ", 257, "-1 ", 0, "0\n"), LIMIT),
    Over(Long("7 1 0 ", 257, "x ", 0, "0\n"), LIMIT),
    Over(Long("7 1 0 ", 257, "0 ", 0, "x\n"), LIMIT),
    Over(Long("7 1 0 ", 256, "-257 ", 0, "0\n"), FAULT),
    Over(Long("7 1 0 ", 256, "x ", 0, "0\n"), FAULT),
    Over(Long("7 1 0 ", 256, "0257 ", 0, "0\n"), FAULT),
    Over(Long("7 1 0 ", 256, "2147483648 ", 0, "0\n"), FAULT),
    Over(Long("7 1 0 ", 256, "-0 ", 0, "0\n"), FAULT),
    Over(Long("7 1 0 ", 256, "", 0, "\n"), FAULT),
    Over(Long("7 1 0 ", 256, "0 ", 0, "257\n"), FAULT),
    Over(Long("7 1 0 ", 255, "x ", 257, "0\n"), FAULT),
    Over(Long("7 1 0 -1 ", 257, "", 0, "0\n"), FAULT),
    Over(Long("7 x 0 ", 257, "", 0, "0\n"), FAULT),
];

static DELETED: [Over; 18] = [
    Over(Long("7 d ", 257, "", 0, "0\n"), LIMIT),
    Over(Long("0 d ", 256, "2147483647 ", 0, "0\n"), LIMIT),
    Over(Long("7 d ", 600, "", 0, "0\n"), LIMIT),
    Over(Long("7 d ", 257, "", 0, "\n"), LIMIT),
    Over(Long("7 d ", 257, "", 0, ""), LIMIT),
    Over(Long("7 d ", 257, "-1 ", 0, "0\n"), LIMIT),
    Over(Long("7 d ", 257, "x ", 0, "0\n"), LIMIT),
    Over(Long("7 d ", 257, "0 ", 0, "0\n"), LIMIT),
    Over(Long("7 d ", 256, "-257 ", 0, "0\n"), FAULT),
    Over(Long("7 d ", 256, "x ", 0, "0\n"), FAULT),
    Over(Long("7 d ", 256, "0257 ", 0, "0\n"), FAULT),
    Over(Long("7 d ", 256, "2147483648 ", 0, "0\n"), FAULT),
    Over(Long("7 d ", 256, "", 0, "\n"), FAULT),
    Over(Long("7 d ", 256, "0 ", 0, "0\n"), FAULT),
    Over(Long("7 d ", 255, "x ", 257, "0\n"), FAULT),
    Over(Long("7 d -1 ", 257, "", 0, "0\n"), FAULT),
    Over(Long("-1 d ", 257, "", 0, "0\n"), FAULT),
    Over(
        Long("0 d 4 0\n\n\n0 d ", 257, "", 0, "0\nx\n"),
        "place=1 0 d 4 0\nending number=25 place=4\n",
    ),
];

/// Writes the numbers from 1 to `n` behind the text, a blank behind each.
pub(crate) fn push_row(out: &mut String, n: u16) -> Result<(), AllocError> {
    for v in 1..=u32::from(n) {
        write!(out, "{v} ")?;
    }
    Ok(())
}

fn long_text(heap: Global, long: Long) -> Result<String, AllocError> {
    let Long(front, n, middle, m, rest) = long;
    let mut text = String::from_str(heap, front)?;
    push_row(&mut text, n)?;
    text.push_str(middle)?;
    push_row(&mut text, m)?;
    text.push_str(rest)?;
    Ok(text)
}

fn expect_full(rt: &impl Abort, case: usize, heap: Global, long: Long) -> Result<(), Fail> {
    let text = long_text(heap, long)?;
    let mut listing = String::from_str(heap, "place=1 ")?;
    listing.push_str(text.as_str())?;
    listing.push_str("ending number=20 place=0\n")?;
    expect_text(rt, case, heap, text.as_bytes(), listing.as_str())
}

fn expect_over(rt: &impl Abort, heap: Global, cases: &[Over]) -> Result<(), Fail> {
    for (i, c) in cases.iter().enumerate() {
        let Over(long, listing) = *c;
        let text = long_text(heap, long)?;
        expect_text(rt, i, heap, text.as_bytes(), listing)?;
    }
    Ok(())
}

#[test]
fn full(rt: HostRuntime) -> Result<(), Fail> {
    for (i, long) in FULL.iter().enumerate() {
        expect_full(&rt, i, rt.alloc(), *long)?;
    }
    Ok(())
}

#[test]
fn literals(rt: HostRuntime) -> Result<(), Fail> {
    expect_over(&rt, rt.alloc(), &LITERALS)
}

#[test]
fn hints(rt: HostRuntime) -> Result<(), Fail> {
    expect_over(&rt, rt.alloc(), &HINTS)
}

#[test]
fn deleted(rt: HostRuntime) -> Result<(), Fail> {
    expect_over(&rt, rt.alloc(), &DELETED)
}
