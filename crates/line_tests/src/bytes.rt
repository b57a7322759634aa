//! Assignment bytes: how far they must be zero, and that they stay as they were.
use crate::jobs::{SAMPLE, Told, verdict_on};
use rup::assignment::AssignmentBytes;
use std::process::Abort;
use std::test::Fail;

/// How many bytes are lent, which one of them is 1, if one is, and the verdict on a line that
/// follows at hint 2. The sample has 3 variables, so 6 bytes count.
#[derive(Clone, Copy)]
struct Case(usize, Option<usize>, Told);

static CASES: [Case; 11] = [
    Case(6, None, Ok(2)),
    Case(5, None, Err((3, 0))),
    Case(0, None, Err((3, 0))),
    Case(6, Some(0), Err((3, 0))),
    Case(6, Some(5), Err((3, 0))),
    Case(7, Some(5), Err((3, 0))),
    Case(7, Some(6), Ok(2)),
    Case(10, Some(9), Ok(2)),
    Case(10, Some(6), Ok(2)),
    Case(10, Some(3), Err((3, 0))),
    Case(10, None, Ok(2)),
];

fn expect(rt: &impl Abort, case: usize, c: Case) -> Result<(), Fail> {
    let Case(length, dirty, verdict) = c;
    let mut bytes = [0u8; 10];
    if let Some(at) = dirty {
        assert!(rt; at < 10, "case {case}");
        bytes[at] = 1;
    }
    let before = bytes;
    assert!(rt; length <= 10, "case {case}");
    let found = verdict_on(SAMPLE, &[1], &[1, 2], &mut bytes[0..length]);
    assert!(rt; found == Some(verdict), "case {case}");
    assert_eq!(rt; bytes, before, "case {case}");
    Ok(())
}

#[test]
fn dirt(rt: HostRuntime) -> Result<(), Fail> {
    for (i, c) in CASES.iter().enumerate() {
        expect(&rt, i, *c)?;
    }
    Ok(())
}

// What is found zero once is known for fewer variables, and tested further for more.
#[test]
fn further(rt: HostRuntime) {
    let mut bytes = [0u8; 10];
    bytes[8] = 1;
    let mut assignment = AssignmentBytes::over(&mut bytes);
    assert!(rt; assignment.is_clean(0));
    assert!(rt; assignment.is_clean(3));
    assert!(rt; assignment.is_clean(1));
    assert!(rt; assignment.is_clean(4));
    assert!(rt; !assignment.is_clean(5));
    assert!(rt; !assignment.is_clean(6));
    assert!(rt; !assignment.is_clean(9223372036854775808));
    assert!(rt; assignment.is_clean(4));
}
