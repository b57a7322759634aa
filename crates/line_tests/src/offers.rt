//! Lines that are offered one after the other.
use crate::jobs::{ENTRY, SAMPLE, SPAN};
use formula::formula::Formula;
use lines::addition::Addition;
use lines::lines::Lines;
use rup::assignment::AssignmentBytes;
use rup::offer::offer;
use std::process::Abort;
use std::test::Fail;

/// The hint position of a line that is taken, or the number, solver, place and hint position of the
/// refusal.
type Answer = Result<usize, (u8, usize, usize, usize)>;

/// The number that is next, a line's number, literals and hints.
#[derive(Clone, Copy)]
struct Offer(usize, u32, &'static [i32], &'static [u32]);

// Of solver 2, at place 9. The sample job's lines, drawn as 1, 1, 1, 2, 2, 2, 1, and others between.
static OFFERS: [(Offer, Answer); 15] = [
    (Offer(6, 8, &[1], &[1, 2]), Err((22, 2, 9, 0))),
    (Offer(6, 5, &[4], &[]), Err((22, 2, 9, 0))),
    (Offer(6, 6, &[1], &[1, 2]), Ok(2)),
    (Offer(8, 6, &[1], &[1, 2]), Err((22, 2, 9, 0))),
    (Offer(8, 8, &[3], &[6, 3]), Ok(2)),
    (Offer(10, 10, &[], &[6, 9]), Err((26, 2, 9, 2))),
    (Offer(7, 7, &[4], &[9]), Err((23, 2, 9, 0))),
    (Offer(7, 7, &[1, -1], &[9]), Err((24, 2, 9, 0))),
    (Offer(7, 7, &[-1, -3], &[5]), Err((28, 2, 9, 1))),
    (Offer(7, 7, &[-3], &[4]), Err((27, 2, 9, 1))),
    (Offer(7, 7, &[-1, -3], &[4, 5]), Ok(2)),
    (Offer(9, 9, &[-1], &[3, 7]), Ok(2)),
    (Offer(11, 11, &[2, 3], &[6, 3]), Ok(2)),
    (Offer(10, 10, &[], &[6, 9]), Ok(2)),
    (Offer(4294967296, 12, &[], &[10]), Err((22, 2, 9, 0))),
];

fn answer(lines: &mut Lines, assignment: &mut AssignmentBytes, o: Offer) -> Answer {
    let Offer(next, number, literals, hints) = o;
    let line = Addition {
        number,
        literals,
        hints,
    };
    offer(lines, assignment, 2, 9, next, line).map_err(|e| (
        e.fault.number(),
        e.solver,
        e.place,
        e.hint,
    ))
}

#[test]
fn one_after_the_other(rt: HostRuntime) -> Result<(), Fail> {
    let mut table = [0i32; 12];
    let mut spans = [SPAN; 5];
    let mut formula = Formula::over(&mut table, &mut spans);
    formula.read(SAMPLE)?;
    let mut literals = [77i32; 7];
    let mut hints = [77u32; 12];
    let mut entries = [ENTRY; 6];
    let mut lines = Lines::over(&formula, &mut literals, &mut hints, &mut entries);
    let mut bytes = [0u8; 6];
    let mut assignment = AssignmentBytes::over(&mut bytes);
    for (i, (o, wanted)) in OFFERS.iter().enumerate() {
        let found = answer(&mut lines, &mut assignment, *o);
        assert!(rt; found == *wanted, "offer {i}");
    }
    assert_eq!(rt; lines.count(), 6);
    assert!(rt; lines.find(10) == Some(5));
    assert!(rt; lines.find(11) == Some(4));
    assert!(rt; lines.find(12).is_none());
    assert_eq!(rt; literals, [1, 3, -1, -3, -1, 2, 3]);
    assert_eq!(rt; hints, [1, 2, 6, 3, 4, 5, 3, 7, 6, 3, 6, 9]);
    Ok(())
}

/// Lent slots for lines, literals and hints, the line's hints, and the number of the refusal, if the
/// line is refused.
#[derive(Clone, Copy)]
struct Space(usize, usize, usize, &'static [u32], Option<u8>);

static SPACES: [Space; 8] = [
    Space(1, 1, 2, &[1, 2], None),
    Space(2, 2, 3, &[1, 2], None),
    Space(0, 1, 2, &[1, 2], Some(4)),
    Space(1, 0, 2, &[1, 2], Some(4)),
    Space(1, 1, 1, &[1, 2], Some(4)),
    Space(0, 0, 0, &[1, 2], Some(4)),
    Space(0, 0, 0, &[1], Some(28)),
    Space(0, 0, 0, &[1, 2, 9], Some(26)),
];

fn expect_space(rt: &impl Abort, case: usize, s: Space) -> Result<(), Fail> {
    let Space(rows, slots, places, named, refused) = s;
    let mut table = [0i32; 12];
    let mut spans = [SPAN; 5];
    let mut formula = Formula::over(&mut table, &mut spans);
    formula.read(SAMPLE)?;
    let mut literals = [77i32; 2];
    let mut hints = [77u32; 3];
    let mut entries = [ENTRY; 2];
    assert!(rt; rows <= 2 && slots <= 2 && places <= 3, "case {case}");
    let mut lines = Lines::over(
        &formula,
        &mut literals[0..slots],
        &mut hints[0..places],
        &mut entries[0..rows],
    );
    let mut bytes = [0u8; 6];
    let mut assignment = AssignmentBytes::over(&mut bytes);
    let found = answer(&mut lines, &mut assignment, Offer(6, 6, &[1], named));
    let number = found.err().map(|refusal| refusal.0);
    assert!(rt; number == refused, "case {case}");
    if refused.is_none() {
        assert_eq!(rt; lines.count(), 1, "case {case}");
        return Ok(());
    }
    assert_eq!(rt; lines.count(), 0, "case {case}");
    assert_eq!(rt; literals, [77; 2], "case {case}");
    assert_eq!(rt; hints, [77; 3], "case {case}");
    Ok(())
}

#[test]
fn spaces(rt: HostRuntime) -> Result<(), Fail> {
    for (i, s) in SPACES.iter().enumerate() {
        expect_space(&rt, i, *s)?;
    }
    Ok(())
}

// Bytes that are not zero refuse before all else, with the solver and no place.
#[test]
fn dirty_bytes(rt: HostRuntime) -> Result<(), Fail> {
    let mut table = [0i32; 12];
    let mut spans = [SPAN; 5];
    let mut formula = Formula::over(&mut table, &mut spans);
    formula.read(SAMPLE)?;
    let mut literals = [77i32; 2];
    let mut hints = [77u32; 2];
    let mut entries = [ENTRY; 2];
    let mut lines = Lines::over(&formula, &mut literals, &mut hints, &mut entries);
    let mut bytes = [1u8; 6];
    let mut assignment = AssignmentBytes::over(&mut bytes);
    let found = answer(&mut lines, &mut assignment, Offer(6, 9, &[4], &[9]));
    assert!(rt; found == Err((3, 2, 0, 0)));
    assert_eq!(rt; bytes, [1; 6]);
    Ok(())
}
