//! One case: a text that is refused, and the tables that stay as they were.
use formula::formula::Formula;
use formula::span::Span;
use std::process::Abort;
use std::test::Fail;

// Numbers and no faults in the tables of cases: they are what the rules give.
/// A text, the number that refuses it and its line.
#[derive(Clone, Copy)]
pub(crate) struct Case(pub(crate) &'static [u8], pub(crate) u8, pub(crate) usize);

/// What stands in every lent slot before a reading.
pub(crate) const LITERAL: i32 = 77;

pub(crate) const SPAN: Span = Span { at: 7, len: 7 };

/// The number, solver, line and hint by which a reading over these tables refuses, if it does.
pub(crate) fn answer(
    text: &[u8],
    literals: &mut [i32],
    spans: &mut [Span],
) -> Result<(), (u8, usize, usize, usize)> {
    let mut f = Formula::over(literals, spans);
    f.read(text)
        .map_err(|e| (e.fault.number(), e.solver, e.place, e.hint))
}

/// The text is refused so, and every slot of the tables stays.
pub(crate) fn expect(
    rt: &impl Abort,
    case: usize,
    text: &[u8],
    number: u8,
    line: usize,
) -> Result<(), Fail> {
    let mut literals = [LITERAL; 80];
    let mut spans = [SPAN; 8];
    let found = answer(text, &mut literals, &mut spans);
    assert_eq!(rt; found, Err((number, 0, line, 0)), "case {case}");
    assert_eq!(rt; literals, [LITERAL; 80], "case {case}");
    assert_eq!(rt; spans, [SPAN; 8], "case {case}");
    Ok(())
}

/// Each text is refused so; a failure names its case, counted from 0.
pub(crate) fn expect_all(rt: &impl Abort, cases: &[Case]) -> Result<(), Fail> {
    for (i, c) in cases.iter().enumerate() {
        let Case(text, number, line) = *c;
        expect(rt, i, text, number, line)?;
    }
    Ok(())
}
