//! Texts at the limits: 64 literals in a clause, and 65,536 clauses.
use crate::cases::{LITERAL, SPAN, answer, expect};
use formula::formula::Formula;
use std::alloc::{AllocError, Global};
use std::process::Abort;
use std::test::Fail;

/// A clause over 100 variables, by how many literals from 1 on it begins with and the rest of the
/// text; the number that refuses it and the line.
#[derive(Clone, Copy)]
struct Long(u8, &'static str, u8, usize);

static LONG: [Long; 20] = [
    Long(64, "65 0\n", 14, 2),
    Long(64, "-65 0\n", 14, 2),
    Long(65, "66 0\n", 14, 2),
    Long(65, "\n", 14, 2),
    Long(65, "x 0\n", 14, 2),
    Long(64, "x 0\n", 11, 2),
    Long(64, "065 0\n", 11, 2),
    Long(64, "-0\n", 11, 2),
    Long(64, "101 0\n", 12, 2),
    Long(64, "-101 0\n", 12, 2),
    Long(64, "1 0\n", 13, 2),
    Long(64, "-64 0\n", 13, 2),
    Long(64, "\n", 11, 2),
    Long(64, "", 11, 2),
    Long(64, "0 65\n", 11, 2),
    Long(63, "x 64 65 0\n", 11, 2),
    Long(63, "63 64 65 0\n", 13, 2),
    Long(63, "101 64 65 0\n", 12, 2),
    Long(64, "0\n1 0\n", 15, 3),
    Long(64, "0\n0\n", 15, 3),
];

/// Empty clauses: how many are announced, how many are there, the lent entries, and the number and
/// line of the refusal.
#[derive(Clone, Copy)]
struct Many(usize, usize, usize, u8, usize);

static MANY: [Many; 7] = [
    Many(65536, 65535, 65536, 15, 0),
    Many(65536, 65537, 65537, 15, 65538),
    Many(65535, 65536, 65536, 15, 65537),
    Many(0, 65536, 65536, 15, 2),
    Many(65537, 65537, 65537, 10, 1),
    Many(65536, 65536, 65535, 4, 0),
    Many(65536, 65536, 0, 4, 0),
];

fn long_clause(heap: Global, n: u8, rest: &str) -> Result<String, AllocError> {
    let mut text = String::from_str(heap, "p cnf 100 1\n")?;
    for v in 1..=u32::from(n) {
        let word = format!(in heap; "{v} ")?;
        text.push_str(word.as_str())?;
    }
    text.push_str(rest)?;
    Ok(text)
}

fn empty_clauses(heap: Global, o: usize, n: usize) -> Result<String, AllocError> {
    let mut text = format!(in heap; "p cnf 1 {o}\n")?;
    for _ in 0..n {
        text.push_str("0\n")?;
    }
    Ok(text)
}

fn expect_long(rt: &impl Abort, case: usize, heap: Global, c: Long) -> Result<(), Fail> {
    let Long(n, rest, number, line) = c;
    let text = long_clause(heap, n, rest)?;
    expect(rt, case, text.as_bytes(), number, line)
}

#[test]
fn many_literals(rt: HostRuntime) -> Result<(), Fail> {
    for (i, c) in LONG.iter().enumerate() {
        expect_long(&rt, i, rt.alloc(), *c)?;
    }
    Ok(())
}

// One clause over 100 variables: the literals 1 to 64.
fn in_a_row(rt: &impl Abort, f: &Formula) -> Result<(), Fail> {
    assert_eq!(rt; f.variables(), 100);
    assert_eq!(rt; f.count(), 1);
    let clause = f.clause(1).ok_or("no clause 1")?;
    assert_eq!(rt; clause.len(), 64);
    for (i, l) in clause.iter().enumerate() {
        assert_eq!(rt; *l as i64, i as i64 + 1);
    }
    Ok(())
}

#[test]
fn all_literals(rt: HostRuntime) -> Result<(), Fail> {
    let mut literals = [LITERAL; 64];
    let mut spans = [SPAN; 1];
    let text = long_clause(rt.alloc(), 64, "0\n")?;
    let mut f = Formula::over(&mut literals, &mut spans);
    f.read(text.as_bytes())?;
    in_a_row(&rt, &f)
}

fn expect_many(rt: &impl Abort, case: usize, heap: Global, c: Many) -> Result<(), Fail> {
    let Many(o, n, entries, number, line) = c;
    let text = empty_clauses(heap, o, n)?;
    let mut literals = [LITERAL; 0];
    let mut spans = vec![in heap; SPAN; entries]?;
    let found = answer(text.as_bytes(), &mut literals, spans.as_mut_slice());
    assert_eq!(rt; found, Err((number, 0, line, 0)), "case {case}");
    for s in spans.iter() {
        assert_eq!(rt; *s, SPAN, "case {case}");
    }
    Ok(())
}

#[test]
fn many_clauses(rt: HostRuntime) -> Result<(), Fail> {
    for (i, c) in MANY.iter().enumerate() {
        expect_many(&rt, i, rt.alloc(), *c)?;
    }
    Ok(())
}

fn len_of(f: &Formula, number: usize) -> Option<usize> {
    f.clause(number).map(|clause| clause.len())
}

// All clauses that are announced are there, and empty.
fn all_empty(rt: &impl Abort, f: &Formula) {
    assert_eq!(rt; f.variables(), 1);
    assert_eq!(rt; f.count(), 65536);
    assert_eq!(rt; len_of(f, 0), None);
    assert_eq!(rt; len_of(f, 65537), None);
    for k in 1..65537 {
        assert_eq!(rt; len_of(f, k), Some(0));
    }
}

#[test]
fn all_clauses(rt: HostRuntime) -> Result<(), Fail> {
    let text = empty_clauses(rt.alloc(), 65536, 65536)?;
    let mut literals = [LITERAL; 0];
    let mut spans = vec![in rt.alloc(); SPAN; 65536]?;
    let mut f = Formula::over(&mut literals, spans.as_mut_slice());
    f.read(text.as_bytes())?;
    all_empty(&rt, &f);
    Ok(())
}
