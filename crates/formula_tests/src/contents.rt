//! Texts that read: variables, count and clauses.
use crate::cases::{LITERAL, SPAN};
use formula::formula::Formula;
use std::alloc::Global;
use std::process::Abort;
use std::test::Fail;

/// What a formula holds: V, the count, and the clauses, each by its literals, then 0.
#[derive(Clone, Copy)]
pub(crate) struct Content(
    pub(crate) usize,
    pub(crate) usize,
    pub(crate) &'static [i32],
);

/// A text that reads, and what the formula then holds.
#[derive(Clone, Copy)]
struct Good(&'static [u8], Content);

static HEADERS: [Good; 12] = [
    Good(b"p cnf 1 0\n", Content(1, 0, &[])),
    Good(b"p cnf 1 0", Content(1, 0, &[])),
    Good(b"p  cnf 1 0\n", Content(1, 0, &[])),
    Good(b"p cnf 4096 0\n", Content(4096, 0, &[])),
    Good(b" \tp\tcnf \t4095\t0\t \n", Content(4095, 0, &[])),
    Good(b"\n \n\tp cnf 2 0", Content(2, 0, &[])),
    Good(b"cnf 1 1\np cnf 3 0\n", Content(3, 0, &[])),
    Good(b"c\np cnf 10 0\nc", Content(10, 0, &[])),
    Good(
        b"c \r\0\x0c\xff\np cnf 1 0\nc\r\0\x0c\xff\n",
        Content(1, 0, &[]),
    ),
    Good(b"c1 0\ncp cnf 2 2\np cnf 1 0\ncx", Content(1, 0, &[])),
    Good(b"p cnf 1 0\n\n\n \t", Content(1, 0, &[])),
    Good(b"p cnf 1 0\nc 1 0\n", Content(1, 0, &[])),
];

static CLAUSES: [Good; 17] = [
    Good(b"p cnf 1 1\n1 0\n", Content(1, 1, &[1, 0])),
    Good(b"p cnf 1 1\n-1 0", Content(1, 1, &[-1, 0])),
    Good(b"p cnf 2 1\n0\n", Content(2, 1, &[0])),
    Good(b"p cnf 2 1\n0", Content(2, 1, &[0])),
    Good(b"p cnf 2 3\n0\n\n0\n0", Content(2, 3, &[0, 0, 0])),
    Good(b"p cnf 2 1\n \t1\t-2  0 \t", Content(2, 1, &[1, -2, 0])),
    Good(b"p cnf 2 2\n1 0\n1 0\n", Content(2, 2, &[1, 0, 1, 0])),
    Good(b"p cnf 2 2\n1 0\n-1 0\n", Content(2, 2, &[1, 0, -1, 0])),
    Good(b"p cnf 10 1\n10 1 0", Content(10, 1, &[10, 1, 0])),
    Good(
        b"p cnf 4096 2\n4096 -1 0\n-4096 0\n",
        Content(4096, 2, &[4096, -1, 0, -4096, 0]),
    ),
    Good(
        b"p cnf 3 3\n1 2 3 0\n-3 -2 -1 0\n0\n",
        Content(3, 3, &[1, 2, 3, 0, -3, -2, -1, 0, 0]),
    ),
    Good(
        b"p cnf 3 3\n0\n2 0\n3 -1 0\n",
        Content(3, 3, &[0, 2, 0, 3, -1, 0]),
    ),
    Good(b"p cnf 1 1\n1 0\n\n \t\nc", Content(1, 1, &[1, 0])),
    Good(b"p cnf 1 1\nc 1 0\n-1 0\nc 1 0\n", Content(1, 1, &[-1, 0])),
    Good(
        b"c\n\ncnf 1 1\np cnf 3 2\nc mid\n1 -2 0\n\nc\n-3 0\nc end",
        Content(3, 2, &[1, -2, 0, -3, 0]),
    ),
    Good(
        b"p cnf 9 1\n9 8 7 6 5 4 3 2 1 0",
        Content(9, 1, &[9, 8, 7, 6, 5, 4, 3, 2, 1, 0]),
    ),
    Good(
        b"p cnf 99 8\n1 0\n2 0\n3 0\n4 0\n5 0\n6 0\n7 0\n99 0",
        Content(99, 8, &[1, 0, 2, 0, 3, 0, 4, 0, 5, 0, 6, 0, 7, 0, 99, 0]),
    ),
];

// All clauses in order, each by its literals, then 0.
fn flat(heap: Global, f: &Formula) -> Result<Vec<i32>, Fail> {
    let mut all = Vec::new(heap);
    for clause in f.clauses() {
        all.extend_from_slice(clause)?;
        all.push(0)?;
    }
    Ok(all)
}

/// The formula holds this, and no clause 0 and none behind the last.
pub(crate) fn holds(
    rt: &impl Abort,
    case: usize,
    heap: Global,
    f: &Formula,
    content: Content,
) -> Result<(), Fail> {
    let Content(variables, count, clauses) = content;
    assert_eq!(rt; f.variables(), variables, "case {case}");
    assert_eq!(rt; f.count(), count, "case {case}");
    assert!(rt; f.clause(0).is_none(), "case {case}");
    assert!(rt; f.clause(f.count() + 1).is_none(), "case {case}");
    assert!(rt; f.clause(usize::MAX).is_none(), "case {case}");
    for (k, clause) in f.clauses().enumerate() {
        assert_eq!(rt; f.clause(k.saturating_add(1)), Some(clause), "case {case}");
    }
    let all = flat(heap, f)?;
    assert_eq!(rt; all.as_slice(), clauses, "case {case}");
    Ok(())
}

fn expect_good(
    rt: &impl Abort,
    case: usize,
    heap: Global,
    text: &[u8],
    content: Content,
) -> Result<(), Fail> {
    let mut literals = [LITERAL; 16];
    let mut spans = [SPAN; 8];
    let mut f = Formula::over(&mut literals, &mut spans);
    f.read(text)?;
    holds(rt, case, heap, &f, content)
}

fn expect_goods(rt: &impl Abort, heap: Global, cases: &[Good]) -> Result<(), Fail> {
    for (i, c) in cases.iter().enumerate() {
        let Good(text, content) = *c;
        expect_good(rt, i, heap, text, content)?;
    }
    Ok(())
}

#[test]
fn headers(rt: HostRuntime) -> Result<(), Fail> {
    expect_goods(&rt, rt.alloc(), &HEADERS)
}

#[test]
fn clauses(rt: HostRuntime) -> Result<(), Fail> {
    expect_goods(&rt, rt.alloc(), &CLAUSES)
}
