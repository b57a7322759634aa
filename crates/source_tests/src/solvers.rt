//! Sources of both kinds side by side.
use crate::looks::{CLEAN, HINT, LITERAL, SHORT};
use answers::fault::Fault;
use answers::refusal::Refusal;
use record_source::cursor::RecordSource;
use source::head::Head;
use sources::kind::AnySource;
use sources::solvers::{look_at, step_at};
use std::process::Abort;
use std::test::Fail;
use text_source::cursor::TextSource;

/// The source to look at, and what the look answers; the step then drops that item, or answers the
/// same ending.
#[derive(Clone, Copy)]
struct Draw(usize, Result<Head, Refusal>);

// The endings of the faulty text and of the cut records.
const MISSHAPEN: Refusal = Refusal {
    fault: Fault::MisshapenLine,
    place: 4,
    ..CLEAN
};

const CUT: Refusal = Refusal {
    fault: Fault::Record,
    place: 2,
    ..CLEAN
};

// The text of source 0, the records of source 1, the faulty text of 2, the cut records of 3.
const FIRST: &[u8] = b"6 1 0 2 0\n6 d 3 4 0\n";

const SECOND: &[u8] = b"LD\0\x01\0\0\0\x05LA\0\0\0\x07\0\0\x01\0\0\0\x06LE\0\0\0\x01";

const THIRD: &[u8] = b"\n8 0 0\n\n9 1 0 -2 0\n";

const FOURTH: &[u8] = b"LA\0\0\0\x09\0\0\0LE\0\0";

static DRAWS: [Draw; 18] = [
    Draw(1, Ok(Head::Deletion(1, 1))),
    Draw(0, Ok(Head::Addition(6, 1, 1, 1))),
    Draw(4, Err(CLEAN)),
    Draw(3, Ok(Head::Addition(9, 0, 0, 1))),
    Draw(3, Err(CUT)),
    Draw(2, Ok(Head::Addition(8, 0, 0, 2))),
    Draw(1, Ok(Head::Addition(7, 0, 1, 2))),
    Draw(2, Err(MISSHAPEN)),
    Draw(0, Ok(Head::Deletion(2, 2))),
    Draw(0, Err(CLEAN)),
    Draw(1, Err(CLEAN)),
    Draw(2, Err(MISSHAPEN)),
    Draw(3, Err(CUT)),
    Draw(4, Err(CLEAN)),
    Draw(5, Err(CLEAN)),
    Draw(usize::MAX, Err(CLEAN)),
    Draw(1, Err(CLEAN)),
    Draw(0, Err(CLEAN)),
];

fn four_sources() -> [AnySource<'static>; 4] {
    [
        AnySource::Text(TextSource::new(FIRST)),
        AnySource::Records(RecordSource::new(SECOND)),
        AnySource::Text(TextSource::new(THIRD)),
        AnySource::Records(RecordSource::new(FOURTH)),
    ]
}

fn draw_one(
    rt: &impl Abort,
    case: usize,
    all: &mut [AnySource<'static>],
    d: Draw,
) -> Result<(), Fail> {
    let Draw(i, wanted) = d;
    let mut literals = [LITERAL; 64];
    let mut hints = [HINT; 256];
    assert_eq!(rt;
        look_at(all, i, &mut literals, &mut hints),
        wanted,
        "draw {case}"
    );
    assert_eq!(rt; step_at(all, i), wanted.map(|_| ()), "draw {case}");
    Ok(())
}

fn draw_all(rt: &impl Abort, all: &mut [AnySource<'static>]) -> Result<(), Fail> {
    for (i, d) in DRAWS.iter().enumerate() {
        draw_one(rt, i, all, *d)?;
    }
    Ok(())
}

#[test]
fn draws(rt: HostRuntime) -> Result<(), Fail> {
    let mut all = four_sources();
    draw_all(&rt, &mut all)
}

// A look at short buffers, or at a missing source, writes nothing.
fn writes_nothing(
    rt: &impl Abort,
    i: usize,
    a: usize,
    b: usize,
    wanted: Refusal,
) -> Result<(), Fail> {
    let all = four_sources();
    let mut literals = [LITERAL; 64];
    let mut hints = [HINT; 256];
    assert!(rt; a <= 64, "source {i}");
    assert!(rt; b <= 256, "source {i}");
    let found = look_at(&all, i, &mut literals[..a], &mut hints[..b]);
    assert_eq!(rt; found, Err(wanted), "source {i}");
    assert_eq!(rt; literals, [LITERAL; 64], "source {i}");
    assert_eq!(rt; hints, [HINT; 256], "source {i}");
    Ok(())
}

#[test]
fn short_buffers(rt: HostRuntime) -> Result<(), Fail> {
    for i in 0..6 {
        writes_nothing(&rt, i, 63, 256, SHORT)?;
        writes_nothing(&rt, i, 64, 255, SHORT)?;
    }
    Ok(())
}

#[test]
fn no_source(rt: HostRuntime) -> Result<(), Fail> {
    writes_nothing(&rt, 4, 64, 256, CLEAN)?;
    writes_nothing(&rt, usize::MAX, 64, 256, CLEAN)
}

#[test]
fn no_sources(rt: HostRuntime) -> Result<(), Fail> {
    let mut all: [AnySource<'static>; 0] = [];
    draw_one(&rt, 0, &mut all, Draw(0, Err(CLEAN)))
}
