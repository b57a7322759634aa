//! Looks and steps on one source.
use crate::looks::{CLEAN, HINT, LITERAL, SHORT};
use answers::fault::Fault;
use answers::refusal::Refusal;
use record_source::cursor::RecordSource;
use source::head::Head;
use source::marked::{Marked, take_first};
use source::source::Source;
use sources::kind::AnySource;
use std::process::Abort;
use std::test::Fail;
use text_source::cursor::TextSource;

// An addition, a deletion, an addition, as text and as records.
const TEXT: &[u8] = b"\n6 1 -2 0 3 4 5 0\n\n0 d 8 9 0\n7 0 6 0\n";

const TEXT_FAULT: &[u8] = b"\n6 1 -2 0 3 4 5 0\n\n0 d 8 9 0\n7 0 6 0\nx\n";

const FILE: &[u8] =
    b"LA\0\0\0\x06\x02\0\x03\0\0\0\x01\xff\xff\xff\xfe\0\0\0\x03\0\0\0\x04\0\0\0\x05LD\0\x02\0\0\0\x08\0\0\0\x09LA\0\0\0\x07\0\0\x01\0\0\0\x06LE\0\0\0\x02";

/// The lengths of two buffers, and whether a look refuses them.
#[derive(Clone, Copy)]
struct Room(usize, usize, bool);

static ROOMS: [Room; 10] = [
    Room(63, 255, true),
    Room(63, 256, true),
    Room(64, 255, true),
    Room(63, 260, true),
    Room(70, 255, true),
    Room(0, 0, true),
    Room(0, 260, true),
    Room(70, 0, true),
    Room(64, 256, false),
    Room(70, 260, false),
];

/// What a source answers, look by look: its three items and its ending.
#[derive(Clone, Copy)]
struct Row {
    items: [Head; 3],
    ending: Refusal,
}

const OF_TEXT: Row = Row {
    items: [
        Head::Addition(6, 2, 3, 2),
        Head::Deletion(2, 4),
        Head::Addition(7, 0, 1, 5),
    ],
    ending: CLEAN,
};

const OF_FAULT: Row = Row {
    items: [
        Head::Addition(6, 2, 3, 2),
        Head::Deletion(2, 4),
        Head::Addition(7, 0, 1, 5),
    ],
    ending: Refusal {
        fault: Fault::MisshapenLine,
        place: 6,
        ..CLEAN
    },
};

const OF_FILE: Row = Row {
    items: [
        Head::Addition(6, 2, 3, 1),
        Head::Deletion(2, 2),
        Head::Addition(7, 0, 1, 3),
    ],
    ending: CLEAN,
};

// What the look at buffers of these lengths answers.
fn look_in<S: Source>(
    rt: &impl Abort,
    source: &S,
    literals: &mut [i32; 70],
    hints: &mut [u32; 260],
    a: usize,
    b: usize,
) -> Result<Head, Refusal> {
    assert!(rt; a <= 70);
    assert!(rt; b <= 260);
    source.look(&mut literals[..a], &mut hints[..b])
}

fn expect_room<S: Source>(
    rt: &impl Abort,
    case: usize,
    source: &S,
    room: Room,
    first: Head,
) -> Result<(), Fail> {
    let Room(a, b, refused) = room;
    let mut literals = [LITERAL; 70];
    let mut hints = [HINT; 260];
    let mut front = [LITERAL; 70];
    let mut front_hints = [HINT; 260];
    let found = look_in(rt, source, &mut literals, &mut hints, a, b);
    if refused {
        assert_eq!(rt; found, Err(SHORT), "room {case}");
    } else {
        assert_eq!(rt; found, Ok(first), "room {case}");
        front[0] = 1;
        front[1] = -2;
        front_hints[0] = 3;
        front_hints[1] = 4;
        front_hints[2] = 5;
    }
    assert_eq!(rt; literals, front, "room {case}");
    assert_eq!(rt; hints, front_hints, "room {case}");
    Ok(())
}

// Every look is at the same first item; what lies behind it in the buffers stays.
fn expect_rooms<S: Source>(rt: &impl Abort, source: &S, first: Head) -> Result<(), Fail> {
    for (i, room) in ROOMS.iter().enumerate() {
        expect_room(rt, i, source, *room, first)?;
    }
    Ok(())
}

#[test]
fn rooms(rt: HostRuntime) -> Result<(), Fail> {
    let [of_text, _, _] = OF_TEXT.items;
    let [of_file, _, _] = OF_FILE.items;
    expect_rooms(&rt, &TextSource::new(TEXT), of_text)?;
    expect_rooms(&rt, &TextSource::new(TEXT_FAULT), of_text)?;
    expect_rooms(&rt, &RecordSource::new(FILE), of_file)?;
    expect_rooms(&rt, &AnySource::Text(TextSource::new(TEXT)), of_text)?;
    expect_rooms(&rt, &AnySource::Records(RecordSource::new(FILE)), of_file)
}

fn fetch_short<M: Marked>(
    rt: &impl Abort,
    case: usize,
    source: &M,
    a: usize,
    b: usize,
) -> Result<(), Fail> {
    let mut literals = [LITERAL; 70];
    let mut hints = [HINT; 260];
    assert!(rt; a <= 70, "room {case}");
    assert!(rt; b <= 260, "room {case}");
    let found = source.fetch(&mut literals[..a], &mut hints[..b]);
    assert_eq!(rt; found, Err(SHORT), "room {case}");
    assert_eq!(rt; literals, [LITERAL; 70], "room {case}");
    assert_eq!(rt; hints, [HINT; 260], "room {case}");
    Ok(())
}

#[test]
fn fetches_short(rt: HostRuntime) -> Result<(), Fail> {
    for (i, room) in ROOMS.iter().enumerate() {
        let Room(a, b, refused) = *room;
        if refused {
            fetch_short(&rt, i, &TextSource::new(TEXT), a, b)?;
            fetch_short(&rt, i, &RecordSource::new(FILE), a, b)?;
        }
    }
    Ok(())
}

// What turn `i` answers: the items, then the ending again and again.
fn of_turn(row: Row, i: usize) -> Result<Head, Refusal> {
    row.items.get(i).copied().ok_or(row.ending)
}

// What buffers hold after a look in turn `i`: the item in front, and what stood there before.
fn literals_of(i: usize) -> [i32; 64] {
    let mut out = [LITERAL; 64];
    if i == 0 {
        out[0] = 1;
        out[1] = -2;
    }
    out
}

fn hints_of(i: usize) -> [u32; 256] {
    let mut out = [HINT; 256];
    if i == 0 {
        out[0] = 3;
        out[1] = 4;
        out[2] = 5;
    } else if i == 1 {
        out[0] = 8;
        out[1] = 9;
    } else if i == 2 {
        out[0] = 6;
    }
    out
}

// Two looks, then a step.
fn turn<S: Source>(rt: &impl Abort, source: &mut S, row: Row, i: usize) -> Result<(), Fail> {
    let mut literals = [LITERAL; 64];
    let mut hints = [HINT; 256];
    let wanted = of_turn(row, i);
    assert_eq!(rt; source.look(&mut literals, &mut hints), wanted, "turn {i}");
    assert_eq!(rt; source.look(&mut literals, &mut hints), wanted, "turn {i}");
    assert_eq!(rt; literals, literals_of(i), "turn {i}");
    assert_eq!(rt; hints, hints_of(i), "turn {i}");
    assert_eq!(rt; source.step(), wanted.map(|_| ()), "turn {i}");
    Ok(())
}

fn turns<S: Source>(rt: &impl Abort, source: &mut S, row: Row) -> Result<(), Fail> {
    for i in 0..8 {
        turn(rt, source, row, i)?;
    }
    Ok(())
}

#[test]
fn looks_and_steps(rt: HostRuntime) -> Result<(), Fail> {
    turns(&rt, &mut TextSource::new(TEXT), OF_TEXT)?;
    turns(&rt, &mut TextSource::new(TEXT_FAULT), OF_FAULT)?;
    turns(&rt, &mut RecordSource::new(FILE), OF_FILE)?;
    turns(
        &rt,
        &mut AnySource::Text(TextSource::new(TEXT_FAULT)),
        OF_FAULT,
    )?;
    turns(
        &rt,
        &mut AnySource::Records(RecordSource::new(FILE)),
        OF_FILE,
    )
}

// Fetches, and passes what is found; the buffers are as after a look.
fn fetch_turn<M: Marked>(rt: &impl Abort, source: &mut M, row: Row, i: usize) -> Result<(), Fail> {
    let mut literals = [LITERAL; 64];
    let mut hints = [HINT; 256];
    let mut by_look = [LITERAL; 64];
    let mut hints_by_look = [HINT; 256];
    let wanted = of_turn(row, i);
    assert_eq!(rt;
        source.look(&mut by_look, &mut hints_by_look),
        wanted,
        "turn {i}"
    );
    let found = source.fetch(&mut literals, &mut hints);
    assert_eq!(rt; found.map(|(head, _)| head), wanted, "turn {i}");
    if let Ok((_, mark)) = found {
        source.pass(mark);
    }
    assert_eq!(rt; literals, by_look, "turn {i}");
    assert_eq!(rt; hints, hints_by_look, "turn {i}");
    Ok(())
}

fn fetch_turns<M: Marked>(rt: &impl Abort, source: &mut M, row: Row) -> Result<(), Fail> {
    for i in 0..6 {
        fetch_turn(rt, source, row, i)?;
    }
    Ok(())
}

#[test]
fn fetches_and_passes(rt: HostRuntime) -> Result<(), Fail> {
    fetch_turns(&rt, &mut TextSource::new(TEXT), OF_TEXT)?;
    fetch_turns(&rt, &mut TextSource::new(TEXT_FAULT), OF_FAULT)?;
    fetch_turns(&rt, &mut RecordSource::new(FILE), OF_FILE)?;
    fetch_turns(
        &rt,
        &mut AnySource::Text(TextSource::new(TEXT_FAULT)),
        OF_FAULT,
    )?;
    fetch_turns(
        &rt,
        &mut AnySource::Records(RecordSource::new(FILE)),
        OF_FILE,
    )
}

fn take_turn<M: Marked>(rt: &impl Abort, source: &mut M, row: Row, i: usize) -> Result<(), Fail> {
    let mut literals = [LITERAL; 64];
    let mut hints = [HINT; 256];
    let found = take_first(source, &mut literals, &mut hints);
    assert_eq!(rt; found, of_turn(row, i), "turn {i}");
    Ok(())
}

fn take_turns<M: Marked>(rt: &impl Abort, source: &mut M, row: Row) -> Result<(), Fail> {
    for i in 0..6 {
        take_turn(rt, source, row, i)?;
    }
    Ok(())
}

#[test]
fn takes(rt: HostRuntime) -> Result<(), Fail> {
    take_turns(&rt, &mut TextSource::new(TEXT_FAULT), OF_FAULT)?;
    take_turns(&rt, &mut RecordSource::new(FILE), OF_FILE)?;
    take_turns(&rt, &mut AnySource::Text(TextSource::new(TEXT)), OF_TEXT)
}
