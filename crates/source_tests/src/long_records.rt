//! Records at the limits: 64 literals, 256 hints, 256 deleted numbers.
use crate::listings::{expect_each, expect_file};
use crate::long_lines::push_row;
use std::alloc::{AllocError, Global};
use std::process::Abort;
use std::test::Fail;

/// How many literals and hints an addition has, and the number of the fault that ends it.
#[derive(Clone, Copy)]
struct Addition(u16, u16, Result<(), u8>);

/// How many numbers a deletion has, and the number of the fault that ends it.
#[derive(Clone, Copy)]
struct Deletion(u16, Result<(), u8>);

static ADDITIONS: [Addition; 14] = [
    Addition(0, 0, Ok(())),
    Addition(1, 1, Ok(())),
    Addition(63, 255, Ok(())),
    Addition(64, 0, Ok(())),
    Addition(0, 256, Ok(())),
    Addition(64, 256, Ok(())),
    Addition(65, 0, Err(25)),
    Addition(65, 1, Err(25)),
    Addition(255, 0, Err(25)),
    Addition(0, 257, Err(25)),
    Addition(64, 257, Err(25)),
    Addition(65, 256, Err(25)),
    Addition(65, 257, Err(25)),
    Addition(1, 600, Err(25)),
];

static DELETIONS: [Deletion; 8] = [
    Deletion(0, Ok(())),
    Deletion(1, Ok(())),
    Deletion(255, Ok(())),
    Deletion(256, Ok(())),
    Deletion(257, Err(25)),
    Deletion(258, Err(25)),
    Deletion(512, Err(25)),
    Deletion(600, Err(25)),
];

// Writes a field of two bytes.
fn push_two(out: &mut Vec<u8>, n: u16) -> Result<(), AllocError> {
    out.extend_from_slice(&n.to_be_bytes())
}

// Writes the fields of the numbers from 1 to `n`.
fn push_fields(out: &mut Vec<u8>, n: u16) -> Result<(), AllocError> {
    for v in 1..=u32::from(n) {
        out.extend_from_slice(&v.to_be_bytes())?;
    }
    Ok(())
}

// The file of one addition with the number 7.
fn addition_file(heap: Global, l: u16, h: u16) -> Result<Vec<u8>, AllocError> {
    let mut out = Vec::from_slice(heap, b"LA\0\0\0\x07")?;
    out.push((l & 0xff) as u8)?;
    push_two(&mut out, h)?;
    push_fields(&mut out, l)?;
    push_fields(&mut out, h)?;
    out.extend_from_slice(b"LE\0\0\0\x01")?;
    Ok(out)
}

// The file of one deletion.
fn deletion_file(heap: Global, n: u16) -> Result<Vec<u8>, AllocError> {
    let mut out = Vec::from_slice(heap, b"LD")?;
    push_two(&mut out, n)?;
    push_fields(&mut out, n)?;
    out.extend_from_slice(b"LE\0\0\0\0")?;
    Ok(out)
}

// The list of one addition with the number 7.
fn addition_list(heap: Global, l: u16, h: u16) -> Result<String, AllocError> {
    let mut out = String::from_str(heap, "place=1 7 ")?;
    push_row(&mut out, l)?;
    out.push_str("0 ")?;
    push_row(&mut out, h)?;
    out.push_str("0\nending number=20 place=0\n")?;
    Ok(out)
}

// The list of one deletion.
fn deletion_list(heap: Global, n: u16) -> Result<String, AllocError> {
    let mut out = String::from_str(heap, "place=1 0 d ")?;
    push_row(&mut out, n)?;
    out.push_str("0\nending number=20 place=0\n")?;
    Ok(out)
}

// The file has this list, or no item and this fault at place 1.
fn expect(
    rt: &impl Abort,
    case: usize,
    heap: Global,
    file: &[u8],
    listing: &str,
    wanted: Result<(), u8>,
) -> Result<(), Fail> {
    match wanted {
        Ok(()) => expect_file(rt, case, heap, file, listing),
        Err(number) => {
            let ending = format!(in heap; "ending number={number} place=1\n")?;
            expect_file(rt, case, heap, file, ending.as_str())
        }
    }
}

fn expect_addition<R: Abort>(rt: &R, case: usize, heap: Global, c: Addition) -> Result<(), Fail> {
    let Addition(l, h, wanted) = c;
    let file = addition_file(heap, l, h)?;
    let listing = addition_list(heap, l, h)?;
    expect(rt, case, heap, file.as_slice(), listing.as_str(), wanted)
}

fn expect_deletion<R: Abort>(rt: &R, case: usize, heap: Global, c: Deletion) -> Result<(), Fail> {
    let Deletion(n, wanted) = c;
    let file = deletion_file(heap, n)?;
    let listing = deletion_list(heap, n)?;
    expect(rt, case, heap, file.as_slice(), listing.as_str(), wanted)
}

#[test]
fn long_additions(rt: HostRuntime) -> Result<(), Fail> {
    expect_each(&rt, rt.alloc(), &ADDITIONS, expect_addition::<HostRuntime>)
}

#[test]
fn long_deletions(rt: HostRuntime) -> Result<(), Fail> {
    expect_each(&rt, rt.alloc(), &DELETIONS, expect_deletion::<HostRuntime>)
}
