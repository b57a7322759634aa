//! One case: the bytes of a source, and the list of all its items and its ending.
use record_source::cursor::RecordSource;
use source::marked::Marked;
use source_text::list::list;
use sources::kind::AnySource;
use std::alloc::Global;
use std::process::Abort;
use std::test::Fail;
use text_source::cursor::TextSource;

/// The bytes of a source and its list.
#[derive(Clone, Copy)]
pub(crate) struct Case(pub(crate) &'static [u8], pub(crate) &'static str);

// The source has this list.
fn expect_list<M: Marked>(
    rt: &impl Abort,
    case: usize,
    heap: Global,
    source: &mut M,
    listing: &str,
) -> Result<(), Fail> {
    let mut out = String::new(heap);
    list(&mut out, source)?;
    assert_eq!(rt; out.as_str(), listing, "case {case}");
    Ok(())
}

// The source has this list, alone and as one of any kind.
fn expect_both<M: Marked>(
    rt: &impl Abort,
    case: usize,
    heap: Global,
    source: &mut M,
    any: &mut AnySource,
    listing: &str,
) -> Result<(), Fail> {
    expect_list(rt, case, heap, source, listing)?;
    expect_list(rt, case, heap, any, listing)
}

// Two functions: nothing makes an `AnySource` of either source, and what they share is one call.

/// The text has this list.
pub(crate) fn expect_text<R: Abort>(
    rt: &R,
    case: usize,
    heap: Global,
    bytes: &[u8],
    listing: &str,
) -> Result<(), Fail> {
    let mut text = TextSource::new(bytes);
    let mut any = AnySource::Text(text);
    expect_both(rt, case, heap, &mut text, &mut any, listing)
}

/// The record file has this list.
pub(crate) fn expect_file<R: Abort>(
    rt: &R,
    case: usize,
    heap: Global,
    bytes: &[u8],
    listing: &str,
) -> Result<(), Fail> {
    let mut records = RecordSource::new(bytes);
    let mut any = AnySource::Records(records);
    expect_both(rt, case, heap, &mut records, &mut any, listing)
}

/// Each case is as `expect` has it; a failure names the case, counted from 0.
pub(crate) fn expect_each<R: Abort, T: Copy, F: Fn(&R, usize, Global, T) -> Result<(), Fail>>(
    rt: &R,
    heap: Global,
    cases: &[T],
    expect: F,
) -> Result<(), Fail>
    requires { F.IsAlwaysCallable expect }
{
    for (i, c) in cases.iter().enumerate() {
        expect(rt, i, heap, *c)?;
    }
    Ok(())
}

fn expect_text_of<R: Abort>(rt: &R, case: usize, heap: Global, c: Case) -> Result<(), Fail> {
    let Case(bytes, listing) = c;
    expect_text(rt, case, heap, bytes, listing)
}

fn expect_file_of<R: Abort>(rt: &R, case: usize, heap: Global, c: Case) -> Result<(), Fail> {
    let Case(bytes, listing) = c;
    expect_file(rt, case, heap, bytes, listing)
}

/// Each text has its list.
pub(crate) fn expect_texts<R: Abort>(rt: &R, heap: Global, cases: &[Case]) -> Result<(), Fail> {
    expect_each(rt, heap, cases, expect_text_of::<R>)
}

/// Each record file has its list.
pub(crate) fn expect_files<R: Abort>(rt: &R, heap: Global, cases: &[Case]) -> Result<(), Fail> {
    expect_each(rt, heap, cases, expect_file_of::<R>)
}
