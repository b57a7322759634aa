//! The list of a source, as the program prints it.
ghost use Rattle.std.specs.Prelude.{◌≡◌, ◌≤◌, [], ◌++◌, length, string_bytes, OnOk};
ghost use Rattle.source.specs.Bodies.{item_in, place_of, Counts};
ghost use Rattle.source_text.specs.Lists.{item_text, ending_text, listing};

use answers::refusal::Refusal;
use plain_text::numbers::Spaced;
use source::body::Body;
use source::head::Head;
use source::marked::{Marked, take_first};
use std::fmt;
use std::fmt::Write;

// The line of the item that a look answered.
fn push_item(out: &mut String, head: Head, body: &Body) -> fmt::Result
    requires { Counts head }
    ensures { OnOk result (string_bytes out.new ≡ string_bytes out.old ++ item_text (place_of head) (item_in head body.now)) }
{
    match head {
        Head::Addition(number, l, h, place) => {
            let literals = Spaced(&body.literals[..l]);
            let hints = Spaced(&body.numbers[..h]);
            writeln!(out, "place={place} {number} {literals}0 {hints}0")?;
        }
        Head::Deletion(h, place) => {
            let numbers = Spaced(&body.numbers[..h]);
            writeln!(out, "place={place} 0 d {numbers}0")?;
        }
    }
    Ok(())
}

// The line of an ending.
fn push_ending(out: &mut String, ending: Refusal) -> fmt::Result
    ensures { OnOk result (string_bytes out.new ≡ string_bytes out.old ++ ending_text ending.fault ending.place) }
{
    let number = ending.fault.number();
    let place = ending.place;
    writeln!(out, "ending number={number} place={place}")?;
    Ok(())
}

/// Writes every item that the source still has behind the text, a line each, then the ending. The
/// source is at its ending then.
pub fn list<S: Marked>(out: &mut String, source: &mut S) -> fmt::Result
    ensures text { OnOk result (string_bytes out.new ≡ string_bytes out.old ++ listing (S.Source.items source.old) (S.Source.ending source.old)) }
    ensures after { OnOk result (S.Source.items source.new ≡ []) }
    ensures ending { S.Source.ending source.new ≡ S.Source.ending source.old }
{
    let mut body = Body::new();
    loop {
        match take_first(source, &mut body.literals, &mut body.numbers) {
            Ok(head) => push_item(out, head, &body)?,
            Err(ending) => {
                push_ending(out, ending)?;
                return Ok(());
            }
        }
    }
}
