//! Records at the front of what is left.
ghost use Rattle.record_source.specs.Records.{addition_fields, deletion_fields, record_fields, first_record};
ghost use Rattle.record_source.specs.Tells.{ReadRecord, digits};

use crate::fields::{Field, addition_count, front, literal_count, number_count, row};
use crate::flaw::Flaw;
use crate::found::Found;
use source::body::Body;
use source::head::Head;

// The addition whose number stands first.
fn addition<'a>(rest: &'a [u8], place: usize, body: &mut Body) -> Result<(Found, &'a [u8]), Flaw>
    ensures { ReadRecord (addition_fields rest.now) place body.new result }
{
    let (n, rest) = u32::read(rest)?;
    let (l, rest) = literal_count(rest)?;
    let (h, rest) = number_count(rest)?;
    let rest = row(rest, &mut body.literals[..l])?;
    let rest = row(rest, &mut body.numbers[..h])?;
    Ok((Found::Item(Head::Addition(n, l, h, place)), rest))
}

// The deletion whose count stands first.
fn deletion<'a>(rest: &'a [u8], place: usize, body: &mut Body) -> Result<(Found, &'a [u8]), Flaw>
    ensures { ReadRecord (deletion_fields rest.now) place body.new result }
{
    let (h, rest) = number_count(rest)?;
    let rest = row(rest, &mut body.numbers[..h])?;
    Ok((Found::Item(Head::Deletion(h, place)), rest))
}

// The record with this mark, from behind the mark on.
#[tactic(auto, using(crate::proofs::Steps::digits_two))]
fn marked<'a>(
    mark: &[u8; 2],
    rest: &'a [u8],
    place: usize,
    body: &mut Body,
) -> Result<(Found, &'a [u8]), Flaw>
    ensures { ReadRecord (record_fields (digits 0 mark.now) rest.now) place body.new result }
{
    match mark {
        b"LA" => addition(rest, place, body),
        b"LD" => deletion(rest, place, body),
        b"LE" => {
            let (n, rest) = addition_count(rest)?;
            Ok((Found::Last(n), rest))
        }
        _ => Err(Flaw::Wrong),
    }
}

/// The record at this place, and what is left behind it.
pub(crate) fn first<'a>(
    rest: &'a [u8],
    place: usize,
    body: &mut Body,
) -> Result<(Found, &'a [u8]), Flaw>
    ensures { ReadRecord (first_record rest.now) place body.new result }
{
    let (mark, rest) = front::<2>(rest)?;
    marked(mark, rest, place, body)
}
