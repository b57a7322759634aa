//! Text lines of a partial proof, from behind a first token on.
ghost use Rattle.std.specs.Prelude.{◌∷◌, length};
ghost use Rattle.text.specs.Words.Token.{number as token};
ghost use Rattle.text.specs.Fronts.{tokens_left, behind_line};
ghost use Rattle.text_source.specs.Parse.{collect, numbers_in, literals_in, addition_of, parse};
ghost use Rattle.text_source.specs.Lines.{tokens_from, line_behind, Runs, Lasts, Reads};

use crate::kept::Kept;
use answers::fault::Fault;
use source::body::Body;
use source::head::Head;
use text::scan::Scan;
use text::scanner::{line_end, scan};

// Reads the numbers from a first token on up to a 0 into the front of `out`. Answers how many they
// are, and what stands behind the 0.
fn run<'a, T: Kept>(first: Scan<'a>, out: &mut [T]) -> Result<(usize, &'a [u8]), Fault>
    ensures { Runs (collect T.keep (length out.old) (tokens_from first.entry)) (line_behind first.entry) out.new result }
{
    let mut token = first;
    // counted by hand: a loop over `out` would have to test one more number behind it
    let mut n = 0;
    while let Scan::Number(z, rest) = token {
        if z == 0 {
            return Ok((n, rest));
        }
        let x = T::kept(z).ok_or(Fault::MisshapenLine)?;
        if n == out.len() {
            return Err(Fault::CountLimit);
        }
        out[n] = x;
        n += 1;
        token = scan(rest);
    }
    Err(Fault::MisshapenLine)
}

// Reads the hints or deleted numbers that end a line. Answers how many they are, and what stands
// behind the line.
fn last_run<'a>(text: &'a [u8], numbers: &mut [u32; 256]) -> Result<(usize, &'a [u8]), Fault>
    ensures { Lasts (numbers_in (tokens_left text.now)) (behind_line text.now) numbers.new result }
{
    let (n, rest) = run(scan(text), numbers)?;
    let behind = line_end(rest).ok_or(Fault::MisshapenLine)?;
    Ok((n, behind))
}

// An addition in the line at `place`, from its first literal or their 0 on.
fn addition<'a>(
    own: u32,
    first: Scan<'a>,
    place: usize,
    body: &mut Body,
) -> Result<(Head, &'a [u8]), Fault>
    ensures { Reads (addition_of own (literals_in (tokens_from first.entry))) place (line_behind first.entry) body.new result }
{
    let (l, middle) = run(first, &mut body.literals)?;
    let (h, behind) = last_run(middle, &mut body.numbers)?;
    Ok((Head::Addition(own, l, h, place), behind))
}

// The line at `place` that begins with the number `first`, and what stands behind it.
pub(crate) fn line<'a>(
    first: i32,
    text: &'a [u8],
    place: usize,
    body: &mut Body,
) -> Result<(Head, &'a [u8]), Fault>
    ensures { Reads (parse (token first ∷ tokens_left text.now)) place (behind_line text.now) body.new result }
{
    let own = u32::try_from(first).map_err(|_| Fault::MisshapenLine)?;
    match scan(text) {
        Scan::Word([b'd'], rest) => {
            let (n, behind) = last_run(rest, &mut body.numbers)?;
            Ok((Head::Deletion(n, place), behind))
        }
        token @ Scan::Number(_, _) if own != 0 => addition(own, token, place, body),
        _ => Err(Fault::MisshapenLine),
    }
}
