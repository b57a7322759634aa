//! The header of a formula file, `p cnf V o`.
ghost use Rattle.formula.specs.Cursors.{Keyword, Counted, HeaderAt};

use crate::clauses::Header;
use text::scan::Scan;
use text::scanner::{line_end, scan};

// What stands behind the word `name`, if that is the next token.
fn keyword<'a>(text: &'a [u8], name: &[u8]) -> Option<&'a [u8]>
    ensures { Keyword text.now name.now result }
{
    let Scan::Word(word, rest) = scan(text) else {
        return None;
    };
    (word == name).then_some(rest)
}

// The next token as a number from `low` to `high`, and what stands behind it.
fn count(text: &[u8], low: usize, high: usize) -> Option<(usize, &[u8])>
    ensures { Counted text.now low high result }
{
    let Scan::Number(z, rest) = scan(text) else {
        return None;
    };
    let n = usize::try_from(z).ok()?;
    (low..=high).contains(&n).then_some((n, rest))
}

// The header that the line at the front is, and what stands behind it.
pub(crate) fn read_header(text: &[u8]) -> Option<(Header, &[u8])>
    ensures { HeaderAt text.now result }
{
    let rest = keyword(text, b"p")?;
    let rest = keyword(rest, b"cnf")?;
    let (variables, rest) = count(rest, 1, 4096)?;
    let (clauses, rest) = count(rest, 0, 65536)?;
    let rest = line_end(rest)?;
    Some((Header { variables, clauses }, rest))
}
