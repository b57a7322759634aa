//! The clauses of a formula file: each a line of its literals, then `0`.
ghost use Rattle.std.specs.Prelude.{◌≡◌, Ok};
ghost use Rattle.formula.specs.Reading.{offence, unless};
ghost use Rattle.formula.specs.Cursors.{Closes, ClauseAt, ClausesOf, NextAt};

use crate::clauses::Clauses;
use crate::header::read_header;
use crate::lines::seek;
use crate::variable::has_variable;
use answers::fault::Fault;
use answers::refusal::Refusal;
use text::scan::Scan;
use text::scanner::{line_end, scan};

// Whether the literal `l` may stand behind the literals of its clause.
fn admit(literals: &[i32], l: i32, variables: usize, surplus: bool) -> Result<(), Fault>
    ensures { result ≡ unless (offence variables surplus literals.now l) (Ok tt) }
{
    let variable = l.unsigned_abs();
    if variable as usize > variables {
        Err(Fault::VariableAbove)
    } else if has_variable(literals, variable) {
        Err(Fault::VariableTwice)
    } else if literals.len() >= 64 {
        Err(Fault::ManyLiterals)
    } else if surplus {
        Err(Fault::ClauseCount)
    } else {
        Ok(())
    }
}

// The 0 behind the literals was read: what stands behind the line.
fn close(text: &[u8], surplus: bool) -> Result<&[u8], Fault>
    ensures { Closes text.now surplus result }
{
    if surplus {
        return Err(Fault::ClauseCount);
    }
    line_end(text).ok_or(Fault::Misshapen)
}

// The clause that the line at the front is, now in the front of `out`, and what stands behind it.
fn read_clause<'a, 'c>(
    text: &'a [u8],
    variables: usize,
    surplus: bool,
    out: &'c mut [i32; 64],
) -> Result<(&'c [i32], &'a [u8]), Fault>
    ensures { ClauseAt text.now variables surplus result }
{
    let mut rest = text;
    // The count stands beside the array: a `Fill` lends its elements no longer than it lives itself.
    let mut n = 0;
    loop {
        let Scan::Number(l, behind) = scan(rest) else {
            return Err(Fault::Misshapen);
        };
        rest = behind;
        if l == 0 {
            break;
        }
        admit(&out[..n], l, variables, surplus)?;
        out[n] = l;
        n += 1;
    }
    let rest = close(rest, surplus)?;
    Ok((&out[..n], rest))
}

impl<'a> Clauses<'a> {
    /// The clauses of a file: none of them is read yet.
    pub(crate) fn of(text: &'a [u8]) -> Result<Clauses<'a>, Refusal>
        ensures { ClausesOf text.now result }
    {
        let (row, lines) = seek(text).ok_or(Refusal::at(Fault::Header, 0))?;
        let (header, rest) = read_header(row).ok_or(Refusal::at(Fault::Header, lines))?;
        Ok(Clauses {
            header,
            rest,
            lines,
            count: 0,
        })
    }

    /// The next clause, now in the front of `out`.
    pub(crate) fn next<'c>(&mut self, out: &'c mut [i32; 64]) -> Result<Option<&'c [i32]>, Refusal>
        ensures { NextAt self.old self.new result }
    {
        let Some((row, line)) = seek(self.rest) else {
            return Ok(None);
        };
        let line = self.lines + line;
        let surplus = self.count >= self.header.clauses;
        let read = read_clause(row, self.header.variables, surplus, out);
        let (clause, rest) = read.map_err(|fault| Refusal::at(fault, line))?;
        self.rest = rest;
        self.lines = line;
        self.count += 1;
        Ok(Some(clause))
    }
}
