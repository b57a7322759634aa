//! Fields at the front of what is left.
ghost use Rattle.std.specs.Prelude.{ℕ, ◌&&◌, List, length, nat_le};
ghost use Rattle.record_source.specs.declared.flaw.Flaw.TheVariants.{Wrong};
ghost use Rattle.record_source.specs.Fields.{Got, then, kept, field, limit, number_field, literal_field, count_field, total_field, in_row};
ghost use Rattle.record_source.specs.Tells.{Read, ReadDigits, ReadRow};

use crate::flaw::Flaw;

// No number is beyond this in size.
const LIMIT: u32 = 2147483647;

/// The first bytes, and what is left behind them.
pub(crate) fn front<const N: usize>(rest: &[u8]) -> Result<(&[u8; N], &[u8]), Flaw>
    ensures { ReadDigits N (field N rest.now) result }
{
    rest.split_first_chunk().ok_or(Flaw::Cut)
}

// A number of four bytes, from `least` to the limit.
#[tactic(auto, using(crate::proofs::Steps::digits_four))]
fn number(rest: &[u8], least: u32) -> Result<(u32, &[u8]), Flaw>
    ensures { Read (then (field 4 rest.now) (kept (λ n. nat_le least n && nat_le n limit) Wrong)) result }
{
    let (bytes, rest) = front(rest)?;
    let n = u32::from_be_bytes(*bytes);
    if (least..=LIMIT).contains(&n) {
        Ok((n, rest))
    } else {
        Err(Flaw::Wrong)
    }
}

/// What stands in a field of four bytes.
pub(crate) trait Field: Copy {
    /// The rule of the field.
    ghost rule: { List ℕ → Got Self };

    /// The first field, and what is left behind it.
    fn read(rest: &[u8]) -> Result<(Self, &[u8]), Flaw>
        ensures { Read (rule rest.now) result };
}

/// The number of a line.
impl Field for u32 {
    ghost rule = { number_field };

    fn read(rest: &[u8]) -> Result<(u32, &[u8]), Flaw> {
        number(rest, 1)
    }
}

/// A literal.
impl Field for i32 {
    ghost rule = { literal_field };

    #[tactic(auto, using(crate::proofs::Steps::digits_four))]
    fn read(rest: &[u8]) -> Result<(i32, &[u8]), Flaw> {
        let (bytes, rest) = front(rest)?;
        let z = i32::from_be_bytes(*bytes);
        if (1..=LIMIT).contains(&z.unsigned_abs()) {
            Ok((z, rest))
        } else {
            Err(Flaw::Wrong)
        }
    }
}

// two functions, as `number` and `i32::read`: one would take `from_be_bytes` as a closure, and be longer
/// How many literals an addition has.
pub(crate) fn literal_count(rest: &[u8]) -> Result<(usize, &[u8]), Flaw>
    ensures { Read (count_field 1 64 rest.now) result }
{
    let ([n], rest) = front::<1>(rest)?;
    if *n <= 64 {
        Ok((usize::from(*n), rest))
    } else {
        Err(Flaw::Count)
    }
}

/// How many hints an addition has, or numbers a deletion.
#[tactic(auto, using(crate::proofs::Steps::digits_two))]
pub(crate) fn number_count(rest: &[u8]) -> Result<(usize, &[u8]), Flaw>
    ensures { Read (count_field 2 256 rest.now) result }
{
    let (bytes, rest) = front(rest)?;
    let n = u16::from_be_bytes(*bytes);
    if n <= 256 {
        Ok((usize::from(n), rest))
    } else {
        Err(Flaw::Count)
    }
}

/// The count of additions in the last record.
pub(crate) fn addition_count(rest: &[u8]) -> Result<(u32, &[u8]), Flaw>
    ensures { Read (total_field rest.now) result }
{
    number(rest, 0)
}

/// Reads a field into each slot of `out`, and answers what is left behind them.
pub(crate) fn row<'a, F: Field>(mut rest: &'a [u8], out: &mut [F]) -> Result<&'a [u8], Flaw>
    ensures { ReadRow (in_row F.rule (length out.old) rest.now) out.new result }
{
    for slot in out.iter_mut() {
        (*slot, rest) = F::read(rest)?;
    }
    Ok(rest)
}
