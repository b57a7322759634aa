//! Whether every hint names a clause.
ghost use Rattle.std.specs.Prelude.{◌≡◌};
ghost use Rattle.std.specs.Result.{result_err};
ghost use Rattle.lines.specs.Tables.{named_in};
ghost use Rattle.rup.specs.Propagation.{gather};

use lines::lines::Lines;

// The position, from 1, of the first hint that names no clause.
pub(crate) fn unknown_hint(lines: &Lines, hints: &[u32]) -> Option<usize>
    ensures { result ≡ result_err (gather (named_in lines.now) 0 hints.now) }
{
    let place = hints.iter().position(|h| lines.clause(*h).is_none());
    place.map(|p| p + 1)
}
