//! The sources of the solvers of one join. A solver without a source has empty text: no item, and
//! the clean ending.
ghost use Rattle.std.specs.Prelude.{◌≡◌, map, slice_set};
ghost use Rattle.source.specs.Items.{behind_first, first_literals, first_hints};
ghost use Rattle.source.specs.Looks.{looked, wide, written, stepped};
ghost use Rattle.sources.specs.Solvers.{items_of, ending_of};

use answers::fault::Fault;
use answers::refusal::Refusal;
use source::body::check_space;
use source::head::Head;
use source::source::Source;

/// Looks at the source at `i`, counted from 0.
pub fn look_at<S: Source>(
    sources: &[S],
    i: usize,
    literals: &mut [i32],
    hints: &mut [u32],
) -> Result<Head, Refusal>
    ensures answer { result ≡ looked (wide literals.old hints.old) (items_of (map S.Source.items sources.now) i) (ending_of (map S.Source.ending sources.now) i) }
    ensures literals { literals.new ≡ written (wide literals.old hints.old) (first_literals (items_of (map S.Source.items sources.now) i)) literals.old }
    ensures hints { hints.new ≡ written (wide literals.old hints.old) (first_hints (items_of (map S.Source.items sources.now) i)) hints.old }
{
    match sources.get(i) {
        Some(source) => source.look(literals, hints),
        None => {
            check_space(literals, hints)?;
            Err(Refusal::at(Fault::NoItem, 0))
        }
    }
}

/// Drops the first item of the source at `i`; the others stay as they are.
pub fn step_at<S: Source>(sources: &mut [S], i: usize) -> Result<(), Refusal>
    ensures answer { result ≡ stepped (items_of (map S.Source.items sources.old) i) (ending_of (map S.Source.ending sources.old) i) }
    ensures items { map S.Source.items sources.new ≡ slice_set (map S.Source.items sources.old) i (behind_first (items_of (map S.Source.items sources.old) i)) }
    ensures endings { map S.Source.ending sources.new ≡ map S.Source.ending sources.old }
{
    // by index: what is written through `get_mut` a proof does not know
    if i < sources.len() {
        sources[i].step()
    } else {
        Err(Refusal::at(Fault::NoItem, 0))
    }
}
