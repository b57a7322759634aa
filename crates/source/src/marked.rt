//! A source that need not find the end of its first item twice: a look that answers a mark, and a
//! step that is given it.
ghost use Rattle.std.specs.Prelude.{◌≡◌};
ghost use Rattle.source.specs.declared.head.Mark.{Mark as MarkOf};
ghost use Rattle.source.specs.Items.{behind_first, first_literals, first_hints};
ghost use Rattle.source.specs.Looks.{looked, wide, written};
ghost use Rattle.source.specs.Marks.{unmarked, Leads, dropped_if};

use crate::head::{Head, Mark};
use crate::source::Source;
use answers::refusal::Refusal;

pub trait Marked: Source {
    /// That a mark leads behind the first item.
    ghost leads: { Self → MarkOf → Type 0 };

    /// Looks, and answers a mark that leads behind the first item.
    fn fetch(&self, literals: &mut [i32], hints: &mut [u32]) -> Result<(Head, Mark), Refusal>
        ensures answer { unmarked result ≡ looked (wide literals.old hints.old) (Self.Source.items self.now) (Self.Source.ending self.now) }
        ensures literals { literals.new ≡ written (wide literals.old hints.old) (first_literals (Self.Source.items self.now)) literals.old }
        ensures hints { hints.new ≡ written (wide literals.old hints.old) (first_hints (Self.Source.items self.now)) hints.old }
        ensures mark { Leads (leads self.now) result };

    /// Drops the first item, if the mark leads behind it.
    fn pass(&mut self, mark: Mark)
        ensures after { leads self.old mark → Self.Source.items self.new ≡ behind_first (Self.Source.items self.old) }
        ensures ending { leads self.old mark → Self.Source.ending self.new ≡ Self.Source.ending self.old };
}

/// Looks at the first item and drops it: one call for each item of a source.
pub fn take_first<S: Marked>(
    source: &mut S,
    literals: &mut [i32],
    hints: &mut [u32],
) -> Result<Head, Refusal>
    ensures answer { result ≡ looked (wide literals.old hints.old) (S.Source.items source.old) (S.Source.ending source.old) }
    ensures literals { literals.new ≡ written (wide literals.old hints.old) (first_literals (S.Source.items source.old)) literals.old }
    ensures hints { hints.new ≡ written (wide literals.old hints.old) (first_hints (S.Source.items source.old)) hints.old }
    ensures after { S.Source.items source.new ≡ dropped_if result (S.Source.items source.old) }
    ensures ending { S.Source.ending source.new ≡ S.Source.ending source.old }
{
    let (head, mark) = source.fetch(literals, hints)?;
    source.pass(mark);
    Ok(head)
}
