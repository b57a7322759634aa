//! A source of items. Its meaning is the list of items still to come, each with its place, and an
//! ending; every kind of source shows that its look and step do this to its list.
ghost use Rattle.std.specs.Prelude.{◌≡◌, ◌^◌, ◌<◌, List, length};
ghost use Rattle.source.specs.Items.{Placed, Ending, behind_first, first_literals, first_hints};
ghost use Rattle.source.specs.Limits.{AllWithin, EndingWithin};
ghost use Rattle.source.specs.Looks.{looked, wide, written, stepped};

use crate::head::Head;
use answers::refusal::Refusal;

pub trait Source {
    /// The items still to come. Places may repeat.
    ghost items: { Self → List Placed };

    /// What is answered when no item is left.
    ghost ending: { Self → Ending };

    /// Every item keeps the limits.
    ghost within: { (s : Self) → AllWithin (items s) };

    /// So does the ending.
    ghost ends: { (s : Self) → EndingWithin (ending s) };

    /// There are not too many items to count.
    ghost few: { (s : Self) → length (items s) < 2 ^ 63 };

    // Two slices and no `Body`: a caller may lend longer ones.
    /// Copies the first item's literals, and its hints or deleted numbers, into the fronts of the
    /// buffers. Refuses by 7 buffers shorter than 64 and 256, and with no item left by the ending;
    /// a refusal writes nothing.
    fn look(&self, literals: &mut [i32], hints: &mut [u32]) -> Result<Head, Refusal>
        ensures answer { result ≡ looked (wide literals.old hints.old) (items self.now) (ending self.now) }
        ensures literals { literals.new ≡ written (wide literals.old hints.old) (first_literals (items self.now)) literals.old }
        ensures hints { hints.new ≡ written (wide literals.old hints.old) (first_hints (items self.now)) hints.old };

    /// Drops the first item, or with none left answers the ending and drops nothing.
    fn step(&mut self) -> Result<(), Refusal>
        ensures answer { result ≡ stepped (items self.old) (ending self.old) }
        ensures after { items self.new ≡ behind_first (items self.old) }
        ensures ending { ending self.new ≡ ending self.old };
}
