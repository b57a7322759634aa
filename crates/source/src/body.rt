//! The numbers of one item.
ghost use Rattle.std.specs.Prelude.{◌≡◌, ◌≤◌, length, replicate, take, pos, Ok, Err, if◌then◌else◌};
ghost use Rattle.answers.specs.declared.fault.Fault.TheVariants.{ShortBuffer};
ghost use Rattle.answers.specs.Refusals.{refusal_at};
ghost use Rattle.source.specs.Bodies.{item_in};
ghost use Rattle.source.specs.Items.{literals_of, hints_of, onto};
ghost use Rattle.source.specs.Looks.{wide};

use crate::head::Head;
use answers::fault::Fault;
use answers::refusal::Refusal;

// Arrays whose counts stand in the head, as a look answers them; there is no heap.
/// An item's literals, and its hints or deleted numbers, in the fronts of arrays that have space
/// for any item's. How many there are its head says.
#[derive(Drop)]
pub struct Body {
    pub literals: [i32; 64],
    pub numbers: [u32; 256],
}

impl Body {
    /// Zeros.
    pub fn new() -> Body
        ensures literals { result.literals ≡ replicate 64 (pos 0) }
        ensures numbers { result.numbers ≡ replicate 256 0 }
    {
        Body {
            literals: [0; 64],
            numbers: [0; 256],
        }
    }

    /// Writes the item that this is with `head` over the fronts of the buffers, as far as they reach.
    pub fn write(&self, head: Head, literals: &mut [i32], hints: &mut [u32])
        ensures literals { literals.new ≡ onto (take (length literals.old) (literals_of (item_in head self.now))) literals.old }
        ensures hints { hints.new ≡ onto (take (length hints.old) (hints_of (item_in head self.now))) hints.old }
    {
        match head {
            Head::Addition(_, l, h, _) => {
                put_front(literals, &self.literals, l);
                put_front(hints, &self.numbers, h);
            }
            Head::Deletion(h, _) => put_front(hints, &self.numbers, h),
        }
    }
}

// Writes the first `n` elements of `from` over the front of `to`, as far as both reach.
fn put_front<T: Copy>(to: &mut [T], from: &[T], n: usize)
    ensures { to.new ≡ onto (take (length to.old) (take n from.now)) to.old }
{
    let k = n.min(from.len()).min(to.len());
    to[..k].copy_from_slice(&from[..k]);
}

/// Refuses, by 7, buffers that have no space for some item.
pub fn check_space(literals: &[i32], hints: &[u32]) -> Result<(), Refusal>
    ensures { result ≡ (if wide literals.now hints.now then Ok tt else Err (refusal_at ShortBuffer 0)) }
{
    if literals.len() < 64 || hints.len() < 256 {
        Err(Refusal::at(Fault::ShortBuffer, 0))
    } else {
        Ok(())
    }
}
