//! What can be done with a fill table. Every call is total; one that refuses writes nothing.
ghost use Rattle.std.specs.Prelude.{◌≡◌, ◌-◌, [], ◌∷◌, ◌++◌, length, set as put, if◌then◌else◌, nat_lt};
ghost use Rattle.std.specs.List.{slice_get};
ghost use Rattle.tables.specs.Filled.{slots_of, filled, capacity_of, fits, over, SameLender};

use crate::fill::Fill;

impl<'a, T: Copy> Fill<'a, T> {
    /// An empty table over the slice, whose slots stay as they are.
    pub fn new(slots: &'a mut [T]) -> Fill<'a, T>
        ensures list { filled result ≡ [] }
        ensures slots { slots_of result ≡ slots.old }
        ensures lender { result.slots.ghost_name ≡ slots.entry.ghost_name }
    {
        Fill { slots, len: 0 }
    }

    /// How many elements there are.
    pub fn len(&self) -> usize
        ensures { result ≡ length (filled self.now) }
    {
        self.len.min(self.slots.len())
    }

    /// How many more elements there is space for.
    pub fn space(&self) -> usize
        ensures { result ≡ capacity_of self.now - length (filled self.now) }
    {
        self.capacity() - self.len()
    }

    /// How many elements the whole table has space for.
    pub fn capacity(&self) -> usize
        ensures { result ≡ capacity_of self.now }
    {
        self.slots.len()
    }

    /// The elements.
    pub fn as_slice(&self) -> &[T]
        ensures { result.now ≡ filled self.now }
    {
        &self.slots[..self.len()]
    }

    /// The element at `i`, counted from 0.
    pub fn get(&self, i: usize) -> Option<T>
        ensures { result ≡ slice_get (filled self.now) i }
    {
        self.as_slice().get(i).copied()
    }

    /// Puts `x` in the place of the element at `i`; false where there is none.
    #[tactic(auto, using(crate::proofs::Fronts::set_front))]
    pub fn set(&mut self, i: usize, x: T) -> bool
        ensures answer { result ≡ nat_lt i (length (filled self.old)) }
        ensures list { filled self.new ≡ put (filled self.old) i x }
        ensures slots { slots_of self.new ≡ (if result then put (slots_of self.old) i x else slots_of self.old) }
        ensures lender { SameLender self.old self.new }
    {
        // by index: what is written through `get_mut` a proof does not know
        if i < self.len() {
            self.slots[i] = x;
            true
        } else {
            false
        }
    }

    /// What slot `i` of the whole slice holds, filled or not.
    pub fn slot(&self, i: usize) -> Option<T>
        ensures { result ≡ slice_get (slots_of self.now) i }
    {
        self.slots.get(i).copied()
    }

    /// Writes slot `i` of the whole slice, filled or not; false where there is none.
    #[tactic(auto, using(crate::proofs::Fronts::set_front))]
    pub fn set_slot(&mut self, i: usize, x: T) -> bool
        ensures answer { result ≡ nat_lt i (capacity_of self.old) }
        ensures list { filled self.new ≡ put (filled self.old) i x }
        ensures slots { slots_of self.new ≡ put (slots_of self.old) i x }
        ensures lender { SameLender self.old self.new }
    {
        if i < self.slots.len() {
            self.slots[i] = x;
            true
        } else {
            false
        }
    }

    /// Puts `x` behind the others; false where there is no space.
    #[tactic(auto, using(crate::proofs::Overs::over_next))]
    pub fn push(&mut self, x: T) -> bool
        ensures answer { result ≡ fits self.old 1 }
        ensures list { filled self.new ≡ (if result then filled self.old ++ (x ∷ []) else filled self.old) }
        ensures slots { slots_of self.new ≡ (if result then over (slots_of self.old) (length (filled self.old)) (x ∷ []) else slots_of self.old) }
        ensures lender { SameLender self.old self.new }
    {
        if self.len < self.slots.len() {
            self.slots[self.len] = x;
            self.len += 1;
            true
        } else {
            false
        }
    }

    /// Puts all of `xs` behind the others; false, and none of them put, where there is no space for all.
    pub fn extend(&mut self, xs: &[T]) -> bool
        ensures answer { result ≡ fits self.old (length xs.now) }
        ensures list { filled self.new ≡ (if result then filled self.old ++ xs.now else filled self.old) }
        ensures slots { slots_of self.new ≡ (if result then over (slots_of self.old) (length (filled self.old)) xs.now else slots_of self.old) }
        ensures lender { SameLender self.old self.new }
    {
        if self.space() < xs.len() {
            return false;
        }
        let from = self.len();
        let end = from + xs.len();
        self.slots[from..end].copy_from_slice(xs);
        self.len = end;
        true
    }

    /// Empties the table; the slots stay as they are.
    pub fn clear(&mut self)
        ensures list { filled self.new ≡ [] }
        ensures slots { slots_of self.new ≡ slots_of self.old }
        ensures lender { SameLender self.old self.new }
    {
        self.len = 0;
    }
}
