// Storing parts.
ghost use Rattle.std.specs.Prelude.{◌≡◌, ℕ, ◌+◌, ◌<◌, ◌≤◌, [], ◌++◌, length, slice_index_or};
ghost use Rattle.pool.specs.Stored.{parts_of, stored};

use crate::parts::Parts;

impl<'a, P: Copy> Parts<'a, P> {
    // The slice is the caller's; from here on the type says that it is small.
    /// A store of parts over the slice, with none in use.
    pub fn new(parts: &'a mut [P]) -> Parts<'a, P>
        requires small { length parts.old < 65536 }
        ensures used { result.used ≡ 0 }
        ensures stored { stored result ≡ [] }
        ensures same { parts_of result ≡ parts.old }
        ensures lent { result.parts.ghost_name ≡ parts.entry.ghost_name }
    {
        Parts { parts, used: 0 }
    }

    /// The parts in use.
    pub fn stored(&self) -> &[P]
        ensures stored { result.now ≡ stored self.now }
    {
        &self.parts[0..self.used]
    }

    // Copies the parts to the end of those in use, and answers where they begin.
    pub(crate) fn store(&mut self, own: &[P]) -> usize
        requires room { self.old.used + length own.now ≤ length (parts_of self.old) }
        ensures from { result ≡ self.old.used }
        ensures used { self.new.used ≡ self.old.used + length own.now }
        ensures stored { stored self.new ≡ stored self.old ++ own.now }
        ensures elsewhere { (i : ℕ) (d : P) → self.new.used ≤ i → slice_index_or (parts_of self.new) i d ≡ slice_index_or (parts_of self.old) i d }
        ensures long { length (parts_of self.new) ≡ length (parts_of self.old) }
        ensures lent { self.new.parts.ghost_name ≡ self.old.parts.ghost_name }
    {
        let from = self.used;
        let to = from + own.len();
        self.parts[from..to].copy_from_slice(own);
        self.used = to;
        from
    }
}
