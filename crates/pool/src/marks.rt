// The marks of an entry.
ghost use Rattle.std.specs.Prelude.{◌≡◌, ℕ, ◌<◌, List, length, slice_index_or, ◌≢◌, slice_set};
ghost use Rattle.pool.specs.declared.entry.Entry.{Entry as AnEntry};
ghost use Rattle.pool.specs.Pools.{entries_of, pool_keys, pool_marks, Sound};

use crate::key::{Key, Number};
use crate::pool::Pool;

impl<'a, K: Key, M: Copy> Pool<'a, K, M> {
    /// The marks of the key that has the number.
    pub fn marks(&self, number: K::Number) -> M
        requires used { K.Number.Number.number number < self.now.used }
        ensures marks { (d : AnEntry K M) → result ≡ (slice_index_or (entries_of self.now) (K.Number.Number.number number) d).marks }
    {
        self.walk()[number.index() as usize].marks
    }

    /// Sets the marks of the key that has the number.
    pub fn set_marks(&mut self, number: K::Number, marks: M)
        requires used { K.Number.Number.number number < self.old.used }
        ensures marks { pool_marks self.new ≡ slice_set (pool_marks self.old) (K.Number.Number.number number) marks }
        ensures keys { (ps : List K.Part) → pool_keys K.Key.meaning ps self.new ≡ pool_keys K.Key.meaning ps self.old }
        ensures used { self.new.used ≡ self.old.used }
        ensures elsewhere { (i : ℕ) (d : AnEntry K M) → (i ≢ K.Number.Number.number number) → slice_index_or (entries_of self.new) i d ≡ slice_index_or (entries_of self.old) i d }
        ensures long { length (entries_of self.new) ≡ length (entries_of self.old) }
        ensures lent { self.new.entries.ghost_name ≡ self.old.entries.ghost_name }
        ensures sound { (ps : List K.Part) → Sound K.Key.order K.Key.meaning K.Key.reach ps self.old → Sound K.Key.order K.Key.meaning K.Key.reach ps self.new }
    {
        self.entries[number.index() as usize].marks = marks;
    }
}
