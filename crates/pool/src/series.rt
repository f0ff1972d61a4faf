// Inserting a series of keys.
ghost use Rattle.std.specs.Prelude.{◌≡◌, ℕ, ◌+◌, ◌<◌, ◌≤◌, List, ◌++◌, length, slice_index_or};
ghost use Rattle.pool.specs.declared.entry.Entry.{Entry as AnEntry};
ghost use Rattle.pool.specs.Firsts.{firsts};
ghost use Rattle.pool.specs.Held.{meanings};
ghost use Rattle.pool.specs.Pools.{entries_of, pool_keys, Sound};

use crate::key::Key;
use crate::pool::Pool;

impl<'a, K: Key, M: Copy> Pool<'a, K, M> {
    /// Inserts the keys one after the other, with the same marks. A pool that held the first occurrences of some series holds those of
    /// that series with the keys behind it.
    pub fn insert_all(&mut self, parts: &[K::Part], keys: &[K], marks: M)
        requires sound { Sound K.Key.order K.Key.meaning K.Key.reach parts.now self.old }
        requires own { (i : ℕ) (d : K) → i < length keys.now → K.Key.reach (slice_index_or keys.now i d) ≤ length parts.now }
        requires room { self.old.used + length keys.now ≤ length (entries_of self.old) }
        ensures series { (series : List K.Key.Meaning) → pool_keys K.Key.meaning parts.now self.old ≡ firsts K.Key.order series → pool_keys K.Key.meaning parts.now self.new ≡ firsts K.Key.order (series ++ meanings K.Key.meaning parts.now keys.now) }
        ensures elsewhere { (i : ℕ) (d : AnEntry K M) → self.new.used ≤ i → slice_index_or (entries_of self.new) i d ≡ slice_index_or (entries_of self.old) i d }
        ensures grows { (self.old.used ≤ self.new.used) × (self.new.used ≤ self.old.used + length keys.now) }
        ensures long { length (entries_of self.new) ≡ length (entries_of self.old) }
        ensures lent { self.new.entries.ghost_name ≡ self.old.entries.ghost_name }
        ensures sound { Sound K.Key.order K.Key.meaning K.Key.reach parts.now self.new }
    {
        for key in keys {
            let _ = self.insert(parts, *key, marks);
        }
    }
}
