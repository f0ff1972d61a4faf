// Making a pool, and what is read of it by number.
ghost use Rattle.std.specs.Prelude.{◌≡◌, ◌<◌, ◌≤◌, List, [], length, take, slice_index_or};
ghost use Rattle.pool.specs.declared.entry.Entry.{Entry as AnEntry};
ghost use Rattle.pool.specs.Pools.{entries_of, in_use, pool_keys, Sound};

use crate::entry::Entry;
use crate::key::{Key, Number};
use crate::pool::Pool;

impl<'a, K: Key, M: Copy> Pool<'a, K, M> {
    /// An empty pool over the entries.
    pub fn new(entries: &'a mut [Entry<K, M>]) -> Pool<'a, K, M>
        requires numbered { length entries.old ≤ 65536 }
        ensures used { result.used ≡ 0 }
        ensures keys { (ps : List K.Part) → pool_keys K.Key.meaning ps result ≡ [] }
        ensures same { entries_of result ≡ entries.old }
        ensures lent { result.entries.ghost_name ≡ entries.entry.ghost_name }
        ensures sound { (ps : List K.Part) → Sound K.Key.order K.Key.meaning K.Key.reach ps result }
    {
        Pool { entries, used: 0 }
    }

    /// The pool that was left over the entries, with the first `used` of them in use.
    pub fn resumed(entries: &'a mut [Entry<K, M>], used: usize) -> Pool<'a, K, M>
        requires within { used ≤ length entries.old }
        requires numbered { length entries.old ≤ 65536 }
        ensures used { result.used ≡ used }
        ensures in_use { in_use result ≡ take used entries.old }
        ensures same { entries_of result ≡ entries.old }
        ensures lent { result.entries.ghost_name ≡ entries.entry.ghost_name }
    {
        Pool { entries, used }
    }

    /// How many keys the pool holds.
    pub fn len(&self) -> usize
        ensures used { result ≡ self.now.used }
    {
        self.used
    }

    /// The entries in use, from number 0 on: a walk through them follows the numbers.
    pub fn walk(&self) -> &[Entry<K, M>]
        ensures entries { result.now ≡ in_use self.now }
    {
        &self.entries[0..self.used]
    }

    /// The number of the entry at the index.
    pub fn number(&self, index: usize) -> K::Number
        requires used { index < self.now.used }
        ensures number { K.Number.Number.number result ≡ index }
    {
        K::Number::from_index(index as u16)
    }

    /// The key that has the number.
    pub fn key(&self, number: K::Number) -> K
        requires used { K.Number.Number.number number < self.now.used }
        ensures key { (d : AnEntry K M) → result ≡ (slice_index_or (entries_of self.now) (K.Number.Number.number number) d).key }
    {
        self.walk()[number.index() as usize].key
    }
}
