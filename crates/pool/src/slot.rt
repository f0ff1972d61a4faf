// Finding a slot in the sorted order.
ghost use Rattle.std.specs.Prelude.{◌≡◌, ◌<◌, ◌≤◌, length};
ghost use Rattle.pool.specs.Held.{keys_of, places_of, key_in, Sought, SoundIn};

use crate::entry::Entry;
use crate::key::{Key, Number};
use std::cmp::Ordering;

// A key that is sought among entries. It stands over parts of its own, and the keys of the entries over the parts that they are stored in.
#[derive(Drop)]
pub(crate) struct Search<'a, K: Key, M> {
    pub(crate) entries: &'a [Entry<K, M>],
    pub(crate) parts: &'a [K::Part],
    pub(crate) key: K,
    pub(crate) own: &'a [K::Part],
    ghost sound: { SoundIn K.Key.order K.Key.meaning K.Key.reach parts.now entries.now },
    ghost reached: { K.Key.reach key ≤ length own.now },
}

impl<'a, K: Key, M: Copy> Search<'a, K, M> {
    // Compares the key in the slot with the sought one.
    fn compare(&self, slot: usize) -> Ordering
        requires slot { slot < length self.now.entries.now }
        ensures order { (d : K.Key.Meaning) → result ≡ K.Key.order (key_in (keys_of K.Key.meaning self.now.parts.now self.now.entries.now) (places_of self.now.entries.now) slot d) (K.Key.meaning self.now.key self.now.own.now) }
    {
        let entries = self.entries;
        let number = entries[slot].place as usize;
        entries[number].key.compare(self.parts, &self.key, self.own)
    }

    // The number of the key, or as an `Err` the slot where a number of its own would go. It halves the slots at each turn, so it compares
    // about log2 of the entries times.
    pub(crate) fn seek(&self) -> Result<K::Number, usize>
        ensures sought { Sought K.Key.order K.Number.Number.number (keys_of K.Key.meaning self.now.parts.now self.now.entries.now) (places_of self.now.entries.now) (K.Key.meaning self.now.key self.now.own.now) result }
    {
        // `binary_search_by` may call its closure with any entry, so that would have to test a place that is always in range.
        let mut low: usize = 0;
        let mut high: usize = self.entries.len();
        while low < high {
            let mid = low + (high - low) / 2;
            match self.compare(mid) {
                Ordering::Less => low = mid + 1,
                Ordering::Equal => return Ok(K::Number::from_index(self.entries[mid].place)),
                Ordering::Greater => high = mid,
            }
        }
        Err(low)
    }
}
