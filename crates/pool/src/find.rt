// Finding a key.
ghost use Rattle.std.specs.Prelude.{◌≡◌, ◌<◌, ◌≤◌, length, IfSome};
ghost use Rattle.std.specs.Option.{option_map};
ghost use Rattle.pool.specs.Firsts.{number_in};
ghost use Rattle.pool.specs.Held.{places_of, Sought};
ghost use Rattle.pool.specs.Pools.{in_use, pool_keys, Sound};

use crate::key::Key;
use crate::lookup::find_in;
use crate::pool::Pool;
use crate::slot::Search;

impl<'a, K: Key, M: Copy> Pool<'a, K, M> {
    // The number of the key, or as an `Err` the slot where a number of its own would go.
    pub(crate) fn seek(
        &self,
        parts: &[K::Part],
        key: K,
        own: &[K::Part],
    ) -> Result<K::Number, usize>
        requires sound { Sound K.Key.order K.Key.meaning K.Key.reach parts.now self.now }
        requires own { K.Key.reach key ≤ length own.now }
        ensures sought { Sought K.Key.order K.Number.Number.number (pool_keys K.Key.meaning parts.now self.now) (places_of (in_use self.now)) (K.Key.meaning key own.now) result }
    {
        Search {
            entries: self.walk(),
            parts,
            key,
            own,
        }
        .seek()
    }

    /// The number of the key, or nothing where the key is unknown. The key stands over parts of its own, the pool's keys over the parts
    /// that they are stored in. It compares the key about log2 of the entries times.
    pub fn find(&self, parts: &[K::Part], key: K, own: &[K::Part]) -> Option<K::Number>
        requires sound { Sound K.Key.order K.Key.meaning K.Key.reach parts.now self.now }
        requires own { K.Key.reach key ≤ length own.now }
        ensures number { option_map K.Number.Number.number result ≡ number_in K.Key.order (pool_keys K.Key.meaning parts.now self.now) (K.Key.meaning key own.now) }
        ensures within { IfSome result (λ n. K.Number.Number.number n < self.now.used) }
    {
        find_in(self.walk(), parts, key, own)
    }
}
