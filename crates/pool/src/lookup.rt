// Finding a key where the entries may only be read.
ghost use Rattle.std.specs.Prelude.{◌≡◌, ◌<◌, ◌≤◌, length, IfSome};
ghost use Rattle.std.specs.Option.{option_map};
ghost use Rattle.pool.specs.Firsts.{number_in};
ghost use Rattle.pool.specs.Held.{keys_of, SoundIn};

use crate::entry::Entry;
use crate::key::Key;
use crate::slot::Search;

/// The number of the key among entries that a pool has in use and has lent back, or nothing where the key is unknown. It finds as `find`
/// does, where the entries may only be read.
pub fn find_in<K: Key, M: Copy>(
    entries: &[Entry<K, M>],
    parts: &[K::Part],
    key: K,
    own: &[K::Part],
) -> Option<K::Number>
    requires sound { SoundIn K.Key.order K.Key.meaning K.Key.reach parts.now entries.now }
    requires own { K.Key.reach key ≤ length own.now }
    ensures number { option_map K.Number.Number.number result ≡ number_in K.Key.order (keys_of K.Key.meaning parts.now entries.now) (K.Key.meaning key own.now) }
    ensures within { IfSome result (λ n. K.Number.Number.number n < length entries.now) }
{
    Search {
        entries,
        parts,
        key,
        own,
    }
    .seek()
    .ok()
}
