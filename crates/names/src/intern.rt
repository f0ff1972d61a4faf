// Inserting a name over lent memory.
ghost use Rattle.std.specs.Prelude.{◌≡◌, ◌+◌, ◌<◌, ◌≤◌, false, length, take};
ghost use Rattle.pool.specs.Firsts.{known};
ghost use Rattle.pool.specs.Held.{SoundIn};
ghost use Rattle.pool.specs.Words.{by_word};
ghost use Rattle.names.specs.Inserted.{Inserted};
ghost use Rattle.names.specs.Names.{names_in, text_end, text_in};

use crate::name::Name;
use crate::numbers::PName;
use pool::{Entry, Parts, Pool};

// Inserts the text among the first `used` entries and the first `stored` bytes, and counts what it adds to them; a
// known one changes nothing.
// It is a function of its own: after a pool over a field of a table nothing is known of what comes back to the field.
pub(crate) fn intern(
    entries: &mut [Entry<Name, ()>],
    used: &mut usize,
    bytes: &mut [u8],
    stored: &mut usize,
    text: &[u8],
) -> PName
    requires entries_fit { (used.old ≤ length entries.old) × (length entries.old ≤ 65536) }
    requires bytes_fit { (stored.old ≤ length bytes.old) × (length bytes.old < 65536) }
    requires sound { SoundIn by_word text_in text_end (take stored.old bytes.old) (take used.old entries.old) }
    requires short { length text.now < 65536 }
    requires entries_room { known by_word (names_in entries.old used.old bytes.old stored.old) text.now ≡ false → used.old < length entries.old }
    requires bytes_room { known by_word (names_in entries.old used.old bytes.old stored.old) text.now ≡ false → stored.old + length text.now ≤ length bytes.old }
    ensures inserted { Inserted (names_in entries.old used.old bytes.old stored.old) stored.old text.now result used.new stored.new entries.new bytes.new }
{
    let mut parts = Parts::resumed(bytes, *stored);
    let mut pool: Pool<Name, ()> = Pool::resumed(entries, *used);
    let name = pool.insert_stored(&mut parts, Name::whole(text), text, ());
    *used = pool.len();
    *stored = parts.len();
    name
}
