// The fields of a table of names. They stand in a file of their own, since the definitions that contracts cite name them.
ghost use Rattle.std.specs.Prelude.{◌≡◌, ◌≤◌, take, vec_len};
ghost use Rattle.pool.specs.Held.{SoundIn};
ghost use Rattle.pool.specs.Words.{by_word};
ghost use Rattle.names.specs.Names.{names_in, text_end, text_in, total};

use crate::name::Name;
use pool::Entry;

/// How many names a table has room for.
pub const MOST_NAMES: usize = 256;

/// How many bytes they may have together.
pub const MOST_BYTES: usize = 16384;

/// A table of names. Its first `used` entries and its first `stored` bytes are in use.
// The memory is made once and filled, since no later call may fail for want of it and the pool works over lent slices.
#[derive(Drop)]
pub struct NameTable {
    pub(crate) entries: Vec<Entry<Name, ()>>,
    pub(crate) bytes: Vec<u8>,
    pub(crate) used: usize,
    pub(crate) stored: usize,
    // The memory stays as it was made.
    ghost wide: { vec_len entries ≡ 256 },
    ghost long: { vec_len bytes ≡ 16384 },
    // No more is in use than there is.
    ghost few: { used ≤ 256 },
    ghost small: { stored ≤ 16384 },
    // Names can be found, and the bytes in use are theirs.
    ghost sound: { SoundIn by_word text_in text_end (take stored bytes.items) (take used entries.items) },
    ghost counted: { stored ≡ total (names_in entries.items used bytes.items stored) },
}
