// Making a table of names, and inserting a name.
ghost use Rattle.std.specs.Prelude.{◌≡◌, ◌+◌, ◌<◌, ◌≤◌, false, [], length, IfOk, Some};
ghost use Rattle.pool.specs.Firsts.{known, number_in, with_key, Once};
ghost use Rattle.pool.specs.Words.{by_word};
ghost use Rattle.names.specs.Names.{total, Grows};
ghost use Rattle.names.specs.Tables.{names_of};

use crate::intern::intern;
use crate::name::Name;
use crate::numbers::PName;
use crate::table::{MOST_BYTES, MOST_NAMES, NameTable};
use pool::Entry;
use std::alloc::{AllocError, Global};

impl NameTable {
    /// An empty table; it fails only for want of memory.
    pub fn new(heap: Global) -> Result<NameTable, AllocError>
        ensures empty { IfOk result (λ t. names_of t ≡ []) }
    {
        let free = Entry::new(Name::new(0, 0), ());
        let entries = vec![in heap; free; MOST_NAMES]?;
        let bytes = vec![in heap; 0u8; MOST_BYTES]?;
        Ok(NameTable {
            entries,
            bytes,
            used: 0,
            stored: 0,
        })
    }

    /// The number of a name, which is a new one, the next, if the name was unknown.
    pub fn insert(&mut self, text: &[u8]) -> PName
        requires short { length text.now < 65536 }
        requires room { known by_word (names_of self.old) text.now ≡ false → length (names_of self.old) < 256 }
        requires bytes_room { known by_word (names_of self.old) text.now ≡ false → total (names_of self.old) + length text.now ≤ 16384 }
        ensures names { names_of self.new ≡ with_key by_word (names_of self.old) text.now }
        ensures number { number_in by_word (names_of self.new) text.now ≡ Some result.0 }
        ensures once { Once by_word (names_of self.new) }
        ensures grows { Grows (length (names_of self.old)) 1 (length (names_of self.new)) }
        ensures bytes_grow { Grows (total (names_of self.old)) (length text.now) (total (names_of self.new)) }
        ensures within { result.0 < length (names_of self.new) }
    {
        intern(
            &mut self.entries,
            &mut self.used,
            &mut self.bytes,
            &mut self.stored,
            text,
        )
    }
}
