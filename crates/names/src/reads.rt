// What is read of a table of names.
ghost use Rattle.std.specs.Prelude.{◌≡◌, ◌<◌, ◌≤◌, [], length, take, IfSome, slice_index_or};
ghost use Rattle.std.specs.Option.{option_map};
ghost use Rattle.pool.specs.Firsts.{number_in};
ghost use Rattle.pool.specs.Words.{by_word};
ghost use Rattle.names.specs.Names.{total};
ghost use Rattle.names.specs.Tables.{names_of};

use crate::name::Name;
use crate::numbers::PName;
use crate::table::NameTable;
use pool::Entry;

impl NameTable {
    // The entries in use.
    fn entries_in_use(&self) -> &[Entry<Name, ()>]
        ensures entries { result.now ≡ take self.now.used self.now.entries.items }
    {
        &self.entries[0..self.used]
    }

    // The bytes in use.
    fn bytes_in_use(&self) -> &[u8]
        ensures bytes { result.now ≡ take self.now.stored self.now.bytes.items }
    {
        &self.bytes[0..self.stored]
    }

    /// How many names there are.
    pub fn len(&self) -> usize
        ensures count { result ≡ length (names_of self.now) }
        ensures few { result ≤ 256 }
    {
        self.used
    }

    /// How many bytes the names have together.
    pub fn bytes_len(&self) -> usize
        ensures count { result ≡ total (names_of self.now) }
        ensures small { result ≤ 16384 }
    {
        self.stored
    }

    /// The number of a name, or nothing where the name is unknown. It compares the text about log2 of the names times.
    pub fn find(&self, text: &[u8]) -> Option<PName>
        requires short { length text.now < 65536 }
        ensures number { option_map (λ n. n.0) result ≡ number_in by_word (names_of self.now) text.now }
        ensures within { IfSome result (λ n. n.0 < length (names_of self.now)) }
    {
        pool::find_in(
            self.entries_in_use(),
            self.bytes_in_use(),
            Name::whole(text),
            text,
        )
    }

    /// The text of a name.
    pub fn text(&self, name: PName) -> &[u8]
        requires known { name.0 < length (names_of self.now) }
        ensures text { result.now ≡ slice_index_or (names_of self.now) name.0 [] }
    {
        let key = self.entries_in_use()[name.0 as usize].key();
        key.run.of(self.bytes_in_use())
    }
}
