// An entry of a pool.
ghost use Rattle.std.specs.Prelude.{◌≡◌};

/// Entry n holds the key with the number n and its marks. Slot n of the sorted order lies in it too: the number of the key that has n
/// smaller ones in the pool.
#[derive(Clone, Copy)]
pub struct Entry<K, M> {
    pub(crate) key: K,
    pub(crate) marks: M,
    pub(crate) place: u16,
}

impl<K: Copy, M: Copy> Entry<K, M> {
    /// An entry to lend to a pool, which writes over it.
    pub fn new(key: K, marks: M) -> Entry<K, M>
        ensures key { result.key ≡ key }
        ensures marks { result.marks ≡ marks }
    {
        Entry {
            key,
            marks,
            place: 0,
        }
    }

    pub fn key(&self) -> K
        ensures key { result ≡ self.now.key }
    {
        self.key
    }

    pub fn marks(&self) -> M
        ensures marks { result ≡ self.now.marks }
    {
        self.marks
    }
}
