// Inserting a key.
ghost use Rattle.std.specs.Prelude.{◌≡◌, ℕ, ◌+◌, ◌<◌, ◌≤◌, true, false, List, [], ◌∷◌, ◌++◌, length, if◌then◌else◌, Some, slice_index_or};
ghost use Rattle.pool.specs.declared.entry.Entry.{Entry as AnEntry};
ghost use Rattle.pool.specs.Firsts.{known, number_in, with_key, firsts, Once};
ghost use Rattle.pool.specs.Moved.{Shifted, Added};
ghost use Rattle.pool.specs.Pools.{entries_of, pool_keys, pool_marks, Sound};
ghost use Rattle.pool.specs.Stored.{parts_of, stored};

use crate::entry::Entry;
use crate::key::{Key, Number};
use crate::parts::Parts;
use crate::pool::Pool;

impl<'a, K: Key, M: Copy> Pool<'a, K, M> {
    // Moves the numbers in the slots from `slot` on one slot up, the last into the first slot that is not in use.
    fn shift(&mut self, slot: usize)
        requires slot { slot ≤ self.old.used }
        requires room { self.old.used < length (entries_of self.old) }
        ensures shifted { Shifted slot self.old.used (entries_of self.old) (entries_of self.new) }
        ensures used { self.new.used ≡ self.old.used }
        ensures lent { self.new.entries.ghost_name ≡ self.old.entries.ghost_name }
    {
        // Only the number in a slot moves and not the entry that it lies in, so `copy_within` does not fit.
        for at in (slot..self.used).rev() {
            self.entries[at + 1].place = self.entries[at].place;
        }
    }

    // Gives the key the next number, which goes into the slot.
    fn put(&mut self, slot: usize, key: K, marks: M) -> K::Number
        requires slot { slot ≤ self.old.used }
        requires room { self.old.used < length (entries_of self.old) }
        ensures number { K.Number.Number.number result ≡ self.old.used }
        ensures used { self.new.used ≡ self.old.used + 1 }
        ensures added { Added slot self.old.used key marks (entries_of self.old) (entries_of self.new) }
        ensures lent { self.new.entries.ghost_name ≡ self.old.entries.ghost_name }
    {
        self.shift(slot);
        let used = self.used;
        self.entries[slot].place = used as u16;
        let place = self.entries[used].place;
        self.entries[used] = Entry { key, marks, place };
        self.used = used + 1;
        K::Number::from_index(used as u16)
    }

    // What stays of the lent memory is said by every call that changes some of it, in clauses that a caller cites one by one.
    /// Inserts a key that stands over the parts of the pool's own keys. A known key keeps its marks, and nothing changes; an unknown one
    /// takes the next number and the marks. It compares the key about log2 of the entries times; an unknown one also moves up the slots of
    /// the larger keys.
    pub fn insert(&mut self, parts: &[K::Part], key: K, marks: M) -> K::Number
        requires sound { Sound K.Key.order K.Key.meaning K.Key.reach parts.now self.old }
        requires own { K.Key.reach key ≤ length parts.now }
        requires room { known K.Key.order (pool_keys K.Key.meaning parts.now self.old) (K.Key.meaning key parts.now) ≡ false → self.old.used < length (entries_of self.old) }
        ensures number { number_in K.Key.order (pool_keys K.Key.meaning parts.now self.new) (K.Key.meaning key parts.now) ≡ Some (K.Number.Number.number result) }
        ensures within { K.Number.Number.number result < self.new.used }
        ensures keys { pool_keys K.Key.meaning parts.now self.new ≡ with_key K.Key.order (pool_keys K.Key.meaning parts.now self.old) (K.Key.meaning key parts.now) }
        ensures series { (series : List K.Key.Meaning) → pool_keys K.Key.meaning parts.now self.old ≡ firsts K.Key.order series → pool_keys K.Key.meaning parts.now self.new ≡ firsts K.Key.order (series ++ K.Key.meaning key parts.now ∷ []) }
        ensures once { Once K.Key.order (pool_keys K.Key.meaning parts.now self.new) }
        ensures marks { pool_marks self.new ≡ (if known K.Key.order (pool_keys K.Key.meaning parts.now self.old) (K.Key.meaning key parts.now) then pool_marks self.old else pool_marks self.old ++ marks ∷ []) }
        ensures used { self.new.used ≡ (if known K.Key.order (pool_keys K.Key.meaning parts.now self.old) (K.Key.meaning key parts.now) then self.old.used else self.old.used + 1) }
        ensures grows { (self.old.used ≤ self.new.used) × (self.new.used ≤ self.old.used + 1) }
        ensures same { known K.Key.order (pool_keys K.Key.meaning parts.now self.old) (K.Key.meaning key parts.now) ≡ true → entries_of self.new ≡ entries_of self.old }
        ensures elsewhere { (i : ℕ) (d : AnEntry K M) → self.new.used ≤ i → slice_index_or (entries_of self.new) i d ≡ slice_index_or (entries_of self.old) i d }
        ensures long { length (entries_of self.new) ≡ length (entries_of self.old) }
        ensures lent { self.new.entries.ghost_name ≡ self.old.entries.ghost_name }
        ensures sound { Sound K.Key.order K.Key.meaning K.Key.reach parts.now self.new }
    {
        match self.seek(parts, key, parts) {
            Ok(number) => number,
            Err(slot) => self.put(slot, key, marks),
        }
    }

    /// Inserts a key that stands over parts of its own. A known key keeps its marks, and nothing changes; with an unknown one its parts are
    /// stored behind those in use, and the key is moved to them. The cost is that of `insert`, and the copy of the parts.
    pub fn insert_stored(
        &mut self,
        parts: &mut Parts<'_, K::Part>,
        key: K,
        own: &[K::Part],
        marks: M,
    ) -> K::Number
        requires sound { Sound K.Key.order K.Key.meaning K.Key.reach (stored parts.old) self.old }
        requires own { K.Key.reach key ≤ length own.now }
        requires room { known K.Key.order (pool_keys K.Key.meaning (stored parts.old) self.old) (K.Key.meaning key own.now) ≡ false → self.old.used < length (entries_of self.old) }
        requires parts_room { known K.Key.order (pool_keys K.Key.meaning (stored parts.old) self.old) (K.Key.meaning key own.now) ≡ false → parts.old.used + length own.now ≤ length (parts_of parts.old) }
        ensures number { number_in K.Key.order (pool_keys K.Key.meaning (stored parts.new) self.new) (K.Key.meaning key own.now) ≡ Some (K.Number.Number.number result) }
        ensures within { K.Number.Number.number result < self.new.used }
        ensures keys { (pool_keys K.Key.meaning (stored parts.new) self.new) ≡ with_key K.Key.order (pool_keys K.Key.meaning (stored parts.old) self.old) (K.Key.meaning key own.now) }
        ensures series { (series : List K.Key.Meaning) → (pool_keys K.Key.meaning (stored parts.old) self.old) ≡ firsts K.Key.order series → (pool_keys K.Key.meaning (stored parts.new) self.new) ≡ firsts K.Key.order (series ++ (K.Key.meaning key own.now) ∷ []) }
        ensures once { Once K.Key.order (pool_keys K.Key.meaning (stored parts.new) self.new) }
        ensures marks { pool_marks self.new ≡ (if known K.Key.order (pool_keys K.Key.meaning (stored parts.old) self.old) (K.Key.meaning key own.now) then pool_marks self.old else pool_marks self.old ++ marks ∷ []) }
        ensures used { self.new.used ≡ (if known K.Key.order (pool_keys K.Key.meaning (stored parts.old) self.old) (K.Key.meaning key own.now) then self.old.used else self.old.used + 1) }
        ensures grows { (self.old.used ≤ self.new.used) × (self.new.used ≤ self.old.used + 1) }
        ensures same { (known K.Key.order (pool_keys K.Key.meaning (stored parts.old) self.old) (K.Key.meaning key own.now)) ≡ true → entries_of self.new ≡ entries_of self.old }
        ensures elsewhere { (i : ℕ) (d : AnEntry K M) → self.new.used ≤ i → slice_index_or (entries_of self.new) i d ≡ slice_index_or (entries_of self.old) i d }
        ensures long { length (entries_of self.new) ≡ length (entries_of self.old) }
        ensures lent { self.new.entries.ghost_name ≡ self.old.entries.ghost_name }
        ensures sound { Sound K.Key.order K.Key.meaning K.Key.reach (stored parts.new) self.new }
        ensures stored { stored parts.new ≡ (if known K.Key.order (pool_keys K.Key.meaning (stored parts.old) self.old) (K.Key.meaning key own.now) then stored parts.old else stored parts.old ++ own.now) }
        ensures parts_used { parts.new.used ≡ (if known K.Key.order (pool_keys K.Key.meaning (stored parts.old) self.old) (K.Key.meaning key own.now) then parts.old.used else parts.old.used + length own.now) }
        ensures parts_grows { (parts.old.used ≤ parts.new.used) × (parts.new.used ≤ parts.old.used + length own.now) }
        ensures parts_same { (known K.Key.order (pool_keys K.Key.meaning (stored parts.old) self.old) (K.Key.meaning key own.now)) ≡ true → parts_of parts.new ≡ parts_of parts.old }
        ensures parts_elsewhere { (i : ℕ) (d : K.Part) → parts.new.used ≤ i → slice_index_or (parts_of parts.new) i d ≡ slice_index_or (parts_of parts.old) i d }
        ensures parts_long { length (parts_of parts.new) ≡ length (parts_of parts.old) }
        ensures parts_lent { parts.new.parts.ghost_name ≡ parts.old.parts.ghost_name }
    {
        match self.seek(parts.stored(), key, own) {
            Ok(known) => known,
            Err(slot) => {
                let from = parts.store(own);
                let moved = key.moved(from);
                self.put(slot, moved, marks)
            }
        }
    }
}
