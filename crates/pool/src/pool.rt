// The pool's fields. They stand in a file of their own, since the definitions that contracts cite name them.
ghost use Rattle.std.specs.Prelude.{◌≤◌, length};

use crate::entry::Entry;

/// A pool over a lent slice of entries, of which the first `used` are in use. Entry n has the number n.
// A slice and a count, and no `Vec` or map: the memory is lent, and no call may fail for want of it.
// That keys can be found in it (`Sound`) is no fact of the type: it speaks of parts too, which come with each call. Nor is it a fact of
// a number that it belongs to this pool, so each call that takes one asks for it.
#[derive(Drop)]
pub struct Pool<'a, K, M> {
    pub(crate) entries: &'a mut [Entry<K, M>],
    pub(crate) used: usize,
    // No more entries are in use than there are, and each number fits 16 bits.
    pub ghost within: { used ≤ length entries.now },
    pub ghost numbered: { length entries.now ≤ 65536 },
}
