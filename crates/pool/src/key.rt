// What a pool asks of its keys and of the numbers that it gives them.
ghost use Rattle.std.specs.Prelude.{◌≡◌, ℕ, ◌+◌, ◌<◌, ◌≤◌, List, ◌++◌, length};
ghost use Rattle.std.specs.declared.cmp.Ordering.{Ordering};
ghost use Rattle.pool.specs.Order.{Orders};

use std::cmp::Ordering;

/// The number of an entry. Each pool has a number type of its own.
pub trait Number: Copy {
    ghost number: { Self → ℕ };

    // Named, and not a `From`: a number of sixteen bits may be other things than an index.
    fn from_index(index: u16) -> Self
        ensures number { number result ≡ index };

    fn index(self) -> u16
        ensures number { result ≡ number self };
}

/// A key of a pool. What varies in length is not in the key: it stands in a slice of parts, which is lent with the key, and the key says
/// where. So a key means something only over parts.
pub trait Key: Copy {
    /// What the parts are made of: bytes for a text, `()` for a key that has no parts.
    type Part: Copy;

    /// What numbers the pool of such keys gives.
    type Number: Number;

    // What keys mean, what a key means over parts, and the order of what they mean.
    ghost Meaning: { Type 0 };

    ghost meaning: { Self → List Self.Part → Meaning };

    ghost order: { Meaning → Meaning → Ordering };

    // How many parts there have to be for the key to mean anything.
    ghost reach: { Self → ℕ };

    // Keys come apart from the parts that they stand over, here and in the pool's calls, since parts are lent anew with each call.
    /// Compares this key, over its own parts, with another over the others.
    fn compare(&self, own: &[Self::Part], other: &Self, others: &[Self::Part]) -> Ordering
        requires own { reach self.now ≤ length own.now }
        requires others { reach other.now ≤ length others.now }
        ensures order { result ≡ order (meaning self.now own.now) (meaning other.now others.now) };

    /// The same key over parts that begin `by` further on.
    fn moved(self, by: usize) -> Self
        requires room { by + reach self < 65536 }
        ensures reach { reach result ≤ by + reach self }
        ensures meaning { (ps qs : List Self.Part) → length ps ≡ by → reach self ≤ length qs → meaning result (ps ++ qs) ≡ meaning self qs };

    ghost orders: { Orders order };

    ghost stays: { (k : Self) (ps qs : List Self.Part) → reach k ≤ length ps → meaning k (ps ++ qs) ≡ meaning k ps };
}
