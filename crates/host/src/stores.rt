// Rows of bits, in which variables are laid end to end.
ghost use Rattle.std.specs.Prelude.{◌≡◌, ℕ, ◌+◌, ◌≤◌, true, List};
ghost use Rattle.host.specs.Parts.{Changed, Holds};
ghost use Rattle.host.specs.Rows.{row_bit};

/// A row of bits. A host is laid over one by `Laid`; the calls are for it alone.
// A part is two plain numbers here: a type for it would be made by `Laid`'s check and taken apart by the next call.
pub trait Storage {
    // How many bits there are.
    ghost room: { Self → ℕ };

    // What is stored: words or bytes, as numbers.
    ghost cells: { Self → List ℕ };

    // In which cell bit p of the row lies, and at which bit there.
    ghost cell: { ℕ → ℕ };

    ghost inner: { ℕ → ℕ };

    /// How many bits there are.
    fn size(&self) -> usize
        ensures room { result ≡ room self.now };

    /// The `count` bits from `at` on, with zeros above them.
    fn get(&self, at: usize, count: usize) -> u64
        requires count { (1 ≤ count) × (count ≤ 64) }
        requires inside { at + count ≤ room self.now }
        ensures bits { Holds result count (λ i. row_bit cell inner (cells self.now) (at + i)) };

    /// Sets these bits to the low ones of `value`, and no other.
    fn put(&mut self, at: usize, count: usize, value: u64)
        requires count { (1 ≤ count) × (count ≤ 64) }
        requires inside { at + count ≤ room self.old }
        ensures room { room self.new ≡ room self.old }
        ensures stored { Changed true at count value (row_bit cell inner (cells self.old)) (row_bit cell inner (cells self.new)) };
}

/// A row of bits in which no two places are one bit of one cell.
pub trait Exact: Storage {
    ghost apart: { (p q : ℕ) → Self.cell p ≡ Self.cell q → Self.inner p ≡ Self.inner q → p ≡ q };
}
