// What a host is: its meaning, and the four calls that ask for it and change it.
ghost use Rattle.std.specs.Prelude.{◌≡◌, ℕ, ◌+◌, ◌^◌, ◌<◌, ◌≤◌, is_ok, IfOk, Some, Option};
ghost use Rattle.host.specs.Parts.{Holds, Same, Written, found, part_refusal, size};
ghost use Rattle.host.specs.Refusals.{refusal};

use crate::reasons::Refusal;

/// Variables and numbers by name number. Nothing is said about how they are kept.
// A part comes as plain numbers, since wrong ones are refused.
pub trait Host {
    // The width of a variable, or none where the host lacks it.
    ghost widths: { Self → ℕ → Option ℕ };

    // A number, or none where the host lacks it.
    ghost numbers: { Self → ℕ → Option ℕ };

    // Bit i of a variable; 0 past its end, and of a lacking one.
    ghost bits: { Self → ℕ → ℕ → ℕ };

    /// The width of a variable; refused by 23 where there is none.
    fn width(&self, name: usize) -> Result<usize, Refusal>
        ensures answer { result ≡ found (widths self.now name) };

    /// A number; refused by 23 where there is none.
    fn number(&self, name: usize) -> Result<u32, Refusal>
        ensures answer { result ≡ found (numbers self.now name) };

    /// The `count` bits of a variable from `offset` on, with zeros above them; refused by 23 where there is no
    /// such variable, else by 24 where the part is not 1 to 64 bits inside it.
    fn read(&self, name: usize, offset: usize, count: usize) -> Result<u64, Refusal>
        ensures refused { refusal result ≡ part_refusal (widths self.now name) offset count }
        ensures bits { IfOk result (λ v. Holds v count (λ i. bits self.now name (offset + i))) };

    /// Sets these bits to the low ones of `value`, and no other; refused as `read` is, and then nothing changes.
    fn write(&mut self, name: usize, offset: usize, count: usize, value: u64) -> Result<(), Refusal>
        ensures refused { refusal result ≡ part_refusal (widths self.old name) offset count }
        ensures bits { Written (is_ok result) name offset count value (bits self.old) (bits self.new) }
        ensures widths { Same (widths self.old) (widths self.new) }
        ensures numbers { Same (numbers self.old) (numbers self.new) };

    ghost width_range: { (h : Self) (k w : ℕ) → widths h k ≡ Some w → (1 ≤ w) × (w ≤ 65536) };

    ghost number_range: { (h : Self) (k n : ℕ) → numbers h k ≡ Some n → n < 2 ^ 32 };

    ghost bit_range: { (h : Self) (k i : ℕ) → bits h k i < 2 };

    ghost bits_end: { (h : Self) (k i : ℕ) → size (widths h k) ≤ i → bits h k i ≡ 0 };
}
