//! Bits of 64-bit words: taking a part out, putting one in, and turning each byte round.
#![tactic(auto)]

ghost use Rattle.std.specs.Prelude.{◌≡◌, ℕ, ◌+◌, ◌-◌, ◌<◌, ◌≤◌, if◌then◌else◌, nat_lt};
ghost use Rattle.bits.specs.Bit.{bit, lower, mirror, neighbour, pair_bit, within};

// As many ones as `count` says, from bit 0 up.
fn ones(count: usize) -> u64
    requires count { (1 ≤ count) × (count ≤ 64) }
    ensures bits { (i : ℕ) → bit result i ≡ (if nat_lt i count then 1 else 0) }
{
    u64::MAX >> (64 - count)
}

// The two words as one number.
fn joined(low: u64, high: u64) -> u128
    ensures bits { (i : ℕ) → bit result i ≡ pair_bit low high i }
{
    (high as u128) << 64 | low as u128
}

// A part of two words is four plain numbers: a struct for them would be filled at each call and taken apart at once.

/// The `count` bits from `shift` on of the two words, with zeros above them.
pub fn part(low: u64, high: u64, shift: usize, count: usize) -> u64
    requires shift { shift < 64 }
    requires count { (1 ≤ count) × (count ≤ 64) }
    ensures bits { (i : ℕ) → bit result i ≡ (if nat_lt i count then pair_bit low high (shift + i) else 0) }
{
    ((joined(low, high) >> shift) & ones(count) as u128) as u64
}

/// The two words with the low `count` bits of `value` in place of those from `shift` on.
pub fn spliced(low: u64, high: u64, shift: usize, count: usize, value: u64) -> (u64, u64)
    requires shift { shift < 64 }
    requires count { (1 ≤ count) × (count ≤ 64) }
    ensures bits { (i : ℕ) → pair_bit result.0 result.1 i ≡ (if within shift count i then bit value (i - shift) else pair_bit low high i) }
{
    let old = joined(low, high);
    let mask = (ones(count) as u128) << shift;
    let new = old ^ ((old ^ (value as u128) << shift) & mask);
    ((new & 0xffff_ffff_ffff_ffff) as u64, (new >> 64) as u64)
}

// Each group of `by` bits changed for its neighbour, where `mask` marks the lower groups.
fn swapped(x: u64, by: usize, mask: u64) -> u64
    requires by { (1 ≤ by) × (by ≤ 32) }
    requires mask { (i : ℕ) → i < 64 → bit mask i ≡ (if lower by i then 1 else 0) }
    ensures bits { (i : ℕ) → i < 64 → bit result i ≡ bit x (neighbour by i) }
{
    (x >> by & mask) | (x & mask) << by
}

/// Each byte's bits the other way round.
pub fn mirrored(x: u64) -> u64
    ensures bits { (i : ℕ) → i < 64 → bit result i ≡ bit x (mirror i) }
{
    let pairs = swapped(x, 1, 0x5555_5555_5555_5555);
    let nibbles = swapped(pairs, 2, 0x3333_3333_3333_3333);
    swapped(nibbles, 4, 0x0f0f_0f0f_0f0f_0f0f)
}
