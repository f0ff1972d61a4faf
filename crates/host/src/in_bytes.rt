// A row of bits in lent packed bytes, from the highest bit of byte 0 on.
ghost use Rattle.std.specs.Prelude.{◌≡◌, ℕ, ◌+◌, ◌-◌, ◌*◌, ◌/◌, ◌%◌, ◌^◌, ◌<◌, ◌≤◌, if◌then◌else◌, min, nat_lt, true, length, slice_index};
ghost use Rattle.bits.specs.Bit.{bit, within};
ghost use Rattle.host.specs.Parts.{Changed};
ghost use Rattle.host.specs.Rows.{byte_bit, byte_cell, byte_inner, bytes_apart, bytes_room};

use crate::stores::{Exact, Storage};

// Eight bytes as a number, the first one lowest, with zeros past the last one. They are taken one by one, since to copy a few bytes
// costs a call.
fn few(bytes: &[u8]) -> u64
    ensures bits { (i : ℕ) → i < 64 → bit result i ≡ bit (slice_index bytes.now (i / 8)) (i % 8) }
{
    let mut raw = 0;
    for j in 0..8 {
        if j < bytes.len() {
            raw |= (bytes[j] as u64) << (8 * j);
        }
    }
    raw
}

// The eight bytes from `from` on. Here and below `from` is a plain index: a type for one that lies inside would be filled and taken apart at
// each call.
fn eight(bytes: &[u8], from: usize) -> [u8; 8]
    requires there { from + 8 ≤ length bytes.now }
    ensures bytes { (k : ℕ) → k < 8 → slice_index result k ≡ slice_index bytes.now (from + k) }
{
    bytes[from..].first_chunk().copied().unwrap_or([0; 8])
}

// The 64 bits of the eight bytes from `from` on, the first one lowest; zeros past the last byte.
fn load(bytes: &[u8], from: usize) -> u64
    requires from { from < length bytes.now }
    ensures bits { (i : ℕ) → i < 64 → bit result i ≡ byte_bit bytes.now (8 * from + i) }
{
    if bytes.len() - from >= 8 {
        bits::mirrored(u64::from_le_bytes(eight(bytes, from)))
    } else {
        bits::mirrored(few(&bytes[from..]))
    }
}

// Puts as many of the eight bytes of a number as there are places, the lowest first, one by one.
fn put_few(bytes: &mut [u8], raw: u64)
    ensures bytes { (m : ℕ) → m < length bytes.old → slice_index bytes.new m ≡ (if nat_lt m 8 then raw / 2 ^ (8 * m) % 256 else slice_index bytes.old m) }
{
    for j in 0..8 {
        if j < bytes.len() {
            bytes[j] = ((raw >> (8 * j)) & 0xff) as u8;
        }
    }
}

// Puts eight bytes from `from` on.
fn put_whole(bytes: &mut [u8], from: usize, eight: [u8; 8])
    requires there { from + 8 ≤ length bytes.old }
    ensures bytes { (m : ℕ) → m < length bytes.old → slice_index bytes.new m ≡ (if within from 8 m then slice_index eight (m - from) else slice_index bytes.old m) }
{
    bytes[from..from + 8].copy_from_slice(&eight);
}

// Puts the eight bytes of a number from `from` on, the lowest first; those past the last byte are left out.
fn put_eight(bytes: &mut [u8], from: usize, raw: u64)
    requires from { from < length bytes.old }
    ensures bytes { (m : ℕ) → m < length bytes.old → slice_index bytes.new m ≡ (if within from 8 m then raw / 2 ^ (8 * (m - from)) % 256 else slice_index bytes.old m) }
{
    if bytes.len() - from >= 8 {
        put_whole(bytes, from, raw.to_le_bytes());
    } else {
        put_few(&mut bytes[from..], raw);
    }
}

// Puts 64 bits into the eight bytes from `from` on; those past the last byte are left out.
fn store(bytes: &mut [u8], from: usize, value: u64)
    requires from { from < length bytes.old }
    ensures stored { Changed true (8 * from) (min 64 (8 * (length bytes.old - from))) value (byte_bit bytes.old) (byte_bit bytes.new) }
{
    put_eight(bytes, from, bits::mirrored(value));
}

// Sets the `count` bits from `at` on to the low ones of `value`, and no other.
fn splice(bytes: &mut [u8], at: usize, count: usize, value: u64)
    requires count { (1 ≤ count) × (count ≤ 64) }
    requires inside { at + count ≤ 8 * length bytes.old }
    ensures stored { Changed true at count value (byte_bit bytes.old) (byte_bit bytes.new) }
{
    let from = at / 8;
    let shift = at % 8;
    let low = load(bytes, from);
    if shift + count > 64 {
        let ninth = bits::mirrored(bytes[from + 8] as u64);
        let (low, high) = bits::spliced(low, ninth, shift, count, value);
        store(bytes, from, low);
        bytes[from + 8] = (bits::mirrored(high) & 0xff) as u8;
    } else {
        let (low, _) = bits::spliced(low, 0, shift, count, value);
        store(bytes, from, low);
    }
}

/// Lent bytes: a row of eight bits for each, the highest first.
#[derive(Drop)]
pub struct PackedBytes<'a> {
    bytes: &'a mut [u8],
}

impl<'a> PackedBytes<'a> {
    pub fn new(bytes: &'a mut [u8]) -> PackedBytes<'a>
        ensures bytes { result.bytes.now ≡ bytes.old }
    {
        PackedBytes { bytes }
    }
}

/// A read or a write touches at most nine bytes.
impl Storage for PackedBytes<'_> {
    ghost room = { λ s. bytes_room s.bytes.now };

    ghost cells = { λ s. s.bytes.now };

    ghost cell = { byte_cell };

    ghost inner = { byte_inner };

    fn size(&self) -> usize {
        self.bytes.len().min(0x1fff_ffff_ffff_ffff) * 8
    }

    fn get(&self, at: usize, count: usize) -> u64 {
        let from = at / 8;
        let shift = at % 8;
        let high = if shift + count > 64 {
            bits::mirrored(self.bytes[from + 8] as u64)
        } else {
            0
        };
        bits::part(load(self.bytes, from), high, shift, count)
    }

    fn put(&mut self, at: usize, count: usize, value: u64) {
        splice(self.bytes, at, count, value);
    }
}

impl Exact for PackedBytes<'_> {
    ghost apart = { bytes_apart };
}
