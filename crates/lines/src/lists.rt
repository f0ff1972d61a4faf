// Lists in one word: items joined by commas, or pairs of digits, with `-` for none.
ghost use Rattle.std.specs.Prelude.{◌+◌, ◌*◌, ◌≤◌, length, IfOk, vec_len};
ghost use Rattle.lines.specs.Words.{commas};

use crate::faults::*;
use crate::numbers;
use std::alloc::Global;

/// What a word may spell.
pub trait Item {
    // The item that a word spells, if it spells one.
    fn read(word: &[u8]) -> Option<Self>
    where
        Self: Sized;
}

/// A width: any decimal.
impl Item for usize {
    fn read(word: &[u8]) -> Option<usize> {
        Some(numbers::decimal(word)? as usize)
    }
}

/// A number: a decimal of at most 32 bits.
impl Item for u32 {
    fn read(word: &[u8]) -> Option<u32> {
        u32::try_from(numbers::decimal(word)?).ok()
    }
}

/// A stored word: hexadecimal.
impl Item for u64 {
    fn read(word: &[u8]) -> Option<u64> {
        numbers::hex_word(word)
    }
}

/// The items of a list.
pub fn items<T: Item + Drop>(heap: Global, word: &[u8]) -> Result<Vec<T>, Misread>
    ensures len { IfOk result (λ v. vec_len v ≤ commas word.now + 1) }
{
    if word == b"-".as_slice() {
        return Ok(Vec::new(heap));
    }
    let parts = word.split(|byte| *byte == b',');
    parts
        .map(|part| T::read(part).ok_or(Misread::Unreadable))
        .try_collect(heap)
}

/// The bytes that pairs of hexadecimal digits spell.
pub fn bytes(heap: Global, word: &[u8]) -> Result<Vec<u8>, Misread>
    ensures len { IfOk result (λ v. 2 * vec_len v ≤ length word.now) }
{
    let mut bytes = Vec::new(heap);
    if word == b"-".as_slice() {
        return Ok(bytes);
    }
    let (pairs, []) = word.as_chunks::<2>() else {
        return Err(Misread::Unreadable);
    };
    for [high, low] in pairs {
        let high = numbers::digit(*high).ok_or(Misread::Unreadable)?;
        let low = numbers::digit(*low).ok_or(Misread::Unreadable)?;
        bytes.push((high << 4) | low)?;
    }
    Ok(bytes)
}
