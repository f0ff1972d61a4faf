// A row of bits in lent 64-bit words, from bit 0 of word 0 on.
ghost use Rattle.host.specs.Rows.{word_cell, word_inner, words_apart, words_room};
ghost use Rattle.std.specs.Prelude.{◌≡◌};

use crate::stores::{Exact, Storage};

/// Lent words: a row of 64 bits for each, the lowest first.
#[derive(Drop)]
pub struct Words<'a> {
    words: &'a mut [u64],
}

impl<'a> Words<'a> {
    pub fn new(words: &'a mut [u64]) -> Words<'a>
        ensures words { result.words.now ≡ words.old }
    {
        Words { words }
    }
}

/// A read or a write touches at most two words.
// Beside that of bytes: a second word has 64 bits to take from or to put into, and a ninth byte eight.
impl Storage for Words<'_> {
    ghost room = { λ s. words_room s.words.now };

    ghost cells = { λ s. s.words.now };

    ghost cell = { word_cell };

    ghost inner = { word_inner };

    fn size(&self) -> usize {
        self.words.len().min(0x3ff_ffff_ffff_ffff) * 64
    }

    fn get(&self, at: usize, count: usize) -> u64 {
        let word = at / 64;
        let shift = at % 64;
        let high = if shift + count > 64 {
            self.words[word + 1]
        } else {
            0
        };
        bits::part(self.words[word], high, shift, count)
    }

    fn put(&mut self, at: usize, count: usize, value: u64) {
        let word = at / 64;
        let shift = at % 64;
        if shift + count > 64 {
            let (low, high) = bits::spliced(
                self.words[word],
                self.words[word + 1],
                shift,
                count,
                value,
            );
            self.words[word] = low;
            self.words[word + 1] = high;
        } else {
            let (low, _) = bits::spliced(self.words[word], 0, shift, count, value);
            self.words[word] = low;
        }
    }
}

impl Exact for Words<'_> {
    ghost apart = { words_apart };
}
