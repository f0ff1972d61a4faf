// Stretches of parts that are told by their place, and keys that are such a stretch.
ghost use Rattle.std.specs.Prelude.{◌≡◌, ◌+◌, ◌<◌, ◌≤◌, List, length};
ghost use Rattle.std.specs.Cmp.Lexicographic.{slice_cmp};
ghost use Rattle.std.specs.declared.cmp.Ordering.TheVariants.{Equal};
ghost use Rattle.std.specs.FinMap.{nat_cmp-IsAntisymmetric};
ghost use Rattle.pool.specs.Runs.{run_end, run_of};
ghost use Rattle.pool.specs.WordOrder.{list_orders};
ghost use Rattle.pool.specs.Stretches.{stretch_stays};

use crate::key::{Key, Number};
use crate::words::stretch;
use std::cmp::Ordering;
use std::marker::PhantomData;

/// A stretch of parts: where it begins among those that are stored, and how many they are.
#[derive(Clone, Copy)]
pub struct Run {
    pub start: u16,
    pub len: u16,
}

impl Run {
    /// The parts of the run.
    pub fn of<P: Copy>(self, parts: &[P]) -> &[P]
        requires within { run_end self ≤ length parts.now }
        ensures parts { result.now ≡ run_of self parts.now }
    {
        stretch(parts, self.start as usize, self.len as usize)
    }

    /// The same run over parts that begin `by` further on.
    pub fn moved(self, by: usize) -> Run
        requires room { by + run_end self < 65536 }
        ensures start { result.start ≡ self.start + by }
        ensures len { result.len ≡ self.len }
    {
        Run {
            start: self.start + by as u16,
            len: self.len,
        }
    }
}

/// What words are made of: parts in an order that tells any two apart.
pub trait Letter: Copy + Ord {
    ghost apart: { (x y : Self) → Self.Ord.cmp x y ≡ Equal → x ≡ y };
}

impl Letter for u8 {
    ghost apart = { nat_cmp-IsAntisymmetric };
}

impl Letter for u16 {
    ghost apart = { nat_cmp-IsAntisymmetric };
}

/// A key that is a run of parts. Words are ordered part by part; the front of a word stands before the word.
#[derive(Clone, Copy)]
pub struct Word<P, N> {
    pub run: Run,
    of: PhantomData<(P, N)>,
}

impl<P, N> Word<P, N> {
    /// The word of so many parts from a place on.
    pub fn new(start: u16, len: u16) -> Word<P, N>
        ensures run { result.run ≡ record { start = start; len = len } }
    {
        Word {
            run: Run { start, len },
            of: PhantomData,
        }
    }

    /// The word of all the parts, over these parts.
    pub fn whole(parts: &[P]) -> Word<P, N>
        requires short { length parts.now < 65536 }
        ensures all { run_of result.run parts.now ≡ parts.now }
        ensures end { run_end result.run ≡ length parts.now }
    {
        Word::new(0, parts.len() as u16)
    }
}

impl<P: Letter, N: Number> Key for Word<P, N> {
    type Part = P;

    type Number = N;

    ghost Meaning = { List P };

    ghost meaning = { λ k ps. run_of k.run ps };

    ghost order = { slice_cmp P.Ord.cmp };

    ghost reach = { λ k. run_end k.run };

    ghost orders = { list_orders P.Ord.total P.Letter.apart };

    ghost stays = { λ k ps qs h. stretch_stays k.run.start k.run.len ps qs h };

    fn compare(&self, own: &[P], other: &Word<P, N>, others: &[P]) -> Ordering {
        self.run.of(own).cmp(other.run.of(others))
    }

    fn moved(self, by: usize) -> Word<P, N> {
        Word {
            run: self.run.moved(by),
            of: PhantomData,
        }
    }
}
