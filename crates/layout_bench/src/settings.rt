// What the starts to come hand in and lend.
use crate::kept::{Kept, keep};
use crate::naming::AllNames;
use layout::{Around, CodeGen};
use lowering::{Counts, Handed};
use script::{Kind, Setting, Surrounded};

// A text before and one after, kept: `Around` has them lent.
#[derive(Clone, Copy)]
struct Pair {
    before: Kept,
    after: Kept,
}

impl Pair {
    fn new(before: &[u8], after: &[u8]) -> Pair {
        Pair {
            before: keep(before),
            after: keep(after),
        }
    }

    fn lent(&self) -> Around<'_> {
        Around {
            before: self.before.as_slice(),
            after: self.after.as_slice(),
        }
    }
}

/// What a start hands in: the names, and the texts around, each at the place of its `Surrounded`.
#[derive(Clone, Copy)]
pub struct Texts {
    names: AllNames,
    pairs: [Pair; 5],
}

impl Texts {
    fn around(&self, of: Surrounded) -> Around<'_> {
        self.pairs[of as usize].lent()
    }

    pub fn handed(&self) -> Handed<'_> {
        Handed {
            names: self.names.names(),
            fn_names: self.names.fn_names(),
            code_gen: CodeGen {
                must_use: self.around(Surrounded::MustUse),
                static_construction_fn: self.around(Surrounded::StaticConstruction),
                lit_construction_fn: self.around(Surrounded::LitConstruction),
                construction_fn: self.around(Surrounded::Construction),
                const_wrapper: self.around(Surrounded::ConstWrapper),
            },
        }
    }
}

// The number, or the most if it is larger.
fn at_most(count: u64, most: usize) -> usize {
    count.min(most as u64) as usize
}

/// What is set.
#[derive(Clone, Copy)]
pub struct Settings {
    pub texts: Texts,
    /// How many entries of each kind are lent. A start asks only whether they are fewer than the least, so no more
    /// than the least are ever made: a larger number counts as the least.
    pub counts: Counts,
}

impl Settings {
    pub fn new() -> Settings {
        let texts = Texts {
            names: AllNames::new(),
            pairs: [Pair::new(b"", b""); 5],
        };
        Settings {
            texts,
            counts: Counts::least(),
        }
    }

    fn set_count(&mut self, kind: Kind, count: u64) {
        let counts = &mut self.counts;
        let least = Counts::least();
        match kind {
            Kind::Bindings => counts.bindings = at_most(count, least.bindings),
            Kind::Values => counts.values = at_most(count, least.values),
            Kind::Widths => counts.widths = at_most(count, least.widths),
            Kind::Sums => counts.sums = at_most(count, least.sums),
            Kind::Parts => counts.parts = at_most(count, least.parts),
            Kind::Instructions => counts.instructions = at_most(count, least.instructions),
        }
    }

    pub fn set(&mut self, setting: Setting) {
        match setting {
            Setting::Name { of, text } => self.texts.names.set(of, keep(&text)),
            Setting::Around { of, before, after } => {
                self.texts.pairs[of as usize] = Pair::new(&before, &after);
            }
            Setting::Entries { kind, count } => self.set_count(kind, count),
        }
    }
}
