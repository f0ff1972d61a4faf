// The keys of the four pools.
use pool::{PBind, PCWidth, PVal, Run, Word};

/// A text: a run of the bytes that are stored.
pub type Text = Run;

/// A binding: a literal, or a variable by its text.
#[derive(Clone, Copy)]
pub enum Bind {
    Literal { width: u16, value: u64 },
    Txt(Text),
}

/// What a bound starts from: nothing, a number by the text that names it, or the width of a binding for which the
/// text asks.
// Keys are ordered by these three cases; an `Option` around the last two would only be matched in two steps.
#[derive(Clone, Copy)]
pub enum Base {
    Nothing,
    Named(Text),
    Asked(PBind),
}

/// A value: the width of a binding, or a base plus x. The two stay apart, even where they mean the same number.
#[derive(Clone, Copy)]
pub enum Value {
    Bitwidth(PBind),
    Usize { base: Base, x: i32 },
}

/// A width: an end, or an end minus a start.
#[derive(Clone, Copy)]
pub enum Width {
    Single(PVal),
    Range(PVal, PVal),
}

/// A sum of widths of one concatenation: a run of their numbers among those that are stored.
pub type CWidth = Word<u16, PCWidth>;
