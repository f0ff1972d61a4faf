// What a concatenation may be claimed to be: its components are a slice, from the least significant on.
ghost use Rattle.components.specs.Alignments.{alignment, number_of, together};
ghost use Rattle.components.specs.Concatenations.{certainly_wide, deterministic, of_static_width, some_filler, some_of, static_bits, wide};
ghost use Rattle.components.specs.Parts.{unbounded_filler};
ghost use Rattle.std.specs.Prelude.{◌≡◌, position};

use crate::component::Component;
use names::PName;

/// How the filler without end of a concatenation aligns the rest of it.
// No Option around it: None is the name of an alignment in the rules, with number 0.
#[derive(Clone, Copy, PartialEq, Eq, Debug)]
pub enum FillerAlign {
    /// There is no such filler in it; of several concatenations, in one of them.
    None,
    /// It is only such a filler.
    Single,
    /// It is aligned from the least significant bit.
    Lsb,
    /// It is aligned from the most significant bit.
    Msb,
    /// The filler is in the middle.
    Mid,
    /// Of several concatenations: they are aligned in more than one way.
    Multiple,
}

impl FillerAlign {
    // Not a `From`: the name says which number it is.
    /// The number of the alignment, from 0 to 5 in the order above.
    pub fn number(self) -> usize
        ensures answer { result ≡ number_of self }
    {
        self as usize
    }

    /// The alignment of concatenations aligned like this, together with one more that is aligned like the other.
    pub fn with(self, other: FillerAlign) -> FillerAlign
        ensures answer { result ≡ together self other }
    {
        match (self, other) {
            (FillerAlign::None, _) | (_, FillerAlign::None) => FillerAlign::None,
            (FillerAlign::Single, align) | (align, FillerAlign::Single) => align,
            (align, next) if align == next => align,
            _ => FillerAlign::Multiple,
        }
    }
}

/// Whether no component is a filler without end.
pub fn is_deterministic<T: Copy>(comps: &[Component<T>]) -> bool
    ensures answer { result ≡ deterministic comps.now }
{
    !has_unbounded_filler(comps)
}

// Whether some component is a filler without end.
fn has_unbounded_filler<T: Copy>(comps: &[Component<T>]) -> bool
    ensures answer { result ≡ some_of unbounded_filler comps.now }
{
    comps.iter().any(|comp| comp.is_unbounded_filler())
}

// The index of the first filler without end.
fn first_unbounded_filler<T: Copy>(comps: &[Component<T>]) -> Option<usize>
    ensures answer { result ≡ position unbounded_filler comps.now }
{
    comps.iter().position(|comp| comp.is_unbounded_filler())
}

/// Whether some component is a filler, with or without end.
pub fn has_filler<T: Copy>(comps: &[Component<T>]) -> bool
    ensures answer { result ≡ some_filler comps.now }
{
    comps.iter().any(|comp| comp.is_filler())
}

/// Whether every component has a static width, their sum is the claimed one, and that is at least 1.
pub fn has_static_width(comps: &[Component<PName>], claimed: u64) -> bool
    ensures answer { result ≡ of_static_width comps.now claimed }
{
    static_bits(comps) == Some(claimed) && claimed >= 1
}

// The sum of the widths, where all of them are static and it fits 64 bits.
fn static_bits(comps: &[Component<PName>]) -> Option<u64>
    ensures answer { result ≡ static_bits comps.now }
{
    let mut sum: u64 = 0;
    for comp in comps {
        sum = sum.checked_add(comp.range.static_width()?)?;
    }
    Some(sum)
}

/// How the first filler without end aligns the concatenation.
pub fn filler_alignment<T: Copy>(comps: &[Component<T>]) -> FillerAlign
    ensures answer { result ≡ alignment comps.now }
{
    match first_unbounded_filler(comps) {
        None => FillerAlign::None,
        Some(_) if comps.len() == 1 => FillerAlign::Single,
        Some(index) if index == comps.len() - 1 => FillerAlign::Lsb,
        Some(0) => FillerAlign::Msb,
        Some(_) => FillerAlign::Mid,
    }
}

/// Whether some component is a variable or a literal of full range, or has a static width of at least 1.
pub fn guaranteed_nonzero(comps: &[Component<PName>]) -> bool
    ensures answer { result ≡ certainly_wide comps.now }
{
    comps.iter().any(is_wide)
}

// Whether the component is a variable or a literal of full range, or has a static width of at least 1.
fn is_wide(comp: &Component<PName>) -> bool
    ensures answer { result ≡ wide comp.now }
{
    let whole = !comp.is_filler() && comp.has_full_range();
    whole || comp.range.static_width().unwrap_or(0) >= 1
}
