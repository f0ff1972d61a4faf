// Components: what they are, and which part of it they take.
ghost use Rattle.components.specs.Parts.{filler, fits_bits, fits_literal, fits_start, full_end, full_range, static_literal, unbounded_filler};
ghost use Rattle.std.specs.Prelude.{◌≡◌};

use crate::ranges::Usbr;

/// What a component is: a literal, by its width and its value, a variable, by what its text is known by, or a filler.
#[derive(Clone, Copy)]
pub enum ComponentType<T> {
    Literal { width: usize, value: u64 },
    Variable(T),
    Filler,
}

/// A component: a range of a literal or a variable, or as many bits of filler.
#[derive(Clone, Copy)]
pub struct Component<T> {
    pub c_type: ComponentType<T>,
    pub range: Usbr<T>,
}

impl<T: Copy> Component<T> {
    // Whether it is a filler, with or without end.
    pub(crate) fn is_filler(&self) -> bool
        ensures answer { result ≡ filler self.now }
    {
        matches!(self.c_type, ComponentType::Filler)
    }

    /// Whether it is a filler without end.
    pub fn is_unbounded_filler(&self) -> bool
        ensures answer { result ≡ unbounded_filler self.now }
    {
        self.is_filler() && self.range.end.is_none()
    }

    /// Whether the range starts at a static 0 and takes all of the literal or the variable, or is that of a filler
    /// with an end.
    pub fn has_full_range(&self) -> bool
        ensures answer { result ≡ full_range self.now }
    {
        self.range.start.is_some_and(|b| b.is_guaranteed_zero()) && self.ends_full()
    }

    // Whether the end is that of a full range.
    fn ends_full(&self) -> bool
        ensures answer { result ≡ full_end self.now }
    {
        let end = self.range.end;
        match self.c_type {
            ComponentType::Literal { width, .. } => end.is_none_or(|b| b.is_static_at(width)),
            ComponentType::Variable(_) => end.is_none(),
            ComponentType::Filler => end.is_some(),
        }
    }

    /// Whether it is a literal with both bounds there and static.
    pub fn is_static_literal(&self) -> bool
        ensures answer { result ≡ static_literal self.now }
    {
        matches!(self.c_type, ComponentType::Literal { .. }) && self.range.static_range().is_some()
    }

    /// Whether the start is absent on a filler without end, and there on everything else.
    pub fn start_fits(&self) -> bool
        ensures answer { result ≡ fits_start self.now }
    {
        self.range.start.is_none() == self.is_unbounded_filler()
    }

    /// Whether a literal has 1 to 64 bits and a value below 2^width, and a full range where both bounds are static.
    /// What is no literal fits.
    pub fn literal_fits(&self) -> bool
        ensures answer { result ≡ fits_literal self.now }
    {
        match self.c_type {
            ComponentType::Literal { width, value } => {
                value_fits(width, value) && (!self.is_static_literal() || self.has_full_range())
            }
            _ => true,
        }
    }
}

// Whether the width is 1 to 64 bits, and the value is below 2^width.
fn value_fits(width: usize, value: u64) -> bool
    ensures answer { result ≡ fits_bits width value }
{
    1 <= width && width <= 64 && u128::from(value) < 1 << width
}
