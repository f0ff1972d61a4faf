// Bounds, and the ranges between them.
ghost use Rattle.components.specs.Ranges.{guaranteed_zero, no_bounds, range_within, range_width, static_at, static_range, static_val, within};
ghost use Rattle.std.specs.Prelude.{◌≡◌};

use names::PName;

// The largest distance of a bound from its text, or from 0 where it has none.
const LIMIT: i64 = 1_000_000;

/// A bound: an optional text, plus x. Without text it is static. What a text is known by is T: the number of a list,
/// or of a name.
#[derive(Clone, Copy)]
pub struct Usb<T> {
    pub s: Option<T>,
    pub x: i64,
}

impl<T: Copy> Usb<T> {
    /// The number that a static bound is.
    pub fn static_val(&self) -> Option<i64>
        ensures answer { result ≡ static_val self.now }
    {
        self.s.is_none().then_some(self.x)
    }

    /// Whether the bound is static, and 0.
    pub fn is_guaranteed_zero(&self) -> bool
        ensures answer { result ≡ guaranteed_zero self.now }
    {
        self.s.is_none() && self.x == 0
    }

    // Whether the bound is static, and this number.
    pub(crate) fn is_static_at(&self, n: usize) -> bool
        ensures answer { result ≡ static_at n self.now }
    {
        self.s.is_none() && usize::try_from(self.x) == Ok(n)
    }

    /// Whether x lies from -1,000,000 to 1,000,000, and is not negative in a static bound.
    pub fn within_limits(&self) -> bool
        ensures answer { result ≡ within self.now }
    {
        let lowest = if self.s.is_none() { 0 } else { -LIMIT };
        (lowest..=LIMIT).contains(&self.x)
    }
}

/// A range, from start to end. An absent end of a variable or a literal is its own width.
#[derive(Clone, Copy)]
pub struct Usbr<T> {
    pub start: Option<Usb<T>>,
    pub end: Option<Usb<T>>,
}

impl<T: Copy> Usbr<T> {
    /// The range that has neither bound.
    pub fn unbounded() -> Usbr<T>
        ensures answer { result ≡ no_bounds }
    {
        Usbr {
            start: None,
            end: None,
        }
    }

    /// The start and the end, where both are there and static.
    pub fn static_range(&self) -> Option<(i64, i64)>
        ensures answer { result ≡ static_range self.now }
    {
        let start = self.start?;
        let end = self.end?;
        Some((start.static_val()?, end.static_val()?))
    }

    /// Whether each bound that is there lies within the limits.
    pub fn within_limits(&self) -> bool
        ensures answer { result ≡ range_within self.now }
    {
        self.start.is_none_or(|b| b.within_limits()) && self.end.is_none_or(|b| b.within_limits())
    }
}

impl Usbr<PName> {
    /// How far the end lies past the start, where both are there and have the same text, or none, and the end is not
    /// below the start.
    pub fn static_width(&self) -> Option<u64>
        ensures answer { result ≡ range_width self.now }
    {
        let start = self.start?;
        let end = self.end?;
        let forwards = start.s == end.s && start.x <= end.x;
        forwards.then_some(end.x.abs_diff(start.x))
    }
}
