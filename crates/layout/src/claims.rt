// What is claimed of a layout when it is sealed.

/// What is claimed of one concatenation.
#[derive(Clone, Copy)]
pub struct ConcatClaim {
    /// That it has no filler without end.
    pub deterministic: bool,
    /// The sum of its components' static widths, if it is given.
    pub static_width: Option<u64>,
}

/// What is claimed of a layout: flags and plain numbers, as they are handed in, since wrong ones are refused and not ruled
/// out.
#[derive(Clone, Copy)]
pub struct Claims<'a> {
    /// Whether the layout returns what it builds.
    pub returning: bool,
    /// The list of the initial text, if there is one.
    pub initial: Option<usize>,
    /// That the common width is at least 1.
    pub nonzero: bool,
    /// The common width, if it is given.
    pub common: Option<u64>,
    /// The number of the alignment.
    pub alignment: usize,
    /// What is claimed of each concatenation.
    pub concatenations: &'a [ConcatClaim],
}
