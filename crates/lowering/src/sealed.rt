// The stage of a sealed layout.
use crate::open::Open;
use layout::Claims;

/// A layout whose description has ended, with what it was claimed to be.
#[derive(Drop)]
pub struct Sealed<'a, 'n, 'c> {
    // The layout as it was described, with the memory and the names that came with it.
    pub(crate) open: Open<'a, 'n>,
    pub(crate) claims: Claims<'c>,
}
