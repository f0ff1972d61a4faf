// The stage in which a layout is described.
use crate::lent::{Handed, Memory};
use layout::Layout;

/// A layout that is being described, with the memory that is lent to lowering and the names that are handed in.
#[derive(Drop)]
pub struct Open<'a, 'n> {
    pub(crate) layout: Layout,
    pub(crate) memory: Memory<'a>,
    pub(crate) handed: Handed<'n>,
}
