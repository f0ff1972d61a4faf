// The memory that a layout owns, before it is started.
ghost use Rattle.std.specs.Prelude.{◌≡◌, []};

use crate::ast::Layout;
use std::alloc::{AllocError, Global};

/// Room for a layout, with nothing in it.
#[derive(Drop)]
pub struct Room {
    layout: Layout,
    ghost lists: { layout.lists ≡ [] },
    ghost names: { layout.names ≡ [] },
    ghost components: { layout.components ≡ [] },
    ghost starts: { layout.starts ≡ [] },
}

impl Room {
    /// Gets the memory; fails only for want of it.
    pub fn new(heap: Global) -> Result<Room, AllocError> {
        let layout = Layout::new(heap)?;
        Ok(Room { layout })
    }

    /// The layout that has this room, with nothing in it.
    pub fn into_layout(self) -> Layout
        ensures lists { result.lists ≡ [] }
        ensures names { result.names ≡ [] }
        ensures components { result.components ≡ [] }
        ensures starts { result.starts ≡ [] }
    {
        let Room { layout } = self;
        layout
    }
}
