// The instructions of the list.
use pool::{PBind, PCWidth, PVal, PWidth};

/// What an instruction does.
#[derive(Clone, Copy)]
pub enum Instruction {
    // Not the `None` of an `Option` around the rest: the list that is read has no holes, so each reader would have to test
    // for what cannot be there.
    /// Nothing: what a lent place holds before lowering.
    Nothing,
    /// Defines a binding.
    Bind(PBind),
    /// Defines a value.
    Value(PVal),
    /// Defines a width.
    Width(PWidth),
    /// Defines a sum of widths.
    Sum(PCWidth),
}
