// The marks that stand beside the keys of the four pools.
// Those of values and sums have the same shape, but the rules name the marks of each pool, and one type for both would let
// the marks of one pool be set in the other.

/// Of a binding: whether it is used, and whether it has to be mutable.
#[derive(Clone, Copy, Default)]
pub struct BindMarks {
    pub used: bool,
    pub mutable: bool,
}

/// Of a value: whether it is used.
#[derive(Clone, Copy, Default)]
pub struct ValueMarks {
    pub used: bool,
}

/// Of a width: whether the checks use it, and whether it is assigned to a name.
#[derive(Clone, Copy, Default)]
pub struct WidthMarks {
    pub checked: bool,
    pub assigned: bool,
}

/// Of a sum of widths: whether it is used.
#[derive(Clone, Copy, Default)]
pub struct SumMarks {
    pub used: bool,
}
