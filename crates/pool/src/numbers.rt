// The number types, one for each pool, so that the number of one pool is never taken for that of another. The impls are written out one by
// one, since an impl by a macro is refused.
use crate::key::Number;

/// The number of a binding.
#[derive(Clone, Copy, PartialEq, Eq, Debug)]
pub struct PBind(u16);

/// The number of a value.
#[derive(Clone, Copy, PartialEq, Eq, Debug)]
pub struct PVal(u16);

/// The number of a width.
#[derive(Clone, Copy, PartialEq, Eq, Debug)]
pub struct PWidth(u16);

/// The number of a sum of widths.
#[derive(Clone, Copy, PartialEq, Eq, Debug)]
pub struct PCWidth(u16);

impl Number for PBind {
    ghost number = { λ n. n.0 };

    fn from_index(index: u16) -> PBind {
        PBind(index)
    }

    fn index(self) -> u16 {
        self.0
    }
}

impl Number for PVal {
    ghost number = { λ n. n.0 };

    fn from_index(index: u16) -> PVal {
        PVal(index)
    }

    fn index(self) -> u16 {
        self.0
    }
}

impl Number for PWidth {
    ghost number = { λ n. n.0 };

    fn from_index(index: u16) -> PWidth {
        PWidth(index)
    }

    fn index(self) -> u16 {
        self.0
    }
}

impl Number for PCWidth {
    ghost number = { λ n. n.0 };

    fn from_index(index: u16) -> PCWidth {
        PCWidth(index)
    }

    fn index(self) -> u16 {
        self.0
    }
}
