// The numbers of names: a type of its own, as each pool has.
use pool::Number;

/// The number of a name.
#[derive(Clone, Copy, PartialEq, Eq, Debug)]
pub struct PName(pub u16);

impl Number for PName {
    ghost number = { λ n. n.0 };

    fn from_index(index: u16) -> PName {
        PName(index)
    }

    fn index(self) -> u16 {
        self.0
    }
}
