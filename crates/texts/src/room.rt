// The room of a text of limited length.
ghost use Rattle.std.specs.Prelude.{◌≡◌, ◌≤◌, length};

/// A text of at most `N` bytes.
// An array and a length, and no `Vec`: texts are copied, and no memory is got after the start.
#[derive(Clone, Copy)]
pub struct Bounded<const N: usize> {
    pub(crate) bytes: [u8; N],
    pub(crate) len: usize,
    ghost full: { length bytes ≡ N },
    ghost within: { len ≤ N },
}

/// A text of at most 1,024 bytes, as a list flattens to.
pub type Flat = Bounded<1024>;

/// A text of at most 60 bytes, as an item holds.
pub(crate) type ShortText = Bounded<60>;
