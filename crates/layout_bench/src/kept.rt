// Texts of which as much is kept as a start looks at.
ghost use Rattle.std.specs.Prelude.{◌≡◌, take};
ghost use Rattle.texts.specs.Flats.{flat_text};

use texts::Bounded;

/// A name, or a text around. A start refuses one of over 64 bytes, whatever they are, so 65 bytes are enough.
pub type Kept = Bounded<65>;

/// Keeps a text: all of it, or its first 65 bytes.
pub fn keep(text: &[u8]) -> Kept
    ensures bytes { flat_text result ≡ take 65 text.now }
{
    Kept::front_of(text)
}
