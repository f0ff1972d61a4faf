// Bytes that a text may hold.
ghost use Rattle.texts.specs.Printable.{every_printable, printable};
ghost use Rattle.std.specs.Prelude.{◌≡◌};

fn is_printable(byte: u8) -> bool
    ensures answer { result ≡ printable byte }
{
    matches!(byte, b' '..=b'~')
}

/// Whether each byte is a printable character of ASCII, 32 to 126.
pub fn all_printable(bytes: &[u8]) -> bool
    ensures answer { result ≡ every_printable bytes.now }
{
    bytes.iter().all(|byte| is_printable(*byte))
}
