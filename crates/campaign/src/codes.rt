// Codes as players write them down: groups of four hexadecimal digits, two bytes each.
use std::alloc::{AllocError, AllocFailed, Global};
use std::fmt::Write;

/// The bytes of a code in groups.
pub fn written(heap: Global, bytes: &[u8]) -> Result<String, AllocError> {
    let mut text = String::new(heap);
    for group in bytes.chunks(2) {
        if !text.is_empty() {
            text.push(' ')?;
        }
        for byte in group {
            write!(text, "{byte:02x}")?;
        }
    }
    Ok(text)
}

/// The bytes of a code that is typed in: digits in pairs, whatever stands between them.
pub fn typed(heap: Global, text: &str) -> Result<Vec<u8>, AllocFailed<u8>> {
    let mut bytes = Vec::new(heap);
    let mut digits = text.chars().filter_map(|digit| digit.to_digit(16));
    while let (Some(high), Some(low)) = (digits.next(), digits.next()) {
        bytes.push((((high << 4) | low) & 0xff) as u8)?;
    }
    Ok(bytes)
}
