// Numbers as a line has them: decimals, signed decimals, and hexadecimal digits and words.
ghost use Rattle.std.specs.Prelude.{◌≡◌, ◌^◌, ◌≤◌};
ghost use Rattle.lines.specs.Numbers.{below, digit_worth, grow, hex_word, numeral, signed_numeral};

/// What a digit is worth, with small and capital letters for those above nine.
pub fn digit(byte: u8) -> Option<u8>
    ensures worth { result ≡ digit_worth byte }
{
    Some((byte as char).to_digit(16)? as u8)
}

// A number with one more digit, if it is a digit of the base and 64 bits suffice.
fn grown(base: u8, value: u64, byte: u8) -> Option<u64>
    ensures value { result ≡ below (2 ^ 64) (grow base value (below base (digit_worth byte))) }
{
    let digit = digit(byte)?;
    if digit >= base {
        return None;
    }
    value.checked_mul(base as u64)?.checked_add(digit as u64)
}

// A number of at most 64 bits: digits of the base alone, and at least one.
fn in_base(base: u8, digits: &[u8]) -> Option<u64>
    requires base { 1 ≤ base }
    ensures value { result ≡ numeral base digits.now }
{
    let mut value = 0;
    for byte in digits {
        value = grown(base, value, *byte)?;
    }
    if digits.is_empty() { None } else { Some(value) }
}

pub fn decimal(word: &[u8]) -> Option<u64>
    ensures value { result ≡ numeral 10 word.now }
{
    in_base(10, word)
}

/// A word of at most 64 bits, as `0xab`.
pub fn hex_word(word: &[u8]) -> Option<u64>
    ensures value { result ≡ hex_word word.now }
{
    match word {
        [b'0', b'x', digits @ ..] => in_base(16, digits),
        _ => None,
    }
}

/// A decimal of at most 64 bits with its sign, and `-` alone for one.
pub fn signed(word: &[u8]) -> Option<i64>
    ensures value { result ≡ signed_numeral word.now }
{
    match word {
        [b'-', digits @ ..] => 0i64.checked_sub_unsigned(decimal(digits)?),
        _ => 0i64.checked_add_unsigned(decimal(word)?),
    }
}
