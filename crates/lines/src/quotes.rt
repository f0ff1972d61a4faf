// Quoted strings, read byte by byte.
ghost use Rattle.lines.specs.Quotes.{quoted_from, step_of};
ghost use Rattle.lines.specs.declared.quotes.Part.TheVariants.{Plain as InPlain};
ghost use Rattle.lines.specs.declared.faults.Misread.TheVariants.{Unreadable as NotRead};
ghost use Rattle.std.specs.Prelude.{◌≡◌, [], Some as Just, None as Nothing, MatchResult};

use crate::faults::*;
use crate::numbers;
use std::alloc::Global;

/// What was read of a piece: nothing, a backslash, `\x`, or `\x` and a digit that is worth so much.
#[derive(Clone, Copy)]
pub enum Part {
    Plain,
    Escape,
    High,
    Low(u8),
}

/// What one more byte does: it ends the string, it leads on, or it completes a byte.
#[derive(Clone, Copy)]
pub enum Step {
    Close,
    On(Part),
    Whole(u8),
}

// A byte that begins a piece. A byte that is no ASCII is written by its digits.
fn take_plain(byte: u8) -> Option<Step>
    ensures step { result ≡ step_of InPlain byte }
{
    match byte {
        b'"' => Some(Step::Close),
        b'\\' => Some(Step::On(Part::Escape)),
        0..=127 => Some(Step::Whole(byte)),
        _ => None,
    }
}

// What a byte does, if it can stand there.
fn take(part: Part, byte: u8) -> Option<Step>
    ensures step { result ≡ step_of part byte }
{
    match part {
        Part::Plain => take_plain(byte),
        Part::Escape => match byte {
            b'"' | b'\\' => Some(Step::Whole(byte)),
            b'x' => Some(Step::On(Part::High)),
            _ => None,
        },
        Part::High => {
            let digit = numbers::digit(byte)?;
            Some(Step::On(Part::Low(digit)))
        }
        Part::Low(high) => {
            let digit = numbers::digit(byte)?;
            Some(Step::Whole(high.wrapping_mul(16).wrapping_add(digit)))
        }
    }
}

/// Reads a quoted string from behind its opening quote on: its bytes, and what stands behind its closing quote.
pub fn unquote(heap: Global, bytes: &[u8]) -> Result<(Vec<u8>, &[u8]), Misread>
    ensures text { MatchResult result (λ q. quoted_from InPlain [] bytes.now ≡ Just (q.0.items, q.1.now)) (λ e. (e ≡ NotRead → quoted_from InPlain [] bytes.now ≡ Nothing)) }
{
    let mut text = Vec::new(heap);
    let mut part = Part::Plain;
    for (i, byte) in bytes.iter().enumerate() {
        match take(part, *byte).ok_or(Misread::Unreadable)? {
            Step::Close => return Ok((text, &bytes[i + 1..])),
            Step::On(next) => part = next,
            Step::Whole(whole) => {
                text.push(whole)?;
                part = Part::Plain;
            }
        }
    }
    Err(Misread::Unreadable)
}
