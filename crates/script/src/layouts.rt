// Commands that build a layout.
ghost use Rattle.lines.specs.Numbers.{numeral};
ghost use Rattle.std.specs.Prelude.{◌≡◌};

use components::{Component, ComponentType, Usb, Usbr};
use layout::{Claims, ConcatClaim};
use lines::{Line, Misread};

/// What is claimed of a layout when it is sealed.
// `Claims` with a list of its own, since that of `Claims` is lent; flags and numbers as there, since wrong ones are refused.
#[derive(Drop)]
pub struct Sealing {
    pub returning: bool,
    pub initial: Option<usize>,
    pub nonzero: bool,
    pub common: Option<u64>,
    pub alignment: usize,
    pub concatenations: Vec<ConcatClaim>,
}

impl Sealing {
    /// The claims, as a layout is given them.
    pub fn claims(&self) -> Claims<'_>
        ensures whole { (result.returning ≡ self.now.returning) × (result.initial ≡ self.now.initial) × (result.nonzero ≡ self.now.nonzero) × (result.common ≡ self.now.common) × (result.alignment ≡ self.now.alignment) }
        ensures concatenations { result.concatenations.now ≡ self.now.concatenations.items }
    {
        Claims {
            returning: self.returning,
            initial: self.initial,
            nonzero: self.nonzero,
            common: self.common,
            alignment: self.alignment,
            concatenations: &self.concatenations,
        }
    }
}

/// A call that builds a layout.
#[derive(Drop)]
pub enum Build {
    Text {
        list: usize,
        bytes: Vec<u8>,
    },
    Group {
        list: usize,
        delimiter: usize,
        child: usize,
    },
    Concatenation,
    Component(Component<usize>),
    Seal(Sealing),
}

/// What stands behind `text`.
pub(crate) fn read_text(line: &mut Line<'_>) -> Result<Build, Misread> {
    let list = line.number()?;
    let bytes = line.quoted()?;
    Ok(Build::Text { list, bytes })
}

/// What stands behind `group`.
pub(crate) fn read_group(line: &mut Line<'_>) -> Result<Build, Misread> {
    let list = line.number()?;
    let delimiter = line.number()?;
    let child = line.number()?;
    Ok(Build::Group {
        list,
        delimiter,
        child,
    })
}

// The bound of a list's text: the list before the colon, and what is added behind it.
fn listed(list: &[u8], added: &[u8]) -> Option<Usb<usize>> {
    let list = lines::decimal(list)?;
    let x = lines::signed(added)?;
    let s = Some(list as usize);
    Some(Usb { s, x })
}

// A bound that is there: `X`, or `LIST:X`.
fn bound(word: &[u8]) -> Option<Usb<usize>> {
    match word.iter().position(|byte| *byte == b':') {
        Some(at) => listed(&word[..at], &word[at + 1..]),
        None => Some(Usb {
            s: None,
            x: lines::signed(word)?,
        }),
    }
}

// What a word spells, or `-` for none.
fn optional<T: Drop, F: Fn(&[u8]) -> Option<T> + Drop>(
    word: &[u8],
    read: F,
) -> Result<Option<T>, Misread>
    requires { F.IsAlwaysCallable read }
{
    match word {
        b"-" => Ok(None),
        _ => Ok(Some(read(word).ok_or(Misread::Unreadable)?)),
    }
}

fn read_literal(line: &mut Line<'_>) -> Result<ComponentType<usize>, Misread> {
    let width = line.number()?;
    let value = line.hex_word()?;
    Ok(ComponentType::Literal { width, value })
}

fn read_type(line: &mut Line<'_>) -> Result<ComponentType<usize>, Misread> {
    match line.word()? {
        b"literal" => read_literal(line),
        b"variable" => Ok(ComponentType::Variable(line.number()?)),
        b"filler" => Ok(ComponentType::Filler),
        _ => Err(Misread::Unreadable),
    }
}

/// What stands behind `component`.
pub(crate) fn read_component(line: &mut Line<'_>) -> Result<Build, Misread> {
    let c_type = read_type(line)?;
    let start = optional(line.word()?, bound)?;
    let end = optional(line.word()?, bound)?;
    let range = Usbr { start, end };
    Ok(Build::Component(Component { c_type, range }))
}

// The prover does not cover a function of another crate that is handed on.
fn decimal(word: &[u8]) -> Option<u64>
    ensures value { result ≡ numeral 10 word.now }
{
    lines::decimal(word)
}

// A list, or `-` for none.
fn read_initial(line: &mut Line<'_>) -> Result<Option<usize>, Misread> {
    let initial = optional(line.word()?, decimal)?;
    Ok(initial.map(|list| list as usize))
}

// 1 for yes, and 0 for no.
fn read_flag(line: &mut Line<'_>) -> Result<bool, Misread> {
    match line.decimal()? {
        0 => Ok(false),
        1 => Ok(true),
        _ => Err(Misread::Unreadable),
    }
}

// What is claimed of a concatenation: `d` or `n`, and a width or `-`.
fn read_claim(word: &[u8]) -> Result<ConcatClaim, Misread> {
    let (deterministic, width) = match word {
        [b'd', width @ ..] => (true, width),
        [b'n', width @ ..] => (false, width),
        _ => return Err(Misread::Unreadable),
    };
    let static_width = optional(width, decimal)?;
    Ok(ConcatClaim {
        deterministic,
        static_width,
    })
}

/// What stands behind `seal`.
pub(crate) fn read_seal(line: &mut Line<'_>) -> Result<Build, Misread> {
    let returning = read_flag(line)?;
    let initial = read_initial(line)?;
    let nonzero = read_flag(line)?;
    let common = optional(line.word()?, decimal)?;
    let alignment = line.number()?;
    let concatenations = line.all(read_claim)?;
    Ok(Build::Seal(Sealing {
        returning,
        initial,
        nonzero,
        common,
        alignment,
        concatenations,
    }))
}
