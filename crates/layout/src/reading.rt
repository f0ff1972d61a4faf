// The texts of a component: read from its lists, or refused.
ghost use Rattle.layout.specs.Mapping.{map_component};
ghost use Rattle.layout.specs.Reading.{bound_reads, calls, component_reads, every_digit, reads, reserved, reversed, same_bytes, same_lists};
ghost use Rattle.std.specs.Prelude.{◌≡◌, IfOk, if◌then◌else◌, Some, None};
ghost use Rattle.texts.specs.Flats.{flat_text};
ghost use Rattle.texts.specs.Refusals.{refusal};
ghost use Rattle.texts.specs.Texts.{lists_of};
ghost use Rattle.texts.specs.Tokens.{flattened};
ghost use Rattle.texts.specs.declared.refusals.Refusal.TheVariants.{WrongText};

use crate::handed_names::FnNames;
use components::{Component, Usbr};
use texts::{Flat, Refusal, Texts};

// Whether two texts are the same.
pub(crate) fn are_same(a: &[u8], b: &[u8]) -> bool
    ensures answer { result ≡ same_bytes a.now b.now }
{
    a == b
}

// Whether a text is made of digits alone.
fn all_digits(text: &[u8]) -> bool
    ensures answer { result ≡ every_digit text.now }
{
    text.iter().all(|byte| byte.is_ascii_digit())
}

// Whether a text begins with a function's name and an opening parenthesis. With `is_some_and` in the place of the match the proof
// did not close.
fn calls_of(name: &[u8], text: &[u8]) -> bool
    ensures answer { result ≡ calls name.now text.now }
{
    match text.strip_prefix(name) {
        Some(rest) => rest.starts_with(&b"("[..]),
        None => false,
    }
}

// Whether a bound may not have this text.
fn is_reserved(fn_names: &FnNames<'_>, text: &[u8]) -> bool
    ensures answer { result ≡ reserved fn_names.now text.now }
{
    all_digits(text)
        || calls_of(fn_names.get_bw, text)
        || calls_of(fn_names.usize_sub, text)
        || calls_of(fn_names.usize_add, text)
}

// The text of a list, if it has 1 to 1,024 bytes.
fn read_list(texts: &Texts, list: usize) -> Result<Flat, Refusal>
    ensures refused { refusal result ≡ (if reads (lists_of texts.now) list then None else Some WrongText) }
    ensures text { IfOk result (λ f. flat_text f ≡ flattened (lists_of texts.now) list) }
{
    let list = u8::try_from(list).or(Err(Refusal::WrongText))?;
    let mut text = Flat::new();
    if texts.flatten(list, &mut text).is_err() || text.as_slice().is_empty() {
        return Err(Refusal::WrongText);
    }
    Ok(text)
}

// The text of a bound's list, if it is one that a bound may have.
fn read_bound_text(fn_names: &FnNames<'_>, texts: &Texts, list: usize) -> Result<Flat, Refusal>
    ensures refused { refusal result ≡ (if bound_reads fn_names.now (lists_of texts.now) (Some list) then None else Some WrongText) }
    ensures text { IfOk result (λ f. flat_text f ≡ flattened (lists_of texts.now) list) }
{
    let text = read_list(texts, list)?;
    if is_reserved(fn_names, text.as_slice()) {
        return Err(Refusal::WrongText);
    }
    Ok(text)
}

/// A component with its texts, in the place of the lists that it was given by.
pub(crate) fn read_component(
    fn_names: &FnNames<'_>,
    texts: &Texts,
    component: Component<usize>,
) -> Result<Component<Flat>, Refusal>
    ensures refused { refusal result ≡ (if component_reads fn_names.now (lists_of texts.now) component then None else Some WrongText) }
    ensures texts { IfOk result (λ c. map_component flat_text c ≡ map_component (flattened (lists_of texts.now)) component) }
{
    component.try_map(
        |list| read_list(texts, list),
        |list| read_bound_text(fn_names, texts, list),
    )
}

// Whether two lists have the same text.
fn same_list_text(texts: &Texts, a: usize, b: usize) -> bool
    ensures answer { result ≡ same_lists (lists_of texts.now) a b }
{
    let (Ok(a), Ok(b)) = (u8::try_from(a), u8::try_from(b)) else {
        return false;
    };
    if a == b {
        return true;
    }
    let mut first = Flat::new();
    let mut second = Flat::new();
    texts.flatten(a, &mut first).is_ok()
        && texts.flatten(b, &mut second).is_ok()
        && are_same(first.as_slice(), second.as_slice())
}

/// Whether both bounds are there and have the same text, and the end lies before the start.
pub(crate) fn is_reversed(texts: &Texts, range: &Usbr<usize>) -> bool
    ensures answer { result ≡ reversed (lists_of texts.now) range.now }
{
    let (Some(start), Some(end)) = (range.start, range.end) else {
        return false;
    };
    if start.x <= end.x {
        return false;
    }
    match (start.s, end.s) {
        (None, None) => true,
        (Some(a), Some(b)) => same_list_text(texts, a, b),
        _ => false,
    }
}
