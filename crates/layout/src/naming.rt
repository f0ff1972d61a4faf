// The names that a component brings: whether there is room for them, and their numbers.
ghost use Rattle.std.specs.Prelude.{◌≡◌, ◌+◌, ◌≤◌, true, not, ◌&&◌, Some, nat_le};
ghost use Rattle.layout.specs.Mapping.{bound_text, map_bound, map_component, map_type, type_text};
ghost use Rattle.layout.specs.Naming.{bytes_in, kept_if, name_of, names_after, names_fit, names_in, new_text, same_texts, with_text};
ghost use Rattle.names.specs.Tables.{names_of};
ghost use Rattle.pool.specs.Firsts.{known};
ghost use Rattle.pool.specs.Words.{by_word};
ghost use Rattle.std.specs.Option.{option_map};
ghost use Rattle.texts.specs.Flats.{flat_text};

use crate::reading;
use components::{Component, ComponentType, Usb, Usbr};
use names::{MOST_BYTES, MOST_NAMES, NameTable, PName};
use texts::Flat;

// The text of a variable.
fn type_text(c_type: &ComponentType<Flat>) -> Option<&Flat>
    ensures text { option_map (λ x. x.now) result ≡ type_text c_type.now }
{
    match c_type {
        ComponentType::Variable(text) => Some(text),
        _ => None,
    }
}

// The text of a bound.
fn bound_text(bound: &Option<Usb<Flat>>) -> Option<&Flat>
    ensures text { option_map (λ x. x.now) result ≡ bound_text bound.now }
{
    bound.as_ref().and_then(|bound| bound.s.as_ref())
}

// The text, if it is unknown. Here and below no `filter`: with the second one the proof did not close.
fn new_text<'a>(names: &NameTable, text: Option<&'a Flat>) -> Option<&'a Flat>
    ensures text { option_map (λ t. flat_text t.now) result ≡ kept_if (new_text (names_of names.now) (option_map (λ t. flat_text t.now) text.entry)) (option_map (λ t. flat_text t.now) text.entry) }
{
    let text = text?;
    is_unknown(names, text).then_some(text)
}

fn is_unknown(names: &NameTable, text: &Flat) -> bool
    ensures answer { result ≡ not (known by_word (names_of names.now) (flat_text text.now)) }
{
    names.find(text.as_slice()).is_none()
}

// The text, unless it is the one that comes before it.
fn text_after<'a>(before: Option<&Flat>, text: Option<&'a Flat>) -> Option<&'a Flat>
    ensures text { option_map (λ t. flat_text t.now) result ≡ kept_if (not (same_texts (option_map (λ t. flat_text t.now) before.entry) (option_map (λ t. flat_text t.now) text.entry))) (option_map (λ t. flat_text t.now) text.entry) }
{
    let text = text?;
    is_other(before, text).then_some(text)
}

// Whether the text is not the one before.
fn is_other(before: Option<&Flat>, text: &Flat) -> bool
    ensures answer { result ≡ not (same_texts (option_map (λ t. flat_text t.now) before.entry) (Some (flat_text text.now))) }
{
    before.is_none_or(|before| !reading::are_same(before.as_slice(), text.as_slice()))
}

// How many names there are, and how many bytes they have together.
#[derive(Clone, Copy)]
struct Tally {
    names: usize,
    bytes: usize,
}

impl Tally {
    // With one name more, if there is one.
    fn with(self, name: Option<&Flat>) -> Tally
        requires few { (self.names ≤ 1000) × (self.bytes ≤ 100000) }
        ensures names { result.names ≡ self.names + names_in (option_map (λ t. flat_text t.now) name.entry) }
        ensures bytes { result.bytes ≡ self.bytes + bytes_in (option_map (λ t. flat_text t.now) name.entry) }
        ensures few { (result.names ≤ self.names + 1) × (result.bytes ≤ self.bytes + 1024) }
    {
        match name {
            Some(name) => Tally {
                names: self.names + 1,
                bytes: self.bytes + name.as_slice().len(),
            },
            None => self,
        }
    }

    fn fits(self) -> bool
        ensures answer { result ≡ (nat_le self.names 256 && nat_le self.bytes 16384) }
    {
        self.names <= MOST_NAMES && self.bytes <= MOST_BYTES
    }
}

// Whether there is room for the names that texts bring, one after the other.
fn fits_with(
    names: &NameTable,
    first: Option<&Flat>,
    second: Option<&Flat>,
    third: Option<&Flat>,
) -> bool
    ensures answer { result ≡ names_fit (with_text (with_text (with_text (names_of names.now) (option_map (λ t. flat_text t.now) first.entry)) (option_map (λ t. flat_text t.now) second.entry)) (option_map (λ t. flat_text t.now) third.entry)) }
{
    let known = Tally {
        names: names.len(),
        bytes: names.bytes_len(),
    };
    let one = known.with(new_text(names, first));
    let two = one.with(text_after(first, new_text(names, second)));
    let all = two.with(text_after(second, text_after(first, new_text(names, third))));
    all.fits()
}

/// Whether there is room for the names of a component.
pub(crate) fn has_room(names: &NameTable, component: &Component<Flat>) -> bool
    ensures answer { result ≡ names_fit (names_after (names_of names.now) (map_component flat_text component.now)) }
{
    fits_with(
        names,
        type_text(&component.c_type),
        bound_text(&component.range.start),
        bound_text(&component.range.end),
    )
}

// Gives a variable's text its number. Here and for a component no `try_map`: its two calls would both have to lend the names to
// change them.
fn name_type(names: &mut NameTable, c_type: &ComponentType<Flat>) -> ComponentType<PName>
    requires room { names_fit (with_text (names_of names.old) (type_text (map_type flat_text c_type.now))) ≡ true }
    ensures names { names_of names.new ≡ with_text (names_of names.old) (type_text (map_type flat_text c_type.now)) }
    ensures answer { result ≡ map_type (name_of (names_of names.new)) (map_type flat_text c_type.now) }
{
    match c_type {
        ComponentType::Literal { width, value } => ComponentType::Literal {
            width: *width,
            value: *value,
        },
        ComponentType::Variable(text) => ComponentType::Variable(names.insert(text.as_slice())),
        ComponentType::Filler => ComponentType::Filler,
    }
}

// Gives a bound's text its number. No `map` with a closure that inserts: its contract does not say that the names stay
// where there is no text, and the proof did not close.
fn name_bound(names: &mut NameTable, bound: &Option<Usb<Flat>>) -> Option<Usb<PName>>
    requires room { names_fit (with_text (names_of names.old) (bound_text (option_map (map_bound flat_text) bound.now))) ≡ true }
    ensures names { names_of names.new ≡ with_text (names_of names.old) (bound_text (option_map (map_bound flat_text) bound.now)) }
    ensures answer { result ≡ option_map (map_bound (name_of (names_of names.new))) (option_map (map_bound flat_text) bound.now) }
{
    let Some(Usb { s, x }) = *bound else {
        return None;
    };
    let s = match s {
        Some(text) => Some(names.insert(text.as_slice())),
        None => None,
    };
    Some(Usb { s, x })
}

/// Gives the texts of a component their numbers: the variable's first, then the start's, then the end's.
pub(crate) fn name_component(names: &mut NameTable, component: &Component<Flat>) -> Component<PName>
    requires room { names_fit (names_after (names_of names.old) (map_component flat_text component.now)) ≡ true }
    ensures names { names_of names.new ≡ names_after (names_of names.old) (map_component flat_text component.now) }
    ensures answer { result ≡ map_component (name_of (names_of names.new)) (map_component flat_text component.now) }
{
    let c_type = name_type(names, &component.c_type);
    let start = name_bound(names, &component.range.start);
    let end = name_bound(names, &component.range.end);
    Component {
        c_type,
        range: Usbr { start, end },
    }
}
