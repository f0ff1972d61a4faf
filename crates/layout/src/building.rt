// The calls that describe a layout.
ghost use Rattle.std.specs.Prelude.{◌≡◌, ◌<◌, true, [], length, is_ok, IfOk, if◌then◌else◌, OnOk};
ghost use Rattle.layout.specs.Layouts.{begun_answer, component_answer, concatenation_answer, concats, group_answer, has_place, last_comps, shape_answer, spelled, text_answer, texts_answer, with_component, with_concatenation, with_names};
ghost use Rattle.layout.specs.Starts.{concat_at, start_at};
ghost use Rattle.layout.specs.Mapping.{map_component};
ghost use Rattle.layout.specs.Naming.{names_fit};
ghost use Rattle.texts.specs.Flats.{flat_text};
ghost use Rattle.texts.specs.Lists.{Grouped, Written};
ghost use Rattle.texts.specs.Refusals.{refusal};

use crate::ast::Layout;
use crate::handed_names::FnNames;
use crate::{naming, reading};
use components::{Component, ComponentType};
use names::{NameTable, PName};
use std::alloc::{AllocError, Global};
use texts::{Flat, Refusal, Texts};

// Each call says of each part of a layout what becomes of it, in a clause of its own that a caller can cite.
impl Layout {
    /// A layout with nothing in it; fails only for want of memory.
    pub(crate) fn new(heap: Global) -> Result<Layout, AllocError>
        ensures lists { IfOk result (λ l. l.lists ≡ []) }
        ensures names { IfOk result (λ l. l.names ≡ []) }
        ensures components { IfOk result (λ l. l.components ≡ []) }
        ensures starts { IfOk result (λ l. l.starts ≡ []) }
    {
        let texts = Texts::new(heap)?;
        let names = NameTable::new(heap)?;
        let components = Vec::with_capacity(heap, 512)?;
        let starts = Vec::with_capacity(heap, 16)?;
        Ok(Layout {
            texts,
            names,
            components,
            starts,
        })
    }

    // How many concatenations there are.
    pub(crate) fn count(&self) -> usize
        ensures answer { result ≡ concats self.now }
    {
        self.starts.len()
    }

    // Refuses a text or a group once a concatenation has begun.
    fn check_unbegun(&self) -> Result<(), Refusal>
        ensures refused { refusal result ≡ begun_answer self.now }
    {
        if self.count() > 0 {
            Err(Refusal::NoRoomForItem)
        } else {
            Ok(())
        }
    }

    /// Adds a text of 1 to 60 printable bytes to one of 256 lists.
    pub fn text(&mut self, list: usize, bytes: &[u8]) -> Result<(), Refusal>
        ensures refused { refusal result ≡ text_answer self.old list bytes.now }
        ensures lists { Written (is_ok result) list bytes.now self.old.lists self.new.lists }
        ensures names { self.new.names ≡ self.old.names }
        ensures components { self.new.components ≡ self.old.components }
        ensures starts { self.new.starts ≡ self.old.starts }
    {
        self.check_unbegun()?;
        self.texts.text(list, bytes)
    }

    /// Adds a list, between delimiters, to another list.
    pub fn group(&mut self, list: usize, delimiter: usize, child: usize) -> Result<(), Refusal>
        ensures refused { refusal result ≡ group_answer self.old list delimiter child }
        ensures lists { Grouped (is_ok result) list delimiter child self.old.lists self.new.lists }
        ensures names { self.new.names ≡ self.old.names }
        ensures components { self.new.components ≡ self.old.components }
        ensures starts { self.new.starts ≡ self.old.starts }
    {
        self.check_unbegun()?;
        self.texts.group(list, delimiter, child)
    }

    /// Begins a concatenation, the source first, then the sinks.
    pub fn concatenation(&mut self) -> Result<(), Refusal>
        ensures refused { refusal result ≡ concatenation_answer self.old }
        ensures lists { self.new.lists ≡ self.old.lists }
        ensures names { self.new.names ≡ self.old.names }
        ensures components { self.new.components ≡ self.old.components }
        ensures starts { self.new.starts ≡ (if is_ok result then with_concatenation self.old else self.old.starts) }
    {
        if self.starts.len() >= 16 {
            return Err(Refusal::NoRoomForPart);
        }
        let end = self.components.len();
        self.starts.push_reserved(end);
        Ok(())
    }

    // Where a concatenation begins; past the last one, where the components end.
    fn start_of(&self, k: usize) -> usize
        ensures answer { result ≡ start_at self.now.starts (length self.now.components) k }
    {
        self.starts.get(k).copied().unwrap_or(self.components.len())
    }

    /// The components of a concatenation.
    pub(crate) fn comps_of(&self, k: usize) -> &[Component<PName>]
        requires there { k < length self.now.starts }
        ensures comps { result.now ≡ concat_at self.now.starts self.now.components k }
    {
        let from = self.starts[k];
        let to = self.start_of(k + 1);
        &self.components[from..to]
    }

    // The components of the last concatenation.
    fn last_comps(&self) -> &[Component<PName>]
        requires begun { 0 < length self.now.starts }
        ensures comps { result.now ≡ last_comps self.now }
    {
        self.comps_of(self.count() - 1)
    }

    // Whether the last concatenation has room for a component.
    fn has_place(&self) -> bool
        ensures answer { result ≡ has_place self.now }
    {
        self.count() > 0 && self.last_comps().len() < 32
    }

    /// Adds a component to the last concatenation, from its least significant bit on. It costs the bytes of its own
    /// texts, and about log2 of the names as many comparisons for each; a filler without end also a look at the
    /// components before it.
    pub fn component(
        &mut self,
        fn_names: &FnNames<'_>,
        component: Component<usize>,
    ) -> Result<(), Refusal>
        ensures refused { refusal result ≡ component_answer fn_names.now self.old component }
        ensures lists { self.new.lists ≡ self.old.lists }
        ensures names { self.new.names ≡ (if is_ok result then with_names self.old component else self.old.names) }
        ensures components { self.new.components ≡ (if is_ok result then with_component self.old component else self.old.components) }
        ensures starts { self.new.starts ≡ self.old.starts }
    {
        if !self.has_place() {
            return Err(Refusal::NoRoomForPart);
        }
        check_shape(self.last_comps(), self.count(), &component)?;
        let spelled = self.spelled(fn_names, component)?;
        let named = naming::name_component(&mut self.names, &spelled);
        self.components.push_reserved(named);
        Ok(())
    }

    // A component with its texts, if it may have them and there is room for their names.
    fn spelled(
        &self,
        fn_names: &FnNames<'_>,
        component: Component<usize>,
    ) -> Result<Component<Flat>, Refusal>
        ensures refused { refusal result ≡ texts_answer fn_names.now self.now component }
        ensures texts { IfOk result (λ c. map_component flat_text c ≡ spelled self.now component) }
        ensures room { OnOk result (names_fit (with_names self.now component) ≡ true) }
    {
        if reading::is_reversed(&self.texts, &component.range) {
            return Err(Refusal::ReversedRange);
        }
        let spelled = reading::read_component(fn_names, &self.texts, component)?;
        if !naming::has_room(&self.names, &spelled) {
            return Err(Refusal::NamesFull);
        }
        Ok(spelled)
    }
}

// Refuses a component for what it is, after these components of the last of so many concatenations.
fn check_shape(
    comps: &[Component<PName>],
    count: usize,
    component: &Component<usize>,
) -> Result<(), Refusal>
    ensures refused { refusal result ≡ shape_answer comps.now count component.now }
{
    if !component.start_fits() {
        return Err(Refusal::WrongStart);
    }
    if !component.range.within_limits() {
        return Err(Refusal::BoundOutside);
    }
    if component.is_unbounded_filler() && !components::is_deterministic(comps) {
        return Err(Refusal::SecondFiller);
    }
    let literal = matches!(component.c_type, ComponentType::Literal { .. });
    if literal && count > 1 || !component.literal_fits() {
        return Err(Refusal::WrongLiteral);
    }
    Ok(())
}
