// The calls that describe a layout.
ghost use Rattle.layout.specs.Layouts.{component_answer, concatenation_answer, group_answer, text_answer, with_component, with_concatenation, with_names};
ghost use Rattle.std.specs.Prelude.{◌≡◌, is_ok, if◌then◌else◌};
ghost use Rattle.texts.specs.Lists.{Grouped, Written};
ghost use Rattle.texts.specs.Refusals.{refusal};

use crate::open::Open;
use components::Component;
use texts::Refusal;

// The clauses are those of the layout's own calls, one for each part of it, so that a caller can cite it; `rest` is all else.
impl Open<'_, '_> {
    /// Adds a text of 1 to 60 printable bytes to one of 256 lists.
    pub fn text(&mut self, list: usize, bytes: &[u8]) -> Result<(), Refusal>
        ensures refused { refusal result ≡ text_answer self.old.layout list bytes.now }
        ensures lists { Written (is_ok result) list bytes.now self.old.layout.lists self.new.layout.lists }
        ensures names { self.new.layout.names ≡ self.old.layout.names }
        ensures components { self.new.layout.components ≡ self.old.layout.components }
        ensures starts { self.new.layout.starts ≡ self.old.layout.starts }
        ensures rest { self.new ≡ record self.old { layout = self.new.layout } }
    {
        self.layout.text(list, bytes)
    }

    /// Adds a list, between delimiters, to another list.
    pub fn group(&mut self, list: usize, delimiter: usize, child: usize) -> Result<(), Refusal>
        ensures refused { refusal result ≡ group_answer self.old.layout list delimiter child }
        ensures lists { Grouped (is_ok result) list delimiter child self.old.layout.lists self.new.layout.lists }
        ensures names { self.new.layout.names ≡ self.old.layout.names }
        ensures components { self.new.layout.components ≡ self.old.layout.components }
        ensures starts { self.new.layout.starts ≡ self.old.layout.starts }
        ensures rest { self.new ≡ record self.old { layout = self.new.layout } }
    {
        self.layout.group(list, delimiter, child)
    }

    /// Begins a concatenation, the source first, then the sinks.
    pub fn concatenation(&mut self) -> Result<(), Refusal>
        ensures refused { refusal result ≡ concatenation_answer self.old.layout }
        ensures lists { self.new.layout.lists ≡ self.old.layout.lists }
        ensures names { self.new.layout.names ≡ self.old.layout.names }
        ensures components { self.new.layout.components ≡ self.old.layout.components }
        ensures starts { self.new.layout.starts ≡ (if is_ok result then with_concatenation self.old.layout else self.old.layout.starts) }
        ensures rest { self.new ≡ record self.old { layout = self.new.layout } }
    {
        self.layout.concatenation()
    }

    /// Adds a component to the last concatenation, from its least significant bit on.
    pub fn component(&mut self, component: Component<usize>) -> Result<(), Refusal>
        ensures refused { refusal result ≡ component_answer self.old.handed.fn_names self.old.layout component }
        ensures lists { self.new.layout.lists ≡ self.old.layout.lists }
        ensures names { self.new.layout.names ≡ (if is_ok result then with_names self.old.layout component else self.old.layout.names) }
        ensures components { self.new.layout.components ≡ (if is_ok result then with_component self.old.layout component else self.old.layout.components) }
        ensures starts { self.new.layout.starts ≡ self.old.layout.starts }
        ensures rest { self.new ≡ record self.old { layout = self.new.layout } }
    {
        self.layout.component(&self.handed.fn_names, component)
    }
}
