// What a layout is made of.
use components::Component;
use names::{NameTable, PName};
use std::marker::Model;
use texts::Texts;

/// A layout that is being described. Memory is got once, when it is made. Clauses see what was described.
#[derive(Drop)]
pub struct Layout {
    pub(crate) texts: Texts,
    pub(crate) names: NameTable,
    // The components of all concatenations, one concatenation after the other, and where each begins among them: their
    // memory is got once, since later calls may not fail.
    pub(crate) components: Vec<Component<PName>>,
    pub(crate) starts: Vec<usize>,
}

impl Model for Layout {
    ghost use Rattle.std.specs.Prelude.{◌≤◌, vec_capacity, vec_items, vec_len};
    ghost use Rattle.names.specs.Tables.{names_of};
    ghost use Rattle.texts.specs.Texts.{lists_of};
    ghost use Rattle.layout.specs.Layouts.{Described};
    ghost use Rattle.layout.specs.Starts.{Begun};

    ghost Value = { Described };

    ghost view = { λ l. record { lists = lists_of l.texts; names = names_of l.names; components = vec_items l.components; starts = vec_items l.starts } };

    ghost invariant = { λ l. (512 ≤ vec_capacity l.components) × (16 ≤ vec_capacity l.starts) × Begun (vec_items l.starts) (vec_len l.components) };
}
