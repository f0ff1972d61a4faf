// The lists of a layout's texts.
ghost use Rattle.std.specs.Prelude.{◌≡◌, ℕ, ◌≤◌, true, false, length, vec_len, vec_capacity, slice_index_or};
ghost use Rattle.texts.specs.Tokens.{Sorted, every_child_above, taken_in};

use crate::token_tree::Item;

/// 256 lists of texts and groups, with at most 1,024 items in all. Memory is got once, when they are made.
#[derive(Drop)]
pub struct Texts {
    // Sorted by list; within a list, in the order in which they came. One `Vec` for all lists, as memory is got once.
    pub(crate) items: Vec<Item>,
    // Which lists stand in a group: a flag for each, as a search through all items would make each group cost more.
    pub(crate) taken: [bool; 256],
    ghost room: { 1024 ≤ vec_capacity items },
    ghost few: { vec_len items ≤ 1024 },
    ghost sorted: { Sorted items.items },
    ghost above: { every_child_above items.items ≡ true },
    ghost flags: { length taken ≡ 256 },
    ghost parents: { (list : ℕ) → slice_index_or taken list false ≡ taken_in list items.items },
}
