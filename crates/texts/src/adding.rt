// Adding items to lists.
ghost use Rattle.std.specs.Prelude.{◌≡◌, ℕ, ◌+◌, ◌<◌, ◌≤◌, true, [], length, is_ok, IfOk, vec_len, if◌then◌else◌};
ghost use Rattle.texts.specs.Refusals.{refusal};
ghost use Rattle.texts.specs.Lists.{Added, Grouped, Written, free_child, group_refusal, no_room, text_refusal};
ghost use Rattle.texts.specs.Texts.{lists_of};
ghost use Rattle.texts.specs.Tokens.{child_above, list_at};

use crate::lists::Texts;
use crate::printable::all_printable;
use crate::refusals::Refusal;
use crate::room::ShortText;
use crate::token_tree::{Delimiter, Item, Text};
use std::alloc::{AllocError, Global};

impl Texts {
    /// 256 empty lists; fails only for want of memory.
    pub fn new(heap: Global) -> Result<Texts, AllocError>
        ensures empty { IfOk result (λ t. lists_of t ≡ []) }
    {
        let items = Vec::with_capacity(heap, 1024)?;
        Ok(Texts {
            items,
            taken: [false; 256],
        })
    }

    // Where the items of the lists from `list` on begin.
    pub(crate) fn first_of(&self, list: usize) -> usize
        requires there { list ≤ 256 }
        ensures within { result ≤ length (lists_of self.now) }
        ensures before { (i : ℕ) → i < result → list_at (lists_of self.now) i < list }
        ensures after { (i : ℕ) → result ≤ i → list ≤ list_at (lists_of self.now) i }
    {
        self.items
            .partition_point(|item| (item.list as usize) < list)
    }

    // Adds an item at the end of its list; the items of the lists above move up by one. There is room, so it does not fail.
    fn add(&mut self, list: u8, text: Text)
        requires room { vec_len self.old.items < 1024 }
        requires above { child_above list text ≡ true }
        ensures added { Added list text (lists_of self.old) (lists_of self.new) }
    {
        let at = self.first_of(list as usize + 1);
        let _ = self.items.insert(at, Item { list, text });
        if let Text::Group(_, child) = text {
            self.taken[child as usize] = true;
        }
    }

    // The list of this number, if it is one and an item is left.
    fn with_room(&self, list: usize) -> Result<u8, Refusal>
        ensures answer { result ≡ (if no_room (lists_of self.now) list then Err Refusal.NoRoomForItem else Ok list) }
    {
        if self.items.len() >= 1024 {
            return Err(Refusal::NoRoomForItem);
        }
        u8::try_from(list).or(Err(Refusal::NoRoomForItem))
    }

    // The list of this number, if it may stand in a group of another.
    fn free_child(&self, list: u8, child: usize) -> Result<u8, Refusal>
        ensures answer { result ≡ (if free_child (lists_of self.now) list child then Ok child else Err Refusal.WrongChild) }
    {
        let child = u8::try_from(child).or(Err(Refusal::WrongChild))?;
        if child <= list || self.taken[child as usize] {
            return Err(Refusal::WrongChild);
        }
        Ok(child)
    }

    /// Adds a text of 1 to 60 printable bytes to a list. It moves the items of the lists above by one.
    pub fn text(&mut self, list: usize, bytes: &[u8]) -> Result<(), Refusal>
        ensures refused { refusal result ≡ text_refusal (lists_of self.old) list bytes.now }
        ensures lists { Written (is_ok result) list bytes.now (lists_of self.old) (lists_of self.new) }
    {
        let list = self.with_room(list)?;
        if bytes.is_empty() || bytes.len() > 60 || !all_printable(bytes) {
            return Err(Refusal::WrongItem);
        }
        self.add(list, Text::Chars(ShortText::front_of(bytes)));
        Ok(())
    }

    // Lists and delimiters come as plain numbers, since wrong ones are refused.
    /// Adds another list to a list, between delimiters. It moves the items of the lists above by one.
    pub fn group(&mut self, list: usize, delimiter: usize, child: usize) -> Result<(), Refusal>
        ensures refused { refusal result ≡ group_refusal (lists_of self.old) list delimiter child }
        ensures lists { Grouped (is_ok result) list delimiter child (lists_of self.old) (lists_of self.new) }
    {
        let list = self.with_room(list)?;
        let delimiter = Delimiter::try_from(delimiter)?;
        let child = self.free_child(list, child)?;
        self.add(list, Text::Group(delimiter, child));
        Ok(())
    }
}
