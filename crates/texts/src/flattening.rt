// The text of a list.
ghost use Rattle.std.specs.Prelude.{◌≡◌, ◌+◌, ◌++◌, length, is_ok, OnOk, nat_le};
ghost use Rattle.texts.specs.Flats.{flat_text};
ghost use Rattle.texts.specs.Texts.{lists_of};
ghost use Rattle.texts.specs.Tokens.{flattened, items_of};

use crate::bounded::TooLong;
use crate::lists::Texts;
use crate::room::Flat;
use crate::token_tree::{Item, Text};

impl Texts {
    // The items of a list.
    fn items_in(&self, list: u8) -> &[Item]
        ensures items { result.now ≡ items_of list (lists_of self.now) }
    {
        let from = self.first_of(list as usize);
        let to = self.first_of(list as usize + 1);
        &self.items[from..to]
    }

    /// Adds the text of a list to `out`, or stops where it is too long. It costs the items of the list and of the
    /// lists in its groups, and their bytes.
    pub fn flatten(&self, list: u8, out: &mut Flat) -> Result<(), TooLong>
        ensures fits { is_ok result ≡ nat_le (length (flat_text out.old) + length (flattened (lists_of self.now) list)) 1024 }
        ensures text { OnOk result (flat_text out.new ≡ flat_text out.old ++ flattened (lists_of self.now) list) }
    {
        for item in self.items_in(list) {
            match item.text {
                Text::Chars(text) => out.add(text.as_slice())?,
                Text::Group(delimiter, child) => {
                    out.add(delimiter.lhs_chars())?;
                    self.flatten(child, out)?;
                    out.add(delimiter.rhs_chars())?;
                }
            }
        }
        Ok(())
    }
}
