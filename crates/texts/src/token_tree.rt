// What text lists are made of: short texts, and groups of lists between delimiters.
ghost use Rattle.texts.specs.Tokens.{delimiter_of, lhs, rhs};
ghost use Rattle.std.specs.Prelude.{◌≡◌};
ghost use Rattle.std.specs.Option.{ok_or};
ghost use Rattle.texts.specs.declared.refusals.Refusal.TheVariants.{WrongItem};

use crate::refusals::Refusal;
use crate::room::ShortText;

/// What stands before and after the list of a group.
#[derive(Clone, Copy, PartialEq, Eq, Debug)]
pub enum Delimiter {
    None,
    Space,
    Parenthesis,
    Bracket,
    Brace,
    RangeBracket,
    Component,
    Concatenation,
}

impl TryFrom<usize> for Delimiter {
    type Error = Refusal;

    ghost try_from_gives = { λ number r. r ≡ ok_or (delimiter_of number) WrongItem };

    /// The delimiter that has this number, 0 to 7.
    fn try_from(number: usize) -> Result<Delimiter, Refusal> {
        match number {
            0 => Ok(Delimiter::None),
            1 => Ok(Delimiter::Space),
            2 => Ok(Delimiter::Parenthesis),
            3 => Ok(Delimiter::Bracket),
            4 => Ok(Delimiter::Brace),
            5 => Ok(Delimiter::RangeBracket),
            6 => Ok(Delimiter::Component),
            7 => Ok(Delimiter::Concatenation),
            _ => Err(Refusal::WrongItem),
        }
    }
}

impl Delimiter {
    // What stands before the list, and what stands after it.
    fn sides(self) -> (&'static [u8], &'static [u8])
        ensures before { result.0.now ≡ lhs self }
        ensures after { result.1.now ≡ rhs self }
    {
        match self {
            Delimiter::None => (b"", b""),
            Delimiter::Space => (b" ", b" "),
            Delimiter::Parenthesis => (b"(", b")"),
            Delimiter::Bracket => (b"[", b"]"),
            Delimiter::Brace => (b"{", b"}"),
            Delimiter::RangeBracket => (b"[", b"]"),
            Delimiter::Component => (b"", b","),
            Delimiter::Concatenation => (b"", b";"),
        }
    }

    /// What stands before the list.
    pub fn lhs_chars(self) -> &'static [u8]
        ensures answer { result.now ≡ lhs self }
    {
        self.sides().0
    }

    /// What stands after it.
    pub fn rhs_chars(self) -> &'static [u8]
        ensures answer { result.now ≡ rhs self }
    {
        self.sides().1
    }
}

/// An item of a list: a text, or another list in a group.
#[derive(Clone, Copy)]
pub(crate) enum Text {
    Chars(ShortText),
    Group(Delimiter, u8),
}

/// An item, and the number of the list that it stands in.
#[derive(Clone, Copy)]
pub(crate) struct Item {
    pub list: u8,
    pub text: Text,
}
