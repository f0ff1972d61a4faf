// The fields of the table, in the order in which a code has them.
ghost use Rattle.campaign.specs.Copying.{name_of};
ghost use Rattle.std.specs.Prelude.{◌≡◌};

use std::fmt;

/// Bits of a card's number: cards are numbered 1 to 63.
pub const CARD: usize = 6;

/// The widths of the fields: a chapter, six flags, twelve cards of the deck, hands of four, five and three cards.
pub const WIDTHS: [usize; 6] = [5, 6, 72, 24, 30, 18];

/// What a flag says where it is set, from bit 0 on.
pub const FLAGS: [&str; 6] = [
    "the bridge is burnt",
    "the ferryman is paid",
    "the lantern is lit",
    "the gate is barred",
    "the bell has rung",
    "the map is found",
];

/// A field. Those up to the deck are always played; then comes a hand for each seat.
#[derive(Clone, Copy, PartialEq, Eq, Debug)]
pub enum Field {
    Chapter,
    Flags,
    Deck,
    Ada,
    Ben,
    Cleo,
}

// All fields, in their order.
const ALL: [Field; 6] = [
    Field::Chapter,
    Field::Flags,
    Field::Deck,
    Field::Ada,
    Field::Ben,
    Field::Cleo,
];

impl Field {
    // Not a `From`: the name says which number it is.
    /// Its name number, on the table and in a code.
    pub fn name(self) -> usize
        ensures name { result ≡ name_of self }
    {
        self as usize
    }
}

impl fmt::Display for Field {
    fn fmt<W: fmt::Write>(&self, f: &mut fmt::Formatter<W>) -> fmt::Result {
        f.pad(match self {
            Field::Chapter => "chapter",
            Field::Flags => "so far",
            Field::Deck => "deck, top first",
            Field::Ada => "Ada's hand",
            Field::Ben => "Ben's hand",
            Field::Cleo => "Cleo's hand",
        })
    }
}

/// The fields that are played with so many seats; a fourth seat and more have no hands.
pub fn played(seats: u32) -> &'static [Field] {
    match seats {
        0 => &[],
        _ => &ALL[..3 + seats.min(3) as usize],
    }
}
