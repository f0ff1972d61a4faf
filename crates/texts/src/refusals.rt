// Why a call that describes a layout is refused.
ghost use Rattle.texts.specs.Refusals.{number_of};
ghost use Rattle.std.specs.Prelude.{◌≡◌};

/// A refusal, by its reason.
#[derive(Clone, Copy, PartialEq, Eq, Debug)]
pub enum Refusal {
    /// too little memory is lent at the start, or a name or a text around is not as it has to be.
    UnfitStart = 1,
    /// there is no such list, its items are used up, or a concatenation was begun.
    NoRoomForItem = 2,
    /// the text is not 1 to 60 printable bytes, or there is no such delimiter.
    WrongItem = 3,
    /// the child list is not above the list, is not there, or stands in a group already.
    WrongChild = 4,
    /// there is no concatenation, or there would be too many concatenations or components.
    NoRoomForPart = 5,
    /// the start of a range is absent, or there is one on a filler without an end.
    WrongStart = 6,
    /// a bound's number is out of range, or a bound without text is negative.
    BoundOutside = 7,
    /// a second filler without an end in one concatenation.
    SecondFiller = 8,
    /// a literal in a sink, or one whose width, value or range is not as it has to be.
    WrongLiteral = 9,
    /// the end of a range lies before its start.
    ReversedRange = 10,
    /// there is no such list, or its text is not one that a component may have.
    WrongText = 11,
    /// there would be too many names, or too many bytes of names.
    NamesFull = 12,
    /// there is no concatenation, or one without a component.
    NothingThere = 13,
    /// a claim is not true.
    UntrueClaim = 14,
    /// the initial list is not there, not wanted, or missing.
    WrongInitial = 15,
}

impl Refusal {
    // Not a `From`: a refusal has two numbers, this and its place.
    /// The number by which the reason is known.
    pub fn number(self) -> u8
        ensures number { result ≡ number_of self }
    {
        self as u8
    }

    /// The place of the input that it speaks of: of these refusals, always 0.
    pub fn place(self) -> usize
        ensures place { result ≡ 0 }
    {
        0
    }
}
