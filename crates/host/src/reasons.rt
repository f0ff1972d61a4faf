// Why a call is refused, by number and place.
ghost use Rattle.host.specs.Refusals.{number_of, plain};
ghost use Rattle.std.specs.Prelude.{◌≡◌};

/// A reason for a refusal.
#[derive(Clone, Copy, PartialEq, Eq, Debug)]
pub enum Reason {
    /// 23: the host has no variable, or no number, of this name.
    NoSuchName = 23,
    /// 24: the part is not 1 to 64 bits, or does not lie inside the variable.
    PartOutside = 24,
}

/// A refusal: why, and at which place of the input.
#[derive(Clone, Copy, PartialEq, Eq, Debug)]
pub struct Refusal {
    pub reason: Reason,
    pub place: usize,
}

impl Refusal {
    // Not a `From`: the name says at each call that no place is told.
    /// A refusal whose place is 0.
    pub fn plain(reason: Reason) -> Refusal
        ensures answer { result ≡ plain reason }
    {
        Refusal { reason, place: 0 }
    }

    // Not a `From` either: a refusal has two numbers, this and its place.
    /// The number by which the reason is known.
    pub fn number(&self) -> u8
        ensures number { result ≡ number_of self.now.reason }
    {
        self.reason as u8
    }
}
