// The end of a description.
ghost use Rattle.lowering.specs.Sealing.{claimed_answer};
ghost use Rattle.std.specs.Prelude.{◌≡◌, None};
ghost use Rattle.texts.specs.Refusals.{refusal};

use crate::open::Open;
use crate::sealed::Sealed;
use layout::Claims;
use texts::Refusal;

impl<'a, 'n> Open<'a, 'n> {
    /// Whether the layout may be sealed with these claims.
    pub fn check_seal(&self, claims: &Claims<'_>) -> Result<(), Refusal>
        ensures refused { refusal result ≡ claimed_answer self.now.layout claims.now }
    {
        self.layout.check_seal(claims)
    }

    /// Seals the layout: from here on it is not described further.
    pub fn seal<'c>(self, claims: Claims<'c>) -> Sealed<'a, 'n, 'c>
        requires check { claimed_answer self.layout claims ≡ None }
        ensures open { result.open ≡ self.entry }
        ensures claims { result.claims ≡ claims.entry }
    {
        Sealed { open: self, claims }
    }
}
