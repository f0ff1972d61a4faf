// What can be claimed of a layout.
ghost use Rattle.layout_laws.specs.FullClaims.{FullClaimsHold};

/// The full claims of a layout are accepted exactly where its static widths agree.
pub fn full_claims_hold()
    ensures law { FullClaimsHold }
{}
