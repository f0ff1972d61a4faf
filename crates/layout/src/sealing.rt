// Whether a layout may be sealed with the claims that are made of it.
ghost use Rattle.std.specs.Prelude.{◌≡◌, ◌<◌, length};
ghost use Rattle.components.specs.Alignments.{overall};
ghost use Rattle.components.specs.Concatenations.{all_of, certainly_wide, some_of};
ghost use Rattle.layout.specs.Claims.{alignments, claims_true, common_true, concat_true, concats_true, filled, gives_width, initial_fits, seal_answer, some_below, width_agrees};
ghost use Rattle.layout.specs.Layouts.{comps_at, concats};
ghost use Rattle.texts.specs.Refusals.{refusal};

use crate::ast::Layout;
use crate::claims::{Claims, ConcatClaim};
use components::{Component, FillerAlign};
use names::PName;
use texts::Refusal;

// Whether what is claimed of a concatenation is true.
fn is_true_of(comps: &[Component<PName>], claim: ConcatClaim) -> bool
    ensures answer { result ≡ concat_true comps.now claim }
{
    claim.deterministic == components::is_deterministic(comps)
        && claim
            .static_width
            .is_none_or(|width| components::has_static_width(comps, width))
}

// Whether the static width of a concatenation, if it is claimed, is the common width.
fn agrees_with(common: Option<u64>, claim: ConcatClaim) -> bool
    ensures answer { result ≡ width_agrees common claim }
{
    claim.static_width.is_none_or(|width| common == Some(width))
}

fn all_agree(common: Option<u64>, claims: &[ConcatClaim]) -> bool
    ensures answer { result ≡ all_of (width_agrees common) claims.now }
{
    claims.iter().all(|claim| agrees_with(common, *claim))
}

fn some_width(claims: &[ConcatClaim]) -> bool
    ensures answer { result ≡ some_of gives_width claims.now }
{
    claims.iter().any(|claim| claim.static_width.is_some())
}

// Whether the common width is claimed exactly if a static width is, and equals each.
fn is_common(common: Option<u64>, claims: &[ConcatClaim]) -> bool
    ensures answer { result ≡ common_true common claims.now }
{
    all_agree(common, claims) && (common.is_none() || some_width(claims))
}

impl Layout {
    // Whether there is a concatenation, and each has a component.
    fn is_filled(&self) -> bool
        ensures answer { result ≡ filled self.now }
    {
        self.count() > 0 && (0..self.count()).all(|k| !self.comps_of(k).is_empty())
    }

    // Whether there is a claim for each concatenation, and all of them are true.
    fn are_true(&self, claims: &[ConcatClaim]) -> bool
        ensures answer { result ≡ concats_true self.now claims.now }
    {
        claims.len() == self.count()
            && claims
                .iter()
                .enumerate()
                .all(|(k, claim)| is_true_of(self.comps_of(k), *claim))
    }

    // The alignment of the concatenations together.
    fn alignment(&self) -> FillerAlign
        ensures answer { result ≡ overall (alignments self.now (concats self.now)) }
    {
        (0..self.count()).fold(FillerAlign::Single, |align, k| {
            align.with(components::filler_alignment(self.comps_of(k)))
        })
    }

    // Whether some component certainly has a bit.
    fn has_bit(&self) -> bool
        ensures answer { result ≡ some_below (λ k. certainly_wide (comps_at self.now k)) (concats self.now) }
    {
        (0..self.count()).any(|k| components::guaranteed_nonzero(self.comps_of(k)))
    }

    // Whether all claims are true.
    fn claims_hold(&self, claims: &Claims<'_>) -> bool
        ensures answer { result ≡ claims_true self.now claims.now.nonzero claims.now.common claims.now.alignment claims.now.concatenations.now }
    {
        self.are_true(claims.concatenations)
            && is_common(claims.common, claims.concatenations)
            && claims.alignment == self.alignment().number()
            && (!claims.nonzero || claims.common.is_some() || self.has_bit())
    }

    // Whether the initial list is one that the layout may have.
    fn initial_fits(&self, claims: &Claims<'_>) -> bool
        requires begun { 0 < length self.now.starts }
        ensures answer { result ≡ initial_fits self.now claims.now.returning claims.now.initial }
    {
        match claims.initial {
            Some(list) => claims.returning && list <= 255,
            None => !(claims.returning && components::has_filler(self.comps_of(0))),
        }
    }

    /// Whether the layout may be sealed with these claims. It costs a walk through the components.
    pub fn check_seal(&self, claims: &Claims<'_>) -> Result<(), Refusal>
        ensures refused { refusal result ≡ seal_answer self.now claims.now.returning claims.now.initial claims.now.nonzero claims.now.common claims.now.alignment claims.now.concatenations.now }
    {
        if !self.is_filled() {
            return Err(Refusal::NothingThere);
        }
        if !self.claims_hold(claims) {
            return Err(Refusal::UntrueClaim);
        }
        if !self.initial_fits(claims) {
            return Err(Refusal::WrongInitial);
        }
        Ok(())
    }
}
