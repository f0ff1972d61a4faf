// Bindings as keys.
ghost use Rattle.std.specs.Prelude.{refl};
ghost use Rattle.lower.specs.Keys.{Binding, binding_of, binding_reach, by_binding, variable};
ghost use Rattle.std.proofs.Common.{ap};
ghost use Rattle.lower.specs.Spelled.{binding_orders};
ghost use Rattle.pool.specs.Stretches.{stretch_stays};
ghost use Rattle.lower.specs.declared.keys.Bind.TheVariants.{Literal, Txt};

use crate::keys::Bind;
use pool::{Key, PBind};
use std::cmp::Ordering;

/// Literals come first, by width and then value; variables by their text.
// Not derived, here and for values: texts are compared by their bytes, which stand in the parts, and not by their place.
impl Key for Bind {
    type Part = u8;

    type Number = PBind;

    ghost Meaning = { Binding };

    ghost meaning = { binding_of };

    ghost order = { by_binding };

    ghost reach = { binding_reach };

    ghost orders = { binding_orders };

    ghost stays = { elim [
      | Literal width value ↦ λ ps qs h. refl
      | Txt text ↦ λ ps qs h. ap variable (stretch_stays text.start text.len ps qs h)
    ] };

    fn compare(&self, own: &[u8], other: &Bind, others: &[u8]) -> Ordering {
        match (*self, *other) {
            (Bind::Literal { width, value }, Bind::Literal { width: w, value: v }) => {
                (width, value).cmp(&(w, v))
            }
            (Bind::Literal { .. }, Bind::Txt(_)) => Ordering::Less,
            (Bind::Txt(_), Bind::Literal { .. }) => Ordering::Greater,
            (Bind::Txt(text), Bind::Txt(t)) => text.of(own).cmp(t.of(others)),
        }
    }

    fn moved(self, by: usize) -> Bind {
        match self {
            Bind::Literal { width, value } => Bind::Literal { width, value },
            Bind::Txt(text) => Bind::Txt(text.moved(by)),
        }
    }
}
