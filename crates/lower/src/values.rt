// Values as keys.
ghost use Rattle.std.specs.Prelude.{◌≡◌, ℕ, ◌+◌, ◌<◌, ◌≤◌, List, ◌++◌, length, refl};
ghost use Rattle.lower.specs.Keys.{Worth, by_signed, by_worth, spell_start, start_of, start_reach, worth_of, worth_reach, named, plus};
ghost use Rattle.pool.specs.Words.{by_word};
ghost use Rattle.std.proofs.Common.{ap};
ghost use Rattle.lower.specs.Spelled.{worth_orders};
ghost use Rattle.pool.specs.Stretches.{stretch_stays};
ghost use Rattle.lower.specs.declared.keys.Base.TheVariants.{Nothing, Named, Asked};
ghost use Rattle.lower.specs.declared.keys.Value.TheVariants.{Bitwidth, Usize};

use crate::keys::{Base, Value};
use pool::{Key, Number, PVal};
use std::cmp::Ordering;

// Those below zero come first; on either side they are compared by how far from zero they are, so that -1 comes before -2. It is the order
// in which signed numbers are spelled, and not that of `cmp`.
fn compare_signed(x: i32, y: i32) -> Ordering
    ensures order { result ≡ by_signed x y }
{
    let signs = y.is_negative().cmp(&x.is_negative());
    signs.then(x.unsigned_abs().cmp(&y.unsigned_abs()))
}

impl Base {
    fn compare(self, own: &[u8], other: Base, others: &[u8]) -> Ordering
        requires own { start_reach self ≤ length own.now }
        requires others { start_reach other ≤ length others.now }
        ensures order { result ≡ by_word (spell_start (start_of self own.now)) (spell_start (start_of other others.now)) }
    {
        match (self, other) {
            (Base::Nothing, Base::Nothing) => Ordering::Equal,
            (Base::Named(text), Base::Named(t)) => text.of(own).cmp(t.of(others)),
            (Base::Asked(binding), Base::Asked(b)) => binding.index().cmp(&b.index()),
            (Base::Nothing, _) | (Base::Named(_), Base::Asked(_)) => Ordering::Less,
            _ => Ordering::Greater,
        }
    }

    fn moved(self, by: usize) -> Base
        requires room { by + start_reach self < 65536 }
        ensures reach { start_reach result ≤ by + start_reach self }
        ensures meaning { (ps qs : List ℕ) → length ps ≡ by → start_of result (ps ++ qs) ≡ start_of self qs }
    {
        match self {
            Base::Nothing => Base::Nothing,
            Base::Named(text) => Base::Named(text.moved(by)),
            Base::Asked(binding) => Base::Asked(binding),
        }
    }
}

/// Widths of bindings come first, by binding; the others by x, and then by what they start from.
impl Key for Value {
    type Part = u8;

    type Number = PVal;

    ghost Meaning = { Worth };

    ghost meaning = { worth_of };

    ghost order = { by_worth };

    ghost reach = { worth_reach };

    ghost orders = { worth_orders };

    ghost stays = { elim [
      | Bitwidth binding ↦ λ ps qs h. refl
      | Usize Nothing x ↦ λ ps qs h. refl
      | Usize (Named text) x ↦ λ ps qs h. ap (λ t. plus x (named t)) (stretch_stays text.start text.len ps qs h)
      | Usize (Asked binding) x ↦ λ ps qs h. refl
    ] };

    fn compare(&self, own: &[u8], other: &Value, others: &[u8]) -> Ordering {
        match (*self, *other) {
            (Value::Bitwidth(binding), Value::Bitwidth(b)) => binding.index().cmp(&b.index()),
            (Value::Bitwidth(_), Value::Usize { .. }) => Ordering::Less,
            (Value::Usize { .. }, Value::Bitwidth(_)) => Ordering::Greater,
            (Value::Usize { base, x }, Value::Usize { base: b, x: y }) => {
                compare_signed(x, y).then_with(|| base.compare(own, b, others))
            }
        }
    }

    fn moved(self, by: usize) -> Value {
        match self {
            Value::Bitwidth(binding) => Value::Bitwidth(binding),
            Value::Usize { base, x } => Value::Usize {
                base: base.moved(by),
                x,
            },
        }
    }
}
