// Widths as keys.
ghost use Rattle.lower.specs.Keys.{Extent, by_extent, extent_of};
ghost use Rattle.lower.specs.Spelled.{extent_orders};
ghost use Rattle.std.proofs.Common.{rules};

use crate::keys::Width;
use pool::{Key, Number, PWidth};
use std::cmp::Ordering;

/// Ends alone come first, by end; the others by start and end.
// Not derived: the number of a pool has no order of its own, since keys are ordered, and not numbers.
impl Key for Width {
    type Part = ();

    type Number = PWidth;

    ghost Meaning = { Extent };

    ghost meaning = { λ k _. extent_of k };

    ghost order = { by_extent };

    ghost reach = { λ _. 0 };

    ghost orders = { extent_orders };

    ghost stays = { Prim.search rules };

    fn compare(&self, _own: &[()], other: &Width, _others: &[()]) -> Ordering {
        match (*self, *other) {
            (Width::Single(end), Width::Single(e)) => end.index().cmp(&e.index()),
            (Width::Single(_), Width::Range(_, _)) => Ordering::Less,
            (Width::Range(_, _), Width::Single(_)) => Ordering::Greater,
            (Width::Range(start, end), Width::Range(s, e)) => {
                (start.index(), end.index()).cmp(&(s.index(), e.index()))
            }
        }
    }

    fn moved(self, _by: usize) -> Width {
        self
    }
}
