// Tables of places: worked out once, then one look for each name.
ghost use Rattle.host.specs.Spans.{AllSound, InOrder, span_at};
ghost use Rattle.std.specs.Prelude.{◌≡◌};

use crate::spans::Span;
use std::convert::AsSlice;

// The places of variables, by name number: kept in a `Vec`, or in an array.
#[derive(Drop)]
pub(crate) struct Table<P: AsSlice<Option<Span>>> {
    pub(crate) spans: P,
    ghost sound: { AllSound (P.items spans) },
    ghost ordered: { InOrder (P.items spans) },
}

impl<P: AsSlice<Option<Span>>> Table<P> {
    // The place of a variable.
    pub(crate) fn get(&self, name: usize) -> Option<Span>
        ensures answer { result ≡ span_at (P.items self.now.spans) name }
    {
        self.spans.as_slice().get(name).copied().flatten()
    }
}
