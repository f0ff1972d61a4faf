// The width call at the end of a bound's text.
ghost use Rattle.std.specs.Prelude.{ℕ, List, MatchOption};
ghost use Rattle.lower.specs.Calls.{Asks};

/// What stands in `text` before the width call at its end, as a part of `text` itself, or nothing where it does not
/// end so. It costs as many comparisons as the call has bytes.
pub fn before_call<'a>(text: &'a [u8], call: &[u8]) -> Option<&'a [u8]>
    ensures front { MatchOption result ((front : List ℕ) → Asks text.now call.now front → ⊥) (λ x. Asks text.now call.now x.now) }
{
    text.strip_suffix(call)
}
