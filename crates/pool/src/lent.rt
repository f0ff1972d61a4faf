// A store that was left over a slice of parts, and taken up again.
ghost use Rattle.std.specs.Prelude.{◌≡◌, ◌<◌, ◌≤◌, length, take};
ghost use Rattle.pool.specs.Stored.{parts_of, stored};

use crate::parts::Parts;

impl<'a, P: Copy> Parts<'a, P> {
    /// The store that was left over the slice, with the first `used` of the parts in use.
    pub fn resumed(parts: &'a mut [P], used: usize) -> Parts<'a, P>
        requires within { used ≤ length parts.old }
        requires small { length parts.old < 65536 }
        ensures used { result.used ≡ used }
        ensures stored { stored result ≡ take used parts.old }
        ensures same { parts_of result ≡ parts.old }
        ensures lent { result.parts.ghost_name ≡ parts.entry.ghost_name }
    {
        Parts { parts, used }
    }

    /// How many parts are in use.
    pub fn len(&self) -> usize
        ensures used { result ≡ self.now.used }
    {
        self.used
    }
}
