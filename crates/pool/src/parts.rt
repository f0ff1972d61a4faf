// The fields of a store of parts. They stand in a file of their own, since the definitions that contracts cite name them.
ghost use Rattle.std.specs.Prelude.{◌<◌, ◌≤◌, length};

/// A lent slice of parts, of which the first `used` are in use. Parts in use are never changed.
// A slice and a count, and no `Vec`: the memory is lent, and no call may fail for want of it.
#[derive(Drop)]
pub struct Parts<'a, P> {
    pub(crate) parts: &'a mut [P],
    pub(crate) used: usize,
    // No more parts are in use than there are, and each place fits 16 bits.
    pub ghost within: { used ≤ length parts.now },
    pub ghost small: { length parts.now < 65536 },
}
