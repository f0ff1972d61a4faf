// What keys are made of: a stretch of parts.
ghost use Rattle.std.specs.Prelude.{◌≡◌, ◌+◌, ◌≤◌, length};
ghost use Rattle.pool.specs.Words.{stretch_of};

/// The stretch of the parts that begins at `start` and is `len` long.
pub fn stretch<P: Copy>(parts: &[P], start: usize, len: usize) -> &[P]
    requires within { start + len ≤ length parts.now }
    ensures stretch { result.now ≡ stretch_of start len parts.now }
{
    &parts[start..start + len]
}
