// Fields carried over from one host to another, where they have the same names.
ghost use Rattle.campaign.specs.Copying.{Carried, Copied, Judged, shared};
ghost use Rattle.host.specs.Parts.{Same, size};
ghost use Rattle.host.specs.Refusals.{refusal};
ghost use Rattle.std.specs.Prelude.{◌≡◌, is_ok};

use crate::fields::Field;
use host::{Host, Reason, Refusal};

/// A field that could not be carried over, and why.
#[derive(Clone, Copy, Debug)]
pub struct Stopped {
    pub field: Field,
    pub refusal: Refusal,
}

/// The width of a variable that both hosts have; refused by 23 where one lacks it, and by 24 where the second
/// has less room for it than the first.
pub fn shared_width<S: Host, T: Host>(from: &S, to: &T, name: usize) -> Result<usize, Refusal>
    ensures answer { result ≡ shared (S.Host.widths from.now name) (T.Host.widths to.now name) }
{
    let width = from.width(name)?;
    let room = to.width(name)?;
    if room < width {
        return Err(Refusal::plain(Reason::PartOutside));
    }
    Ok(width)
}

/// Copies the bits of a variable, 64 at a time. Where it is refused, nothing has changed.
pub fn copy_field<S: Host, T: Host>(from: &S, to: &mut T, name: usize) -> Result<(), Refusal>
    ensures refused { refusal result ≡ refusal (shared (S.Host.widths from.now name) (T.Host.widths to.old name)) }
    ensures bits { Copied (is_ok result) name (size (S.Host.widths from.now name)) (S.Host.bits from.now name) (T.Host.bits to.old) (T.Host.bits to.new) }
    ensures widths { Same (T.Host.widths to.old) (T.Host.widths to.new) }
{
    let width = shared_width(from, to, name)?;
    for done in (0..width).step_by(64) {
        let count = (width - done).min(64);
        let value = from.read(name, done, count)?;
        to.write(name, done, count, value)?;
    }
    Ok(())
}

// Asks both hosts for all these fields, and stops at the first that cannot be carried over.
fn ask<S: Host, T: Host>(from: &S, to: &T, fields: &[Field]) -> Result<(), Stopped>
    ensures stopped { Judged (S.Host.widths from.now) (T.Host.widths to.now) fields.now result }
{
    for field in fields {
        shared_width(from, to, field.name()).map_err(|refusal| Stopped {
            field: *field,
            refusal,
        })?;
    }
    Ok(())
}

/// Carries all these fields over, or none: the first that lacks its place stops it before a bit has changed.
pub fn pack<S: Host, T: Host>(from: &S, to: &mut T, fields: &[Field]) -> Result<(), Stopped>
    ensures stopped { Judged (S.Host.widths from.now) (T.Host.widths to.old) fields.now result }
    ensures bits { Carried (is_ok result) fields.now (S.Host.widths from.now) (S.Host.bits from.now) (T.Host.bits to.old) (T.Host.bits to.new) }
{
    ask(from, to, fields)?;
    for field in fields {
        copy_field(from, to, field.name()).map_err(|refusal| Stopped {
            field: *field,
            refusal,
        })?;
    }
    Ok(())
}
