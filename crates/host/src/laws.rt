// What holds of every host over a row of bits, and of every window: its variables lie inside whole, and no bit
// belongs to two.
ghost use Rattle.host.specs.Hosts.{LaidWhole, NoSharedBit, NoSharedPlace, spans_of};
ghost use Rattle.host.specs.Parts.{size};

use crate::interface::Host;
use crate::laying::Laid;
use crate::stores::Exact;
use crate::windows::Window;

/// What a new host or window lays in its row, it shows whole: nothing of a variable lies outside.
pub fn laid_lies_whole()
    ensures whole { LaidWhole }
{}

/// Two variables of a host never share a bit of a stored word or byte.
pub fn apart_in_row<S: Exact>(host: &Laid<S>)
    ensures apart { NoSharedBit S.Storage.cell S.Storage.inner (S.Storage.room host.now.store) (spans_of host.now) }
{}

/// Two variables of a window never share a bit of the variable that it shows.
pub fn apart_in_window<H: Host>(window: &Window<H>)
    ensures apart { NoSharedPlace (size (H.Host.widths window.now.below window.now.name)) window.now.table.spans }
{}
