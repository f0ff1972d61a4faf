// The start of a description.
ghost use Rattle.lowering.specs.Starting.{enough, handed_fits, start_answer};
ghost use Rattle.std.specs.Prelude.{◌≡◌, [], None};
ghost use Rattle.texts.specs.Refusals.{refusal};

use crate::lending::Counts;
use crate::lent::{Handed, Memory};
use crate::open::Open;
use layout::Room;
use texts::Refusal;

impl Memory<'_> {
    // Whether there is enough of everything.
    fn is_enough(&self) -> bool
        ensures answer { result ≡ enough self.now }
    {
        let least = Counts::least();
        least.bindings <= self.bindings.len()
            && least.values <= self.values.len()
            && least.widths <= self.widths.len()
            && least.sums <= self.sums.len()
            && least.parts <= self.parts.len()
            && least.instructions <= self.instructions.len()
    }
}

impl Handed<'_> {
    // Whether each name and each text around is as it has to be.
    fn fits(&self) -> bool
        ensures answer { result ≡ handed_fits self.now }
    {
        self.names.fit() && self.fn_names.fit() && self.code_gen.fit()
    }
}

/// Refused where there are fewer than 512 bindings, 2,048 values, 1,024 widths, 16 sums, 512 parts or 8,192
/// instructions, or where a name or a text around is not as it has to be.
pub fn check_start(memory: &Memory<'_>, handed: &Handed<'_>) -> Result<(), Refusal>
    ensures refused { refusal result ≡ start_answer memory.now handed.now }
{
    if memory.is_enough() && handed.fits() {
        Ok(())
    } else {
        Err(Refusal::UnfitStart)
    }
}

impl<'a, 'n> Open<'a, 'n> {
    /// Starts a description that has nothing in it.
    pub fn start(room: Room, memory: Memory<'a>, handed: Handed<'n>) -> Open<'a, 'n>
        requires check { start_answer memory handed ≡ None }
        ensures lists { result.layout.lists ≡ [] }
        ensures names { result.layout.names ≡ [] }
        ensures components { result.layout.components ≡ [] }
        ensures starts { result.layout.starts ≡ [] }
        ensures memory { result.memory ≡ memory.entry }
        ensures handed { result.handed ≡ handed.entry }
    {
        let layout = room.into_layout();
        Open {
            layout,
            memory,
            handed,
        }
    }
}
