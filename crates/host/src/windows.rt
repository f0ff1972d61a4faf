// A host that shows one variable of another host as variables.
ghost use Rattle.std.specs.Prelude.{◌≡◌, ℕ, take, is_ok, true, MatchResult, Some};
ghost use Rattle.host.specs.Hosts.{place_in};
ghost use Rattle.host.specs.Parts.{Same, Written, inside, part_refusal, size};
ghost use Rattle.host.specs.Refusals.{refusal};
ghost use Rattle.host.specs.Spans.{bit_at, laid, span_at, width_at, width_of};
ghost use Rattle.std.proofs.Common.{rules};

use crate::interface::Host;
use crate::reasons::Refusal;
use crate::spans;
use crate::spans::{Lot, Span};
use crate::tables::Table;

impl Table<[Option<Span>; 64]> {
    // The places of variables of the first 64 of these widths in a row of `room` bits.
    // Beside the `new` of a host's table, as this one takes no memory and cannot fail.
    fn new(room: usize, widths: &[usize]) -> Self
        ensures spans { (k : ℕ) → span_at result.spans k ≡ span_at (laid room 0 (take 64 widths.now)) k }
    {
        let mut spans: [Option<Span>; 64] = [None; 64];
        spans::lay(room, widths, &mut spans);
        Table { spans }
    }
}

// How many bits a variable of a host has, none where it is lacking.
fn room_of<H: Host>(host: &H, name: usize) -> usize
    ensures room { result ≡ size (H.Host.widths host.now name) }
{
    host.width(name).unwrap_or(0)
}

/// A window on one variable of the host below.
#[derive(Drop)]
pub struct Window<H: Host> {
    below: H,
    name: usize,
    table: Table<[Option<Span>; 64]>,
}

impl<H: Host> Window<H> {
    /// Shows the variable `name` of `below` as variables of the first 64 of these widths, laid end to end from its
    /// bit 0. One whose width is 0 or over 65,536, or which does not fit into what is left, is lacking and takes
    /// no bits; of a lacking variable nothing is shown.
    pub fn new(below: H, name: usize, widths: &[usize]) -> Window<H>
        ensures below { result.below ≡ below }
        ensures name { result.name ≡ name }
        ensures spans { (k : ℕ) → span_at result.table.spans k ≡ span_at (laid (size (H.Host.widths below name)) 0 (take 64 widths.now)) k }
    {
        let table = Table::new(room_of(&below, name), widths);
        Window { below, name, table }
    }

    // The place of a variable in the one that is shown.
    fn lot(&self, name: usize) -> Lot
        ensures span { result.span ≡ span_at self.now.table.spans name }
        ensures room { result.room ≡ size (H.Host.widths self.now.below self.now.name) }
    {
        Lot {
            span: self.table.get(name),
            room: room_of(&self.below, self.name),
        }
    }

    // Where a part of a variable begins in the one that is shown, as far as the table says.
    fn part(&self, name: usize, offset: usize, count: usize) -> Result<usize, Refusal>
        ensures place { MatchResult result (λ at. (at ≡ place_in self.now.table.spans name offset) × (inside (size (width_of (span_at self.now.table.spans name))) offset count ≡ true)) (λ e. Some e ≡ part_refusal (width_at (size (H.Host.widths self.now.below self.now.name)) self.now.table.spans name) offset count) }
    {
        let place = self.table.get(name).and_then(|s| s.part(offset, count));
        place.ok_or_else(|| self.lot(name).refusal())
    }

    /// Gives the host below back.
    pub fn into_below(self) -> H
        ensures below { result ≡ self.below }
    {
        self.below
    }
}

/// Numbers come from below. An accepted read or write makes one call of the host below; only a refused one asks
/// it for a width too.
impl<H: Host> Host for Window<H> {
    ghost widths = { λ w k. width_at (size (H.Host.widths w.below w.name)) w.table.spans k };

    ghost numbers = { λ w k. H.Host.numbers w.below k };

    ghost bits = { λ w k i. bit_at (size (H.Host.widths w.below w.name)) w.table.spans (H.Host.bits w.below w.name) k i };

    ghost width_range = { Prim.search rules };

    ghost number_range = { λ h k n e. H.Host.number_range h.below k n e };

    ghost bit_range = { Prim.search rules };

    ghost bits_end = { Prim.search rules };

    fn width(&self, name: usize) -> Result<usize, Refusal> {
        self.lot(name).width()
    }

    fn number(&self, name: usize) -> Result<u32, Refusal> {
        self.below.number(name)
    }

    fn read(&self, name: usize, offset: usize, count: usize) -> Result<u64, Refusal> {
        let at = self.part(name, offset, count)?;
        let part = self.below.read(self.name, at, count);
        part.map_err(|_| self.lot(name).refusal())
    }

    // The last three clauses are about the host below: no bit of it changes outside the part.
    fn write(&mut self, name: usize, offset: usize, count: usize, value: u64) -> Result<(), Refusal>
        ensures refused { refusal result ≡ part_refusal (width_at (size (H.Host.widths self.old.below self.old.name)) self.old.table.spans name) offset count }
        ensures bits { Written (is_ok result) name offset count value (bit_at (size (H.Host.widths self.old.below self.old.name)) self.old.table.spans (H.Host.bits self.old.below self.old.name)) (bit_at (size (H.Host.widths self.new.below self.new.name)) self.new.table.spans (H.Host.bits self.new.below self.new.name)) }
        ensures widths { Same (width_at (size (H.Host.widths self.old.below self.old.name)) self.old.table.spans) (width_at (size (H.Host.widths self.new.below self.new.name)) self.new.table.spans) }
        ensures numbers { Same (H.Host.numbers self.old.below) (H.Host.numbers self.new.below) }
        ensures below { Written (is_ok result) self.old.name (place_in self.old.table.spans name offset) count value (H.Host.bits self.old.below) (H.Host.bits self.new.below) }
        ensures below_widths { Same (H.Host.widths self.old.below) (H.Host.widths self.new.below) }
        ensures places { (self.new.name ≡ self.old.name) × (self.new.table.spans ≡ self.old.table.spans) }
    {
        let at = self.part(name, offset, count)?;
        let written = self.below.write(self.name, at, count, value);
        written.map_err(|_| self.lot(name).refusal())
    }
}
