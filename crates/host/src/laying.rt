// A host whose variables lie end to end in a row of bits.
ghost use Rattle.std.specs.Prelude.{◌≡◌, ℕ, is_ok, IfOk, slice_index};
ghost use Rattle.host.specs.Hosts.{place_in, spans_of};
ghost use Rattle.host.specs.Parts.{Changed, Same, Written, number_at, part_refusal};
ghost use Rattle.host.specs.Refusals.{refusal};
ghost use Rattle.host.specs.Rows.{row_bit};
ghost use Rattle.host.specs.Spans.{bit_at, laid, seen, shown_below, span_at, width_at};
ghost use Rattle.bits.proofs.BitLaws.{bit_below};
ghost use Rattle.std.proofs.Common.{rules};

use crate::interface::Host;
use crate::reasons::{Reason, Refusal};
use crate::spans;
use crate::spans::{Lot, Span};
use crate::stores::Storage;
use crate::tables::Table;
use std::alloc::{AllocError, Global};

impl Table<Vec<Option<Span>>> {
    // The places of variables of these widths in a row of `room` bits.
    fn new(heap: Global, room: usize, widths: &[usize]) -> Result<Self, AllocError>
        ensures spans { IfOk result (λ t. (k : ℕ) → span_at t.spans.items k ≡ span_at (laid room 0 widths.now) k) }
    {
        let mut spans: Vec<Option<Span>> = vec![in heap; None; widths.len()]?;
        spans::lay(room, widths, &mut spans);
        Ok(Table { spans })
    }
}

/// A host over a row of bits.
#[derive(Drop)]
pub struct Laid<S: Storage> {
    store: S,
    table: Table<Vec<Option<Span>>>,
    numbers: Vec<u32>,
}

impl<S: Storage + Drop> Laid<S> {
    /// A host that lays variables of these widths end to end in `store`, from its bit 0, and has these numbers.
    /// A variable whose width is 0 or over 65,536, or which does not fit into what is left, is lacking and takes
    /// no bits. It takes memory for both lists, and one turn for each width.
    pub fn new(
        heap: Global,
        store: S,
        widths: &[usize],
        numbers: &[u32],
    ) -> Result<Laid<S>, AllocError>
        ensures store { IfOk result (λ h. h.store ≡ store) }
        ensures spans { IfOk result (λ h. (k : ℕ) → span_at (spans_of h) k ≡ span_at (laid (S.Storage.room store) 0 widths.now) k) }
        ensures numbers { IfOk result (λ h. h.numbers.items ≡ numbers.now) }
    {
        let table = Table::new(heap, store.size(), widths)?;
        let numbers = Vec::from_slice(heap, numbers)?;
        Ok(Laid {
            store,
            table,
            numbers,
        })
    }
}

impl<S: Storage> Laid<S> {
    // The place of a variable in the row.
    fn lot(&self, name: usize) -> Lot
        ensures span { result.span ≡ span_at (spans_of self.now) name }
        ensures room { result.room ≡ S.Storage.room self.now.store }
    {
        Lot {
            span: self.table.get(name),
            room: self.store.size(),
        }
    }
}

/// Each call costs the same for the first name and the last.
impl<S: Storage> Host for Laid<S> {
    ghost widths = { λ h k. width_at (S.Storage.room h.store) (spans_of h) k };

    ghost numbers = { λ h k. number_at h.numbers.items k };

    ghost bits = { λ h k i. bit_at (S.Storage.room h.store) (spans_of h) (row_bit S.Storage.cell S.Storage.inner (S.Storage.cells h.store)) k i };

    ghost width_range = { Prim.search rules };

    ghost number_range = { Prim.search rules };

    ghost bit_range = { λ h k i.
        shown_below (seen (S.Storage.room h.store) (spans_of h) k) (row_bit S.Storage.cell S.Storage.inner (S.Storage.cells h.store)) i
        (λ p. bit_below (slice_index (S.Storage.cells h.store) (S.Storage.cell p)) (S.Storage.inner p)) };

    ghost bits_end = { Prim.search rules };

    fn width(&self, name: usize) -> Result<usize, Refusal> {
        self.lot(name).width()
    }

    fn number(&self, name: usize) -> Result<u32, Refusal> {
        let number = self.numbers.get(name).copied();
        number.ok_or(Refusal::plain(Reason::NoSuchName))
    }

    fn read(&self, name: usize, offset: usize, count: usize) -> Result<u64, Refusal> {
        let at = self.lot(name).part(offset, count)?;
        Ok(self.store.get(at, count))
    }

    // The last two clauses are about the row itself: no bit of it changes outside the part.
    fn write(&mut self, name: usize, offset: usize, count: usize, value: u64) -> Result<(), Refusal>
        ensures refused { refusal result ≡ part_refusal (width_at (S.Storage.room self.old.store) (spans_of self.old) name) offset count }
        ensures bits { Written (is_ok result) name offset count value (bit_at (S.Storage.room self.old.store) (spans_of self.old) (row_bit S.Storage.cell S.Storage.inner (S.Storage.cells self.old.store))) (bit_at (S.Storage.room self.new.store) (spans_of self.new) (row_bit S.Storage.cell S.Storage.inner (S.Storage.cells self.new.store))) }
        ensures widths { Same (width_at (S.Storage.room self.old.store) (spans_of self.old)) (width_at (S.Storage.room self.new.store) (spans_of self.new)) }
        ensures numbers { Same (number_at self.old.numbers.items) (number_at self.new.numbers.items) }
        ensures stored { Changed (is_ok result) (place_in (spans_of self.old) name offset) count value (row_bit S.Storage.cell S.Storage.inner (S.Storage.cells self.old.store)) (row_bit S.Storage.cell S.Storage.inner (S.Storage.cells self.new.store)) }
        ensures places { spans_of self.new ≡ spans_of self.old }
    {
        let at = self.lot(name).part(offset, count)?;
        self.store.put(at, count, value);
        Ok(())
    }
}
