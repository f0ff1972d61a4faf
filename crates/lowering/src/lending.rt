// Memory to lend to lowering, from the heap.
ghost use Rattle.std.specs.Prelude.{◌≡◌, IfOk, vec_len};

use crate::entries::{no_binding, no_sum, no_value, no_width};
use crate::instruction::Instruction;
use crate::lent::Memory;
use crate::marks::{BindMarks, SumMarks, ValueMarks, WidthMarks};
use lower::{Bind, CWidth, Value, Width};
use pool::Entry;
use std::alloc::{AllocError, Global};

/// How many entries of each kind are lent.
#[derive(Clone, Copy)]
pub struct Counts {
    pub bindings: usize,
    pub values: usize,
    pub widths: usize,
    pub sums: usize,
    pub parts: usize,
    pub instructions: usize,
}

impl Counts {
    /// The least that a start accepts.
    pub fn least() -> Counts
        ensures least { result ≡ record { bindings = 512; values = 2048; widths = 1024; sums = 16; parts = 512; instructions = 8192 } }
    {
        Counts {
            bindings: 512,
            values: 2_048,
            widths: 1_024,
            sums: 16,
            parts: 512,
            instructions: 8_192,
        }
    }
}

/// As many entries of each kind as were counted, none of which stands for anything.
#[derive(Drop)]
pub struct Lending {
    bindings: Vec<Entry<Bind, BindMarks>>,
    values: Vec<Entry<Value, ValueMarks>>,
    widths: Vec<Entry<Width, WidthMarks>>,
    sums: Vec<Entry<CWidth, SumMarks>>,
    parts: Vec<u16>,
    instructions: Vec<Instruction>,
}

impl Lending {
    /// Gets the memory; fails only for want of it.
    pub fn new(heap: Global, counts: &Counts) -> Result<Lending, AllocError>
        ensures bindings { IfOk result (λ l. vec_len l.bindings ≡ counts.now.bindings) }
        ensures values { IfOk result (λ l. vec_len l.values ≡ counts.now.values) }
        ensures widths { IfOk result (λ l. vec_len l.widths ≡ counts.now.widths) }
        ensures sums { IfOk result (λ l. vec_len l.sums ≡ counts.now.sums) }
        ensures parts { IfOk result (λ l. vec_len l.parts ≡ counts.now.parts) }
        ensures instructions { IfOk result (λ l. vec_len l.instructions ≡ counts.now.instructions) }
    {
        let bindings = vec![in heap; no_binding(); counts.bindings]?;
        let values = vec![in heap; no_value(); counts.values]?;
        let widths = vec![in heap; no_width(); counts.widths]?;
        let sums = vec![in heap; no_sum(); counts.sums]?;
        let parts = vec![in heap; 0u16; counts.parts]?;
        let instructions = vec![in heap; Instruction::Nothing; counts.instructions]?;
        Ok(Lending {
            bindings,
            values,
            widths,
            sums,
            parts,
            instructions,
        })
    }

    /// The memory, as a start takes it.
    pub fn memory(&mut self) -> Memory<'_>
        ensures bindings { result.bindings.now ≡ self.old.bindings.items }
        ensures values { result.values.now ≡ self.old.values.items }
        ensures widths { result.widths.now ≡ self.old.widths.items }
        ensures sums { result.sums.now ≡ self.old.sums.items }
        ensures parts { result.parts.now ≡ self.old.parts.items }
        ensures instructions { result.instructions.now ≡ self.old.instructions.items }
    {
        Memory {
            bindings: &mut self.bindings,
            values: &mut self.values,
            widths: &mut self.widths,
            sums: &mut self.sums,
            parts: &mut self.parts,
            instructions: &mut self.instructions,
        }
    }
}
