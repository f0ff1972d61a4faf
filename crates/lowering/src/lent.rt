// What is lent and handed in at the start.
use crate::instruction::Instruction;
use crate::marks::{BindMarks, SumMarks, ValueMarks, WidthMarks};
use layout::{CodeGen, FnNames, Names};
use lower::{Bind, CWidth, Value, Width};
use pool::Entry;

/// Memory that is lent to lowering.
#[derive(Drop)]
pub struct Memory<'a> {
    pub bindings: &'a mut [Entry<Bind, BindMarks>],
    pub values: &'a mut [Entry<Value, ValueMarks>],
    pub widths: &'a mut [Entry<Width, WidthMarks>],
    pub sums: &'a mut [Entry<CWidth, SumMarks>],
    /// The widths of the sums.
    pub parts: &'a mut [u16],
    pub instructions: &'a mut [Instruction],
}

/// Names and texts that are handed in.
#[derive(Clone, Copy)]
pub struct Handed<'a> {
    pub names: Names<'a>,
    pub fn_names: FnNames<'a>,
    pub code_gen: CodeGen<'a>,
}
