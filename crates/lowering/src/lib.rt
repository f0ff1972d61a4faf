//! Lowering: its stages.
#![tactic(auto)]

mod describing;
mod entries;
mod instruction;
mod lending;
mod lent;
mod marks;
mod open;
mod sealed;
mod sealing;
#[cfg(test)]
mod stage_tests;
mod starting;

pub use entries::{no_binding, no_sum, no_value, no_width};
pub use instruction::Instruction;
pub use lending::{Counts, Lending};
pub use lent::{Handed, Memory};
pub use marks::{BindMarks, SumMarks, ValueMarks, WidthMarks};
pub use open::Open;
pub use sealed::Sealed;
pub use starting::check_start;
