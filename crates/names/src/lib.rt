//! A table of names: distinct texts, each with a number counted from 0 by first insertion.
//!
//!     let mut names = NameTable::new(heap)?;
//!     let a = names.insert(b"width");     // number 0
//!     let b = names.insert(b"value");     // number 1
//!     let c = names.insert(b"width");     // number 0 again
//!
//! - The table owns its memory, which is made once: no later call can fail for want of it.
//! - It has room for 256 names with 16,384 bytes together.
//! - A name is found with about log2 of the names as many comparisons.
#![tactic(auto)]

mod intern;
mod name;
mod numbers;
mod reads;
mod table;
#[cfg(test)]
mod tests;
mod writes;

pub use numbers::PName;
pub use table::{MOST_BYTES, MOST_NAMES, NameTable};
