//! Hosts on a bench: the lines that make and ask them, and what these are answered.
//!
//!     let mut bench = Bench::new(heap);
//!     if let Some(request) = lines::parse(heap, b"width 1")? {
//!         let answer = bench.serve(request)?;    // `out of turn`, since no host stands
//!     }
#![tactic(auto)]

mod answers;
mod bench;
mod requests;
mod standing;

pub use answers::{Answer, Reply};
pub use bench::Bench;
pub use requests::{Call, Lists, Pane, Question, Recipe, Request, Stored};
