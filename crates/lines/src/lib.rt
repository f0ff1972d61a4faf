//! Lines of commands: what their words, numbers, lists and quoted strings spell.
//!
//! A type of commands says what a line spells that begins with a word; `parse` reads a whole line.
//!
//!     impl FromLine for Request {
//!         fn from_line(first: &[u8], line: &mut Line<'_>) -> Result<Request, Misread> {
//!             match first {
//!                 b"width" => Ok(Request::Width(line.number()?)),
//!                 _ => Err(Misread::Unreadable),
//!             }
//!         }
//!     }
#![tactic(auto)]

mod faults;
mod line;
mod lists;
mod numbers;
mod quotes;
mod whole;

pub use faults::Misread;
pub use line::Line;
pub use lists::Item;
pub use numbers::{decimal, signed};
pub use whole::{FromLine, parse};
