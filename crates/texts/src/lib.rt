//! Texts of a layout: lists of short texts and groups, and what they flatten to.
//!
//! There are 256 lists, known by their numbers. A list holds items: short texts, and groups, which put another list
//! between delimiters. The text of a list is that of its items, one after the other.
//!
//!     let mut texts = Texts::new(heap)?;
//!     texts.text(0, b"a")?;
//!     texts.group(0, 3, 7)?;             // list 7 in brackets
//!     texts.text(7, b"i")?;
//!     let mut text = Flat::new();
//!     texts.flatten(0, &mut text)?;      // a[i]
//!
//! Items are kept sorted by list, so that a list is found by halving, and read in one go.
#![tactic(auto)]

mod adding;
mod bounded;
mod flattening;
mod lists;
mod printable;
mod refusals;
mod room;
mod token_tree;

pub use bounded::TooLong;
pub use lists::Texts;
pub use printable::all_printable;
pub use refusals::Refusal;
pub use room::{Bounded, Flat};
pub use token_tree::Delimiter;
