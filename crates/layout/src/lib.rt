//! Layouts: what rules editors describe, call by call.
//!
//! A layout is a source and up to 15 sinks, each a row of components: variables, literals and fillers, whole or in part.
//! Names of variables and bounds are texts, which stand in lists. `Room` is the memory that a layout owns, got in one
//! call that alone may fail for want of it; the calls that describe a layout refuse by number alone, and a refused call
//! changes nothing.
//!
//!     layout.text(0, b"deck")?;
//!     layout.concatenation()?;
//!     layout.component(&fn_names, whole)?;     // all of `deck`, by its list
//!     layout.check_seal(&claims)?;
//!
//! A component costs the bytes of its own texts, and about log2 of the names as many comparisons for each of them.
#![tactic(auto)]

mod ast;
mod building;
mod claims;
mod handed;
mod handed_names;
mod laws;
mod naming;
mod reading;
mod room;
mod sealing;

pub use ast::Layout;
pub use claims::{Claims, ConcatClaim};
pub use handed_names::{AWINT_FN_NAMES, AWINT_NAMES, Around, CodeGen, FnNames, Names};
pub use laws::{begun_in_order, items_in_order, names_in_order};
pub use room::Room;
