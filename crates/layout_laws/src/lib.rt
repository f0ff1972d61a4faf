//! What holds of layouts as they are defined, whatever calls describe them. There is no code here: each function says in
//! its contract what holds.
#![tactic(auto)]

mod claims;
mod growth;
mod name_laws;

pub use claims::full_claims_hold;
pub use growth::{added_to_the_last, begun_empty};
pub use name_laws::{names_never_run_out, names_stay_texts};
