//! Lowering: the keys of its four pools, and the width call in a bound's text.
#![tactic(auto)]

mod binds;
mod call;
mod keys;
#[cfg(test)]
mod tests;
mod values;
mod widths;

pub use call::before_call;
pub use keys::{Base, Bind, CWidth, Text, Value, Width};
