//! The demonstration: an evening of a cooperative game is packed into a code, and dealt again from it.
#![tactic(auto)]

mod codes;
mod evening;
mod faults;
mod fields;
mod packing;
mod tellings;

use faults::Fault;

fn main(rt: HostRuntime) -> Result<(), Fault> {
    evening::play(&rt)
}
