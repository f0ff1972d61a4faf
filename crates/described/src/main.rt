//! The demonstration of layouts: the packing of an evening, described as rules editors do.
#![tactic(auto)]

mod faults;
mod layouts;

use faults::Fault;

fn main(rt: HostRuntime) -> Result<(), Fault> {
    layouts::show(&rt)
}
