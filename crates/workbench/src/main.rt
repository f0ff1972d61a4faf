//! The workbench: reads calls from standard input, one a line, and prints each answer.
#![tactic(auto)]

mod help;
mod serving;

use std::{env, io};

// With an argument it prints the help, whatever the argument is.
fn main(rt: HostRuntime) -> io::Result<()> {
    if env::args(&rt)?.count() > 1 {
        return println!(&rt; "{}", help::HELP);
    }
    serving::run(&rt)
}
