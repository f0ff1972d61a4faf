//! The workbench with the calls of layouts: reads calls from standard input, one a line, and prints each answer.
#![tactic(auto)]

mod answers;
mod help;
mod kept;
mod naming;
mod serving;
mod settings;
mod stages;

use std::{env, io};

// With an argument it prints the help, whatever the argument is.
fn main(rt: HostRuntime) -> io::Result<()> {
    if env::args(&rt)?.count() > 1 {
        return println!(&rt; "{}", help::HELP);
    }
    stages::run(&rt)
}
