//! Scripts of the workbench for layouts: the commands that lines spell.
#![tactic(auto)]

mod commands;
mod layouts;
mod settings;

pub use commands::Command;
pub use layouts::{Build, Sealing};
pub use settings::{Kind, NameOf, Setting, Surrounded};
