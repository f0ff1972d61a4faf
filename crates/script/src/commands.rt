// The commands that lines spell.
use crate::layouts::Build;
use crate::settings::Setting;
use crate::{layouts, settings};
use host_bench::Request;
use lines::{FromLine, Line, Misread};

/// A command, by what it is for.
#[derive(Drop)]
pub enum Command {
    Host(Request),
    Set(Setting),
    Start,
    Build(Build),
}

impl FromLine for Command {
    fn from_line(first: &[u8], line: &mut Line<'_>) -> Result<Command, Misread> {
        Ok(match first {
            b"name" => Command::Set(settings::read_name(line)?),
            b"around" => Command::Set(settings::read_around(line)?),
            b"entries" => Command::Set(settings::read_entries(line)?),
            b"start" => Command::Start,
            b"text" => Command::Build(layouts::read_text(line)?),
            b"group" => Command::Build(layouts::read_group(line)?),
            b"concatenation" => Command::Build(Build::Concatenation),
            b"component" => Command::Build(layouts::read_component(line)?),
            b"seal" => Command::Build(layouts::read_seal(line)?),
            _ => Command::Host(Request::from_line(first, line)?),
        })
    }
}
