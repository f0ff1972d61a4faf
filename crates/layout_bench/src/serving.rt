// Lines from standard input, and what they ask of hosts and settings.
use crate::answers::Answer;
use crate::settings::Settings;
use host_bench::Bench;
use lines::Misread;
use script::{Build, Command};
use std::alloc::Global;
use std::io;
use std::io::{BufRead, BufReader, Stdin};

/// What lasts whatever layout stands: the input, and what answers lines that ask of none.
#[derive(Drop)]
pub struct Desk {
    input: BufReader<Stdin>,
    pub table: Table,
}

/// The bench of hosts, and the settings.
#[derive(Drop)]
pub struct Table {
    heap: Global,
    bench: Bench,
    pub settings: Settings,
}

/// What a line asks of a layout.
#[derive(Drop)]
pub enum Asked {
    Start,
    Build(Build),
}

/// Prints an answer.
pub fn say(rt: &HostRuntime, answer: Answer<'_>) -> io::Result<()> {
    println!(rt; "{answer}")
}

/// Prints that a line asks for what is not there.
pub fn say_out_of_turn(rt: &HostRuntime) -> io::Result<()> {
    say(rt, Answer::Bench(host_bench::Answer::OutOfTurn))
}

impl Desk {
    pub fn new(rt: &HostRuntime) -> io::Result<Desk> {
        let heap = rt.alloc();
        Ok(Desk {
            input: BufReader::new(heap, rt.stdin())?,
            table: Table::new(heap),
        })
    }

    // Reads a line without its line feed; says whether there was one.
    fn read(&mut self, line: &mut Vec<u8>) -> io::Result<bool> {
        line.clear();
        if self.input.read_until(b'\n', line)? == 0 {
            return Ok(false);
        }
        if line.last() == Some(&b'\n') {
            let _ = line.pop();
        }
        Ok(true)
    }

    /// Serves lines up to the first that asks something of a layout, if there is one. They are read into the same memory: with memory
    /// for each, a line that nothing is printed for took twice the time.
    pub fn next(&mut self, rt: &HostRuntime) -> io::Result<Option<Asked>> {
        let mut line = Vec::new(rt.alloc());
        // The language wants a count where a loop ends with its input: each turn reads a line.
        for _ in 0..u64::MAX {
            if !self.read(&mut line)? {
                break;
            }
            let asked = self.table.serve(rt, &line)?;
            if asked.is_some() {
                return Ok(asked);
            }
        }
        Ok(None)
    }
}

impl Table {
    pub fn new(heap: Global) -> Table {
        Table {
            heap,
            bench: Bench::new(heap),
            settings: Settings::new(),
        }
    }

    // Serves a command that needs no layout, and leaves what asks for one.
    fn carry_out(&mut self, rt: &HostRuntime, command: Command) -> io::Result<Option<Asked>> {
        match command {
            Command::Host(request) => say(rt, Answer::Bench(self.bench.serve(request)?))?,
            Command::Set(setting) => {
                self.settings.set(setting);
                say(rt, Answer::Bench(host_bench::Answer::Done))?;
            }
            Command::Start => return Ok(Some(Asked::Start)),
            Command::Build(build) => return Ok(Some(Asked::Build(build))),
        }
        Ok(None)
    }

    // Four cases told apart, since a `?` would hide a line that cannot be read.
    /// Serves a line, and leaves what it asks of a layout.
    pub fn serve(&mut self, rt: &HostRuntime, line: &[u8]) -> io::Result<Option<Asked>> {
        match lines::parse(self.heap, line) {
            Ok(Some(command)) => self.carry_out(rt, command),
            Ok(None) => Ok(None),
            Err(Misread::Unreadable) => {
                say(rt, Answer::Bench(host_bench::Answer::Unreadable))?;
                Ok(None)
            }
            Err(Misread::Memory(error)) => Err(io::Error::from(error)),
        }
    }
}
