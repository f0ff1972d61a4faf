//! Times reads and writes of a variable of 65,536 bits, in parts of 64 bits at odd offsets, for tools/bench.
#![tactic(auto)]

use host::{Host, Laid, PackedBytes, Window, Words};
use std::alloc::AllocError;
use std::env;
use std::time::Instant;

const PARTS: usize = 1023;

const ROUNDS: u32 = 2000;

// Reads the variable part by part, again and again, and mixes what it reads.
fn read_all<H: Host>(host: &H, name: usize) -> u64 {
    let mut mixed = 0u64;
    for _ in 0..ROUNDS {
        for i in 0..PARTS {
            if let Ok(part) = host.read(name, 64 * i + 1, 64) {
                mixed = mixed.rotate_left(1) ^ part;
            }
        }
    }
    mixed
}

// Writes the variable part by part, again and again.
fn write_all<H: Host>(host: &mut H, name: usize) {
    let mut value = 0x9e37_79b9_7f4a_7c15u64;
    for _ in 0..ROUNDS {
        for i in 0..PARTS {
            let _ = host.write(name, 64 * i + 1, 64, value);
            value = value.rotate_left(5) ^ 0x517c_c1b7_2722_0a95;
        }
    }
}

// Times both over one host, and prints the nanoseconds and what was read last.
fn time<H: Host>(rt: &HostRuntime, what: &str, host: &mut H, name: usize) -> anyhow::Result<()> {
    let start = Instant::now(rt)?;
    write_all(host, name);
    let written = start.elapsed(rt)?.as_nanos();
    let start = Instant::now(rt)?;
    let mixed = read_all(host, name);
    let read = start.elapsed(rt)?.as_nanos();
    println!(rt; "{what} write {written} read {read} mixed {mixed:016x}")?;
    Ok(())
}

fn over_words(rt: &HostRuntime) -> anyhow::Result<()> {
    let mut words = vec![in rt.alloc(); 0u64; 1026]?;
    let mut host = Laid::new(rt.alloc(), Words::new(&mut words), &[2, 65_536], &[])?;
    time(rt, "words", &mut host, 1)?;
    let mut one = Window::new(host, 1, &[65_536]);
    time(rt, "words+1", &mut one, 0)?;
    let mut two = Window::new(one, 0, &[65_536]);
    time(rt, "words+2", &mut two, 0)
}

fn over_bytes(rt: &HostRuntime) -> anyhow::Result<()> {
    let mut bytes = vec![in rt.alloc(); 0u8; 8208]?;
    let mut host = Laid::new(rt.alloc(), PackedBytes::new(&mut bytes), &[2, 65_536], &[])?;
    time(rt, "bytes", &mut host, 1)?;
    let mut one = Window::new(host, 1, &[65_536]);
    time(rt, "bytes+1", &mut one, 0)?;
    let mut two = Window::new(one, 0, &[65_536]);
    time(rt, "bytes+2", &mut two, 0)
}

fn run(rt: &HostRuntime) -> anyhow::Result<()> {
    if env::args(rt)?.count() < 2 {
        println!(rt;
            "usage: pace run    times hosts and windows; tools/bench sets them beside plain Rust"
        )?;
        return Ok(());
    }
    over_words(rt)?;
    over_bytes(rt)
}

fn main(rt: HostRuntime) -> anyhow::Result<()> {
    run(&rt)
}
