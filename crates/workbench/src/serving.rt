// Lines from standard input, and their answers.
use host_bench::{Answer, Bench};
use lines::Misread;
use std::alloc::{AllocError, Global};
use std::io;
use std::io::{BufRead, BufReader};

// What a line is answered, if it is a command. The four cases are told apart, since a `?` would hide a line that cannot be read.
fn serve<'a>(
    heap: Global,
    bench: &'a mut Bench,
    line: &[u8],
) -> Result<Option<Answer<'a>>, AllocError> {
    match lines::parse(heap, line) {
        Ok(Some(request)) => Ok(Some(bench.serve(request)?)),
        Ok(None) => Ok(None),
        Err(Misread::Unreadable) => Ok(Some(Answer::Unreadable)),
        Err(Misread::Memory(error)) => Err(error),
    }
}

pub fn run(rt: &HostRuntime) -> io::Result<()> {
    let heap = rt.alloc();
    let mut bench = Bench::new(heap);
    for line in BufReader::new(heap, rt.stdin())?.split(heap, b'\n') {
        if let Some(answer) = serve(heap, &mut bench, &line?)? {
            println!(rt; "{answer}")?;
        }
    }
    Ok(())
}
