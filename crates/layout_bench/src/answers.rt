// The answers, as they are printed.
use std::fmt;
use texts::Refusal;

/// What a line is answered: by the bench of hosts, or by a layout.
#[derive(Clone, Copy)]
pub enum Answer<'a> {
    Bench(host_bench::Answer<'a>),
    Layout(Result<(), Refusal>),
}

impl fmt::Display for Answer<'_> {
    fn fmt<W: fmt::Write>(&self, f: &mut fmt::Formatter<W>) -> fmt::Result {
        match self {
            Answer::Bench(answer) => write!(f, "{answer}"),
            Answer::Layout(Ok(())) => f.write_str("ok"),
            Answer::Layout(Err(refusal)) => {
                let number = refusal.number();
                let place = refusal.place();
                write!(f, "refused {number} {place}")
            }
        }
    }
}
