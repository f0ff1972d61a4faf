// The answers, as they are printed.
use crate::requests::Stored;
use host::Refusal;
use std::fmt;

/// What a host says to a call that it accepts.
#[derive(Clone, Copy)]
pub enum Reply {
    Done,
    Width(usize),
    Number(u32),
    Read(u64),
}

/// What a line is answered.
#[derive(Clone, Copy)]
pub enum Answer<'a> {
    Done,
    Called(Result<Reply, Refusal>),
    Storage(&'a Stored),
    OutOfTurn,
    Unreadable,
}

impl fmt::Display for Reply {
    fn fmt<W: fmt::Write>(&self, f: &mut fmt::Formatter<W>) -> fmt::Result {
        match self {
            Reply::Done => f.write_str("ok"),
            Reply::Width(width) => write!(f, "width {width}"),
            Reply::Number(number) => write!(f, "number {number}"),
            Reply::Read(value) => write!(f, "read {value:#x}"),
        }
    }
}

impl fmt::Display for Answer<'_> {
    fn fmt<W: fmt::Write>(&self, f: &mut fmt::Formatter<W>) -> fmt::Result {
        match self {
            Answer::Done => f.write_str("ok"),
            Answer::Called(Ok(reply)) => write!(f, "{reply}"),
            Answer::Called(Err(refusal)) => {
                let number = refusal.number();
                let place = refusal.place;
                write!(f, "refused {number} {place}")
            }
            Answer::Storage(stored) => write!(f, "storage {stored}"),
            Answer::OutOfTurn => f.write_str("out of turn"),
            Answer::Unreadable => f.write_str("unreadable"),
        }
    }
}

impl fmt::Display for Stored {
    fn fmt<W: fmt::Write>(&self, f: &mut fmt::Formatter<W>) -> fmt::Result {
        match self {
            Stored::Words(words) => show_words(words, f),
            Stored::Bytes(bytes) => show_bytes(bytes, f),
        }
    }
}

fn show_words<W: fmt::Write>(words: &[u64], f: &mut fmt::Formatter<W>) -> fmt::Result {
    let [first, rest @ ..] = words else {
        return f.write_str("-");
    };
    write!(f, "{first:#x}")?;
    for word in rest {
        write!(f, ",{word:#x}")?;
    }
    Ok(())
}

fn show_bytes<W: fmt::Write>(bytes: &[u8], f: &mut fmt::Formatter<W>) -> fmt::Result {
    if bytes.is_empty() {
        return f.write_str("-");
    }
    for byte in bytes {
        write!(f, "{byte:02x}")?;
    }
    Ok(())
}
